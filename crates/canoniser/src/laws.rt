//! Laws of keys, each the contract of a function that does nothing, or only calls such laws of crates below.
ghost use Rattle.canoniser.specs.OneKey.{EachHasCanonical, KeysAreUnique};
ghost use Rattle.canoniser.specs.Laws.{RepeatingKeepsKeys, RenumberingKeepsKeys, FactorsKeepKeys};

use atom_implies::table_is_right;
use lin_model::order_is_total;
use slicer::slices_are_a_partition;

/// Each slice of a condition has a key or a first atom that no integers satisfy, within the limits of the types that
/// hold them.
pub fn keys_exist()
    ensures { EachHasCanonical }
{
    order_is_total();
    table_is_right();
    slices_are_a_partition();
}

/// A slice has one key alone, or one first atom that no integers satisfy, and not both.
pub fn keys_are_unique()
    ensures { KeysAreUnique }
{
    order_is_total();
}

/// The key of a slice doesn't change when an atom of its condition is repeated after itself.
pub fn repeating_keeps_keys()
    ensures { RepeatingKeepsKeys }
{
    slices_are_a_partition();
}

/// The key of a slice doesn't change when the variables of its condition are numbered otherwise, one to one and
/// with their bounds.
pub fn renumbering_keeps_keys()
    ensures { RenumberingKeepsKeys }
{
    slices_are_a_partition();
}

/// The keys of a slice don't change when both sides of its atoms are multiplied by positive numbers.
pub fn factors_keep_keys()
    ensures { FactorsKeepKeys }
{}
