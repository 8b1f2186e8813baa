//! The fields of a body: numbers within their limits, and codes.
ghost use Rattle.std.specs.Prelude.{◌≡◌};
ghost use Rattle.entry_codec.specs.Gives.{Gives};
ghost use Rattle.entry_codec.specs.FieldReading.{atom_count_at, term_count_at, term_var_at, coefficient_at, constant_at};
ghost use Rattle.entry_codec.specs.FieldReading.{value_count_at, value_at, node_count_at, split_var_at, cut_at};
ghost use Rattle.entry_codec.specs.FieldReading.{reference_at, leaf_count_at, factor_at};
ghost use Rattle.entry_codec.specs.FieldReading.{op_at, body_kind_at, node_kind_at, on_kind_at};

use super::numbers::{bad, integer_at, long_at, short_at, small_at};
use crate::fault::ReadFault;
use crate::kind::{BodyKind, NodeKind, OnKind};
use crate::limits::{MAX_CUT, MAX_LEAF_TERMS, MAX_MULTIPLIER, MAX_NODES};
use lin_model::{MAX_KEY_ATOMS, MAX_KEY_VARS, MAX_VALUE, Op};

/// How many atoms a key has.
#[tactic(auto, unfolding(crate::specs::FieldReading::atom_count_at))]
pub(crate) fn atom_count_at(bytes: &[u8]) -> Result<(u16, &[u8]), ReadFault>
    ensures { Gives (λ x. (x.0, x.1.now)) result (atom_count_at bytes.now) }
{
    let (count, rest) = short_at(bytes)?;
    if usize::from(count) <= MAX_KEY_ATOMS {
        Ok((count, rest))
    } else {
        Err(bad(bytes))
    }
}

/// How many terms an atom has.
#[tactic(auto, unfolding(crate::specs::FieldReading::term_count_at))]
pub(crate) fn term_count_at(bytes: &[u8]) -> Result<(u8, &[u8]), ReadFault>
    ensures { Gives (λ x. (x.0, x.1.now)) result (term_count_at bytes.now) }
{
    let (count, rest) = small_at(bytes)?;
    if 1 <= count && count <= MAX_KEY_VARS {
        Ok((count, rest))
    } else {
        Err(bad(bytes))
    }
}

/// The variable of a term.
#[tactic(auto, unfolding(crate::specs::FieldReading::term_var_at))]
pub(crate) fn term_var_at(bytes: &[u8]) -> Result<(u8, &[u8]), ReadFault>
    ensures { Gives (λ x. (x.0, x.1.now)) result (term_var_at bytes.now) }
{
    small_at(bytes)
}

/// The coefficient of a term.
#[tactic(auto, unfolding(crate::specs::FieldReading::coefficient_at))]
pub(crate) fn coefficient_at(bytes: &[u8]) -> Result<(i64, &[u8]), ReadFault>
    ensures { Gives (λ x. (x.0, x.1.now)) result (coefficient_at bytes.now) }
{
    integer_at(bytes)
}

/// The constant of an atom.
#[tactic(auto, unfolding(crate::specs::FieldReading::constant_at))]
pub(crate) fn constant_at(bytes: &[u8]) -> Result<(i64, &[u8]), ReadFault>
    ensures { Gives (λ x. (x.0, x.1.now)) result (constant_at bytes.now) }
{
    integer_at(bytes)
}

/// How many values a point of a key of this width has.
#[tactic(auto, unfolding(crate::specs::FieldReading::value_count_at))]
pub(crate) fn value_count_at(width: u8, bytes: &[u8]) -> Result<(u8, &[u8]), ReadFault>
    ensures { Gives (λ x. (x.0, x.1.now)) result (value_count_at width bytes.now) }
{
    let (count, rest) = small_at(bytes)?;
    if count == width {
        Ok((count, rest))
    } else {
        Err(bad(bytes))
    }
}

/// A value of a point.
#[tactic(auto, unfolding(crate::specs::FieldReading::value_at))]
pub(crate) fn value_at(bytes: &[u8]) -> Result<(i64, &[u8]), ReadFault>
    ensures { Gives (λ x. (x.0, x.1.now)) result (value_at bytes.now) }
{
    let (value, rest) = integer_at(bytes)?;
    if value.unsigned_abs() <= MAX_VALUE {
        Ok((value, rest))
    } else {
        Err(bad(bytes))
    }
}

/// How many nodes a tree has.
#[tactic(auto, unfolding(crate::specs::FieldReading::node_count_at))]
pub(crate) fn node_count_at(bytes: &[u8]) -> Result<(u32, &[u8]), ReadFault>
    ensures { Gives (λ x. (x.0, x.1.now)) result (node_count_at bytes.now) }
{
    let (count, rest) = long_at(bytes)?;
    if count <= MAX_NODES {
        Ok((count, rest))
    } else {
        Err(bad(bytes))
    }
}

/// The variable of a split.
#[tactic(auto, unfolding(crate::specs::FieldReading::split_var_at))]
pub(crate) fn split_var_at(bytes: &[u8]) -> Result<(u8, &[u8]), ReadFault>
    ensures { Gives (λ x. (x.0, x.1.now)) result (split_var_at bytes.now) }
{
    let (var, rest) = small_at(bytes)?;
    if var < MAX_KEY_VARS {
        Ok((var, rest))
    } else {
        Err(bad(bytes))
    }
}

/// The cut of a split.
#[tactic(auto, unfolding(crate::specs::FieldReading::cut_at))]
pub(crate) fn cut_at(bytes: &[u8]) -> Result<(i64, &[u8]), ReadFault>
    ensures { Gives (λ x. (x.0, x.1.now)) result (cut_at bytes.now) }
{
    let (cut, rest) = integer_at(bytes)?;
    if cut.unsigned_abs() <= MAX_CUT {
        Ok((cut, rest))
    } else {
        Err(bad(bytes))
    }
}

/// The number of an atom or a side.
#[tactic(auto, unfolding(crate::specs::FieldReading::reference_at))]
pub(crate) fn reference_at(bytes: &[u8]) -> Result<(u16, &[u8]), ReadFault>
    ensures { Gives (λ x. (x.0, x.1.now)) result (reference_at bytes.now) }
{
    short_at(bytes)
}

/// How many terms a combination has.
#[tactic(auto, unfolding(crate::specs::FieldReading::leaf_count_at))]
pub(crate) fn leaf_count_at(bytes: &[u8]) -> Result<(u8, &[u8]), ReadFault>
    ensures { Gives (λ x. (x.0, x.1.now)) result (leaf_count_at bytes.now) }
{
    let (count, rest) = small_at(bytes)?;
    if 1 <= count && count <= MAX_LEAF_TERMS {
        Ok((count, rest))
    } else {
        Err(bad(bytes))
    }
}

/// The factor of a combination's term.
#[tactic(auto, unfolding(crate::specs::FieldReading::factor_at))]
pub(crate) fn factor_at(bytes: &[u8]) -> Result<(i64, &[u8]), ReadFault>
    ensures { Gives (λ x. (x.0, x.1.now)) result (factor_at bytes.now) }
{
    let (factor, rest) = integer_at(bytes)?;
    if factor.unsigned_abs() <= MAX_MULTIPLIER {
        Ok((factor, rest))
    } else {
        Err(bad(bytes))
    }
}

/// The comparison of an atom.
#[tactic(auto, unfolding(crate::specs::FieldReading::op_at))]
pub(crate) fn op_at(bytes: &[u8]) -> Result<(Op, &[u8]), ReadFault>
    ensures { Gives (λ x. (x.0, x.1.now)) result (op_at bytes.now) }
{
    match bytes {
        [1, rest @ ..] => Ok((Op::Le, rest)),
        [2, rest @ ..] => Ok((Op::Ge, rest)),
        [3, rest @ ..] => Ok((Op::Eq, rest)),
        [4, rest @ ..] => Ok((Op::Ne, rest)),
        _ => Err(bad(bytes)),
    }
}

/// What an entry is.
#[tactic(auto, unfolding(crate::specs::FieldReading::body_kind_at))]
pub(crate) fn body_kind_at(bytes: &[u8]) -> Result<(BodyKind, &[u8]), ReadFault>
    ensures { Gives (λ x. (x.0, x.1.now)) result (body_kind_at bytes.now) }
{
    match bytes {
        [1, rest @ ..] => Ok((BodyKind::Sat, rest)),
        [2, rest @ ..] => Ok((BodyKind::Unsat, rest)),
        _ => Err(bad(bytes)),
    }
}

/// What a node is.
#[tactic(auto, unfolding(crate::specs::FieldReading::node_kind_at))]
pub(crate) fn node_kind_at(bytes: &[u8]) -> Result<(NodeKind, &[u8]), ReadFault>
    ensures { Gives (λ x. (x.0, x.1.now)) result (node_kind_at bytes.now) }
{
    match bytes {
        [1, rest @ ..] => Ok((NodeKind::Split, rest)),
        [2, rest @ ..] => Ok((NodeKind::NeSplit, rest)),
        [3, rest @ ..] => Ok((NodeKind::Combo, rest)),
        [4, rest @ ..] => Ok((NodeKind::Fixed, rest)),
        [5, rest @ ..] => Ok((NodeKind::Empty, rest)),
        _ => Err(bad(bytes)),
    }
}

/// What a term of a combination is on.
#[tactic(auto, unfolding(crate::specs::FieldReading::on_kind_at))]
pub(crate) fn on_kind_at(bytes: &[u8]) -> Result<(OnKind, &[u8]), ReadFault>
    ensures { Gives (λ x. (x.0, x.1.now)) result (on_kind_at bytes.now) }
{
    match bytes {
        [0, rest @ ..] => Ok((OnKind::Atom, rest)),
        [1, rest @ ..] => Ok((OnKind::Side, rest)),
        _ => Err(bad(bytes)),
    }
}
