//! The keys of a query's slices.
ghost use Rattle.std.specs.Prelude.{◌≡◌, [], ◌∷◌, ◌++◌, IfOk, OnOk, MatchOption, All};
ghost use Rattle.std.specs.List.{AllZip};
ghost use Rattle.slicer.specs.Slices.{AreSlices};
ghost use Rattle.canoniser.specs.Answers.{Canonises};
ghost use Rattle.pipeline.specs.Keyed.{IsKeyedQuery, HasKey, KeepsKeyLimits, IsLeastFalseAmong};
ghost use Rattle.pipeline.specs.Keyed.{keys_in, least_with};

use canoniser::{Back, Canonical, canonise};
use lin_model::{Condition, Key};
use outside::NoMemory;
use slicer::{Slice, slices, slices_are_a_partition};
use std::alloc::Global;

/// A slice with variables, as it is asked.
#[derive(Debug, Drop)]
pub struct SliceKey {
    pub key: Key,
    pub back: Back,
}

/// What the slices of a query come to.
#[derive(Debug, Drop)]
pub enum Keyed {
    /// The least atom of the query that no integers satisfy.
    False(u32),
    /// The keys of the slices with variables, in their order.
    Keys(Vec<SliceKey>),
}

/// The keys of the query's slices, or the least atom that no integers satisfy.
pub fn keys_of(alloc: Global, query: &Condition) -> Result<Keyed, NoMemory>
    ensures { IfOk result (IsKeyedQuery query.now) }
{
    query.keeps_limits();
    slices_are_a_partition();
    let slices = slices(alloc, query)?;
    let canonicals = canonise_all(alloc, query, &slices)?;
    if let Some(j) = least_false(&canonicals) {
        return Ok(Keyed::False(j));
    }
    Ok(Keyed::Keys(with_variables(alloc, canonicals)?))
}

/// What each of the slices comes to.
fn canonise_all(
    alloc: Global,
    query: &Condition,
    slices: &[Slice],
) -> Result<Vec<Canonical>, NoMemory>
    requires { AreSlices query.now slices.now }
    ensures { IfOk result (λ canonicals. AllZip (Canonises query.now) slices.now canonicals.items) }
{
    let mut canonicals = Vec::new(alloc);
    for slice in slices {
        canonicals.push(canonise(alloc, query, slice)?)?;
    }
    Ok(canonicals)
}

/// The least of the atoms that no integers satisfy.
fn least_false(canonicals: &[Canonical]) -> Option<u32>
    ensures { MatchOption result (All HasKey canonicals.now) (IsLeastFalseAmong canonicals.now) }
{
    let mut least = None;
    for canonical in canonicals {
        least = least_with(least, canonical);
    }
    least
}

/// The lesser of a number, which may be missing, and that of one more atom, if it is one.
fn least_with(least: Option<u32>, canonical: &Canonical) -> Option<u32>
    ensures { result ≡ least_with least canonical.now }
{
    match canonical {
        Canonical::False(j) => match least {
            Some(i) if i < *j => Some(i),
            _ => Some(*j),
        },
        Canonical::Key { .. } => least,
    }
}

/// The keys of the slices with variables.
fn with_variables(alloc: Global, canonicals: Vec<Canonical>) -> Result<Vec<SliceKey>, NoMemory>
    ensures keys { IfOk result (λ keys. keys.items ≡ keys_in canonicals.items) }
    ensures limits { IfOk result (λ keys. All KeepsKeyLimits keys.items) }
{
    let mut keys = Vec::new(alloc);
    for canonical in canonicals {
        push_key(&mut keys, canonical)?;
    }
    Ok(keys)
}

/// Adds the key of a slice with variables.
fn push_key(keys: &mut Vec<SliceKey>, canonical: Canonical) -> Result<(), NoMemory>
    ensures keys { OnOk result (keys.new.items ≡ keys.old.items ++ keys_in (canonical ∷ [])) }
    ensures limits { OnOk result (All KeepsKeyLimits (keys_in (canonical ∷ []))) }
{
    if let Canonical::Key { key, back } = canonical {
        key.keeps_limits();
        if back.width() > 0 {
            keys.push(SliceKey { key, back })?;
        }
    }
    Ok(())
}
