//! Spreading from a variable through the atoms.
ghost use Rattle.std.specs.Prelude.{◌≡◌, ◌↔◌, ◌⊎◌, ◌≤◌, ℕ, All};
ghost use Rattle.slicer.specs.VarSets.{Has, Meet, Includes, IsReached};

use crate::var_set::VarSet;

/// All variables to which a chain through the sets joins one of the first.
pub fn spread(sets: &[VarSet], first: VarSet) -> VarSet
    ensures { (v : ℕ) → Has result v ↔ IsReached sets.now first v }
{
    let mut reached = first;
    loop {
        let next = absorb(sets, reached);
        if next == reached {
            return reached;
        }
        reached = next;
    }
}

/// The variables so far, with those of each set that meets them.
fn absorb(sets: &[VarSet], reached: VarSet) -> VarSet
    ensures all { All (λ set. Meet set reached → Includes set result) sets.now }
    ensures only { (v : ℕ) → Has result v → IsReached sets.now reached v }
    ensures keeps { Includes reached result }
    ensures larger { reached.bits ≤ result.bits }
{
    let mut next = reached;
    for set in sets {
        next = take_in(next, *set);
    }
    next
}

/// The variables so far, with those of the set where it meets them.
fn take_in(reached: VarSet, set: VarSet) -> VarSet
    ensures all { Meet set reached → Includes set result }
    ensures only { (v : ℕ) → Has result v → Has reached v ⊎ (Meet set reached × Has set v) }
    ensures keeps { Includes reached result }
    ensures larger { reached.bits ≤ result.bits }
{
    if set.meets(reached) {
        reached.union(set)
    } else {
        reached
    }
}
