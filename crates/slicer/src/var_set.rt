//! Sets of variables.
ghost use Rattle.std.specs.Prelude.{◌≡◌, ◌<◌, ◌≤◌, ◌↔◌, ◌⊎◌, ℕ, IsTrue};
ghost use Rattle.slicer.specs.declared.var_set.VarSet.{VarSet as Set};
ghost use Rattle.std.specs.Int.{bit_at};

/// A set of variables below 64, one bit each.
#[derive(Clone, Copy, PartialEq, Eq)]
pub struct VarSet {
    bits: u64,
}

impl VarSet {
    ghost use Rattle.slicer.specs.VarSets.{Has, Meet, IsVoid};

    /// The set without variables.
    pub fn empty() -> VarSet
        ensures { IsVoid result }
    {
        VarSet { bits: 0 }
    }

    /// The set of this variable alone.
    pub fn of(var: u32) -> VarSet
        requires { var < 64 }
        ensures { (v : ℕ) → Has result v ↔ (v ≡ var) }
    {
        VarSet { bits: 1 << var }
    }

    /// Whether the variable is in the set.
    pub fn has(self, var: u32) -> bool
        requires { var < 64 }
        ensures { IsTrue result ↔ Has self var }
    {
        self.bits & (1 << var) != 0
    }

    /// The variables that are in either set.
    pub fn union(self, other: VarSet) -> VarSet
        ensures either { (v : ℕ) → Has result v ↔ (Has self v ⊎ Has other v) }
        ensures larger { self.bits ≤ result.bits }
    {
        VarSet {
            bits: self.bits | other.bits,
        }
    }

    /// Whether some variable is in both sets.
    pub fn meets(self, other: VarSet) -> bool
        ensures { IsTrue result ↔ Meet self other }
    {
        self.bits & other.bits != 0
    }

    /// Whether no variable is in the set.
    pub fn is_empty(self) -> bool
        ensures { IsTrue result ↔ IsVoid self }
    {
        self.bits == 0
    }
}
