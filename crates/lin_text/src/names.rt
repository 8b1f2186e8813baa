//! Names and their numbers.
ghost use Rattle.std.specs.Prelude.{◌≡◌, ◌++◌, ◌∷◌, [], None, OnErr, OnOk, IfSome, ◌<◌, length, ℕ, List, Option};
ghost use Rattle.lin_text.specs.Grammar.{number_among};

use indexmap::IndexSet;
use lin_model::MAX_VARS;
use outside::NoMemory;
use std::alloc::Global;
use std::marker::Model;

/// Whoever knows the numbers of names.
pub trait Numbering {
    ghost number: { Self → List ℕ → Option ℕ };

    /// The number of the name, if it has one.
    fn find(&self, name: &[u8]) -> Option<u32>
        ensures { result ≡ number self.now name.now };
}

/// The names that are declared so far, in order of declaration. The number of a name is its place among them, from 0.
#[derive(Drop)]
pub struct Names {
    set: IndexSet<Vec<u8>>,
}

impl Model for Names {
    ghost use Rattle.std.specs.Prelude.{List, ℕ, map, length, ◌≤◌};
    ghost use Rattle.lin_model.specs.declared.condition.TheConstants.{MAX_VARS};

    ghost Value = { List (List ℕ) };

    ghost view = { λ names. map (λ name. name.items) names.set.keys };

    ghost invariant = { λ names. length names.set.keys ≤ MAX_VARS };
}

impl Names {
    pub fn new(alloc: Global) -> Names
        ensures { result ≡ [] }
    {
        Names {
            set: IndexSet::new(alloc),
        }
    }

    /// The place of the name, from 0. `None` where it isn't declared.
    fn place(&self, name: &[u8]) -> Option<usize>
        ensures place { result ≡ number_among self.now name.now }
        ensures within { IfSome result (λ k. k < MAX_VARS) }
    {
        self.set.get_index_of(name)
    }

    /// Adds a name that isn't declared so far. Where memory runs out, nothing is added.
    pub fn add(&mut self, alloc: Global, name: &[u8]) -> Result<(), NoMemory>
        requires free { number_among self.old name.now ≡ None }
        requires few { length self.old < MAX_VARS }
        ensures added { OnOk result (self.new ≡ self.old ++ name.now ∷ []) }
        ensures kept { OnErr result (self.new ≡ self.old) }
    {
        self.set.insert(Vec::from_slice(alloc, name)?)?;
        Ok(())
    }
}

impl Numbering for Names {
    ghost number = { number_among };

    fn find(&self, name: &[u8]) -> Option<u32> {
        match self.place(name) {
            Some(place) => Some(place as u32),
            None => None,
        }
    }
}
