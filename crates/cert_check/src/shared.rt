//! Values with several owners.
ghost use Rattle.std.specs.Prelude.{◌≡◌, IfOk};

use outside::NoMemory;
use std::alloc::Global;
use std::marker::Model;
use std::sync::Arc;

/// A value on the heap with several owners. Contracts see it as the value.
#[derive(Drop)]
pub struct Shared<T> {
    owner: Arc<T>,
}

impl<T> Model for Shared<T> {
    ghost use Rattle.std.specs.Arc.{arc_value};

    ghost Value = { T };

    ghost view = { λ s. arc_value s.owner };
}

impl<T: Drop> Shared<T> {
    /// The value, with one owner.
    pub fn new(alloc: Global, value: T) -> Result<Shared<T>, NoMemory>
        ensures { IfOk result (λ shared. shared ≡ value) }
    {
        let owner = Arc::new(alloc, value)?;
        Ok(Shared { owner })
    }

    /// The value.
    pub fn get(&self) -> &T
        ensures { result.now ≡ self.now }
    {
        &self.owner
    }

    /// One owner more.
    pub fn share(&self) -> Result<Shared<T>, NoMemory>
        ensures { IfOk result (λ shared. shared ≡ self.now) }
    {
        let owner = Arc::try_clone(&self.owner)?;
        Ok(Shared { owner })
    }
}
