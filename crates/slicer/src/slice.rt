//! Slices: the variables and atoms of a condition that belong together.
ghost use Rattle.std.specs.Prelude.{◌≡◌};
ghost use Rattle.slicer.specs.Slices.{PlainSlice};

use std::marker::Model;

/// The numbers of the variables and of the atoms of a condition that belong together, from 0.
#[derive(Debug, Drop)]
pub struct Slice {
    vars: Vec<u32>,
    atoms: Vec<u32>,
}

impl Model for Slice {
    ghost use Rattle.slicer.specs.Slices.{PlainSlice};

    ghost Value = { PlainSlice };

    ghost view = { λ slice. record { vars = slice.vars.items; atoms = slice.atoms.items } };
}

impl Slice {
    /// The slice of these variables and atoms.
    pub fn new(vars: Vec<u32>, atoms: Vec<u32>) -> Slice
        ensures { result ≡ record { vars = vars.items; atoms = atoms.items } }
    {
        Slice { vars, atoms }
    }

    /// The numbers of the variables.
    pub fn vars(&self) -> &[u32]
        ensures { result.now ≡ self.now.vars }
    {
        &self.vars
    }

    /// The numbers of the atoms.
    pub fn atoms(&self) -> &[u32]
        ensures { result.now ≡ self.now.atoms }
    {
        &self.atoms
    }

    /// The lists of variables and of atoms.
    pub fn into_parts(self) -> (Vec<u32>, Vec<u32>)
        ensures vars { result.0.items ≡ self.vars }
        ensures atoms { result.1.items ≡ self.atoms }
    {
        (self.vars, self.atoms)
    }
}
