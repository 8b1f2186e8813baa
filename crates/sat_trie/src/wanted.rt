//! What of an asked key is still to be covered.
ghost use Rattle.std.specs.Prelude.{◌≡◌, ◌↔◌, ℕ, ◌+◌, ◌≤◌, false, All, List, [], ◌∷◌, length, IsTrue};
ghost use Rattle.lin_model.specs.KeyAtom.{PlainKeyAtom};
ghost use Rattle.atom_implies.specs.Implies.{Covers};
ghost use Rattle.key_tree.specs.Prints.{hash_of, needs_of, IsWithin};
ghost use Rattle.sat_trie.specs.Wanted.{atoms_left, IsLeft};

use crate::left::Left;
use crate::rest::left_without;
use atom_implies::Steps;
use key_tree::Asked;
use lin_model::KeyAtom;
use std::marker::Model;
use std::sync::ledger::Ledger;

/// The atoms of an asked key that are still to be covered.
#[derive(Drop)]
pub(crate) struct Wanted<'a> {
    asked: &'a Asked<'a>,
    left: Left,
}

impl<'a> Model for Wanted<'a> {
    ghost use Rattle.std.specs.Prelude.{List, length};
    ghost use Rattle.lin_model.specs.KeyAtom.{PlainKeyAtom};
    ghost use Rattle.sat_trie.specs.Wanted.{atoms_left, IsLeft};

    ghost Value = { List PlainKeyAtom };

    ghost view = { λ wanted. atoms_left wanted.asked.now wanted.left (length wanted.asked.now) };

    ghost invariant = { λ wanted. IsLeft wanted.asked.now wanted.left (length wanted.asked.now) };
}

impl<'a> Wanted<'a> {
    /// All that is asked.
    pub(crate) fn all(asked: &'a Asked<'a>) -> Wanted<'a>
        ensures { result ≡ asked.now }
    {
        Wanted {
            asked,
            left: all_places(asked),
        }
    }

    /// Whether nothing is left to be covered.
    pub(crate) fn is_empty(&self) -> bool
        ensures { IsTrue result ↔ (self.now ≡ []) }
    {
        self.left.count() == 0
    }

    /// A mask that is within the mask of each place behind which all of it can be covered.
    pub(crate) fn needs(&self) -> u64
        ensures { (mask : ℕ) → All (λ a. IsWithin (needs_of a) mask) self.now → IsWithin result mask }
    {
        self.left.needs()
    }

    /// Whether there may be an atom of a form with this hash.
    pub(crate) fn has_form(&self, hash: u32) -> bool
        ensures { result ≡ false → All (λ a. ¬ (hash_of a.form ≡ hash)) self.now }
    {
        self.asked.has_form(hash)
    }

    /// What is left where this atom, whose form has this hash, is there to cover it.
    pub(crate) fn without<L: Ledger>(
        &self,
        atom: &KeyAtom,
        hash: u32,
        steps: &mut Steps<L>,
    ) -> Wanted<'a>
        requires { hash ≡ hash_of atom.now.form }
        ensures rest { (rest : List PlainKeyAtom) → Covers rest result ↔ Covers (atom.now ∷ rest) self.now }
        ensures fewer { length result ≤ length self.now }
        ensures cost { steps.new ≤ steps.old + length self.now }
    {
        let run = self.asked.run(hash);
        Wanted {
            asked: self.asked,
            left: left_without(self.asked, &self.left, run, atom, hash, steps),
        }
    }
}

/// All places of what is asked.
fn all_places(asked: &Asked) -> Left
    ensures left { IsLeft asked.now result (length asked.now) }
    ensures all { atoms_left asked.now result (length asked.now) ≡ asked.now }
{
    Left::all(asked.count(), asked.all_needs())
}
