//! Trees of keys.
ghost use Rattle.std.specs.Prelude.{
  ◌≡◌,
  ◌+◌,
  ◌^◌,
  ◌<◌,
  [],
  ◌∷◌,
  ◌++◌,
  length,
  All,
  OnOk,
  OnErr,
  IfOk,
  IfErr,
  IfSome,
};
ghost use Rattle.key_tree.specs.Tree.{IsTree, AreMasksOf, pairs_of, place_at, branch_to, way_to, Holds};
ghost use Rattle.key_tree.specs.Growth.{IsFront, IsKidFor, IsPositionFor};
ghost use Rattle.key_tree.specs.Held.{HavePrefixes, IsLeastOf};

use crate::branch::Branch;
use crate::chain::chain_behind;
use crate::front::Front;
use crate::growth::{join_chain, number_place, widen_to};
use crate::held::Held;
use crate::kid::Kid;
use crate::place::Place;
use lin_model::{Key, KeyAtom, cmp_atoms, order_is_total};
use outside::NoMemory;
use std::alloc::Global;
use std::cmp::Ordering;
use std::marker::Model;

/// Keys, each under a number. Keys with equal fronts share places, so there are as many places besides the root as the
/// keys have prefixes.
#[derive(Debug, Drop)]
pub struct KeyTree {
    branches: Vec<Branch>,
    root: Place,
    others: Vec<Place>,
    held: Vec<Held>,
}

impl Model for KeyTree {
    ghost use Rattle.std.specs.Prelude.{◌∷◌};
    ghost use Rattle.key_tree.specs.Tree.{PlainTree, IsTree};

    ghost Value = { PlainTree };

    ghost view = { λ tree. record {
      branches = tree.branches.items;
      places = tree.root ∷ tree.others.items;
      held = tree.held.items;
    } };

    ghost invariant = { λ tree. IsTree (record {
      branches = tree.branches.items;
      places = tree.root ∷ tree.others.items;
      held = tree.held.items;
    }) };
}

impl KeyTree {
    /// A tree that holds no key.
    pub fn new(alloc: Global) -> KeyTree
        ensures { pairs_of result ≡ [] }
    {
        KeyTree {
            branches: Vec::new(alloc),
            root: Place::new(alloc),
            others: Vec::new(alloc),
            held: Vec::new(alloc),
        }
    }

    /// How many lists, other than the empty one, are prefixes of keys that are held.
    pub fn nodes(&self) -> u64
        ensures count { result + 1 ≡ length self.now.places }
        ensures prefixes { HavePrefixes (pairs_of self.now) result }
        ensures few { result < 2 ^ 32 }
    {
        self.others.len() as u64
    }

    /// The place at which walks begin.
    pub fn root(&self) -> u32
        ensures root { result ≡ 0 }
        ensures within { 0 < length self.now.places }
        ensures tree { IsTree self.now }
    {
        let _ = &self.root;
        0
    }

    /// The branches that begin at a place, in the order of their atoms. The root is 0.
    pub fn kids(&self, place: u32) -> &[Kid]
        requires { place < length self.now.places }
        ensures kids { result.now ≡ (place_at self.now place).kids }
        ensures tree { IsTree self.now }
    {
        self.place(place).kids()
    }

    /// Beside each of its branches a mask that has all that its atom may imply, and all of the mask of the place that it
    /// leads to.
    pub fn masks(&self, place: u32) -> &[u64]
        requires { place < length self.now.places }
        ensures masks { result.now ≡ (place_at self.now place).masks }
        ensures count { length result.now ≡ length (place_at self.now place).kids }
        ensures right { AreMasksOf self.now (place_at self.now place).kids result.now }
        ensures tree { IsTree self.now }
    {
        self.place(place).masks()
    }

    /// The first number that was held at a place, if any.
    pub fn number(&self, place: u32) -> Option<u32>
        requires { place < length self.now.places }
        ensures number { result ≡ (place_at self.now place).number }
        ensures tree { IsTree self.now }
    {
        self.place(place).number()
    }

    /// A mask that has all that the atoms behind a place may imply.
    pub fn below(&self, place: u32) -> u64
        requires { place < length self.now.places }
        ensures below { result ≡ (place_at self.now place).below }
        ensures tree { IsTree self.now }
    {
        self.place(place).below()
    }

    /// The atom of the branch to a place that isn't the root.
    pub fn atom(&self, place: u32) -> &KeyAtom
        requires some { 0 < place }
        requires within { place < length self.now.places }
        ensures atom { result.now ≡ (branch_to self.now place).atom }
        ensures tree { IsTree self.now }
    {
        &self.branch(place).atom
    }

    /// The least number under which the key itself is held, if it is.
    pub fn find(&self, key: &Key) -> Option<u32>
        ensures least { IsLeastOf (λ held. held ≡ key.now) (pairs_of self.now) result }
        ensures held { IfSome result (λ n. Holds self.now key.now n) }
        ensures tree { IsTree self.now }
    {
        let front = self.front(key.atoms());
        if front.len < key.atoms().len() {
            return None;
        }
        self.number(front.place)
    }

    /// Holds the key under this number. All that has to grow grows before anything else changes.
    pub fn insert(&mut self, key: &Key, number: u32) -> Result<(), NoMemory>
        requires { All (λ p. p.number < number) (pairs_of self.old) }
        ensures held { OnOk result (pairs_of self.new ≡ pairs_of self.old ++ record { key = key.now; number = number } ∷ []) }
        ensures unchanged { OnErr result (self.new ≡ self.old) }
    {
        let front = self.front(key.atoms());
        if front.len == key.atoms().len() {
            return self.hold(front.place, number);
        }
        self.grow(key, front, number)
    }

    /// The longest front of a list of atoms that is the way to a place.
    fn front(&self, atoms: &[KeyAtom]) -> Front
        ensures front { IsFront self.now atoms.now result }
        ensures tree { IsTree self.now }
    {
        // The proof knows what each tree keeps only where a field is read.
        let _ = &self.branches;
        let mut place = 0;
        for (len, atom) in atoms.iter().enumerate() {
            match self.search(place, atom) {
                Ok(at) => place = self.kids(place)[at].place,
                Err(at) => return Front { place, len, at },
            }
        }
        Front {
            place,
            len: atoms.len(),
            at: 0,
        }
    }

    /// The number of the kid of a place whose branch has the atom, or the position where such a kid belongs.
    fn search(&self, place: u32, atom: &KeyAtom) -> Result<usize, usize>
        requires { place < length self.now.places }
        ensures found { IfOk result (λ k. IsKidFor self.now place k atom.now) }
        ensures missing { IfErr result (λ k. IsPositionFor self.now place k atom.now) }
        ensures tree { IsTree self.now }
    {
        order_is_total();
        let kids = self.kids(place);
        let mut low = 0;
        let mut high = kids.len();
        while low < high {
            let mid = low + (high - low) / 2;
            match cmp_atoms(self.atom(kids[mid].place), atom) {
                Ordering::Less => low = mid + 1,
                Ordering::Equal => return Ok(mid),
                Ordering::Greater => high = mid,
            }
        }
        Err(low)
    }

    /// Holds the way to a place under this number.
    fn hold(&mut self, place: u32, number: u32) -> Result<(), NoMemory>
        requires within { place < length self.old.places }
        requires later { All (λ p. p.number < number) (pairs_of self.old) }
        ensures held { OnOk result (pairs_of self.new
            ≡ pairs_of self.old ++ record { key = way_to self.old place; number = number } ∷ []) }
        ensures unchanged { OnErr result (self.new ≡ self.old) }
    {
        self.held.push(Held { place, number })?;
        number_place(&mut self.root, &mut self.others, place, number);
        Ok(())
    }

    /// Holds a key of which only a front is the way to a place: a chain of new places leads to the rest. All that has to
    /// grow grows before anything else changes.
    fn grow(&mut self, key: &Key, front: Front, number: u32) -> Result<(), NoMemory>
        requires front { IsFront self.old key.now front }
        requires more { front.len < length key.now }
        requires later { All (λ p. p.number < number) (pairs_of self.old) }
        ensures held { OnOk result (pairs_of self.new ≡ pairs_of self.old ++ record { key = key.now; number = number } ∷ []) }
        ensures unchanged { OnErr result (self.new ≡ self.old) }
    {
        let rest = &key.atoms()[front.len..];
        let alloc = *self.held.allocator();
        let chain = chain_behind(alloc, front.place, self.others.len(), rest, number)?;
        let last = chain.held.place;
        join_chain(
            &mut self.branches,
            &mut self.root,
            &mut self.others,
            &mut self.held,
            front,
            chain,
        )?;
        widen_to(&self.branches, &mut self.root, &mut self.others, last);
        Ok(())
    }

    /// The place of this number.
    fn place(&self, place: u32) -> &Place
        requires { place < length self.now.places }
        ensures place { result.now ≡ place_at self.now place }
        ensures tree { IsTree self.now }
    {
        if place == 0 {
            return &self.root;
        }
        &self.others[place as usize - 1]
    }

    /// The branch to a place that isn't the root.
    fn branch(&self, place: u32) -> &Branch
        requires some { 0 < place }
        requires within { place < length self.now.places }
        ensures branch { result.now ≡ branch_to self.now place }
        ensures tree { IsTree self.now }
    {
        &self.branches[place as usize - 1]
    }
}
