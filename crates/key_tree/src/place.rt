//! Places.
ghost use Rattle.std.specs.Prelude.{◌≡◌, None, [], ◌∷◌, ◌++◌, ◌<◌, ◌≤◌, length, take, drop, OnOk, OnErr};
ghost use Rattle.std.specs.Vec.{vec_capacity};
ghost use Rattle.key_tree.specs.Places.{PlainPlace, with_kid, with_number, IsWidened, AreApart, AreKidsWidened};

use crate::kid::Kid;
use outside::NoMemory;
use std::alloc::Global;
use std::marker::Model;

/// Where branches begin. Each stands for one list of atoms, the way to it.
#[derive(Debug, Drop)]
pub struct Place {
    kids: Vec<Kid>,
    masks: Vec<u64>,
    number: Option<u32>,
    below: u64,
}

impl Model for Place {
    ghost use Rattle.key_tree.specs.Places.{PlainPlace};

    ghost Value = { PlainPlace };

    ghost view = { λ place. record {
      kids = place.kids.items;
      masks = place.masks.items;
      number = place.number;
      below = place.below;
    } };
}

impl Place {
    /// A place with no branch, where nothing is held.
    pub(crate) fn new(alloc: Global) -> Place
        ensures { result ≡ record { kids = []; masks = []; number = None; below = 0 } }
    {
        Place {
            kids: Vec::new(alloc),
            masks: Vec::new(alloc),
            number: None,
            below: 0,
        }
    }

    /// The branches that begin here, in the order of their atoms.
    pub(crate) fn kids(&self) -> &[Kid]
        ensures { result.now ≡ self.now.kids }
    {
        &self.kids
    }

    /// Beside each branch a mask that has all that its atom and those behind its place may imply.
    pub(crate) fn masks(&self) -> &[u64]
        ensures { result.now ≡ self.now.masks }
    {
        &self.masks
    }

    /// The first number that was held here, if any.
    pub(crate) fn number(&self) -> Option<u32>
        ensures { result ≡ self.now.number }
    {
        self.number
    }

    /// A mask that has all that the atoms behind this place may imply.
    pub(crate) fn below(&self) -> u64
        ensures { result ≡ self.now.below }
    {
        self.below
    }

    /// Puts a branch at this position, to a place behind which there is nothing yet. The mask has what its atom gives.
    pub(crate) fn add(&mut self, at: usize, kid: Kid, mask: u64) -> Result<(), NoMemory>
        requires kids { at ≤ length self.old.kids }
        requires masks { length self.old.masks ≡ length self.old.kids }
        ensures added { OnOk result (self.new ≡ with_kid at kid mask self.old) }
        ensures unchanged { OnErr result (self.new ≡ self.old) }
    {
        self.masks.reserve(1)?;
        self.kids.insert(at, kid)?;
        insert_reserved(&mut self.masks, at, mask);
        Ok(())
    }

    /// Adds bits to the mask, and what is behind a place to the mask of the kid that leads there, which mostly is the one
    /// at this position.
    pub(crate) fn widen(&mut self, at: usize, kid: u32, behind: u64, mask: u64)
        requires masks { length self.old.masks ≡ length self.old.kids }
        requires apart { AreApart self.old.kids }
        ensures { IsWidened kid behind mask self.old self.new }
    {
        widen_kid(&self.kids, &mut self.masks, at, kid, behind);
        self.below |= mask;
    }

    /// Holds a number here, unless one is held here already.
    pub(crate) fn hold(&mut self, number: u32)
        ensures { self.new ≡ with_number number self.old }
    {
        if self.number.is_none() {
            self.number = Some(number);
        }
    }
}

/// Adds bits to the mask beside the kid that leads to this place. Where it isn't the one at this position, all are looked at.
fn widen_kid(kids: &[Kid], masks: &mut [u64], at: usize, place: u32, behind: u64)
    requires masks { length masks.old ≡ length kids.now }
    requires apart { AreApart kids.now }
    ensures { AreKidsWidened kids.now place behind masks.old masks.new (length kids.now) }
{
    if at < kids.len() && kids[at].place == place {
        masks[at] |= behind;
        return;
    }
    widen_each(kids, masks, place, behind);
}

/// Adds bits to the mask beside each kid that leads to this place.
fn widen_each(kids: &[Kid], masks: &mut [u64], place: u32, behind: u64)
    requires { length masks.old ≡ length kids.now }
    ensures { AreKidsWidened kids.now place behind masks.old masks.new (length kids.now) }
{
    for (k, kid) in kids.iter().enumerate() {
        if kid.place == place {
            masks[k] |= behind;
        }
    }
}

/// Puts a mask at this position, for which there is room.
fn insert_reserved(masks: &mut Vec<u64>, at: usize, mask: u64)
    requires at { at ≤ length masks.old.items }
    requires room { length masks.old.items < vec_capacity masks.old }
    ensures { masks.new.items ≡ take at masks.old.items ++ mask ∷ drop at masks.old.items }
{
    let inserted = masks.insert(at, mask);
    prove!(inserted.is_ok());
}
