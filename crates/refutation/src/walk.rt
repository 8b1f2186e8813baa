//! The walk over a tree: the undecided boxes, of which one is kept whole and the others as turns on the way to it.

ghost use Rattle.std.specs.Prelude.{◌≡◌, ◌^◌, ◌<◌, ◌≤◌, ◌↔◌, [], ◌∷◌, true, false, unsigned_abs, length, reverse, drop};
ghost use Rattle.std.specs.Prelude.{IsTrue, IfOk, OnOk};
ghost use Rattle.std.specs.List.{All};
ghost use Rattle.refutation.specs.Box.{left_half, right_half, on_side};
ghost use Rattle.refutation.specs.Leaf.{combo_closes, fixed_closes};
ghost use Rattle.refutation.specs.Bounds.{is_empty};
ghost use Rattle.refutation.specs.Walk.{IsTurn, OnFirst, waiting, undecided};

use crate::bounds::Bounds;
use crate::closing;
use crate::leaf::LeafTerm;
use crate::side::Side;
use crate::turn::{Turn, move_on, undo};
use lin_model::Key;
use outside::NoMemory;
use std::alloc::Global;
use std::marker::Model;

/// The list of undecided boxes, the first of them at hand.
#[derive(Drop)]
pub struct Walk {
    open: bool,
    bounds: Bounds,
    sides: Vec<Side>,
    path: Vec<Turn>,
}

impl Model for Walk {
    ghost use Rattle.std.specs.Prelude.{List};
    ghost use Rattle.std.specs.List.{All};
    ghost use Rattle.refutation.specs.Box.{PlainBox};
    ghost use Rattle.refutation.specs.Walk.{IsTurn, undecided};

    ghost Value = { List PlainBox };

    ghost view = { λ w. undecided w.open w.path.items (record { bounds = w.bounds; sides = w.sides.items }) };

    ghost invariant = { λ w. All IsTurn w.path.items };
}

impl Walk {
    /// The one box of these bounds.
    pub fn new(alloc: Global, bounds: Bounds) -> Walk
        ensures { result ≡ record { bounds = bounds; sides = [] } ∷ [] }
    {
        Walk {
            open: true,
            bounds,
            sides: Vec::new(alloc),
            path: Vec::new(alloc),
        }
    }

    /// Whether a box is undecided.
    pub fn is_open(&self) -> bool
        ensures { IsTrue result ↔ (0 < length self.now) }
    {
        self.open
    }

    /// Splits the first box at a cut of a variable.
    /// After want of memory the walk says nothing of the boxes, and is to be dropped.
    pub fn split(&mut self, var: u8, cut: i64) -> Result<(), NoMemory>
        requires var { var < 64 }
        requires cut { unsigned_abs cut ≤ 2 ^ 32 }
        ensures { OnFirst self.old (λ box rest.
            OnOk result (self.new ≡ left_half box var cut ∷ right_half box var cut ∷ rest)) }
    {
        let upper = self.bounds.upper(var);
        self.path.push(Turn::SplitLeft { var, cut, upper })?;
        self.bounds.lower_upper(var, cut);
        Ok(())
    }

    /// Splits the first box by an atom `form != c`.
    /// After want of memory the walk says nothing of the boxes, and is to be dropped.
    pub fn split_ne(&mut self, atom: u16) -> Result<(), NoMemory>
        ensures { OnFirst self.old (λ box rest.
            OnOk result (self.new ≡ on_side box atom false ∷ on_side box atom true ∷ rest)) }
    {
        self.path.push(Turn::NeLeft { atom })?;
        self.sides.push(Side { atom, upper: false })?;
        Ok(())
    }

    /// Whether these terms close the first box.
    pub fn combo_closes(&self, key: &Key, terms: &[LeafTerm]) -> bool
        ensures { OnFirst self.now (λ box rest. result ≡ combo_closes key.now box terms.now) }
    {
        closing::combo_closes(key, &self.bounds, &self.sides, terms)
    }

    /// Whether this atom's form has one value in the first box, which fails its test.
    pub fn fixed_closes(&self, key: &Key, atom: u16) -> bool
        ensures { OnFirst self.now (λ box rest. result ≡ fixed_closes key.now box.bounds atom) }
    {
        closing::fixed_closes(key, &self.bounds, atom)
    }

    /// Whether the first box is empty.
    pub fn is_empty(&self) -> bool
        ensures { OnFirst self.now (λ box rest. result ≡ is_empty box.bounds) }
    {
        self.bounds.is_empty()
    }

    /// Takes the first box off the list.
    /// After want of memory the walk says nothing of the boxes, and is to be dropped.
    pub fn close(&mut self) -> Result<(), NoMemory>
        requires { 0 < length self.old }
        ensures { OnOk result (self.new ≡ drop 1 self.old) }
    {
        self.open = next_box(&mut self.bounds, &mut self.sides, &mut self.path)?;
        Ok(())
    }
}

/// Goes to the first box that waits, and answers whether there is one.
fn next_box(
    bounds: &mut Bounds,
    sides: &mut Vec<Side>,
    path: &mut Vec<Turn>,
) -> Result<bool, NoMemory>
    requires { All IsTurn path.old.items }
    ensures turns { All IsTurn path.new.items }
    ensures next { IfOk result (λ found.
        undecided found path.new.items (record { bounds = bounds.new; sides = sides.new.items })
        ≡ waiting (reverse path.old.items) (record { bounds = bounds.old; sides = sides.old.items })) }
{
    while let Some(turn) = path.pop() {
        undo(bounds, sides, turn);
        if let Some(next) = move_on(bounds, sides, turn)? {
            path.push(next)?;
            return Ok(true);
        }
    }
    Ok(false)
}
