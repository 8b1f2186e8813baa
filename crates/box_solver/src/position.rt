//! Where a search is: the box at hand.

ghost use Rattle.std.specs.Prelude.{◌≡◌, ◌∷◌, ◌<◌, ◌≤◌, ℤ, [], true, false, length, IfSome};
ghost use Rattle.lin_model.specs.Key.{IsKey};
ghost use Rattle.refutation.specs.Bounds.{key_bounds};
ghost use Rattle.refutation.specs.Box.{root_box, left_half, right_half, on_side};
ghost use Rattle.refutation.specs.Boxed.{IsCut, HasBothSides, HasShortSides};
ghost use Rattle.refutation.specs.SearchOrder.{lower_or_zero, upper_or_zero};
ghost use Rattle.box_solver.specs.Region.{MovesTrail, LengthensTrail};
ghost use Rattle.box_solver.specs.Trail.{IsTurn, HasCutSides, IsTrail, parent, without_last_side, MovesOn, waiting};
ghost use Rattle.box_solver.specs.Trail.{undecided};

use crate::region::TreeRegion;
use crate::sides::{lower_side, upper_side};
use crate::turn::{Turn, item_of as trail_item_of, turn_of};
use arrayvec::ArrayVec;
use lin_model::{Key, MAX_KEY_ATOMS};
use refutation::{Bounds, Side};
use std::marker::Model;

/// The box at hand. The way to it from the root is on the trail of a region.
#[derive(Drop)]
pub(crate) struct Position {
    bounds: Bounds,
    sides: ArrayVec<Side, MAX_KEY_ATOMS>,
}

impl Model for Position {
    ghost use Rattle.std.specs.Prelude.{◌≤◌, length};
    ghost use Rattle.lin_model.specs.declared.key.TheConstants.{MAX_KEY_ATOMS};
    ghost use Rattle.refutation.specs.Box.{PlainBox};

    ghost Value = { PlainBox };

    ghost view = { λ p. record { bounds = p.bounds; sides = p.sides.items } };

    ghost invariant = { λ p. length p.sides.items ≤ MAX_KEY_ATOMS };
}

impl Position {
    /// The root box of a key.
    pub(crate) fn root(key: &Key) -> Position
        ensures root { result ≡ root_box key.now }
        ensures sides { HasShortSides (key_bounds key.now) }
        ensures key { IsKey key.now }
    {
        Position {
            bounds: Bounds::of(key),
            sides: ArrayVec::new(),
        }
    }

    /// The bounds of the box.
    pub(crate) fn bounds(&self) -> &Bounds
        ensures { result.now ≡ self.now.bounds }
    {
        &self.bounds
    }

    /// The sides of the box.
    pub(crate) fn sides(&self) -> &[Side]
        ensures sides { result.now ≡ self.now.sides }
        ensures few { length result.now ≤ MAX_KEY_ATOMS }
    {
        self.sides.as_slice()
    }

    /// Goes to the half with the variable at most at the cut, while the other half waits.
    pub(crate) fn cut_left(&mut self, region: &mut TreeRegion, var: u8, cut: i64)
        requires between { (lo : ℤ) × (hi : ℤ) × IsCut self.old.bounds var lo hi cut }
        requires short { HasShortSides self.old.bounds }
        requires room { 0 < region.old.spare_trail }
        requires trail { IsTrail self.old.bounds region.old.trail }
        ensures boxes { undecided region.new.trail self.new
            ≡ left_half self.old var cut ∷ right_half self.old var cut ∷ waiting region.old.trail self.old }
        ensures pushed { LengthensTrail region.old region.new }
        ensures trail { IsTrail self.new.bounds region.new.trail }
    {
        let upper = upper_side(&self.bounds, var);
        region.push_trail(trail_item_of(Turn::CutLeft { var, upper }));
        self.bounds.lower_upper(var, cut);
    }

    /// Goes to the lower side of an atom `form != c`, while the upper side waits.
    pub(crate) fn ne_left(&mut self, region: &mut TreeRegion, atom: u16)
        requires atom { atom < MAX_KEY_ATOMS }
        requires few { length self.old.sides < MAX_KEY_ATOMS }
        requires room { 0 < region.old.spare_trail }
        requires trail { IsTrail self.old.bounds region.old.trail }
        ensures boxes { undecided region.new.trail self.new
            ≡ on_side self.old atom false ∷ on_side self.old atom true ∷ waiting region.old.trail self.old }
        ensures pushed { LengthensTrail region.old region.new }
        ensures trail { IsTrail self.new.bounds region.new.trail }
    {
        region.push_trail(trail_item_of(Turn::NeLeft { atom }));
        self.sides.push(Side { atom, upper: false });
    }

    /// Goes on to the first box that waits, and answers whether there is one.
    pub(crate) fn go_on(&mut self, region: &mut TreeRegion) -> bool
        requires trail { IsTrail self.old.bounds region.old.trail }
        requires short { HasShortSides self.old.bounds }
        ensures found { result ≡ true → undecided region.new.trail self.new ≡ waiting region.old.trail self.old }
        ensures none { result ≡ false → (waiting region.old.trail self.old ≡ []) × (region.new.trail ≡ []) }
        ensures moves { MovesTrail region.old region.new }
        ensures trail { IsTrail self.new.bounds region.new.trail }
    {
        while let Some(item) = region.pop_trail() {
            if let Some(next) = self.move_on(turn_of(item)) {
                region.push_trail(trail_item_of(next));
                return true;
            }
        }
        false
    }

    /// Goes from the half that a turn leads to to the other half, where that waits, and answers the turn that leads there;
    /// and else back to the box that was split.
    fn move_on(&mut self, turn: Turn) -> Option<Turn>
        requires turn { IsTurn turn }
        requires sides { HasCutSides self.old.bounds turn }
        requires short { HasShortSides self.old.bounds }
        ensures turn { IfSome result IsTurn }
        ensures sides { IfSome result (HasCutSides self.new.bounds) }
        ensures moves { MovesOn turn result self.old self.new }
    {
        match turn {
            Turn::CutLeft { var, upper } => Some(self.cut_right(var, upper)),
            Turn::CutRight { var, lower } => {
                self.bounds.set_lower(var, Some(lower));
                None
            }
            Turn::NeLeft { atom } => Some(self.ne_right(atom)),
            Turn::NeRight { .. } => {
                self.sides.pop();
                None
            }
        }
    }

    /// Goes from the half with the variable at most at its upper side, which was `upper` before, to the half above that.
    fn cut_right(&mut self, var: u8, upper: i64) -> Turn
        requires limits { IsTurn (Turn.CutLeft var upper) }
        requires short { HasShortSides self.old.bounds }
        ensures turn { result ≡ Turn.CutRight var (lower_or_zero self.old.bounds var) }
        ensures half { self.new
            ≡ right_half (parent (Turn.CutLeft var upper) self.old) var (upper_or_zero self.old.bounds var) }
    {
        let lower = lower_side(&self.bounds, var);
        let cut = upper_side(&self.bounds, var);
        self.bounds.set_upper(var, Some(upper));
        self.bounds.raise_lower(var, cut + 1);
        Turn::CutRight { var, lower }
    }

    /// Goes from the lower side of an atom to its upper side.
    fn ne_right(&mut self, atom: u16) -> Turn
        ensures turn { result ≡ Turn.NeRight atom }
        ensures half { self.new ≡ on_side (without_last_side self.old) atom true }
    {
        self.sides.pop();
        self.sides.push(Side { atom, upper: true });
        Turn::NeRight { atom }
    }
}
