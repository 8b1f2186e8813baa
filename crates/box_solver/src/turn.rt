//! Turns: which half of a split the search is in, and what undoes it.

ghost use Rattle.std.specs.Prelude.{◌≡◌, if◌then◌else◌};
ghost use Rattle.box_solver.specs.Trail.{IsTurn, turn_of, item_of as trail_item_of};

/// One split above the box at hand.
#[derive(Clone, Copy, Debug)]
pub enum Turn {
    /// The half with the variable at most at the cut; `upper` is the upper side from before. The other half waits.
    CutLeft { var: u8, upper: i64 },
    /// The half with the variable above the cut; `lower` is the lower side from before.
    CutRight { var: u8, lower: i64 },
    /// The lower side of an atom `form != c`. The upper side waits.
    NeLeft { atom: u16 },
    /// The upper side of an atom `form != c`.
    NeRight { atom: u16 },
}

/// In place of a variable: the item is of a split by an atom.
const NO_VARIABLE: u8 = 64;

/// The item of the trail for a turn.
pub(crate) fn item_of(turn: Turn) -> (u8, i64, bool)
    ensures { result ≡ trail_item_of turn }
{
    match turn {
        Turn::CutLeft { var, upper } => (var, upper, false),
        Turn::CutRight { var, lower } => (var, lower, true),
        Turn::NeLeft { atom } => (NO_VARIABLE, i64::from(atom), false),
        Turn::NeRight { atom } => (NO_VARIABLE, i64::from(atom), true),
    }
}

/// The turn that an item of the trail is for.
pub(crate) fn turn_of(item: (u8, i64, bool)) -> Turn
    requires { IsTurn (turn_of item) }
    ensures { result ≡ turn_of item }
{
    let (var, value, right) = item;
    if var != NO_VARIABLE {
        return cut_turn(var, value, right);
    }
    ne_turn(value.unsigned_abs() as u16, right)
}

/// The turn of a cut.
fn cut_turn(var: u8, side: i64, right: bool) -> Turn
    ensures { result ≡ if right then Turn.CutRight var side else Turn.CutLeft var side }
{
    if right {
        Turn::CutRight { var, lower: side }
    } else {
        Turn::CutLeft { var, upper: side }
    }
}

/// The turn of a split by an atom.
fn ne_turn(atom: u16, right: bool) -> Turn
    ensures { result ≡ if right then Turn.NeRight atom else Turn.NeLeft atom }
{
    if right {
        Turn::NeRight { atom }
    } else {
        Turn::NeLeft { atom }
    }
}
