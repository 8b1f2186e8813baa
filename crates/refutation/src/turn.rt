//! Turns: which half of a split the walk is in, and what undoes it.

ghost use Rattle.std.specs.Prelude.{◌≡◌, IfOk, IfSome};
ghost use Rattle.refutation.specs.Walk.{IsTurn, parent, MovesOn};

use crate::bounds::Bounds;
use crate::side::Side;
use outside::NoMemory;

/// One split above the box at hand.
#[derive(Clone, Copy, Debug)]
pub enum Turn {
    /// The half with the variable at most `cut`; `upper` is the upper side from before. The other half waits.
    SplitLeft {
        var: u8,
        cut: i64,
        upper: Option<i64>,
    },
    /// The half with the variable above the cut; `lower` is the lower side from before.
    SplitRight {
        var: u8,
        lower: Option<i64>,
    },
    /// The lower side of an atom `form != c`. The upper side waits.
    NeLeft {
        atom: u16,
    },
    /// The upper side of an atom `form != c`.
    NeRight,
}

/// Goes back to the box that was split.
pub fn undo(bounds: &mut Bounds, sides: &mut Vec<Side>, turn: Turn)
    requires { IsTurn turn }
    ensures { record { bounds = bounds.new; sides = sides.new.items }
        ≡ parent turn (record { bounds = bounds.old; sides = sides.old.items }) }
{
    match turn {
        Turn::SplitLeft { var, upper, .. } => bounds.set_upper(var, upper),
        Turn::SplitRight { var, lower } => bounds.set_lower(var, lower),
        Turn::NeLeft { .. } | Turn::NeRight => {
            sides.pop();
        }
    }
}

/// Goes from a box that was split to its other half, where that waits: answers the turn that leads there.
pub fn move_on(
    bounds: &mut Bounds,
    sides: &mut Vec<Side>,
    turn: Turn,
) -> Result<Option<Turn>, NoMemory>
    requires { IsTurn turn }
    ensures turn { IfOk result (λ next. IfSome next IsTurn) }
    ensures half { IfOk result (λ next. MovesOn turn next (record { bounds = bounds.old; sides = sides.old.items })
        (record { bounds = bounds.new; sides = sides.new.items })) }
{
    match turn {
        Turn::SplitLeft { var, cut, .. } => {
            let lower = bounds.lower(var);
            bounds.raise_lower(var, cut + 1);
            Ok(Some(Turn::SplitRight { var, lower }))
        }
        Turn::NeLeft { atom } => {
            sides.push(Side { atom, upper: true })?;
            Ok(Some(Turn::NeRight))
        }
        Turn::SplitRight { .. } | Turn::NeRight => Ok(None),
    }
}
