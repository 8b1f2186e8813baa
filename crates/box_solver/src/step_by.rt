//! The node that a box asks for.

ghost use Rattle.std.specs.Prelude.{◌≡◌, ◌<◌, ◌≤◌, ◌↔◌, None, ◌==◌, IfSome, length};
ghost use Rattle.std.specs.List.{list_any};
ghost use Rattle.lin_model.specs.Key.{KeyHolds, key_width};
ghost use Rattle.lin_model.specs.KeyAtom.{IsCanonicalForm};
ghost use Rattle.lin_model.specs.Point.{AreSides};
ghost use Rattle.lin_model.specs.Quotients.{floor_div};
ghost use Rattle.refutation.specs.Boxed.{IsBoxedIn};
ghost use Rattle.refutation.specs.Cut.{cut};
ghost use Rattle.refutation.specs.Leaf.{ClosedByOneAtom};
ghost use Rattle.refutation.specs.SearchOrder.{lowest_corner, step, first_failing, was_split, split_by, split_in_half};
ghost use Rattle.refutation.specs.SearchOrder.{first_raising, first_lowering, raising_split, lowering_split, node_for};
ghost use Rattle.refutation.specs.SearchOrder.{widest, spread, middle};
ghost use Rattle.combos.specs.Found.{AreNeSides, box_of};
ghost use Rattle.box_solver.specs.Steps.{SplitsFairly, IsNumberOf};

use crate::corner::lowest_corner;
use crate::cut_by::cut;
use lin_model::{Form, Key, KeyAtom, Op};
use refutation::{Bounds, Node, Side, cuts_leave_proper_halves};

/// The node by which a search splits the box of these bounds and sides. None exactly where the box's lowest corner, each
/// variable at its lower side, satisfies the key.
///
/// The first atom that the corner fails says what is done. One with `!=` that no split above is by splits the box by
/// itself. Another splits it where it raises the lower side of one of its variables, the first such, or else where it lowers
/// the upper side of one; the far half is then closed by that atom. Else, and on a `!=` that was split by, the widest
/// variable of the atom, the first among equals, is split at the middle of its sides, rounded down.
pub fn step(key: &Key, bounds: &Bounds, sides: &[Side]) -> Option<Node>
    requires boxed { IsBoxedIn key.now bounds.now }
    requires sides { AreNeSides key.now sides.now }
    requires open { ¬ ClosedByOneAtom key.now (box_of bounds.now sides.now) }
    ensures node { result ≡ step key.now (box_of bounds.now sides.now) }
    ensures none { (result ≡ None) ↔ KeyHolds key.now (lowest_corner key.now bounds.now) }
    ensures fair { IfSome result (SplitsFairly key.now (box_of bounds.now sides.now)) }
{
    cuts_leave_proper_halves();
    let corner = lowest_corner(key, bounds);
    let number = first_failing(key, corner.as_slice())?;
    Some(node_for(&key.atoms()[usize::from(number)], number, bounds, sides))
}

/// The number of the first atom that fails where the variables have these values.
fn first_failing(key: &Key, values: &[i64]) -> Option<u16>
    requires small { AreSides values.now }
    requires wide { key_width key.now ≤ length values.now }
    ensures { IsNumberOf key.now (first_failing 0 key.now values.now) result }
{
    for (number, atom) in key.atoms().iter().enumerate() {
        if !atom.holds_at(values) {
            return Some(number as u16);
        }
    }
    None
}

/// The node for a box whose lowest corner fails this atom first.
fn node_for(atom: &KeyAtom, number: u16, bounds: &Bounds, sides: &[Side]) -> Node
    ensures { result ≡ node_for (box_of bounds.now sides.now) (record { number = number; atom = atom.now }) }
{
    if !matches!(atom.op(), Op::Ne) {
        return split_by(bounds, atom);
    }
    if was_split(sides, number) {
        return split_in_half(bounds, atom.form());
    }
    Node::NeSplit { atom: number }
}

/// Whether a side is by the atom of this number.
fn was_split(sides: &[Side], number: u16) -> bool
    ensures { result ≡ list_any (λ side. side.atom == number) sides.now }
{
    sides.iter().any(|side| side.atom == number)
}

/// The split by the first variable whose lower side the atom raises, else whose upper side it lowers, else in half.
fn split_by(bounds: &Bounds, atom: &KeyAtom) -> Node
    ensures { result ≡ split_by bounds.now atom.now }
{
    if let Some(node) = first_raising(bounds, atom) {
        return node;
    }
    if let Some(node) = first_lowering(bounds, atom) {
        return node;
    }
    split_in_half(bounds, atom.form())
}

/// The split of the first variable whose lower side the atom raises: the half below is closed by the atom.
fn first_raising(bounds: &Bounds, atom: &KeyAtom) -> Option<Node>
    ensures { result ≡ first_raising bounds.now atom.now }
{
    for term in atom.form().terms() {
        if let Some(node) = raising(bounds, atom, term.var) {
            return Some(node);
        }
    }
    None
}

/// The split of a variable whose lower side the atom raises.
fn raising(bounds: &Bounds, atom: &KeyAtom, var: u8) -> Option<Node>
    ensures { result ≡ raising_split var (cut bounds.now atom.now var) }
{
    match cut(bounds, atom, var) {
        Some(c) if !c.upper => Some(Node::Split {
            var,
            cut: c.value - 1,
        }),
        _ => None,
    }
}

/// The split of the first variable whose upper side the atom lowers: the half above is closed by the atom.
fn first_lowering(bounds: &Bounds, atom: &KeyAtom) -> Option<Node>
    ensures { result ≡ first_lowering bounds.now atom.now }
{
    for term in atom.form().terms() {
        if let Some(node) = lowering(bounds, atom, term.var) {
            return Some(node);
        }
    }
    None
}

/// The split of a variable whose upper side the atom lowers.
fn lowering(bounds: &Bounds, atom: &KeyAtom, var: u8) -> Option<Node>
    ensures { result ≡ lowering_split var (cut bounds.now atom.now var) }
{
    match cut(bounds, atom, var) {
        Some(c) if c.upper => Some(Node::Split { var, cut: c.value }),
        _ => None,
    }
}

/// The split of the form's widest variable at the middle of its sides.
fn split_in_half(bounds: &Bounds, form: &Form) -> Node
    requires { IsCanonicalForm form.now }
    ensures { result ≡ split_in_half bounds.now form.now }
{
    let var = widest(bounds, form);
    Node::Split {
        var,
        cut: middle(bounds, var),
    }
}

/// The widest variable of the form, the first among equals.
fn widest(bounds: &Bounds, form: &Form) -> u8
    requires { IsCanonicalForm form.now }
    ensures widest { result ≡ widest bounds.now form.now }
    ensures within { result < 64 }
{
    let terms = form.terms();
    let mut best = terms[0].var;
    for term in terms {
        if spread(bounds, best) < spread(bounds, term.var) {
            best = term.var;
        }
    }
    best
}

/// How far apart the sides of a variable are.
fn spread(bounds: &Bounds, var: u8) -> i64
    requires { var < 64 }
    ensures { result ≡ spread bounds.now var }
{
    bounds.upper(var).unwrap_or(0) - bounds.lower(var).unwrap_or(0)
}

/// The middle of the sides of a variable, rounded down.
fn middle(bounds: &Bounds, var: u8) -> i64
    requires { var < 64 }
    ensures { result ≡ middle bounds.now var }
{
    half(bounds.lower(var).unwrap_or(0) + bounds.upper(var).unwrap_or(0))
}

/// Half of a number, rounded down.
fn half(n: i64) -> i64
    ensures { result ≡ floor_div n 2 }
{
    n.div_euclid(2)
}
