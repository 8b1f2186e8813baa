//! The check that a tree refutes a key.

ghost use Rattle.std.specs.Prelude.{◌≡◌, ◌<◌, ◌∷◌, ◌&&◌, [], ℕ, Err, OnOk, length, take, nat_le, true, false, IfOk};
ghost use Rattle.refutation.specs.Box.{left_half, right_half, on_side};
ghost use Rattle.refutation.specs.Endings.{ClosesAll, StopsAt, LeavesBoxes, LeavesMore};
ghost use Rattle.refutation.specs.Leaf.{combo_closes};
ghost use Rattle.refutation.specs.Reading.{is_split, names_ne, treated, read_over, Refutes, FailsAt, EndsEarly, GoesOn};
ghost use Rattle.refutation.specs.Reading.{HasNoPoint};
ghost use Rattle.refutation.specs.Walk.{OnFirst, Puts, Treats};

use crate::bounds::Bounds;
use crate::closing::atom_at;
use crate::fault::TreeFault;
use crate::leaf::LeafTerm;
use crate::node::Node;
use crate::walk::Walk;
use lin_model::{Key, Op};
use outside::NoMemory;
use std::alloc::Global;

/// Checks that a tree refutes a key. The nodes come in preorder and are read over the list of undecided boxes, which
/// begins as the key's bounds alone; each combination takes the terms that come next. Whoever made the tree is not
/// trusted.
///
/// Ok comes only where each node may stand where it does, and the last of them closes the last box with no term to
/// spare; then no integer point satisfies the key. `NodeFails`, `TreeEnds` and `TreeGoesOn` come exactly as their texts
/// say, unless memory runs out first.
pub fn refutes(
    alloc: Global,
    key: &Key,
    nodes: &[Node],
    terms: &[LeafTerm],
) -> Result<(), TreeFault>
    ensures refuted { OnOk result (Refutes key.now nodes.now terms.now) }
    ensures no_point { OnOk result (HasNoPoint key.now) }
    ensures node_fails { (i : ℕ) → result ≡ Err (TreeFault.NodeFails i)
        → FailsAt key.now nodes.now terms.now i }
    ensures tree_ends { result ≡ Err TreeFault.TreeEnds → EndsEarly key.now nodes.now terms.now }
    ensures tree_goes_on { result ≡ Err TreeFault.TreeGoesOn → GoesOn key.now nodes.now terms.now }
{
    let walk = Walk::new(alloc, Bounds::of(key));
    close_all(walk, key, nodes, terms)
}

/// Reads a tree over the boxes of a walk. Ok comes only where each node may stand where it does, and the last of them
/// closes the last box with no term to spare; the faults come exactly as their texts say, unless memory runs out first.
pub(crate) fn close_all(
    mut walk: Walk,
    key: &Key,
    nodes: &[Node],
    terms: &[LeafTerm],
) -> Result<(), TreeFault>
    ensures closed { OnOk result (ClosesAll (read_over false key.now nodes.now terms.now walk)) }
    ensures node_fails { (i : ℕ) → result ≡ Err (TreeFault.NodeFails i)
        → StopsAt (read_over false key.now nodes.now terms.now walk) i }
    ensures tree_ends { result ≡ Err TreeFault.TreeEnds
        → LeavesBoxes (read_over false key.now nodes.now terms.now walk) }
    ensures tree_goes_on { result ≡ Err TreeFault.TreeGoesOn
        → LeavesMore (read_over false key.now nodes.now terms.now walk) }
{
    let mut taken = 0;
    for (i, node) in nodes.iter().enumerate() {
        if !walk.is_open() {
            return Err(TreeFault::TreeGoesOn);
        }
        match treat(&mut walk, key, *node, &terms[taken..])? {
            None => return Err(TreeFault::NodeFails(i as u64)),
            Some(count) => taken += count,
        }
    }
    if walk.is_open() {
        return Err(TreeFault::TreeEnds);
    }
    if taken < terms.len() {
        return Err(TreeFault::TreeGoesOn);
    }
    Ok(())
}

/// Lets a node treat the first undecided box, and answers how many terms it took. None says that the node may not stand
/// there: it is unlawful, or a leaf that this box is not closed by.
fn treat(
    walk: &mut Walk,
    key: &Key,
    node: Node,
    terms: &[LeafTerm],
) -> Result<Option<usize>, NoMemory>
    requires { 0 < length walk.old }
    ensures { IfOk result (λ taken. OnFirst walk.old (λ box rest.
        Treats (treated false key.now box node terms.now) terms.now taken rest walk.new)) }
{
    match node {
        Node::Split { var, cut } => split(walk, var, cut),
        Node::NeSplit { atom } => split_ne(walk, key, atom),
        Node::Combo { count } => close_by_combo(walk, key, usize::from(count), terms),
        Node::Fixed { atom } => {
            let closed = walk.fixed_closes(key, atom);
            close_if(walk, closed, 0)
        }
        Node::Empty => {
            let closed = walk.is_empty();
            close_if(walk, closed, 0)
        }
        Node::Left => Ok(None),
    }
}

/// Splits the first box at this cut, or answers None where no split may have it.
fn split(walk: &mut Walk, var: u8, cut: i64) -> Result<Option<usize>, NoMemory>
    ensures { IfOk result (λ taken. OnFirst walk.old (λ box rest.
        Puts (is_split var cut) (left_half box var cut ∷ right_half box var cut ∷ []) 0 taken rest walk.new)) }
{
    if !is_split(var, cut) {
        return Ok(None);
    }
    walk.split(var, cut)?;
    Ok(Some(0))
}

/// Whether this variable and this cut are within the limits of a split.
fn is_split(var: u8, cut: i64) -> bool
    ensures { result ≡ is_split var cut }
{
    var < 64 && cut.unsigned_abs() <= 1 << 32
}

/// Splits the first box by the atom of this number, or answers None where the key has no such atom `form != c`.
fn split_ne(walk: &mut Walk, key: &Key, atom: u16) -> Result<Option<usize>, NoMemory>
    ensures { IfOk result (λ taken. OnFirst walk.old (λ box rest.
        Puts (names_ne key.now atom) (on_side box atom false ∷ on_side box atom true ∷ []) 0 taken rest walk.new)) }
{
    if !names_ne(key, atom) {
        return Ok(None);
    }
    walk.split_ne(atom)?;
    Ok(Some(0))
}

/// Whether this is the number of an atom `form != c` of the key.
fn names_ne(key: &Key, atom: u16) -> bool
    ensures { result ≡ names_ne key.now atom }
{
    match atom_at(key, atom) {
        None => false,
        Some(atom) => matches!(atom.op(), Op::Ne),
    }
}

/// Closes the first box by the first `count` terms, or answers None where they are too few or don't close it.
fn close_by_combo(
    walk: &mut Walk,
    key: &Key,
    count: usize,
    terms: &[LeafTerm],
) -> Result<Option<usize>, NoMemory>
    requires { 0 < length walk.old }
    ensures { IfOk result (λ taken. OnFirst walk.old (λ box rest.
        Puts (nat_le count (length terms.now) && combo_closes key.now box (take count terms.now)) [] count taken rest
        walk.new)) }
{
    if count > terms.len() {
        return Ok(None);
    }
    let closed = walk.combo_closes(key, &terms[..count]);
    close_if(walk, closed, count)
}

/// Takes the first box off where it is closed, by a leaf that takes `count` terms; else answers None.
fn close_if(walk: &mut Walk, closed: bool, count: usize) -> Result<Option<usize>, NoMemory>
    requires { 0 < length walk.old }
    ensures { IfOk result (λ taken. OnFirst walk.old (λ box rest.
        Puts closed [] count taken rest walk.new)) }
{
    if !closed {
        return Ok(None);
    }
    walk.close()?;
    Ok(Some(count))
}
