//! Solving a key, with evidence that checks.
ghost use Rattle.std.specs.Prelude.{◌≡◌, ◌≤◌, ℕ, IfOk};
ghost use Rattle.lin_model.specs.Point.{IsPoint};
ghost use Rattle.refutation.specs.Boxed.{IsBoxed};
ghost use Rattle.refutation.specs.Reading.{Refutes};
ghost use Rattle.box_solver.specs.Answer.{IsRefutingTree};
ghost use Rattle.shared_store.specs.Solving.{IsBlank, HoldsTree, IsEntryFor, IsEvidence, IsModelPoint, IsModelWithin};

use box_solver::{Found, TreeRegion, solve};
use cert_check::{
    Entry, Shared, check_sat, entries_decide_their_keys, shrink, shrunk_entries_decide,
};
use lin_model::{Key, Point};
use outside::NoMemory;
use refutation::{LeafTerm, Node, Tree};
use std::alloc::Global;

/// What solving a key comes to.
#[derive(Drop)]
pub enum Evidence {
    /// An entry that decides the key.
    Decided(Shared<Entry>),
    /// The tree of a search that spent the whole budget.
    Open(Tree),
}

/// Solves the key with at most this many splits. The region, which is blank, is blank again.
pub fn find_evidence(
    alloc: Global,
    key: &Key,
    budget: u32,
    region: &mut TreeRegion,
) -> Result<Evidence, NoMemory>
    requires boxed { IsBoxed key.now }
    requires some { 1 ≤ budget }
    requires few { budget ≤ 100000 }
    requires blank { IsBlank budget region.old }
    ensures evidence { IfOk result (IsEvidence budget key.now) }
    ensures blank { IsBlank budget region.new }
{
    let mark = region.mark();
    let evidence = search(alloc, key, budget, region);
    region.release(mark);
    evidence
}

/// Searches, and takes the evidence from the region.
fn search(
    alloc: Global,
    key: &Key,
    budget: u32,
    region: &mut TreeRegion,
) -> Result<Evidence, NoMemory>
    requires boxed { IsBoxed key.now }
    requires some { 1 ≤ budget }
    requires few { budget ≤ 100000 }
    requires blank { IsBlank budget region.old }
    ensures evidence { IfOk result (IsEvidence budget key.now) }
    ensures tree { HoldsTree budget region.new }
{
    Ok(match solve(key, budget, region) {
        Found::Model(values) => Evidence::Decided(satisfied(alloc, key, &values)?),
        Found::Refuted => {
            Evidence::Decided(refuted(alloc, key, region.nodes(), region.terms())?)
        }
        Found::Spent => Evidence::Open(tree_in(alloc, region)?),
    })
}

/// A copy of the tree in the region.
fn tree_in(alloc: Global, region: &TreeRegion) -> Result<Tree, NoMemory>
    ensures { IfOk result (λ tree. tree ≡ record { nodes = region.now.nodes; terms = region.now.terms }) }
{
    Ok(Tree::new(region.nodes().to_vec(alloc)?, region.terms().to_vec(alloc)?))
}

/// The entry of the key and the point of these values, which satisfies it.
fn satisfied(alloc: Global, key: &Key, values: &[i64]) -> Result<Shared<Entry>, NoMemory>
    requires { IsModelPoint key.now values.now }
    ensures { (budget : ℕ) → IsModelWithin budget key.now values.now → IfOk result (IsEntryFor budget key.now) }
{
    entries_decide_their_keys();
    key.keeps_limits();
    let point = point_of(alloc, values)?;
    match check_sat(key.clone()?, point) {
        Ok(entry) => Ok(Shared::new(alloc, entry)?),
        Err(_) => unreachable!(),
    }
}

/// The point of these values.
fn point_of(alloc: Global, values: &[i64]) -> Result<Point, NoMemory>
    requires { IsPoint values.now }
    ensures { IfOk result (λ point. point ≡ values.now) }
{
    match Point::of(values.to_vec(alloc)?) {
        Ok(point) => Ok(point),
        Err(_) => unreachable!(),
    }
}

/// The entry of a core of the key, by a tree that refutes it.
fn refuted(
    alloc: Global,
    key: &Key,
    nodes: &[Node],
    terms: &[LeafTerm],
) -> Result<Shared<Entry>, NoMemory>
    requires { Refutes key.now nodes.now terms.now }
    ensures { (budget : ℕ) → IsRefutingTree key.now budget nodes.now terms.now
        → IfOk result (IsEntryFor budget key.now) }
{
    shrunk_entries_decide();
    let core = shrink(alloc, key, nodes, terms)?;
    let _ = core.key();
    Ok(Shared::new(alloc, core)?)
}
