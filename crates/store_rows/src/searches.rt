//! Calls on searches and their parts: `leaf`, `cut`, `step`, `solve`, `count`.
ghost use Rattle.std.specs.Prelude.{◌≤◌, IfOk};
ghost use Rattle.refutation.specs.Boxed.{IsBoxed};

use crate::reading::{budget_of, halves, key_of, place_of, variable_of};
use crate::writing::{Spelled, push_terms, push_values, tree_text};
use box_solver::{Found, TighterSide, TreeRegion, cut, is_boxed, solve, step};
use combos::find_combo;
use lin_model::Key;
use refutation::{Bounds, Leaf, LeafTerm};
use row_table::RowFault;
use std::alloc::{AllocError, Global};

/// The key of these atoms, which hold each variable from both sides.
pub fn boxed(alloc: Global, text: &str) -> Result<Key, RowFault>
    ensures { IfOk result (λ key. IsBoxed key) }
{
    let key = key_of(alloc, text)?;
    if is_boxed(&key) {
        Ok(key)
    } else {
        Err(RowFault::NoCall)
    }
}

/// Of `KEY`: the leaf that is found to close the box of the key's bounds, or `open`.
pub fn found_leaf(alloc: Global, argument: &str) -> Result<String, RowFault> {
    let key = key_of(alloc, argument)?;
    match find_combo(&key, &Bounds::of(&key), &[]) {
        Some(leaf) => Ok(leaf_text(alloc, &leaf)?),
        None => Ok(String::from_str(alloc, "open")?),
    }
}

fn leaf_text(alloc: Global, leaf: &Leaf) -> Result<String, AllocError> {
    match leaf {
        Leaf::Combo(terms) => combination_text(alloc, terms.as_slice()),
        Leaf::Fixed(atom) => format!(in alloc; "fixed {atom}"),
        Leaf::Empty => String::from_str(alloc, "empty"),
    }
}

fn combination_text(alloc: Global, terms: &[LeafTerm]) -> Result<String, AllocError> {
    let count = terms.len();
    let mut text = format!(in alloc; "sum {count} |")?;
    push_terms(alloc, &mut text, terms)?;
    Ok(text)
}

/// Of `ATOM VARIABLE | KEY`: the side of the variable that the key's atom of this number gives within the key's bounds.
pub fn cut_side(alloc: Global, argument: &str) -> Result<String, RowFault> {
    let (names, key) = halves(argument);
    let (atom, var) = names.split_once(' ').ok_or(RowFault::NoCall)?;
    let key = key_of(alloc, key)?;
    let atom = key
        .atoms()
        .get(usize::from(place_of(atom)?))
        .ok_or(RowFault::NoCall)?;
    let side = cut(&Bounds::of(&key), atom, variable_of(var)?);
    Ok(side_text(alloc, side)?)
}

fn side_text(alloc: Global, side: Option<TighterSide>) -> Result<String, AllocError> {
    match side {
        Some(TighterSide { value, upper: true }) => format!(in alloc; "at most {value}"),
        Some(
            TighterSide {
                value,
                upper: false,
            },
        ) => format!(in alloc; "at least {value}"),
        None => String::from_str(alloc, "none"),
    }
}

/// Of `KEY`: the node that splits the box of the key's bounds, `corner` where its lowest corner satisfies the key, or
/// `closed` where a leaf is found for it.
pub fn next_step(alloc: Global, argument: &str) -> Result<String, RowFault> {
    let key = boxed(alloc, argument)?;
    let bounds = Bounds::of(&key);
    if find_combo(&key, &bounds, &[]).is_some() {
        return Ok(String::from_str(alloc, "closed")?);
    }
    match step(&key, &bounds, &[]) {
        Some(node) => Ok(format!(in alloc; "{}", Spelled(node))?),
        None => Ok(String::from_str(alloc, "corner")?),
    }
}

/// Of `BUDGET | KEY`: how the search ends, and its tree.
pub fn searched(alloc: Global, argument: &str) -> Result<String, RowFault> {
    let (budget, key) = halves(argument);
    let (found, region) = search(alloc, key, budget_of(budget)?)?;
    let ended = ended_text(alloc, &found)?;
    let tree = tree_text(alloc, region.nodes(), region.terms())?;
    Ok(format!(in alloc; "{ended}: {tree}")?)
}

/// Of `BUDGET | KEY`: how the search ends, and how many nodes its tree has.
pub fn counted(alloc: Global, argument: &str) -> Result<String, RowFault> {
    let (budget, key) = halves(argument);
    let (found, region) = search(alloc, key, budget_of(budget)?)?;
    let ended = ended_text(alloc, &found)?;
    let count = region.nodes().len();
    Ok(format!(in alloc; "{ended}: {count} nodes")?)
}

/// Searches the key of these atoms within the budget: how it ends, and the region with its tree.
fn search(alloc: Global, text: &str, budget: u32) -> Result<(Found, TreeRegion), RowFault>
    requires some { 1 ≤ budget }
    requires few { budget ≤ 100000 }
{
    let key = boxed(alloc, text)?;
    let mut region = TreeRegion::reserve(alloc, budget)?;
    let found = solve(&key, budget, &mut region);
    Ok((found, region))
}

/// How a search ended, with the values of a model.
fn ended_text(alloc: Global, found: &Found) -> Result<String, AllocError> {
    match found {
        Found::Model(point) => model_text(alloc, point.as_slice()),
        Found::Refuted => String::from_str(alloc, "refuted"),
        Found::Spent => String::from_str(alloc, "spent"),
    }
}

fn model_text(alloc: Global, values: &[i64]) -> Result<String, AllocError> {
    let mut text = String::from_str(alloc, "model")?;
    push_values(alloc, &mut text, values)?;
    Ok(text)
}
