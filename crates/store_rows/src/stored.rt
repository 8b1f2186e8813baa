//! Entries as texts: `sat KEY | POINT`, or `unsat KEY | NODES | TERMS`.
ghost use Rattle.std.specs.Prelude.{IfOk};
ghost use Rattle.entry_codec.specs.Frames.{IsSmallEnough};

use crate::reading::{SpelledTree, halves, key_of, point_of, tree_of};
use crate::writing::{key_text, push_values, tree_text};
use cert_check::{Entry, Shared, check_sat, check_unsat};
use entry_codec::{MAX_SEARCH_NODES, MAX_SEARCH_TERMS, entries_fit_frames};
use lin_model::{Key, Point};
use refutation::Tree;
use row_table::RowFault;
use std::alloc::Global;

/// The text of an entry.
pub fn text_of(alloc: Global, entry: &Entry) -> Result<String, RowFault> {
    let key = key_text(alloc, entry.key())?;
    match entry {
        Entry::Sat(sat) => {
            let mut text = format!(in alloc; "sat {key} |")?;
            push_values(alloc, &mut text, sat.point().values())?;
            Ok(text)
        }
        Entry::Unsat(unsat) => {
            let tree = tree_text(alloc, unsat.tree().nodes(), unsat.tree().terms())?;
            Ok(format!(in alloc; "unsat {key} | {tree}")?)
        }
    }
}

/// The entry of a text, if its evidence holds and it fits a frame.
pub fn entry_of(alloc: Global, text: &str) -> Result<Shared<Entry>, RowFault>
    ensures { IfOk result IsSmallEnough }
{
    let (kind, parts) = text.split_once(' ').unwrap_or((text, ""));
    let (key, evidence) = halves(parts);
    let key = key_of(alloc, key)?;
    let entry = match kind {
        "sat" => sat_entry(key, point_of(alloc, evidence)?)?,
        _ => unsat_entry(alloc, key, tree_of(alloc, evidence)?)?,
    };
    Ok(Shared::new(alloc, entry)?)
}

/// The entry of a key and a point.
fn sat_entry(key: Key, point: Point) -> Result<Entry, RowFault>
    ensures { IfOk result IsSmallEnough }
{
    entries_fit_frames();
    if point.values().len() != usize::from(key.width()) {
        return Err(RowFault::NoCall);
    }
    match check_sat(key, point) {
        Ok(entry) => {
            let _key = entry.key();
            Ok(entry)
        }
        Err(_) => Err(RowFault::NoCall),
    }
}

/// The entry of a key and a tree.
fn unsat_entry(alloc: Global, key: Key, tree: SpelledTree) -> Result<Entry, RowFault>
    ensures { IfOk result IsSmallEnough }
{
    entries_fit_frames();
    key.keeps_limits();
    let SpelledTree { nodes, terms } = tree;
    if nodes.len() > MAX_SEARCH_NODES as usize || terms.len() > MAX_SEARCH_TERMS as usize {
        return Err(RowFault::NoCall);
    }
    match check_unsat(alloc, key, Tree::new(nodes, terms)) {
        Ok(entry) => Ok(entry),
        Err(_) => Err(RowFault::NoCall),
    }
}
