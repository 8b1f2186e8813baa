//! What a report tells of the store.
use cert_check::{Entry, Event};
use green_cli::Report;
use outside::NoMemory;
use refutation::{LeafTerm, Node, On, Tree};
use std::alloc::Global;

/// The events and the entries of a report, each with a bar behind it, and how many entries were saved: a flight of a seat
/// with how many entries were seen, and how it ended; an entry with the number of its comparisons, and its point or its
/// tree.
pub fn told(alloc: Global, report: &Report) -> Result<String, NoMemory> {
    let mut text = String::new(alloc);
    push_events(alloc, &mut text, report.log.as_slice())?;
    for entry in report.entries.as_slice() {
        push_entry(alloc, &mut text, entry.get())?;
    }
    text.push_str(&format!(in alloc; "{} saved", report.saved)?)?;
    Ok(text)
}

fn push_events(alloc: Global, text: &mut String, events: &[Event]) -> Result<(), NoMemory> {
    for event in events {
        push_event(alloc, text, event)?;
    }
    Ok(())
}

fn push_event(alloc: Global, text: &mut String, event: &Event) -> Result<(), NoMemory> {
    match event {
        Event::Begun { seat, n, .. } => {
            text.push_str(&format!(in alloc; "{seat} begins at {n}|")?)?
        }
        Event::Ended { seat, how } => text.push_str(&format!(in alloc; "{seat} ends {how:?}|")?)?,
    }
    Ok(())
}

fn push_entry(alloc: Global, text: &mut String, entry: &Entry) -> Result<(), NoMemory> {
    let count = entry.key().atoms().len();
    match entry {
        Entry::Sat(sat) => {
            text.push_str(&format!(in alloc; "{count} hold at {:?}|", sat.point().values())?)?
        }
        Entry::Unsat(unsat) => {
            text.push_str(&format!(in alloc; "{count} never hold by")?)?;
            push_tree(alloc, text, unsat.tree())?;
            text.push('|')?;
        }
    }
    Ok(())
}

/// Adds the nodes of a tree, by their kinds, and then its terms, each with a space before it.
fn push_tree(alloc: Global, text: &mut String, tree: &Tree) -> Result<(), NoMemory> {
    for node in tree.nodes() {
        text.push_str(kind_of(*node))?;
    }
    for term in tree.terms() {
        push_term(alloc, text, *term)?;
    }
    Ok(())
}

fn kind_of(node: Node) -> &'static str {
    match node {
        Node::Split { .. } => " split",
        Node::NeSplit { .. } => " nesplit",
        Node::Combo { .. } => " combo",
        Node::Fixed { .. } => " fixed",
        Node::Empty => " empty",
        Node::Left => " left",
    }
}

fn push_term(alloc: Global, text: &mut String, term: LeafTerm) -> Result<(), NoMemory> {
    let factor = term.factor;
    match term.on {
        On::Atom(atom) => text.push_str(&format!(in alloc; " {factor}*a{atom}")?)?,
        On::Side(side) => text.push_str(&format!(in alloc; " {factor}*s{side}")?)?,
    }
    Ok(())
}
