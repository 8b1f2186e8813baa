//! Entries as text.
ghost use Rattle.std.specs.Prelude.{◌≡◌, ◌++◌, OnOk, codes, decimal, flat_map};
ghost use Rattle.lin_text.specs.Spelling.{integer};
ghost use Rattle.green_cli.specs.DumpText.{atom_line, entries_text, entry_text, point_text};

use crate::node_text::push_nodes;
use cert_check::{Entry, SatEntry, Shared, UnsatEntry};
use lin_model::KeyAtom;
use lin_text::{push_integer, push_key_atom, push_number, push_str};
use outside::NoMemory;

/// Adds the lines of each entry, with its place, from 0.
pub fn push_entries(out: &mut Vec<u8>, entries: &[Shared<Entry>]) -> Result<(), NoMemory>
    ensures { OnOk result (out.new.items ≡ out.old.items ++ entries_text 0 entries.now) }
{
    for (place, entry) in entries.iter().enumerate() {
        push_entry(out, place, entry.get())?;
    }
    Ok(())
}

fn push_entry(out: &mut Vec<u8>, place: usize, entry: &Entry) -> Result<(), NoMemory>
    ensures { OnOk result (out.new.items ≡ out.old.items ++ entry_text place entry.now) }
{
    match entry {
        Entry::Sat(entry) => push_sat(out, place, entry),
        Entry::Unsat(entry) => push_unsat(out, place, entry),
    }
}

#[tactic(auto, unfolding(crate::specs::DumpText::entry_text))]
fn push_sat(out: &mut Vec<u8>, place: usize, entry: &SatEntry) -> Result<(), NoMemory>
    ensures { OnOk result (out.new.items ≡ out.old.items ++ entry_text place (Entry.Sat entry.now)) }
{
    push_heading(out, place, " sat")?;
    push_point(out, entry.point().values())?;
    push_str(out, "\n")?;
    push_atoms(out, "key", entry.key().atoms())
}

#[tactic(auto, unfolding(crate::specs::DumpText::entry_text))]
fn push_unsat(out: &mut Vec<u8>, place: usize, entry: &UnsatEntry) -> Result<(), NoMemory>
    ensures { OnOk result (out.new.items ≡ out.old.items ++ entry_text place (Entry.Unsat entry.now)) }
{
    push_heading(out, place, " unsat\n")?;
    push_atoms(out, "core", entry.key().atoms())?;
    push_nodes(out, entry.tree().nodes(), entry.tree().terms())
}

/// Begins an entry, with these words behind its place.
fn push_heading(out: &mut Vec<u8>, place: usize, words: &str) -> Result<(), NoMemory>
    ensures { OnOk result (out.new.items ≡ out.old.items ++ (codes "entry " ++ decimal place ++ words.now)) }
{
    push_str(out, "entry ")?;
    push_number(out, place as u64)?;
    push_str(out, words)
}

/// Adds the values of `v0`, `v1` and so on.
fn push_point(out: &mut Vec<u8>, values: &[i64]) -> Result<(), NoMemory>
    ensures { OnOk result (out.new.items ≡ out.old.items ++ point_text 0 values.now) }
{
    for (var, value) in values.iter().enumerate() {
        push_value(out, var, *value)?;
    }
    Ok(())
}

fn push_value(out: &mut Vec<u8>, var: usize, value: i64) -> Result<(), NoMemory>
    ensures { OnOk result (out.new.items
        ≡ out.old.items ++ (codes " v" ++ decimal var ++ codes "=" ++ integer value)) }
{
    push_str(out, " v")?;
    push_number(out, var as u64)?;
    push_str(out, "=")?;
    push_integer(out, value)
}

/// Adds a line for each atom, which begins with this word.
fn push_atoms(out: &mut Vec<u8>, word: &str, atoms: &[KeyAtom]) -> Result<(), NoMemory>
    ensures { OnOk result (out.new.items ≡ out.old.items ++ flat_map (atom_line word.now) atoms.now) }
{
    for atom in atoms {
        push_atom_line(out, word, atom)?;
    }
    Ok(())
}

fn push_atom_line(out: &mut Vec<u8>, word: &str, atom: &KeyAtom) -> Result<(), NoMemory>
    ensures { OnOk result (out.new.items ≡ out.old.items ++ atom_line word.now atom.now) }
{
    push_str(out, word)?;
    push_str(out, " ")?;
    push_key_atom(out, atom)?;
    push_str(out, "\n")
}
