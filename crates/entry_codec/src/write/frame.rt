//! Frames of entries.
ghost use Rattle.std.specs.Prelude.{◌≡◌, ◌≤◌, ◌+◌, ◌++◌, length, drop, IfOk, OnOk};
ghost use Rattle.cert_check.specs.declared.entry.Entry.TheVariants.{Sat, Unsat};
ghost use Rattle.entry_codec.specs.Bodies.{body_bytes, IsInGrammar};
ghost use Rattle.entry_codec.specs.Frames.{FitsFrame, IsSmallEnough, frame_of, framed, node_count_of};
ghost use Rattle.entry_codec.specs.Nodes.{nodes, nodes_of};
ghost use Rattle.entry_codec.specs.Writing.{IsWritable, NamesShortSides};

use super::atoms::{push_key, push_point};
use super::nodes::push_nodes;
use super::numbers::push_long;
use crate::kind::BodyKind;
use crate::limits::{MAX_BODY, MAX_NODES};
use byteorder::{ByteOrder, LittleEndian};
use cert_check::{Entry, SatEntry, UnsatEntry};
use outside::NoMemory;
use refutation::Tree;
use std::alloc::Global;

/// The frame of an entry: the length of its body in 4 bytes, and the body. The entry may not be too large for a frame,
/// as no entry is that a search of at most 100,000 splits comes to. `NoMemory` comes only where memory runs out.
#[tactic(auto, unfolding(crate::specs::Numbers::long))]
pub fn write_frame(alloc: Global, entry: &Entry) -> Result<Vec<u8>, NoMemory>
    requires { IsSmallEnough entry.now }
    ensures frame { IfOk result (λ bytes. bytes.items ≡ frame_of entry.now) }
    ensures fits { OnOk result (FitsFrame entry.now) }
{
    let mut out = Vec::new(alloc);
    push_long(&mut out, 0)?;
    push_body(&mut out, entry)?;
    put_length(&mut out);
    Ok(out)
}

/// Puts the number of the bytes behind the first four into these.
fn put_length(out: &mut [u8])
    requires room { 4 ≤ length out.old }
    requires short { length out.old ≤ 4 + MAX_BODY }
    ensures { out.new ≡ framed (drop 4 out.old) }
{
    let size = out.len() - 4;
    LittleEndian::write_u32(out, size as u32);
}

/// Adds the body of an entry.
fn push_body(out: &mut Vec<u8>, entry: &Entry) -> Result<(), NoMemory>
    requires { node_count_of entry.now ≤ MAX_NODES }
    ensures bytes { OnOk result (out.new.items ≡ out.old.items ++ body_bytes entry.now) }
    ensures grammar { OnOk result (IsInGrammar entry.now) }
{
    match entry {
        Entry::Sat(sat) => push_sat(out, sat),
        Entry::Unsat(unsat) => push_unsat(out, unsat),
    }
}

/// Adds the body of a key with a point.
#[tactic(auto, unfolding(crate::specs::Bodies::body_bytes, crate::specs::Bodies::body, crate::specs::Bodies::body_fields, crate::specs::Fields::body_kind))]
fn push_sat(out: &mut Vec<u8>, entry: &SatEntry) -> Result<(), NoMemory>
    ensures bytes { OnOk result (out.new.items ≡ out.old.items ++ body_bytes (Sat entry.now)) }
    ensures grammar { OnOk result (IsInGrammar (Sat entry.now)) }
{
    out.push(BodyKind::Sat.code())?;
    push_key(out, entry.key())?;
    push_point(out, entry.point())
}

/// Adds the body of a key with a tree.
#[tactic(auto, unfolding(crate::specs::Bodies::body_bytes, crate::specs::Bodies::body, crate::specs::Bodies::body_fields, crate::specs::Fields::body_kind))]
fn push_unsat(out: &mut Vec<u8>, entry: &UnsatEntry) -> Result<(), NoMemory>
    requires { length entry.now.tree.nodes ≤ MAX_NODES }
    ensures bytes { OnOk result (out.new.items ≡ out.old.items ++ body_bytes (Unsat entry.now)) }
    ensures grammar { OnOk result (IsInGrammar (Unsat entry.now)) }
{
    out.push(BodyKind::Unsat.code())?;
    push_key(out, entry.key())?;
    push_tree(out, entry.tree())
}

/// Adds the nodes of a tree behind their number.
#[tactic(auto, unfolding(crate::specs::Nodes::nodes, crate::specs::Fields::node_count))]
fn push_tree(out: &mut Vec<u8>, tree: &Tree) -> Result<(), NoMemory>
    requires { IsWritable tree.now }
    ensures bytes { OnOk result
        (out.new.items ≡ out.old.items ++ nodes.spell (nodes_of tree.now.nodes tree.now.terms)) }
    ensures short { OnOk result (NamesShortSides tree.now.terms) }
{
    let whole = tree.nodes();
    push_long(out, whole.len() as u32)?;
    push_nodes(out, whole, tree.terms())
}
