//! Regions.

ghost use Rattle.std.specs.Prelude.{◌≡◌, ◌+◌, ◌-◌, ◌*◌, ◌^◌, ◌<◌, ◌≤◌, vec_len, vec_capacity, [], ◌∷◌, ◌++◌, length, take, IfOk, MatchOption};
ghost use Rattle.tree_pool.specs.Region.{blank, WasPopped};

use crate::mark::Mark;
use outside::NoMemory;
use std::alloc::Global;
use std::marker::Model;

/// The most splits of a search, and so of a tree that a region is reserved for.
pub const MAX_SPLITS: u32 = 100_000;

/// Nodes of trees, terms of their leaves, and the trail of a search, each within the room that was reserved at the start.
/// After `reserve` no call takes memory.
#[derive(Debug, Drop)]
pub struct Region<N, T, U> {
    nodes: Vec<N>,
    terms: Vec<T>,
    trail: Vec<U>,
}

impl<N, T, U> Model for Region<N, T, U> {
    ghost use Rattle.std.specs.Prelude.{◌-◌, reverse, vec_len, vec_capacity};
    ghost use Rattle.tree_pool.specs.Region.{PlainRegion, IsRoom};

    ghost Value = { PlainRegion N T U };

    ghost view = { λ r. record {
      nodes = r.nodes.items;
      terms = r.terms.items;
      trail = reverse r.trail.items;
      spare_nodes = vec_capacity r.nodes - vec_len r.nodes;
      spare_terms = vec_capacity r.terms - vec_len r.terms;
      spare_trail = vec_capacity r.trail - vec_len r.trail;
    } };

    ghost invariant = { λ r. IsRoom (vec_capacity r.nodes) (vec_capacity r.terms) (vec_capacity r.trail) };
}

impl<N: Copy, T: Copy, U: Copy> Region<N, T, U> {
    /// An empty region with room for a tree of this many inner nodes: for `2 * splits + 1` nodes, for the terms of
    /// `splits + 1` leaves, 8 each, and for `splits` items of the trail. `NoMemory` where there is none for them.
    pub fn reserve(alloc: Global, splits: u32) -> Result<Region<N, T, U>, NoMemory>
        requires { splits ≤ MAX_SPLITS }
        ensures { IfOk result (λ region. region ≡ blank (2 * splits + 1) (8 * (splits + 1)) splits) }
    {
        let splits = splits as usize;
        Ok(Region {
            nodes: Vec::with_capacity(alloc, 2 * splits + 1)?,
            terms: Vec::with_capacity(alloc, 8 * (splits + 1))?,
            trail: Vec::with_capacity(alloc, splits)?,
        })
    }

    /// How many nodes may still be pushed.
    pub fn spare_nodes(&self) -> u32
        ensures { result ≡ self.now.spare_nodes }
    {
        spare_of(&self.nodes)
    }

    /// How many terms may still be pushed.
    pub fn spare_terms(&self) -> u32
        ensures { result ≡ self.now.spare_terms }
    {
        spare_of(&self.terms)
    }

    /// How many items of the trail may still be pushed.
    pub fn spare_trail(&self) -> u32
        ensures { result ≡ self.now.spare_trail }
    {
        spare_of(&self.trail)
    }

    /// Appends a node.
    pub fn push_node(&mut self, node: N)
        requires { 0 < self.old.spare_nodes }
        ensures { self.new ≡ record self.old {
          nodes = self.old.nodes ++ node ∷ [];
          spare_nodes = self.old.spare_nodes - 1;
        } }
    {
        self.nodes.push_reserved(node);
    }

    /// Appends a term.
    pub fn push_term(&mut self, term: T)
        requires { 0 < self.old.spare_terms }
        ensures { self.new ≡ record self.old {
          terms = self.old.terms ++ term ∷ [];
          spare_terms = self.old.spare_terms - 1;
        } }
    {
        self.terms.push_reserved(term);
    }

    /// Puts an item on the trail.
    pub fn push_trail(&mut self, item: U)
        requires { 0 < self.old.spare_trail }
        ensures { self.new ≡ record self.old {
          trail = item ∷ self.old.trail;
          spare_trail = self.old.spare_trail - 1;
        } }
    {
        self.trail.push_reserved(item);
    }

    /// Takes the item off the trail that was put there last. None exactly where the trail is empty.
    pub fn pop_trail(&mut self) -> Option<U>
        ensures { MatchOption result ((self.old.trail ≡ []) × (self.new ≡ self.old))
            (λ item. WasPopped item self.old self.new) }
    {
        self.trail.pop()
    }

    /// The nodes, in the order in which they were pushed.
    pub fn nodes(&self) -> &[N]
        ensures { result.now ≡ self.now.nodes }
    {
        &self.nodes
    }

    /// The terms, in the order in which they were pushed.
    pub fn terms(&self) -> &[T]
        ensures { result.now ≡ self.now.terms }
    {
        &self.terms
    }

    /// How long the lists are, to come back to.
    pub fn mark(&self) -> Mark
        ensures nodes { result.nodes ≡ length self.now.nodes }
        ensures terms { result.terms ≡ length self.now.terms }
        ensures trail { result.trail ≡ length self.now.trail }
    {
        Mark {
            nodes: self.nodes.len(),
            terms: self.terms.len(),
            trail: self.trail.len(),
        }
    }

    /// Cuts nodes and terms back to the mark. The trail has to be as long as it was at the mark.
    pub fn release(&mut self, mark: Mark)
        requires nodes { mark.nodes ≤ length self.old.nodes }
        requires terms { mark.terms ≤ length self.old.terms }
        requires trail { mark.trail ≡ length self.old.trail }
        ensures { self.new ≡ record self.old {
          nodes = take mark.nodes self.old.nodes;
          terms = take mark.terms self.old.terms;
          spare_nodes = self.old.spare_nodes + (length self.old.nodes - mark.nodes);
          spare_terms = self.old.spare_terms + (length self.old.terms - mark.terms);
        } }
    {
        self.nodes.truncate(mark.nodes);
        self.terms.truncate(mark.terms);
    }
}

/// How many more items a list has room for.
fn spare_of<T>(list: &Vec<T>) -> u32
    requires { vec_capacity list.now < 2 ^ 32 }
    ensures { result ≡ vec_capacity list.now - vec_len list.now }
{
    (list.capacity() - list.len()) as u32
}
