//! Leaves: the ways to close a box.

ghost use Rattle.std.specs.Prelude.{◌≡◌};

use arrayvec::ArrayVec;

/// What a term of a combination names, by its number from 0. Atoms come before sides.
#[derive(Clone, Copy, Debug, PartialEq, Eq, PartialOrd, Ord)]
pub enum On {
    /// An atom of the key.
    Atom(u16),
    /// A side of the box, counted from the root.
    Side(u16),
}

// A vector of a fixed capacity is filled with some default beforehand.
impl Default for On {
    ghost use Rattle.refutation.specs.declared.leaf.On.TheVariants.{Atom};

    ghost is_default = { λ on. on ≡ Atom 0 };

    fn default() -> On {
        On::Atom(0)
    }
}

/// One term of a combination: a multiple of an atom or of a side.
#[derive(Clone, Copy, Debug, Default, PartialEq, Eq)]
pub struct LeafTerm {
    /// What is multiplied.
    pub on: On,
    /// By how much. A lawful factor is no larger than 2^31 in size and above 0; on an atom with `=` it may be below 0
    /// too.
    pub factor: i64,
}

/// One way to close a box.
#[derive(Drop)]
pub enum Leaf {
    /// One to eight terms whose sum is positive all over the box, though each is at most 0 where the key holds.
    Combo(ArrayVec<LeafTerm, 8>),
    /// An atom of the key whose form has one value in the box, which fails the atom's test.
    Fixed(u16),
    /// Some lower side is above its upper side.
    Empty,
}
