//! The bytes that say what comes behind them.
ghost use Rattle.std.specs.Prelude.{◌≡◌};
ghost use Rattle.entry_codec.specs.Fields.{body_code, node_code, on_code};

/// What an entry is, by the first byte of a body.
#[derive(Clone, Copy, Debug, PartialEq, Eq)]
pub(crate) enum BodyKind {
    /// A key with a point that satisfies it.
    Sat,
    /// A key with a tree that refutes it.
    Unsat,
}

impl BodyKind {
    /// The byte that says so.
    pub(crate) fn code(self) -> u8
        ensures { result ≡ body_code self }
    {
        match self {
            BodyKind::Sat => 1,
            BodyKind::Unsat => 2,
        }
    }
}

/// What a node is, by its first byte.
#[derive(Clone, Copy, Debug, PartialEq, Eq)]
pub(crate) enum NodeKind {
    /// A split of a variable.
    Split,
    /// A split by an atom `form != c`.
    NeSplit,
    /// A combination.
    Combo,
    /// An atom of one value.
    Fixed,
    /// That the box is empty.
    Empty,
}

impl NodeKind {
    /// The byte that says so.
    pub(crate) fn code(self) -> u8
        ensures { result ≡ node_code self }
    {
        match self {
            NodeKind::Split => 1,
            NodeKind::NeSplit => 2,
            NodeKind::Combo => 3,
            NodeKind::Fixed => 4,
            NodeKind::Empty => 5,
        }
    }
}

/// What a term of a combination is on, by its first byte.
#[derive(Clone, Copy, Debug, PartialEq, Eq)]
pub(crate) enum OnKind {
    /// An atom of the key.
    Atom,
    /// A side of the box.
    Side,
}

impl OnKind {
    /// The byte that says so.
    pub(crate) fn code(self) -> u8
        ensures { result ≡ on_code self }
    {
        match self {
            OnKind::Atom => 0,
            OnKind::Side => 1,
        }
    }
}
