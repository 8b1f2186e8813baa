//! Replies to keys.
ghost use Rattle.std.specs.Prelude.{◌≡◌};
ghost use Rattle.std.specs.Option.{option_map};
ghost use Rattle.cert_check.specs.Replies.{entry_in, has_core, is_spent};

use crate::entry::Entry;
use crate::saved::Saved;
use crate::shared::Shared;
use refutation::Tree;

/// The reply to a key. Places count from 0; `seen` is how many entries of the store the reply speaks of.
#[derive(Drop)]
pub enum Reply {
    /// The first of the seen entries that decides the key stands at this place.
    Hit {
        entry: Shared<Entry>,
        place: u32,
        seen: u32,
    },
    /// The key was solved, and its entry was kept at this place.
    Solved {
        entry: Shared<Entry>,
        place: u32,
        seen: u32,
        saved: Saved,
    },
    /// The key was solved, and there was no room for its entry.
    Unkept {
        entry: Shared<Entry>,
        seen: u32,
        saved: Saved,
    },
    /// The splits were used up. The tree of the search has just as many splits as the budget, and none of the seen
    /// entries decides the key.
    Spent {
        tree: Tree,
        seen: u32,
    },
}

impl Reply {
    /// The entry, where there is one: a reply with an open tree has none.
    pub fn entry(&self) -> Option<&Entry>
        ensures { option_map (λ entry. entry.now) result ≡ entry_in self.now }
    {
        match self {
            Reply::Hit { entry, .. } | Reply::Solved { entry, .. } | Reply::Unkept { entry, .. } =>
                { Some(entry.get()) }
            Reply::Spent { .. } => None,
        }
    }

    /// Whether there is a core, so that no point satisfies the key.
    pub fn has_core(&self) -> bool
        ensures { result ≡ has_core self.now }
    {
        matches!(self.entry(), Some(Entry::Unsat(_)))
    }

    /// Whether the splits were used up, so that the key is undecided.
    pub fn is_spent(&self) -> bool
        ensures { result ≡ is_spent self.now }
    {
        matches!(self, Reply::Spent { .. })
    }
}
