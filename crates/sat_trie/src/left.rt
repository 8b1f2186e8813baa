//! Sets of places of a key.
ghost use Rattle.std.specs.Prelude.{◌≡◌, ◌↔◌, ◌%◌, ◌^◌, ◌<◌, IsTrue};
ghost use Rattle.sat_trie.specs.Left.{has_place, IsFull, IsWithoutPlace, needs_left};

/// Places of atoms that are asked, and a mask that is within the needs of them all together. A place p is among them where
/// bit p % 64 of word p / 64 is 1.
#[derive(Clone, Copy)]
pub(crate) struct Left {
    words: [u64; 6],
    count: u16,
    needs: u64,
}

impl Left {
    /// The first so many places, which need this. Bits of later places mean nothing.
    pub(crate) fn all(count: u16, needs: u64) -> Left
        ensures { IsFull count needs result }
    {
        Left {
            words: [u64::MAX; 6],
            count,
            needs,
        }
    }

    /// How many places there are.
    pub(crate) fn count(&self) -> u16
        ensures { result ≡ self.now.count }
    {
        self.count
    }

    /// What all of them need together.
    pub(crate) fn needs(&self) -> u64
        ensures { result ≡ self.now.needs }
    {
        self.needs
    }

    /// Whether a place is among them.
    pub(crate) fn has(&self, place: u16) -> bool
        requires { place < 384 }
        ensures { IsTrue result ↔ (has_place self.now.words place ≡ 1) }
    {
        self.words[usize::from(place / 64)] >> (place % 64) & 1 == 1
    }

    /// One place less, which is among them. The needs stay.
    pub(crate) fn remove(&mut self, place: u16)
        requires within { place < 384 }
        requires has { has_place self.old.words place ≡ 1 }
        requires some { 0 < self.old.count }
        ensures { IsWithoutPlace self.old place self.new }
    {
        self.words[usize::from(place / 64)] ^= place_bit(place);
        self.count -= 1;
    }

    /// Takes bits away from the needs, but for those that are kept.
    pub(crate) fn lessen_needs(&mut self, gone: u64, kept: u64)
        ensures { self.new ≡ record {
          words = self.old.words;
          count = self.old.count;
          needs = needs_left self.old.needs gone kept;
        } }
    {
        self.needs = self.needs ^ (self.needs & gone) | kept;
    }
}

/// The bit of a place in its word.
fn place_bit(place: u16) -> u64
    ensures { result ≡ 2 ^ (place % 64) }
{
    1 << (place % 64)
}
