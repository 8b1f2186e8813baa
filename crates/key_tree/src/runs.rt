//! Where the atoms of one form stand in a key.
ghost use Rattle.std.specs.Prelude.{◌≡◌, ◌<◌, ◌≤◌, ℕ, min, length};
ghost use Rattle.key_tree.specs.Runs.{run_first, run_end, AreRuns, IsWithRun};

/// Places of a key: from the first up to the end, which is not among them.
#[derive(Clone, Copy, Debug)]
pub struct Run {
    /// The first place.
    pub first: u16,
    /// The place behind the last.
    pub end: u16,
}

/// For each remainder of hashes by 64, a run with all places whose hashes have it.
#[derive(Drop)]
pub(crate) struct Runs {
    firsts: [u16; 64],
    ends: [u16; 64],
}

impl Runs {
    /// The runs of these hashes, at most 384.
    pub(crate) fn of(hashes: &[u32]) -> Runs
        requires { length hashes.now ≤ 384 }
        ensures { AreRuns hashes.now result (length hashes.now) }
    {
        let mut runs = Runs::none();
        for (place, hash) in hashes.iter().enumerate() {
            runs.add(place as u16, *hash);
        }
        runs
    }

    /// Runs without places.
    fn none() -> Runs
        ensures { (hash : ℕ) → run_end result hash ≡ 0 }
    {
        Runs {
            firsts: [384; 64],
            ends: [0; 64],
        }
    }

    /// One place more, behind all others, which has this hash.
    fn add(&mut self, place: u16, hash: u32)
        requires { place < 384 }
        ensures { IsWithRun self.old place hash self.new }
    {
        let slot = (hash % 64) as usize;
        self.firsts[slot] = self.firsts[slot].min(place);
        self.ends[slot] = place + 1;
    }

    /// The run of a hash.
    pub(crate) fn run(&self, hash: u32) -> Run
        ensures first { result.first ≡ min (run_first self.now hash) (run_end self.now hash) }
        ensures end { result.end ≡ run_end self.now hash }
    {
        let slot = (hash % 64) as usize;
        let end = self.ends[slot];
        Run {
            first: self.firsts[slot].min(end),
            end,
        }
    }
}
