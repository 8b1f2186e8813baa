//! Tries of satisfied keys and of cores that are filled key by key.
ghost use Rattle.std.specs.Prelude.{◌≡◌, ◌+◌, ◌<◌, ◌≤◌, All};

use crate::reading::key_of;
use crate::writing::place_text;
use atom_implies::Steps;
use lin_model::Key;
use row_table::RowFault;
use sat_trie::SatTrie;
use std::alloc::Global;
use std::sync::ledger::Ledger;
use unsat_trie::UnsatTrie;

/// Satisfied keys, with numbers from 0 in the order in which they came.
#[derive(Drop)]
pub struct Satisfied {
    next: u32,
    trie: SatTrie,
    ghost below: { All (λ p. p.number < next) trie },
}

impl Satisfied {
    /// No key.
    pub fn new(alloc: Global) -> Satisfied {
        Satisfied {
            next: 0,
            trie: SatTrie::new(alloc),
        }
    }

    /// Answers a call: `new`, `put`, `find`, `first` or `first_of_three`.
    pub fn answer<L: Ledger>(
        &mut self,
        alloc: Global,
        call: &str,
        argument: &str,
        steps: &mut Steps<L>,
    ) -> Result<String, RowFault> {
        match call {
            "new" => self.clear(alloc),
            "put" => self.put(alloc, argument),
            _ => {
                let key = key_of(alloc, argument)?;
                let place = self.look(call, &key, steps)?;
                Ok(place_text(alloc, place)?)
            }
        }
    }

    /// Lets go of all keys.
    fn clear(&mut self, alloc: Global) -> Result<String, RowFault> {
        *self = Satisfied::new(alloc);
        Ok(String::from_str(alloc, "0 nodes")?)
    }

    /// Of `KEY`: holds it, and answers its number and how many nodes the trie has.
    fn put(&mut self, alloc: Global, argument: &str) -> Result<String, RowFault> {
        let key = key_of(alloc, argument)?;
        let number = self.hold(&key)?;
        let nodes = self.trie.nodes();
        Ok(format!(in alloc; "{number}, {nodes} nodes")?)
    }

    /// Holds one key more, and answers its number.
    fn hold(&mut self, key: &Key) -> Result<u32, RowFault> {
        let number = self.next;
        self.next = number.checked_add(1).ok_or(RowFault::NoCall)?;
        self.trie.insert(key, number)?;
        Ok(number)
    }

    /// The number that is looked up for a key.
    fn look<L: Ledger>(
        &self,
        call: &str,
        key: &Key,
        steps: &mut Steps<L>,
    ) -> Result<Option<u32>, RowFault> {
        match call {
            "find" => Ok(self.trie.find(key)),
            "first" => Ok(self.trie.first(key, steps)),
            "first_of_three" => first_of_three(&self.trie, key, steps),
            _ => Err(RowFault::NoCall),
        }
    }
}

/// Cores, with numbers from 0 in the order in which they came.
#[derive(Drop)]
pub struct Refuted {
    next: u32,
    trie: UnsatTrie,
    ghost below: { All (λ p. p.number < next) trie },
}

impl Refuted {
    /// No core.
    pub fn new(alloc: Global) -> Refuted {
        Refuted {
            next: 0,
            trie: UnsatTrie::new(alloc),
        }
    }

    /// Answers a call: `new`, `put`, `find`, `first` or `first_of_two`.
    pub fn answer<L: Ledger>(
        &mut self,
        alloc: Global,
        call: &str,
        argument: &str,
        steps: &mut Steps<L>,
    ) -> Result<String, RowFault> {
        match call {
            "new" => self.clear(alloc),
            "put" => self.put(alloc, argument),
            _ => {
                let key = key_of(alloc, argument)?;
                let place = self.look(call, &key, steps)?;
                Ok(place_text(alloc, place)?)
            }
        }
    }

    /// Lets go of all keys.
    fn clear(&mut self, alloc: Global) -> Result<String, RowFault> {
        *self = Refuted::new(alloc);
        Ok(String::from_str(alloc, "0 nodes")?)
    }

    /// Of `KEY`: holds it, and answers its number and how many nodes the trie has.
    fn put(&mut self, alloc: Global, argument: &str) -> Result<String, RowFault> {
        let key = key_of(alloc, argument)?;
        let number = self.hold(&key)?;
        let nodes = self.trie.nodes();
        Ok(format!(in alloc; "{number}, {nodes} nodes")?)
    }

    /// Holds one key more, and answers its number.
    fn hold(&mut self, key: &Key) -> Result<u32, RowFault> {
        let number = self.next;
        self.next = number.checked_add(1).ok_or(RowFault::NoCall)?;
        self.trie.insert(key, number)?;
        Ok(number)
    }

    /// The number that is looked up for a key.
    fn look<L: Ledger>(
        &self,
        call: &str,
        key: &Key,
        steps: &mut Steps<L>,
    ) -> Result<Option<u32>, RowFault> {
        match call {
            "find" => Ok(self.trie.find(key)),
            "first" => Ok(self.trie.first(key, steps)),
            "first_of_two" => first_of_two(&self.trie, key, steps),
            _ => Err(RowFault::NoCall),
        }
    }
}

/// The first that a trie of three nodes finds for a key of at most two atoms, in at most six steps.
fn first_of_three<L: Ledger>(
    trie: &SatTrie,
    key: &Key,
    steps: &mut Steps<L>,
) -> Result<Option<u32>, RowFault>
    ensures { steps.new ≤ steps.old + 6 }
{
    if trie.nodes() != 3 || key.atoms().len() > 2 {
        return Err(RowFault::NoCall);
    }
    Ok(trie.first(key, steps))
}

/// The first that a trie of two nodes finds for a key of at most three atoms, in at most six steps.
fn first_of_two<L: Ledger>(
    trie: &UnsatTrie,
    key: &Key,
    steps: &mut Steps<L>,
) -> Result<Option<u32>, RowFault>
    ensures { steps.new ≤ steps.old + 6 }
{
    if trie.nodes() != 2 || key.atoms().len() > 3 {
        return Err(RowFault::NoCall);
    }
    Ok(trie.first(key, steps))
}
