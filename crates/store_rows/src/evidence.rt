//! What answers the calls of the table, and what it keeps from row to row.
ghost use Rattle.std.specs.Prelude.{◌≡◌, ◌<◌};

use crate::copies::copied;
use crate::cores::core;
use crate::entries::{kind_of, sat_entry, unsat_entry};
use crate::falsity::first_is_false;
use crate::implication::implied;
use crate::keys::first_key;
use crate::machine::Machine;
use crate::reading::{halves, key_of};
use crate::regions::{cut_back, cut_back_search, room};
use crate::schedules::schedule;
use crate::searches::{counted, cut_side, found_leaf, next_step, searched};
use crate::slicing::slices_of;
use crate::solutions::solutions;
use crate::trees::{closed, closed_by_chosen, refuted};
use crate::tries::{Refuted, Satisfied};
use crate::versions::{grown, made_at_once, no_entries, size_text};
use crate::writing::{place_text, yes_or_no};
use atom_implies::Steps;
use cert_check::{Entry, Refused, Shared, decides};
use layers::Version;
use outside::NoMemory;
use row_table::{RowFault, Subject};
use std::alloc::Global;
use std::mem;
use std::sync::ledger::{Blank, Ledger};

/// The subject of the table: the entry that was made last, a trie of each kind, a version with the one that it grew out
/// of, and what the calls on frames and disks speak to.
#[derive(Drop)]
pub struct Evidence<L: Ledger> {
    steps: Steps<L>,
    entry: Option<Shared<Entry>>,
    satisfied: Satisfied,
    refuted: Refuted,
    version: Version,
    older: Version,
    machine: Machine,
}

impl<L: Ledger> Evidence<L> {
    /// No entry, no key, no core and no disk.
    pub fn new(alloc: Global, blank: Blank) -> Result<Evidence<L>, NoMemory>
        requires name { blank.name ≡ L.name }
        requires parts { blank.parts ≡ L.parts }
        requires some { 0 < blank.parts }
    {
        Ok(Evidence {
            steps: Steps::new(blank),
            entry: None,
            satisfied: Satisfied::new(alloc),
            refuted: Refuted::new(alloc),
            version: no_entries(alloc)?,
            older: no_entries(alloc)?,
            machine: Machine::new(alloc),
        })
    }

    /// The answer to a call as a text.
    fn text(&mut self, alloc: Global, name: &str, argument: &str) -> Result<String, RowFault> {
        if let Some(call) = name.strip_prefix("sat_") {
            return self
                .satisfied
                .answer(alloc, call, argument, &mut self.steps);
        }
        if let Some(call) = name.strip_prefix("core_") {
            return self.refuted.answer(alloc, call, argument, &mut self.steps);
        }
        match name {
            "sat" => self.keep(alloc, sat_entry(alloc, argument)?),
            "unsat" => self.keep(alloc, unsat_entry(alloc, argument)?),
            "decides" => self.decides(alloc, argument),
            "version" => self.set_version(alloc, no_entries(alloc)?),
            "add" => self.add(alloc),
            "at_once" => self.make_at_once(alloc),
            "older" => Ok(size_text(alloc, &self.older)?),
            "first" => self.first(alloc, argument),
            "first_from" => self.first_from(alloc, argument),
            "run" => self.run(alloc, argument),
            "implied" => implied(alloc, argument, &mut self.steps),
            _ => called(alloc, &mut self.machine, name, argument),
        }
    }

    /// Keeps the entry that was made, and tells its kind or why there is none.
    fn keep(&mut self, alloc: Global, made: Result<Entry, Refused>) -> Result<String, RowFault> {
        self.entry = None;
        match made {
            Ok(entry) => {
                let kind = kind_of(&entry);
                self.entry = Some(Shared::new(alloc, entry)?);
                Ok(String::from_str(alloc, kind)?)
            }
            Err(refused) => Ok(format!(in alloc; "{refused}")?),
        }
    }

    /// Of `KEY`: whether the entry that was made last decides it.
    fn decides(&mut self, alloc: Global, argument: &str) -> Result<String, RowFault> {
        let key = key_of(alloc, argument)?;
        match &self.entry {
            Some(entry) => Ok(yes_or_no(alloc, decides(entry.get(), &key, &mut self.steps))?),
            None => Err(RowFault::NoCall),
        }
    }

    /// Of steps: what they answer, where the entry that was made last is kept and saved.
    fn run(&self, alloc: Global, argument: &str) -> Result<String, RowFault> {
        match &self.entry {
            Some(entry) => schedule(alloc, entry, argument),
            None => Err(RowFault::NoCall),
        }
    }

    /// Adds the entry that was made last to the version.
    fn add(&mut self, alloc: Global) -> Result<String, RowFault> {
        let entry = match &self.entry {
            Some(entry) => entry.share()?,
            None => return Err(RowFault::NoCall),
        };
        let version = grown(alloc, &self.version, entry)?;
        self.set_version(alloc, version)
    }

    /// Takes this version, keeps the one before, and tells its size.
    fn set_version(&mut self, alloc: Global, version: Version) -> Result<String, RowFault> {
        self.older = mem::replace(&mut self.version, version);
        Ok(size_text(alloc, &self.version)?)
    }

    /// Makes the version of the same entries at once.
    fn make_at_once(&mut self, alloc: Global) -> Result<String, RowFault> {
        let version = made_at_once(alloc, &self.version)?;
        self.set_version(alloc, version)
    }

    /// Of `KEY`: the place of the first entry that decides it.
    fn first(&mut self, alloc: Global, argument: &str) -> Result<String, RowFault> {
        let key = key_of(alloc, argument)?;
        let place = self.version.first(&key, &mut self.steps);
        Ok(place_text(alloc, place)?)
    }

    /// Of `FROM | KEY`: the place of the first entry from there on that decides it.
    fn first_from(&mut self, alloc: Global, argument: &str) -> Result<String, RowFault> {
        let (from, key) = halves(argument);
        let from = from.parse::<u32>()?;
        let key = key_of(alloc, key)?;
        let place = self.version.first_from(from, &key, &mut self.steps);
        Ok(place_text(alloc, place)?)
    }
}

/// The answer to a call that needs nothing from the rows above, or to one on frames and disks.
fn called(
    alloc: Global,
    machine: &mut Machine,
    name: &str,
    argument: &str,
) -> Result<String, RowFault> {
    match name {
        "slices" => slices_of(alloc, argument),
        "key" => first_key(alloc, argument),
        "solutions" => solutions(alloc, argument),
        "is_false" => first_is_false(alloc, argument),
        "copy" => copied(alloc, argument),
        "refutes" => refuted(alloc, argument),
        "closes" => closed(alloc, argument),
        "chosen" => closed_by_chosen(alloc, argument),
        "leaf" => found_leaf(alloc, argument),
        "cut" => cut_side(alloc, argument),
        "step" => next_step(alloc, argument),
        "solve" => searched(alloc, argument),
        "count" => counted(alloc, argument),
        "room" => room(alloc, argument),
        "cut_back" => cut_back(alloc),
        "cut_back_search" => cut_back_search(alloc, argument),
        "core" => core(alloc, argument),
        _ => machine.called(alloc, name, argument),
    }
}

impl<L: Ledger> Subject for Evidence<L> {
    fn answer(
        &mut self,
        alloc: Global,
        name: &str,
        argument: &[u8],
    ) -> Result<Option<Vec<u8>>, NoMemory> {
        let Ok(argument) = str::from_utf8(argument) else {
            return Ok(None);
        };
        match self.text(alloc, name, argument) {
            Ok(answer) => Ok(Some(answer.into_bytes())),
            Err(RowFault::NoMemory) => Err(NoMemory),
            Err(_) => Ok(None),
        }
    }
}
