//! A store for one thread.
ghost use Rattle.std.specs.Prelude.{◌≡◌, ◌^◌, ◌≤◌, IfErr, IfOk, OnErr, [], length};
ghost use Rattle.refutation.specs.Boxed.{IsBoxed};
ghost use Rattle.cert_check.specs.Asks.{Asks};
ghost use Rattle.cert_check.specs.Calls.{FailsInVain};
ghost use Rattle.journal.specs.Journals.{JournalOrigin, KeepsJournal, list_of, origin_of};
ghost use Rattle.store_core.specs.Cores.{started};
ghost use Rattle.shared_store.specs.Flights.{IsSearchedWithin};
ghost use Rattle.shared_store.specs.Local.{IsJournalOf, IsOwn, IsStore, seat_of_both, seat_of_store};
ghost use Rattle.shared_store.specs.Solving.{IsBlank};

use crate::books::Books;
use crate::flights::{fly, hit};
use box_solver::TreeRegion;
use cert_check::{Reply, SliceOracle};
use journal::{Journal, Recovered};
use lin_model::Key;
use outside::{Disk, NoMemory};
use std::alloc::Global;
use std::marker::Model;
use store_core::{Core, cores_take_turns};

/// A store with one seat, of the number 0, whose flights are the only ones. It waits for nobody. An entry that a flight
/// made is appended to the journal before the flight ends.
#[derive(Drop)]
pub struct LocalStore<D: Disk> {
    alloc: Global,
    books: Books<D>,
    budget: u32,
    region: TreeRegion,
}

impl<D: Disk> Model for LocalStore<D> {
    ghost use Rattle.shared_store.specs.Local.{PlainStore, IsStore};
    ghost use Rattle.shared_store.specs.Solving.{IsBlank};

    ghost Value = { PlainStore D };

    ghost view = { λ store. record { core = store.books.core; journal = store.books.journal; budget = store.budget } };

    ghost invariant = { λ store. let value : PlainStore D = record {
      core = store.books.core;
      journal = store.books.journal;
      budget = store.budget;
    } in IsStore value × IsBlank store.budget store.region };
}

impl<D: Disk> LocalStore<D> {
    /// A store of the entries that were recovered, which are the journal's list; it gives each key this many splits, 1 to
    /// 100,000. Where memory runs out the journal comes back.
    pub fn start(
        alloc: Global,
        journal: Journal<D>,
        recovered: Recovered,
        budget: u32,
    ) -> Result<LocalStore<D>, (NoMemory, Journal<D>)>
        requires list { recovered.entries.items ≡ list_of journal }
        requires no_writes { journal.wrotes ≡ [] }
        requires some { 1 ≤ budget }
        requires few { budget ≤ 100000 }
        ensures started { IfOk result (λ store.
            store ≡ record { core = started recovered.entries.items; journal = journal; budget = budget }) }
        ensures back { IfErr result (λ failed. failed.1 ≡ journal) }
    {
        let _len = journal.len();
        match parts_of(alloc, recovered, budget) {
            Ok((core, region)) => Ok(LocalStore {
                alloc,
                books: Books { core, journal },
                budget,
                region,
            }),
            Err(NoMemory) => Err((NoMemory, journal)),
        }
    }

    /// Gives the core and the journal back. The core has no flight, and all events and writes are those of seat 0.
    pub fn close(self) -> (Core, Journal<D>)
        ensures core { result.0 ≡ self.core }
        ensures journal { result.1 ≡ self.journal }
        ensures store { IsStore self }
        ensures kept { KeepsJournal D.state self.journal }
    {
        let Books { core, journal } = self.books;
        let _len = journal.len();
        (core, journal)
    }
}

/// The core of a store of these entries, and a region for this many splits.
fn parts_of(
    alloc: Global,
    recovered: Recovered,
    budget: u32,
) -> Result<(Core, TreeRegion), NoMemory>
    requires entries { length recovered.entries.items ≤ 2 ^ 20 }
    requires few { budget ≤ 100000 }
    ensures core { IfOk result (λ parts. parts.0 ≡ started recovered.entries.items) }
    ensures region { IfOk result (λ parts. IsBlank budget parts.1) }
{
    let core = Core::new(alloc, recovered.entries)?;
    let region = TreeRegion::reserve(alloc, budget)?;
    Ok((core, region))
}

impl<D: Disk> SliceOracle for LocalStore<D> {
    ghost seat = { λ store. seat_of_store store };

    ghost budget = { λ store. store.budget };

    ghost Origin = { JournalOrigin D };

    ghost origin = { λ store. origin_of store.journal };

    /// The reply to a key, as the trait says. An entry of its own flight comes from a search of at most the budget's
    /// splits.
    fn ask(&mut self, key: &Key) -> Result<Reply, NoMemory>
        requires { IsBoxed key.now }
        ensures asks { IfOk result (λ reply.
            Asks self.old.budget key.now reply (seat_of_store self.old) (seat_of_store self.new)) }
        ensures in_vain { OnErr result (FailsInVain key.now (seat_of_store self.old) (seat_of_store self.new)) }
        ensures budget { self.new.budget ≡ self.old.budget }
        ensures origin { origin_of self.new.journal ≡ origin_of self.old.journal }

        ensures searched { IfOk result (IsSearchedWithin self.old.budget key.now) }
    {
        answer_key(
            self.alloc,
            &mut self.books,
            key,
            self.budget,
            &mut self.region,
        )
    }
}

/// The reply to a key: from the first entry that decides it, where one does; else from a flight.
fn answer_key<D: Disk>(
    alloc: Global,
    books: &mut Books<D>,
    key: &Key,
    budget: u32,
    region: &mut TreeRegion,
) -> Result<Reply, NoMemory>
    requires own { IsOwn books.old.core }
    requires journal { IsJournalOf books.old.core books.old.journal }
    requires boxed { IsBoxed key.now }
    requires some { 1 ≤ budget }
    requires few { budget ≤ 100000 }
    requires blank { IsBlank budget region.old }
    ensures asks { IfOk result (λ reply. Asks budget key.now reply (seat_of_both books.old.core books.old.journal)
        (seat_of_both books.new.core books.new.journal)) }
    ensures searched { IfOk result (IsSearchedWithin budget key.now) }
    ensures in_vain { OnErr result (FailsInVain key.now (seat_of_both books.old.core books.old.journal)
        (seat_of_both books.new.core books.new.journal)) }
    ensures own { IsOwn books.new.core }
    ensures journal { IsJournalOf books.new.core books.new.journal }
    ensures origin { origin_of books.new.journal ≡ origin_of books.old.journal }
    ensures blank { IsBlank budget region.new }
{
    cores_take_turns();
    match hit(&books.core, key)? {
        Some(reply) => Ok(reply),
        None => fly(alloc, books, key, budget, region),
    }
}
