//! Laws of entries, logs and replies, each the contract of a function that does nothing, or only calls such laws of
//! crates below.
ghost use Rattle.cert_check.specs.Laws.{DecidingEntriesSettle, EntriesDecideTheirKeys, FirstPlacesExist};
ghost use Rattle.cert_check.specs.Laws.{LogsDetermineEntries, EventsDetermineLogs, PlacesStay, LegalLogsTell};
ghost use Rattle.cert_check.specs.Laws.{LogsGoOn, FrontsAreLegal, EntriesStay, FlightsBeginRightly, FlightsStayApart};
ghost use Rattle.cert_check.specs.Laws.{RepliesGoOnStanding, RepliesSettle};
ghost use Rattle.cert_check.specs.Shrunk.{ShrunkEntriesDecide};
ghost use Rattle.cert_check.specs.Runs.{AskingKeepsReplies, AsksJoin, FlightsAreCounted, WritesAreKept};

use atom_implies::{covered_keys_hold, table_is_right};
use lin_model::order_is_total;
use refutation::refuted_keys_have_no_point;

/// A checked entry settles each key that it decides: its point has a value for each variable of the key and satisfies
/// it, or no point does.
pub fn deciding_entries_settle()
    ensures { DecidingEntriesSettle }
{
    covered_keys_hold();
    refuted_keys_have_no_point();
}

/// An entry decides its own key.
pub fn entries_decide_their_keys()
    ensures { EntriesDecideTheirKeys }
{}

/// The entry of a core of a key decides the key.
pub fn shrunk_entries_decide()
    ensures { ShrunkEntriesDecide }
{}

/// Whether an entry decides a key can be told, so each list of entries has, for each key, a first entry that decides
/// it, or none.
pub fn first_places_exist()
    ensures { FirstPlacesExist }
{
    order_is_total();
    table_is_right();
}

/// Opening entries and a log have one list of entries.
pub fn logs_determine_entries()
    ensures { LogsDetermineEntries }
{}

/// The events of a log determine it, with the entries after it.
pub fn events_determine_logs()
    ensures { EventsDetermineLogs }
{}

/// Where entries come behind, a log tells what it told.
pub fn places_stay()
    ensures { PlacesStay }
{}

/// A legal log tells its own events: its kept entries stand at their places.
pub fn legal_logs_tell()
    ensures { LegalLogsTell }
{}

/// A legal log and one turn more, which may come after it, make a legal log, which leads to the state after the turn.
pub fn logs_go_on()
    ensures { LogsGoOn }
{}

/// Each front of a legal log is legal.
pub fn fronts_are_legal()
    ensures { FrontsAreLegal }
{}

/// Where a legal log goes on, its entries stay at the front of the list.
pub fn entries_stay()
    ensures { EntriesStay }
{}

/// Each flight of a legal log began when its seat had seen all entries, and none of them decided its key.
pub fn flights_begin_rightly()
    ensures { FlightsBeginRightly }
{}

/// After a legal log no two flights have one seat or one key.
pub fn flights_stay_apart()
    ensures { FlightsStayApart }
{}

/// A reply that stands for a front of a legal log stands for the whole log.
pub fn replies_go_on_standing()
    ensures { RepliesGoOnStanding }
{}

/// A reply that stands with an entry settles its key: the entry's point satisfies it, or no point does.
pub fn replies_settle()
    ensures { RepliesSettle }
{
    deciding_entries_settle();
}

/// Where keys are asked one after another, the seat gains just the turns and writes of their replies, all replies
/// stand in the end, each says rightly whether it was saved at all, and the numbers of entries seen never fall.
pub fn asking_keeps_replies()
    ensures { AskingKeepsReplies }
{}

/// Keys that were asked, and then more, were asked in order.
pub fn asks_join()
    ensures { AsksJoin }
{}

/// Each reply but a hit took one flight of the seat, a hit took none, and the seat began no other: so the events tell.
pub fn flights_are_counted()
    ensures { FlightsAreCounted }
{}

/// What the journal did for each reply that was kept is among the writes that the seat has seen.
pub fn writes_are_kept()
    ensures { WritesAreKept }
{}
