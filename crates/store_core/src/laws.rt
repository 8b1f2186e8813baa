//! Laws of cores and of schedules, each the contract of a function that only calls such laws of crates below.
ghost use Rattle.store_core.specs.Laws.{CoresTakeTurns, SchedulesEndRightly, SchedulesHaveOneEnd};

use cert_check::{entries_stay, flights_stay_apart, legal_logs_tell, logs_go_on};
use layers::growth_is_determined;

/// A turn that may come leaves a core: its log is longer by the turn, and leads to the state after it.
pub fn cores_take_turns()
    ensures { CoresTakeTurns }
{
    logs_go_on();
    legal_logs_tell();
    flights_stay_apart();
}

/// Whatever seats do in whatever order, with saves and restarts between: the log since the last restart is legal from
/// the entries of that restart, which are all those saved so far, followed by its own; no two open flights have one key;
/// and of the flights on one key at most one ended with an entry that was kept.
pub fn schedules_end_rightly()
    ensures { SchedulesEndRightly }
{
    cores_take_turns();
    entries_stay();
    flights_stay_apart();
}

/// What steps answer, and the world that they leave, is determined by the steps and the world that they begin with.
pub fn schedules_have_one_end()
    ensures { SchedulesHaveOneEnd }
{
    cores_take_turns();
    growth_is_determined();
}
