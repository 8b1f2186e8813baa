//! Laws of asking, each the contract of a function that only calls such laws of crates below.
ghost use Rattle.shared_store.specs.Laws.{KeysCanBeAsked, KeysCanBeSolved};

use box_solver::answers_exist;
use cert_check::{entries_decide_their_keys, first_places_exist, shrunk_entries_decide};
use unsat_core::{chosen_are_keys, refuted_keys_have_cores};

/// Each key that bounds its variables can be asked of each seat over checked entries: some reply is what `ask`
/// promises, that of a local store too, and leaves such a seat. So `ask` isn't left to want of memory alone.
pub fn each_key_can_be_asked()
    ensures asked { KeysCanBeAsked }
    ensures solved { KeysCanBeSolved }
{
    answers_exist();
    chosen_are_keys();
    refuted_keys_have_cores();
    shrunk_entries_decide();
    entries_decide_their_keys();
    first_places_exist();
}
