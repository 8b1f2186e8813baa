//! Laws of answers, each the contract of a function that does nothing, or only calls such laws of crates below.
ghost use Rattle.pipeline.specs.Laws.{AnswersAreRight, EachHasAnswer, SufficientDecides};
ghost use Rattle.pipeline.specs.Runs.{AnsweringKeepsAnswers};

use canoniser::keys_exist;
use cert_check::{
    asking_keeps_replies, asks_join, replies_go_on_standing, replies_settle, writes_are_kept,
};
use refutation::{bounded_keys_are_boxed, open_trees_are_below_room};
use slicer::{slices_are_a_partition, slices_exist};

/// Where each key can be asked, every query within its limits has an answer that its contract allows.
pub fn answers_exist()
    ensures { EachHasAnswer }
{
    slices_exist();
    slices_are_a_partition();
    keys_exist();
    bounded_keys_are_boxed();
    asking_keeps_replies();
    replies_settle();
}

/// An answered query's answer is right, and what its parts say of their saves is so.
pub fn answers_are_right()
    ensures { AnswersAreRight }
{
    asking_keeps_replies();
    writes_are_kept();
}

/// Where queries are answered one after another, all answers are right for what the seat has seen in the end, and it
/// gains just the turns and the writes of their parts.
pub fn answering_keeps_answers()
    ensures { AnsweringKeepsAnswers }
{
    asking_keeps_replies();
    asks_join();
    replies_go_on_standing();
}

/// A budget of at least the room of the key of each slice that was asked leaves no slice open and no query unknown.
pub fn sufficient_budgets_decide()
    ensures { SufficientDecides }
{
    open_trees_are_below_room();
}
