//! Laws of cores, each the contract of a function that does nothing, or only calls laws that it rests on.

ghost use Rattle.unsat_core.specs.Laws.{ChosenAreKeys, RefutedKeysHaveCores};

use crate::laws::others_can_go;
use lin_model::order_is_total;
use refutation::each_tree_has_one_answer;

/// Chosen atoms of a key are a key.
pub fn chosen_are_keys()
    ensures { ChosenAreKeys }
{
    order_is_total();
}

/// Each key that a tree refutes has a core.
pub fn refuted_keys_have_cores()
    ensures { RefutedKeysHaveCores }
{
    others_can_go();
    each_tree_has_one_answer();
}
