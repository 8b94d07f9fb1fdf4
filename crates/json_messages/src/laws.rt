//! Laws of the trees of messages. Nothing is done when they run.

ghost use Rattle.json_messages.specs.Laws.{ATreeSpellsOneAnswer, ATreeSpellsOneResponse, ATreeSpellsOneStatus};

/// A tree spells one message of a watch stream at most.
pub fn a_tree_spells_one_response()
    ensures { ATreeSpellsOneResponse }
{}

/// A tree spells one status at most.
pub fn a_tree_spells_one_status()
    ensures { ATreeSpellsOneStatus }
{}

/// A tree spells one message of a write stream at most.
pub fn a_tree_spells_one_answer()
    ensures { ATreeSpellsOneAnswer }
{}
