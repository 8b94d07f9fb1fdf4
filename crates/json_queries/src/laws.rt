//! Laws of the trees of queries. Nothing is done when they run.

ghost use Rattle.json_queries.specs.Laws.{ATreeSpellsOneQuery, PrintedTargetsReadBack};

/// A tree spells one query at most.
pub fn a_tree_spells_one_query()
    ensures { ATreeSpellsOneQuery }
{}

/// What a target that can be stored prints reads back as the query with the same members.
pub fn printed_targets_read_back()
    ensures { PrintedTargetsReadBack }
{}
