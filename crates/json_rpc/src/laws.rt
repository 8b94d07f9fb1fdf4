//! Laws of the trees of writes. Nothing is done when they run.

ghost use Rattle.json_rpc.specs.Laws.{ATreeSpellsOneWrite, PrintedWritesReadBack};

/// A tree spells one write at most.
pub fn a_tree_spells_one_write()
    ensures { ATreeSpellsOneWrite }
{}

/// What a write that can be stored prints reads back as it.
pub fn printed_writes_read_back()
    ensures { PrintedWritesReadBack }
{}
