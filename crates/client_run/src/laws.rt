//! Laws of runs. These functions do nothing: their contracts are the laws.

ghost use Rattle.client_run.specs.Agreement.{RunsChain};
ghost use Rattle.client_run.specs.Laws.{AHistoryIsOne, ATurnReportsWithin, RunsWriteInOrder};

/// Lines have one history: the readings and the state before them determine every turn.
pub fn a_history_is_one()
    ensures { AHistoryIsOne }
{}

/// No whole line that a turn writes reports a number above that of the state after its commit.
pub fn a_turn_reports_within()
    ensures { ATurnReportsWithin }
{}

/// In every run the pending batches go out in order on the stream of writes, none skipped, and leave in order.
pub fn runs_write_in_order()
    ensures { RunsWriteInOrder }
{}

/// What is sound behind a run is sound at the start of the next one, and so is what blank files find.
pub fn runs_chain()
    ensures { RunsChain }
{}
