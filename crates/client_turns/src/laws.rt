//! Laws of turns. Nothing is done when they run.

ghost use Rattle.client_turns.specs.Laws.{ATurnIsOne};
ghost use Rattle.client_turns.specs.Order.{WritesGoInOrder};

/// An event has one turn: the state before it and what was heard determine it.
pub fn a_turn_is_one()
    ensures { ATurnIsOne }
{}

/// The pending batches go out in order, none skipped, and leave in order.
pub fn writes_go_in_order()
    ensures { WritesGoInOrder }
{}
