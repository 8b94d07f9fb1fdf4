//! Laws of the definitions.

ghost use Rattle.write_pipeline.specs.Laws.{BatchesGoInOrder};

/// Batches go out in order, at most 10 at a time.
pub fn batches_go_in_order()
    ensures { BatchesGoInOrder }
{}
