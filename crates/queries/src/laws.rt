//! Laws of queries. Nothing is done when they run.

ghost use Rattle.queries.specs.Laws.{WholeOrdersAreOne, RowsAreOrdered, AnswersAreOrdered, AnswersAreOne, AnswersAreFronts, AnswersStay, DocumentsAnswer};

/// The explicit orders and the filter determine the whole list of orders.
pub fn whole_orders_are_one()
    ensures { WholeOrdersAreOne }
{}

/// Lists of values for the fields of orders are in a strict total order.
pub fn rows_are_ordered()
    ensures { RowsAreOrdered }
{}

/// The documents that match a checked query are in a strict order, which is total on different keys.
pub fn answers_are_ordered()
    ensures { AnswersAreOrdered }
{}

/// A query has one answer over the documents of a store.
pub fn answers_are_one()
    ensures { AnswersAreOne }
{}

/// The answer of a query of one document is its key, where there is such a document.
pub fn documents_answer()
    ensures { DocumentsAnswer }
{}

/// With a limit the answer is the front of what it is without one.
pub fn answers_are_fronts()
    ensures { AnswersAreFronts }
{}

/// An answer stays where its documents do, and each other document that matches then is past its limit.
pub fn answers_stay()
    ensures { AnswersStay }
{}
