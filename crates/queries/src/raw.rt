use crate::filter::Filter;
use crate::order::{Cursor, Order};
use document_keys::{DocumentKey, NoMemory, Segment, Sequence};

/// A query as it was read: one document, or collections with filter, orders, cursors and limit.
#[derive(Debug, Drop)]
pub enum RawQuery {
    Document(DocumentKey),
    Collection(RawCollection),
}

/// A query of collections as it was read.
#[derive(Debug, Drop)]
pub struct RawCollection {
    /// The document that has the collections; without one they stand at the root's `documents`.
    pub parent: Option<DocumentKey>,
    /// The collections' ids.
    pub from: Sequence<Segment>,
    pub filter: Option<Filter>,
    pub orders: Sequence<Order>,
    pub start_at: Option<Cursor>,
    pub end_at: Option<Cursor>,
    pub limit: Option<i32>,
}

/// A rule of queries; its number is how it is told.
#[derive(Clone, Copy, Debug, PartialEq, Eq)]
pub enum QueryRule {
    /// There is exactly one collection.
    OneCollection = 1,
    /// At most one filter is by NOT_EQUAL or NOT_IN, and none by NOT_IN beside an OR, IN or ARRAY_CONTAINS_ANY.
    Negations = 2,
    /// No list of filters or operands is empty; IN and ARRAY_CONTAINS_ANY have at most 30 operands, NOT_IN at most 10.
    Lists = 3,
    /// A cursor has values, and no more than there are orders in the whole list.
    Cursors = 4,
    /// A limit is at least 1.
    Limit = 5,
    /// An AND has at most one direct member by ARRAY_CONTAINS or ARRAY_CONTAINS_ANY.
    ArrayFilters = 6,
}

/// Why a query isn't taken.
#[derive(Clone, Copy, Debug, PartialEq, Eq)]
pub enum QueryFault {
    /// It breaks this rule, and none of a lesser number.
    BadQuery(QueryRule),
    /// No memory was found.
    NoMemory,
}

impl From<NoMemory> for QueryFault {
    ghost use Rattle.std.specs.Prelude.{◌≡◌};
    ghost use Rattle.queries.specs.declared.raw.QueryFault.TheVariants as query_fault;

    ghost from_gives = { λ _ fault. fault ≡ query_fault.NoMemory };

    fn from(_error: NoMemory) -> QueryFault {
        QueryFault::NoMemory
    }
}
