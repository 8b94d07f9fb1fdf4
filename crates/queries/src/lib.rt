//! Queries of Firestore: one document, or a collection with filter, orders, cursors and limit.
//!
//! A `RawQuery` is a query as it was read. `Query::check` refuses it by the least of six rules (`QueryRule`), or makes a
//! `Query` of it, which has its whole list of orders: behind the explicit ones the fields that its filter compares, and
//! the name. Contracts see a query as its `Target`, which is what is sent and stored of it, and a `Filter` as plain data
//! (`specs/Filters.antt`). `Query::matches`, `Query::before` and `Query::sort` say which documents an answer has and in
//! what order; they take no memory. `specs/Holding.antt` says when a filter is met, `specs/Rows.antt` how rows and cursors
//! stand, `specs/Answer.antt` what the answer over a store is. A `ListenRequest` is what a watch stream is asked.
#![tactic(auto)]

mod candidate;
mod checking;
mod filter;
mod holding;
mod laws;
mod listen_request;
mod order;
mod query;
mod raw;
mod rows;
mod rules;
mod target;
mod whole_orders;

pub use filter::{Filter, FilterKind, Junction, Operator, UnaryOp};
pub use laws::{
    answers_are_fronts, answers_are_one, answers_are_ordered, answers_stay, documents_answer,
    rows_are_ordered, whole_orders_are_one,
};
pub use listen_request::{ListenRequest, Resume};
pub use order::{Cursor, Order};
pub use query::Query;
pub use raw::{QueryFault, QueryRule, RawCollection, RawQuery};
pub use target::{CollectionTarget, Target};
