//! Whether a target that was read is that of a checked query.

ghost use Rattle.std.specs.Prelude.{◌≡◌, ◌↔◌, IsTrue, IfOk, IfSome, length};
ghost use Rattle.document_keys.specs.Names.{IsCollection};
ghost use Rattle.queries.specs.Queried.{IsSameLimit};
ghost use Rattle.target_codec.specs.Checked.{HasOrders, IsReadAgain};
ghost use Rattle.target_codec.specs.Spelling.{IsOfCheckedQuery, IsSpelledLimit};

use document_keys::{CollectionPath, NameFault, NoMemory, Segment, Sequence};
use queries::{
    CollectionTarget, Cursor, Filter, Query, QueryFault, RawCollection, RawQuery, Target,
};
use std::alloc::Global;

/// The first id of the collection's path, as a list of one.
fn from_of(alloc: Global, path: &CollectionPath) -> Result<Sequence<Segment>, NoMemory>
    ensures { IfOk result (λ from. length from ≡ 1) }
{
    let _count = path.len();
    let Some(name) = path.segment(0) else {
        unreachable!();
    };
    let id = match Segment::read(alloc, name) {
        Ok(id) => id,
        Err(NameFault::NoMemory) => return Err(NoMemory),
        Err(_) => unreachable!(),
    };
    let mut ids = Vec::new(alloc);
    ids.push(id)?;
    Ok(Sequence::from_vec(ids))
}

/// A copy of the filter, where there is one.
fn copy_filter(alloc: Global, filter: &Option<Filter>) -> Result<Option<Filter>, NoMemory>
    ensures { IfOk result (λ copy. copy ≡ filter.now) }
{
    match filter {
        None => Ok(None),
        Some(filter) => Ok(Some(filter.copy(alloc)?)),
    }
}

/// A copy of the cursor, where there is one.
fn copy_cursor(alloc: Global, cursor: &Option<Cursor>) -> Result<Option<Cursor>, NoMemory>
    ensures { IfOk result (λ copy. copy ≡ cursor.now) }
{
    match cursor {
        None => Ok(None),
        Some(cursor) => Ok(Some(cursor.copy(alloc)?)),
    }
}

/// A limit with a sign.
fn signed(limit: Option<u32>) -> Option<i32>
    requires { IfSome limit IsSpelledLimit }
    ensures { IsSameLimit result limit }
{
    match limit {
        Some(limit) => Some(limit as i32),
        None => None,
    }
}

/// The target as a query that is read again, without the document above its collection, of which no rule speaks.
fn raw_of(alloc: Global, target: &CollectionTarget) -> Result<RawCollection, NoMemory>
    requires { IfSome target.now.limit IsSpelledLimit }
    ensures { IfOk result (λ raw. IsReadAgain target.now raw) }
{
    let from = from_of(alloc, &target.collection)?;
    let filter = copy_filter(alloc, &target.filter)?;
    let orders = target.orders.copy(alloc)?;
    let start_at = copy_cursor(alloc, &target.start_at)?;
    let end_at = copy_cursor(alloc, &target.end_at)?;
    Ok(RawCollection {
        parent: None,
        from,
        filter,
        orders,
        start_at,
        end_at,
        limit: signed(target.limit),
    })
}

/// Whether the query is one of a collection with so many orders.
fn has_orders(query: &Query, count: usize) -> bool
    ensures { IsTrue result ↔ HasOrders query.now count }
{
    match query.as_target() {
        Target::Document(_) => false,
        Target::Collection(target) => target.orders.as_slice().len() == count,
    }
}

/// Whether the target is what a query that breaks no rule is once it is checked.
///
/// # Errors
/// `NoMemory`
pub(crate) fn is_checked(alloc: Global, target: &CollectionTarget) -> Result<bool, NoMemory>
    requires collection { IsCollection target.now.collection }
    requires limit { IfSome target.now.limit IsSpelledLimit }
    ensures { IfOk result (λ is. IsTrue is ↔ IsOfCheckedQuery target.now) }
{
    let raw = raw_of(alloc, target)?;
    match Query::check(alloc, RawQuery::Collection(raw)) {
        Ok(query) => Ok(has_orders(&query, target.orders.as_slice().len())),
        Err(QueryFault::BadQuery(_)) => Ok(false),
        Err(QueryFault::NoMemory) => Err(NoMemory),
    }
}
