//! The whole list of a query's orders.

ghost use Rattle.std.specs.Prelude.{◌≡◌, ◌↔◌, false, [], ◌++◌, map, IsTrue, IfOk, OnOk, MatchOption, option_to_list};
ghost use Rattle.std.specs.List.{Contains};
ghost use Rattle.document_keys.specs.KeySet.{IsAscending};
ghost use Rattle.queries.specs.Filters.{nodes, nodes_in, filters_of};
ghost use Rattle.queries.specs.Orders.{is_inequality, IsInequalityBy, paths_of, all_nodes, last_direction, order_by, IsNameOrder, Implies, Gathers, AreWhole};

use crate::filter::{Filter, FilterKind, Operator, UnaryOp};
use crate::order::Order;
use document_keys::{FieldPath, NoMemory, PathSet, Sequence};
use std::alloc::Global;

/// Whether one of the orders is by the path.
fn are_by(orders: &[Order], path: &FieldPath) -> bool
    ensures { IsTrue result ↔ Contains (paths_of orders.now) path.now }
{
    for order in orders {
        if order.path == *path {
            return true;
        }
    }
    false
}

/// The direction of the last order; `false`, which is ascending, where there is none.
fn last_direction(orders: &[Order]) -> bool
    ensures { result ≡ last_direction orders.now }
{
    match orders.last() {
        Some(order) => order.descending,
        None => false,
    }
}

/// The field that the filter makes an order by itself.
fn inequality(filter: &Filter) -> Option<&FieldPath>
    ensures { MatchOption result (is_inequality filter.now ≡ false)
        (λ path. IsInequalityBy filter.now path.now) }
{
    match &filter.kind {
        FilterKind::Field { path, op, .. } => match op {
            Operator::LessThan
            | Operator::LessThanOrEqual
            | Operator::GreaterThan
            | Operator::GreaterThanOrEqual
            | Operator::NotEqual
            | Operator::IsNotIn => Some(path),
            _ => None,
        },
        FilterKind::Unary { path, op } => match op {
            UnaryOp::IsNotNull => Some(path),
            UnaryOp::IsNull => None,
        },
        FilterKind::Composite { .. } => None,
    }
}

/// Adds the path, if it isn't the name and isn't among the explicit orders.
fn imply(
    alloc: Global,
    path: &FieldPath,
    explicit: &[Order],
    paths: &mut PathSet,
) -> Result<(), NoMemory>
    ensures { OnOk result (Implies explicit.now path.now paths.old paths.new) }
{
    if path.is_document_name() || are_by(explicit, path) {
        return Ok(());
    }
    paths.insert(path.copy(alloc)?)
}

/// Adds the fields that the filter implies.
#[cycle(gathering)]
fn gather(
    alloc: Global,
    filter: &Filter,
    explicit: &[Order],
    paths: &mut PathSet,
) -> Result<(), NoMemory>
    ensures { OnOk result (Gathers explicit.now (nodes filter.now) paths.old paths.new) }
{
    if let FilterKind::Composite { filters, .. } = &filter.kind {
        return gather_all(alloc, filters, explicit, paths);
    }
    match inequality(filter) {
        Some(path) => imply(alloc, path, explicit, paths),
        None => Ok(()),
    }
}

/// Adds the fields that the filters imply.
#[cycle(gathering)]
fn gather_all(
    alloc: Global,
    filters: &Vec<Filter>,
    explicit: &[Order],
    paths: &mut PathSet,
) -> Result<(), NoMemory>
    ensures { OnOk result (Gathers explicit.now
        (nodes_in (filters_of filters.now.items)) paths.old paths.new) }
{
    for filter in filters {
        gather(alloc, filter, explicit, paths)?;
    }
    Ok(())
}

/// The fields that the filter implies, in the order of their paths.
fn implied(alloc: Global, explicit: &[Order], filter: &Option<Filter>) -> Result<PathSet, NoMemory>
    ensures members { IfOk result (λ paths. Gathers explicit.now (all_nodes filter.now) [] paths) }
    ensures ascending { IfOk result IsAscending }
{
    let mut paths = PathSet::new(alloc);
    let Some(filter) = filter else {
        return Ok(paths);
    };
    gather(alloc, filter, explicit, &mut paths)?;
    let _ = paths.as_slice();
    Ok(paths)
}

/// The order by the name, where it isn't among the explicit ones.
fn name_order(
    alloc: Global,
    explicit: &[Order],
    descending: bool,
) -> Result<Option<Order>, NoMemory>
    ensures { IfOk result (IsNameOrder explicit.now descending) }
{
    let path = FieldPath::document_name(alloc)?;
    if are_by(explicit, &path) {
        return Ok(None);
    }
    Ok(Some(Order { path, descending }))
}

/// The explicit orders, and those by the added fields.
fn extend(
    alloc: Global,
    explicit: Sequence<Order>,
    added: &[FieldPath],
    descending: bool,
) -> Result<Vec<Order>, NoMemory>
    ensures { IfOk result (λ orders. orders.items ≡ explicit ++ map (order_by descending) added.now) }
{
    let mut orders = explicit.into_vec();
    for path in added {
        orders.push(Order {
            path: path.copy(alloc)?,
            descending,
        })?;
    }
    Ok(orders)
}

/// The orders, and the last one.
fn end_with(orders: Vec<Order>, last: Option<Order>) -> Result<Sequence<Order>, NoMemory>
    ensures { IfOk result (λ all. all ≡ orders.items ++ option_to_list last) }
{
    let mut orders = orders;
    let Some(order) = last else {
        return Ok(Sequence::from_vec(orders));
    };
    orders.push(order)?;
    Ok(Sequence::from_vec(orders))
}

/// The whole list of orders: behind the explicit ones the fields that the filter implies, and the name.
///
/// # Errors
/// `NoMemory`
pub(crate) fn whole_orders(
    alloc: Global,
    explicit: Sequence<Order>,
    filter: &Option<Filter>,
) -> Result<Sequence<Order>, NoMemory>
    ensures { IfOk result (λ orders. AreWhole explicit filter.now orders) }
{
    let descending = last_direction(explicit.as_slice());
    let added = implied(alloc, explicit.as_slice(), filter)?;
    let last = name_order(alloc, explicit.as_slice(), descending)?;
    let orders = extend(alloc, explicit, added.as_slice(), descending)?;
    end_with(orders, last)
}
