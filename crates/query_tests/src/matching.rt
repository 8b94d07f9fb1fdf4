//! Queries: what each operator finds among null, two numbers, a text, an array and a document without the field; the order
//! of texts; and the rules that a query may break.

use crate::fixtures::{key, number, put, root};
use document_keys::{Database, FieldPath, Segment, Sequence, Text};
use queries::{
    Cursor, Filter, FilterKind, Junction, Operator, Order, Query, QueryFault, QueryRule,
    RawCollection, RawQuery, Target, UnaryOp,
};
use std::alloc::Global;
use std::process::Abort;
use std::test::Fail;
use value_model::{DocRef, DocState, Fields, Kind, Value};

/// Operators with a number as operand, and which of the six documents they find.
static COMPARISONS: [(Operator, i64, [bool; 6]); 7] = [
    (
        Operator::Equal,
        1,
        [false, true, false, false, false, false],
    ),
    (
        Operator::LessThan,
        2,
        [false, true, false, false, false, false],
    ),
    (
        Operator::LessThanOrEqual,
        2,
        [false, true, true, false, false, false],
    ),
    (
        Operator::GreaterThan,
        1,
        [false, false, true, false, false, false],
    ),
    (
        Operator::GreaterThanOrEqual,
        1,
        [false, true, true, false, false, false],
    ),
    (
        Operator::NotEqual,
        1,
        [false, false, true, true, true, false],
    ),
    (
        Operator::ArrayContains,
        1,
        [false, false, false, false, true, false],
    ),
];

fn null() -> Value {
    Value { kind: Kind::Null }
}

fn text(alloc: Global, content: &str) -> Result<Value, Fail> {
    let kind = Kind::Text(Text::from_str(alloc, content)?);
    Ok(Value { kind })
}

/// An array of this number, and of null where that is asked for.
fn array(alloc: Global, first: i64, with_null: bool) -> Result<Value, Fail> {
    let mut values = Vec::new(alloc);
    values.push(number(first))?;
    if with_null {
        values.push(null())?;
    }
    Ok(Value::array(alloc, values)?)
}

/// The field `n` of the document of this index; the sixth has none.
fn field(alloc: Global, index: usize) -> Result<Option<Value>, Fail> {
    match index {
        0 => Ok(Some(null())),
        1 => Ok(Some(number(1))),
        2 => Ok(Some(number(2))),
        3 => Ok(Some(text(alloc, "x")?)),
        4 => Ok(Some(array(alloc, 1, false)?)),
        _ => Ok(None),
    }
}

fn fields(alloc: Global, value: Option<Value>) -> Result<Fields, Fail> {
    let mut fields = Fields::new(alloc);
    if let Some(value) = value {
        put(alloc, &mut fields, "n", value)?;
    }
    Ok(fields)
}

fn compared(alloc: Global, op: Operator, value: Value) -> Result<Filter, Fail> {
    let path = FieldPath::read(alloc, "n")?;
    let kind = FilterKind::Field { path, op, value };
    Ok(Filter { kind })
}

fn tested(alloc: Global, op: UnaryOp) -> Result<Filter, Fail> {
    let path = FieldPath::read(alloc, "n")?;
    let kind = FilterKind::Unary { path, op };
    Ok(Filter { kind })
}

fn rooms(alloc: Global, filter: Option<Filter>) -> Result<RawCollection, Fail> {
    let mut from = Vec::new(alloc);
    from.push(Segment::read(alloc, "rooms")?)?;
    Ok(RawCollection {
        parent: None,
        from: Sequence::from_vec(from),
        filter,
        orders: Sequence::new(alloc),
        start_at: None,
        end_at: None,
        limit: None,
    })
}

fn query(alloc: Global, filter: Filter) -> Result<Query, Fail> {
    let raw = rooms(alloc, Some(filter))?;
    Ok(Query::check(alloc, RawQuery::Collection(raw))?)
}

fn check_document(
    rt: &(impl Abort + AllocGlobal),
    query: &Query,
    root: &Database,
    index: usize,
    wanted: bool,
) -> Result<(), Fail> {
    let key = key(rt.alloc(), &["rooms", "a"])?;
    let fields = fields(rt.alloc(), field(rt.alloc(), index)?)?;
    assert!(rt; query.matches(root, &key, &fields) == wanted, "at {index}");
    Ok(())
}

fn check_found(
    rt: &(impl Abort + AllocGlobal),
    query: &Query,
    wanted: [bool; 6],
) -> Result<(), Fail> {
    let root = root(rt.alloc())?;
    for (index, is_wanted) in wanted.iter().enumerate() {
        check_document(rt, query, &root, index, *is_wanted)?;
    }
    Ok(())
}

fn check_operator(
    rt: &(impl Abort + AllocGlobal),
    op: Operator,
    operand: Value,
    wanted: [bool; 6],
) -> Result<(), Fail> {
    let query = query(rt.alloc(), compared(rt.alloc(), op, operand)?)?;
    check_found(rt, &query, wanted)
}

#[test]
fn comparisons(rt: HostRuntime) -> Result<(), Fail> {
    for (op, operand, wanted) in COMPARISONS {
        check_operator(&rt, op, number(operand), wanted)?;
    }
    Ok(())
}

#[test]
fn equal_to_null(rt: HostRuntime) -> Result<(), Fail> {
    check_operator(
        &rt,
        Operator::Equal,
        null(),
        [true, false, false, false, false, false],
    )
}

#[test]
fn lists_of_operands(rt: HostRuntime) -> Result<(), Fail> {
    for (op, with_null, wanted) in [
        (
            Operator::IsIn,
            true,
            [true, true, false, false, false, false],
        ),
        (
            Operator::IsNotIn,
            false,
            [false, false, true, true, true, false],
        ),
        (
            Operator::IsNotIn,
            true,
            [false, false, false, false, false, false],
        ),
        (
            Operator::ArrayContainsAny,
            true,
            [false, false, false, false, true, false],
        ),
    ] {
        let operand = array(rt.alloc(), 1, with_null)?;
        check_operator(&rt, op, operand, wanted)?;
    }
    Ok(())
}

fn check_tested(
    rt: &(impl Abort + AllocGlobal),
    op: UnaryOp,
    wanted: [bool; 6],
) -> Result<(), Fail> {
    let query = query(rt.alloc(), tested(rt.alloc(), op)?)?;
    check_found(rt, &query, wanted)
}

#[test]
fn tests_of_null(rt: HostRuntime) -> Result<(), Fail> {
    for (op, wanted) in [
        (UnaryOp::IsNull, [true, false, false, false, false, false]),
        (UnaryOp::IsNotNull, [false, true, true, true, true, false]),
    ] {
        check_tested(&rt, op, wanted)?;
    }
    Ok(())
}

/// The query of all rooms, ordered by `n`.
fn by_n(alloc: Global, descending: bool) -> Result<Query, Fail> {
    let path = FieldPath::read(alloc, "n")?;
    let mut orders = Vec::new(alloc);
    orders.push(Order { path, descending })?;
    let mut raw = rooms(alloc, None)?;
    raw.orders = Sequence::from_vec(orders);
    Ok(Query::check(alloc, RawQuery::Collection(raw))?)
}

fn check_before(
    rt: &(impl Abort + AllocGlobal),
    query: &Query,
    first: &str,
    second: &str,
) -> Result<bool, Fail> {
    let key = key(rt.alloc(), &["rooms", "a"])?;
    let left = fields(rt.alloc(), Some(text(rt.alloc(), first)?))?;
    let right = fields(rt.alloc(), Some(text(rt.alloc(), second)?))?;
    Ok(is_before(query, &key, &left, &right))
}

fn is_before(
    query: &Query,
    key: &document_keys::DocumentKey,
    left: &Fields,
    right: &Fields,
) -> bool {
    let lent = |fields| DocRef {
        key,
        fields,
        update_time: None,
        state: DocState::Pending,
    };
    query.before(lent(left), lent(right))
}

/// By the query the first text stands before the second one, and not behind it.
fn check_pair(
    rt: &(impl Abort + AllocGlobal),
    query: &Query,
    first: &str,
    second: &str,
) -> Result<(), Fail> {
    let is_first = check_before(rt, query, first, second)?;
    let is_second = check_before(rt, query, second, first)?;
    assert!(rt; is_first && !is_second, "{first} {second}");
    Ok(())
}

fn check_texts(rt: &(impl Abort + AllocGlobal), query: &Query) -> Result<(), Fail> {
    for (first, second) in [
        ("Z", "a"),
        ("a", "é"),
        ("é", "\u{fffd}"),
        ("\u{fffd}", "\u{1f600}"),
    ] {
        check_pair(rt, query, first, second)?;
    }
    Ok(())
}

#[test]
fn texts_in_order(rt: HostRuntime) -> Result<(), Fail> {
    let ascending = by_n(rt.alloc(), false)?;
    check_texts(&rt, &ascending)
}

#[test]
fn texts_descending(rt: HostRuntime) -> Result<(), Fail> {
    let descending = by_n(rt.alloc(), true)?;
    check_pair(&rt, &descending, "a", "Z")
}

fn check_rule(rt: &(impl Abort + AllocGlobal), raw: RawCollection, rule: QueryRule) {
    match Query::check(rt.alloc(), RawQuery::Collection(raw)) {
        Err(fault) => assert!(rt; fault == QueryFault::BadQuery(rule)),
        Ok(_) => assert!(rt; false, "the query breaks a rule"),
    }
}

#[test]
fn no_collection(rt: HostRuntime) -> Result<(), Fail> {
    let mut raw = rooms(rt.alloc(), None)?;
    raw.from = Sequence::new(rt.alloc());
    raw.limit = Some(0);
    check_rule(&rt, raw, QueryRule::OneCollection);
    Ok(())
}

fn joined(alloc: Global, op: Operator) -> Result<Filter, Fail> {
    let mut filters = Vec::new(alloc);
    filters.push(compared(alloc, op, number(1))?)?;
    filters.push(compared(alloc, op, number(2))?)?;
    let kind = FilterKind::Composite {
        op: Junction::And,
        filters,
    };
    Ok(Filter { kind })
}

#[test]
fn two_negations(rt: HostRuntime) -> Result<(), Fail> {
    let raw = rooms(rt.alloc(), Some(joined(rt.alloc(), Operator::NotEqual)?))?;
    check_rule(&rt, raw, QueryRule::Negations);
    Ok(())
}

#[test]
fn two_array_filters(rt: HostRuntime) -> Result<(), Fail> {
    let raw = rooms(
        rt.alloc(),
        Some(joined(rt.alloc(), Operator::ArrayContains)?),
    )?;
    check_rule(&rt, raw, QueryRule::ArrayFilters);
    Ok(())
}

#[test]
fn no_operands(rt: HostRuntime) -> Result<(), Fail> {
    let none = Value::array(rt.alloc(), Vec::new(rt.alloc()))?;
    let raw = rooms(
        rt.alloc(),
        Some(compared(rt.alloc(), Operator::IsIn, none)?),
    )?;
    check_rule(&rt, raw, QueryRule::Lists);
    Ok(())
}

#[test]
fn cursor_without_values(rt: HostRuntime) -> Result<(), Fail> {
    let mut raw = rooms(rt.alloc(), None)?;
    raw.start_at = Some(Cursor {
        values: Sequence::new(rt.alloc()),
        before: false,
    });
    check_rule(&rt, raw, QueryRule::Cursors);
    Ok(())
}

#[test]
fn negative_limit(rt: HostRuntime) -> Result<(), Fail> {
    let mut raw = rooms(rt.alloc(), None)?;
    raw.limit = Some(-1);
    check_rule(&rt, raw, QueryRule::Limit);
    Ok(())
}

fn check_target(rt: &impl Abort, target: &Target) {
    match target {
        Target::Document(_) => assert!(rt; false, "a query of a collection"),
        Target::Collection(target) => check_orders(rt, target.orders.as_slice()),
    }
}

fn check_orders(rt: &impl Abort, orders: &[Order]) {
    assert!(rt; orders.len() == 2);
    assert!(rt; orders[0].path.segment(0) == Some("n"));
    assert!(rt; orders[1].path.is_document_name());
    assert!(rt; !orders[0].descending && !orders[1].descending);
}

fn check_implied(rt: &(impl Abort + AllocGlobal), query: &Query) -> Result<(), Fail> {
    let target = query.target(rt.alloc())?;
    check_target(rt, &target);
    Ok(())
}

#[test]
fn implied_orders(rt: HostRuntime) -> Result<(), Fail> {
    let filter = compared(rt.alloc(), Operator::GreaterThan, number(1))?;
    let query = query(rt.alloc(), filter)?;
    check_implied(&rt, &query)
}
