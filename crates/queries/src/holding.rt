//! When a document meets a filter.

ghost use Rattle.std.specs.Prelude.{◌≡◌, ◌↔◌, IsTrue};
ghost use Rattle.value_model.specs.Data as Data;
ghost use Rattle.std.specs.List.{Contains};
ghost use Rattle.value_model.specs.Order.{rank};
ghost use Rattle.queries.specs.Holding.{IsOutside, Compares, Passes, Meets, MeetsAll, MeetsOne};
ghost use Rattle.queries.specs.Filters.{filters_of};
ghost use Rattle.queries.specs.Found.{found_data, standing_at};

use crate::candidate::{Candidate, Found};
use crate::filter::{Filter, FilterKind, Junction, Operator, UnaryOp};
use std::cmp::Ordering;
use value_model::{Kind, Value};

impl Found<'_> {
    /// Whether it is null.
    fn is_null(&self) -> bool
        ensures { IsTrue result ↔ (found_data self.now ≡ Data.null) }
    {
        match self {
            Found::Value(value) => is_null(value),
            Found::Name(_) => false,
        }
    }

    /// Whether it is of the value's kind.
    fn is_of_kind(&self, other: &Value) -> bool
        ensures { IsTrue result ↔ (rank (found_data self.now) ≡ rank other.now) }
    {
        self.rank() == other.rank()
    }

    /// Whether it equals the value.
    fn equals(&self, other: &Value) -> bool
        ensures { IsTrue result ↔ (found_data self.now ≡ other.now) }
    {
        self.compare(other) == Ordering::Equal
    }

    /// Whether it is one of the values.
    fn is_among(&self, values: &[Value]) -> bool
        ensures { IsTrue result ↔ Contains values.now (found_data self.now) }
    {
        for value in values {
            if self.equals(value) {
                return true;
            }
        }
        false
    }

    /// Whether it is neither null nor one of the values, and null is none of them.
    fn is_outside(&self, values: &[Value]) -> bool
        ensures { IsTrue result ↔ IsOutside (found_data self.now) values.now }
    {
        !self.is_null() && !self.is_among(values) && !has_null(values)
    }

    /// Whether it stands to the operand as the operator says.
    fn compares(&self, op: Operator, operand: &Value) -> bool
        ensures { IsTrue result ↔ Compares op (found_data self.now) operand.now }
    {
        match op {
            Operator::Equal => self.equals(operand),
            Operator::LessThan => self.is_of_kind(operand) && self.compare(operand).is_lt(),
            Operator::LessThanOrEqual => self.is_of_kind(operand) && self.compare(operand).is_le(),
            Operator::GreaterThan => self.is_of_kind(operand) && self.compare(operand).is_gt(),
            Operator::GreaterThanOrEqual => {
                self.is_of_kind(operand) && self.compare(operand).is_ge()
            }
            Operator::NotEqual => !self.is_null() && !self.equals(operand),
            Operator::IsIn => self.is_among(operand.items()),
            Operator::IsNotIn => self.is_outside(operand.items()),
            Operator::ArrayContains => has(self.items(), operand),
            Operator::ArrayContainsAny => share(self.items(), operand.items()),
        }
    }

    /// Whether it passes the test.
    fn passes(&self, op: UnaryOp) -> bool
        ensures { IsTrue result ↔ Passes op (found_data self.now) }
    {
        match op {
            UnaryOp::IsNull => self.is_null(),
            UnaryOp::IsNotNull => !self.is_null(),
        }
    }
}

/// Whether the value is null.
fn is_null(value: &Value) -> bool
    ensures { IsTrue result ↔ (value.now ≡ Data.null) }
{
    match &value.kind {
        Kind::Null => true,
        _ => false,
    }
}

/// Whether null is one of the values.
fn has_null(values: &[Value]) -> bool
    ensures { IsTrue result ↔ Contains values.now Data.null }
{
    for value in values {
        if is_null(value) {
            return true;
        }
    }
    false
}

/// Whether the value is one of the values.
fn has(values: &[Value], wanted: &Value) -> bool
    ensures { IsTrue result ↔ Contains values.now wanted.now }
{
    for value in values {
        if value.compare(wanted) == Ordering::Equal {
            return true;
        }
    }
    false
}

/// Whether the two lists have a value in common.
fn share(values: &[Value], others: &[Value]) -> bool
    ensures { IsTrue result ↔ ((d : Data.Data) × Contains values.now d × Contains others.now d) }
{
    for value in values {
        if has(others, value) {
            return true;
        }
    }
    false
}

impl Filter {
    /// Whether the document meets the filter.
    #[cycle(meeting)]
    pub(crate) fn is_met_by(&self, candidate: &Candidate<'_>) -> bool
        ensures { IsTrue result ↔ Meets (standing_at candidate.now) self.now }
    {
        match &self.kind {
            FilterKind::Composite { op, filters } => match op {
                Junction::And => are_met_by(filters, candidate),
                Junction::Or => is_one_met_by(filters, candidate),
            },
            FilterKind::Field { path, op, value } => match candidate.at(path) {
                Some(found) => found.compares(*op, value),
                None => false,
            },
            FilterKind::Unary { path, op } => match candidate.at(path) {
                Some(found) => found.passes(*op),
                None => false,
            },
        }
    }
}

/// Whether the document meets each of the filters.
#[cycle(meeting)]
fn are_met_by(filters: &Vec<Filter>, candidate: &Candidate<'_>) -> bool
    ensures { IsTrue result ↔ MeetsAll (standing_at candidate.now) (filters_of filters.now.items) }
{
    for filter in filters {
        if !filter.is_met_by(candidate) {
            return false;
        }
    }
    true
}

/// Whether the document meets one of the filters.
#[cycle(meeting)]
fn is_one_met_by(filters: &Vec<Filter>, candidate: &Candidate<'_>) -> bool
    ensures { IsTrue result ↔ MeetsOne (standing_at candidate.now) (filters_of filters.now.items) }
{
    for filter in filters {
        if filter.is_met_by(candidate) {
            return true;
        }
    }
    false
}
