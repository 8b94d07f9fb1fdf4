ghost use Rattle.std.specs.Prelude.{◌≡◌, IfOk};
ghost use Rattle.queries.specs.Filters as filters;

use document_keys::{FieldPath, NoMemory};
use std::alloc::Global;
use std::marker::Model;
use value_model::Value;

/// A filter of a query's documents: filters joined, a field against an operand, or a test of a field. Contracts see it
/// as plain data (`specs/Filters.antt`).
#[cycle(filter)]
#[derive(Debug, Drop)]
pub struct Filter {
    pub kind: FilterKind,
}

/// The kinds of filter (StructuredQuery.Filter).
#[cycle(filter)]
#[derive(Debug, Drop)]
pub enum FilterKind {
    Composite {
        op: Junction,
        filters: Vec<Filter>,
    },
    Field {
        path: FieldPath,
        op: Operator,
        value: Value,
    },
    Unary {
        path: FieldPath,
        op: UnaryOp,
    },
}

/// How filters are joined: all of them hold, or one of them does.
#[derive(Clone, Copy, Debug, PartialEq, Eq)]
pub enum Junction {
    And,
    Or,
}

/// How a field stands to an operand, which is an array for `IsIn`, `IsNotIn` and `ArrayContainsAny`.
#[derive(Clone, Copy, Debug, PartialEq, Eq)]
pub enum Operator {
    Equal,
    LessThan,
    LessThanOrEqual,
    GreaterThan,
    GreaterThanOrEqual,
    NotEqual,
    IsIn,
    IsNotIn,
    ArrayContains,
    ArrayContainsAny,
}

/// A test of a field that is there.
#[derive(Clone, Copy, Debug, PartialEq, Eq)]
pub enum UnaryOp {
    IsNull,
    IsNotNull,
}

impl Model for Filter {
    ghost use Rattle.queries.specs.Filters.{FilterData};
    ghost use Rattle.queries.specs.Codes.{filter_code, filter_size};

    ghost Value = { FilterData };

    ghost coded = { filter_code };

    ghost use Rattle.queries.specs.View.{kind_data};

    ghost view = { λ filter. kind_data filter.kind };

    ghost size = { filter_size };

    ghost use Rattle.queries.specs.Falls.{kind_falls};

    ghost size_decreases = { λ filter holds. kind_falls filter.kind };
}

impl Filter {
    /// A copy.
    ///
    /// # Errors
    /// `NoMemory`
    #[cycle(copy)]
    pub fn copy(&self, alloc: Global) -> Result<Filter, NoMemory>
        ensures { IfOk result (λ filter. filter ≡ self.now) }
    {
        let kind = match &self.kind {
            FilterKind::Composite { op, filters } => FilterKind::Composite {
                op: *op,
                filters: copy_filters(alloc, filters)?,
            },
            FilterKind::Field { path, op, value } => FilterKind::Field {
                path: path.copy(alloc)?,
                op: *op,
                value: value.copy(alloc)?,
            },
            FilterKind::Unary { path, op } => FilterKind::Unary {
                path: path.copy(alloc)?,
                op: *op,
            },
        };
        Ok(Filter { kind })
    }
}

/// Copies of the filters.
#[cycle(copy)]
fn copy_filters(alloc: Global, filters: &Vec<Filter>) -> Result<Vec<Filter>, NoMemory>
    ensures { IfOk result (λ copies. copies.items ≡ filters.now.items) }
{
    let mut copies = Vec::with_capacity(alloc, filters.len())?;
    for filter in filters {
        copies.push(filter.copy(alloc)?)?;
    }
    Ok(copies)
}
