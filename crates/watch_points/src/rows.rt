//! The rows of a point.

ghost use Rattle.std.specs.Prelude.{◌≡◌, IfOk, IfSome};
ghost use Rattle.std.specs.List.{filter_map};
ghost use Rattle.record_parts.specs.Spelling.{AreSpelled};
ghost use Rattle.outcome_codec.specs.Spelling.{IsSpelledRow};
ghost use Rattle.durable_state.specs.Tables.{state_in};
ghost use Rattle.watch_points.specs.Steps.{has_row_from, row_from, row_with};

use crate::shown::{show_bytes, show_keys};
use document_keys::{KeySet, NoMemory};
use durable_state::DurableState;
use outcome_codec::PointRow;
use std::alloc::Global;
use value_model::Bytes;
use watch_aggregator::WatchTarget;

/// Whether the id has a row.
fn has_row(tables: &DurableState, id: i32) -> bool
    ensures { result ≡ has_row_from 2 (state_in tables.now).rows id }
{
    match tables.targets().row(id) {
        Some(_) => true,
        None => false,
    }
}

/// The row with the token, unless that is empty.
fn row_with(
    alloc: Global,
    id: i32,
    token: &Bytes,
    told: &KeySet,
) -> Result<Option<PointRow>, NoMemory>
    ensures row { IfOk result (λ row. row ≡ row_with id token.now told.now) }
    ensures spelled { IfOk result (λ row. IfSome row IsSpelledRow) }
{
    if token.as_slice().is_empty() {
        return Ok(None);
    }
    show_bytes(token.as_slice());
    show_keys(told);
    let token = token.copy(alloc)?;
    let keys = told.copy(alloc)?;
    Ok(Some(PointRow {
        id: id.unsigned_abs(),
        token,
        keys,
    }))
}

/// The row of the target, if it is CURRENT, has a row, and has a token that came since the last point.
fn row_from(
    alloc: Global,
    tables: &DurableState,
    target: &WatchTarget,
) -> Result<Option<PointRow>, NoMemory>
    ensures row { IfOk result (λ row. row ≡ row_from (state_in tables.now).rows target.now) }
    ensures spelled { IfOk result (λ row. IfSome row IsSpelledRow) }
{
    if !target.current || !has_row(tables, target.id) {
        return Ok(None);
    }
    match &target.token {
        Some(token) => row_with(alloc, target.id, token, &target.told),
        None => Ok(None),
    }
}

/// The rows of a point, by ascending id.
pub(crate) fn point_rows(
    alloc: Global,
    tables: &DurableState,
    targets: &[WatchTarget],
) -> Result<Vec<PointRow>, NoMemory>
    ensures rows { IfOk result (λ rows. rows.items
        ≡ filter_map (row_from (state_in tables.now).rows) targets.now) }
    ensures spelled { IfOk result (λ rows. AreSpelled IsSpelledRow rows.items) }
{
    let mut rows = Vec::new(alloc);
    for target in targets {
        match row_from(alloc, tables, target)? {
            Some(row) => rows.push(row)?,
            None => {}
        }
    }
    Ok(rows)
}
