//! A point.

ghost use Rattle.std.specs.Prelude.{IfOk};
ghost use Rattle.value_model.specs.Time.{IsMoment};
ghost use Rattle.listen_protocol.specs.Calls.{Calls};
ghost use Rattle.record_codec.specs.Spelling.{HasSpelling};
ghost use Rattle.record_codec.specs.declared.commit.Commit.TheVariants.{Point};
ghost use Rattle.durable_state.specs.State.{IsNotBelow, Suits};
ghost use Rattle.durable_state.specs.Tables.{state_in};
ghost use Rattle.watch_points.specs.PointCommit.{ArePartsOf, IsPointCommit};
ghost use Rattle.watch_points.specs.SpelledCalls.{AreSpelledCalls};

use crate::entries::point_entries;
use crate::rows::point_rows;
use document_keys::{DocumentKey, NoMemory};
use durable_state::DurableState;
use outcome_codec::{KeyedEntry, PointRow};
use std::alloc::Global;
use value_model::{Entry, Timestamp};
use watch_aggregator::WatchTarget;

/// What a point commits: entries by ascending key, and rows by ascending id.
#[derive(Debug, Drop)]
pub struct PointCommit {
    pub entries: Vec<KeyedEntry>,
    pub rows: Vec<PointRow>,
}

/// What a point at the read time commits over the tables, by its entries and targets. Each entry that waits is moved or dropped.
///
/// # Errors
/// `NoMemory`
pub fn point_commit(
    alloc: Global,
    tables: &DurableState,
    at: Timestamp,
    entries: Vec<(DocumentKey, Entry)>,
    targets: &[WatchTarget],
) -> Result<PointCommit, NoMemory>
    ensures commit { IfOk result (λ c. (h : Calls) → ArePartsOf h entries.items targets.now
        → IsPointCommit (state_in tables.now) h at c.entries.items c.rows.items) }
    ensures suits { IfOk result (λ c. IsNotBelow (state_in tables.now).last_read at
        → Suits (state_in tables.now) (Point at c.entries.items c.rows.items)) }
    ensures spelled { IfOk result (λ c. IsMoment at → (h : Calls) → ArePartsOf h entries.items targets.now
        → AreSpelledCalls h → HasSpelling (Point at c.entries.items c.rows.items)) }
{
    let entries = point_entries(alloc, tables, at, entries, targets)?;
    let rows = point_rows(alloc, tables, targets)?;
    Ok(PointCommit { entries, rows })
}
