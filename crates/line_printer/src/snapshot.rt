//! Snapshots, as listeners are told of them.

ghost use Rattle.std.specs.Prelude.{◌≡◌, ◌∷◌, codes, IfOk, OnOk, option_map};
ghost use Rattle.std.specs.String.{string_bytes};
ghost use Rattle.json.specs.Token.{key};
ghost use Rattle.serde_json.specs.Data.{boolean, string, array, object, no_members, member};
ghost use Rattle.json_model.specs.Forms.{before, present, printed_each};
ghost use Rattle.json_text.specs.Puts.{Adds, Puts, PutsItems, PutsMembers, tokens_of};
ghost use Rattle.line_printer.specs.Lines.{line_of, count, kind_text as kind_text_of, change_tree, row_tree, time_tree, snapshot_members, snapshot_tree};
ghost use Rattle.line_printer.specs.Trees.{two};

use crate::line::{begin_line, end_line};
use crate::pieces::{put_count, put_flag};
use document_keys::{Database, NoMemory};
use json::Writer;
use json_text::{put_document, put_text_member};
use std::alloc::{AllocError, Global};
use value_model::{Documents, Timestamp};
use views::{Change, Kind, Snapshot};

fn kind_text(kind: Kind) -> &'static str
    ensures { result.now ≡ kind_text_of kind }
{
    match kind {
        Kind::Added => "ADDED",
        Kind::Removed => "REMOVED",
        Kind::Modified => "MODIFIED",
    }
}

/// Puts a change by its parts.
fn put_parts(out: &mut Writer, kind: &str, name: &str) -> Result<(), AllocError>
    ensures { Puts result out.old out.new
        (two (codes "kind") (string kind.now) (codes "name") (string name.now)) }
{
    out.begin_object()?;
    put_text_member(out, "kind", kind)?;
    put_text_member(out, "name", name)?;
    out.end_object()
}

fn put_change(
    alloc: Global,
    out: &mut Writer,
    root: &Database,
    change: &Change,
) -> Result<(), NoMemory>
    ensures { Puts result out.old out.new (change_tree root.now change.now) }
{
    let name = change.key.print(alloc, root)?;
    put_parts(out, kind_text(change.kind), name.as_str())?;
    Ok(())
}

/// Puts the changes, with the closing bracket.
fn put_each_change(
    alloc: Global,
    out: &mut Writer,
    root: &Database,
    changes: &[Change],
) -> Result<(), NoMemory>
    ensures { PutsItems result out.old out.new
        (printed_each (change_tree root.now) changes.now) }
{
    for change in changes {
        put_change(alloc, out, root, change)?;
    }
    Ok(out.end_array()?)
}

/// Puts the member of the changes.
fn put_changes(
    alloc: Global,
    out: &mut Writer,
    root: &Database,
    changes: &[Change],
) -> Result<(), NoMemory>
    ensures { OnOk result (Adds out.old out.new (key (codes "changes")
        ∷ tokens_of (array (printed_each (change_tree root.now) changes.now)))) }
{
    out.key("changes")?;
    out.begin_array()?;
    put_each_change(alloc, out, root, changes)
}

/// Puts the documents in their order, with the closing bracket.
fn put_rows<D: Documents>(
    alloc: Global,
    out: &mut Writer,
    root: &Database,
    snapshot: &Snapshot<'_, D>,
) -> Result<(), NoMemory>
    ensures { PutsItems result out.old out.new
        (printed_each (row_tree root.now) snapshot.now.raised.rows) }
{
    for i in 0..snapshot.len() {
        let Some(doc) = snapshot.document(i) else {
            unreachable!();
        };
        put_document(alloc, out, root, doc)?;
    }
    Ok(out.end_array()?)
}

/// Puts the read time, where there is one, and the closing brace.
fn put_time(alloc: Global, out: &mut Writer, time: Option<Timestamp>) -> Result<(), NoMemory>
    ensures { PutsMembers result out.old out.new
        (before (codes "readTime") (option_map time_tree time) no_members) }
{
    let Some(time) = time else {
        return Ok(out.end_object()?);
    };
    let text = time.print(alloc)?;
    put_text_member(out, "readTime", text.as_str())?;
    Ok(out.end_object()?)
}

/// Puts the id and the read time, with the closing brace.
fn put_rest(
    alloc: Global,
    out: &mut Writer,
    id: u32,
    read_time: Option<Timestamp>,
) -> Result<(), NoMemory>
    ensures { PutsMembers result out.old out.new (member (codes "id") (count id)
        (before (codes "readTime") (option_map time_tree read_time) no_members)) }
{
    put_count(out, "id", id as u64)?;
    put_time(alloc, out, read_time)
}

/// Puts the documents and the members behind them, with the closing brace.
fn put_documents<D: Documents>(
    alloc: Global,
    out: &mut Writer,
    root: &Database,
    id: u32,
    read_time: Option<Timestamp>,
    snapshot: &Snapshot<'_, D>,
) -> Result<(), NoMemory>
    ensures { PutsMembers result out.old out.new
        (member (codes "documents")
        (array (printed_each (row_tree root.now) snapshot.now.raised.rows))
        (member (codes "fromCache") (boolean snapshot.now.raised.from_cache)
        (member (codes "id") (count id)
        (before (codes "readTime") (option_map time_tree read_time) no_members)))) }
{
    out.key("documents")?;
    out.begin_array()?;
    put_rows(alloc, out, root, snapshot)?;
    put_flag(out, "fromCache", snapshot.from_cache())?;
    put_rest(alloc, out, id, read_time)
}

/// Puts a snapshot.
fn put_snapshot<D: Documents>(
    alloc: Global,
    out: &mut Writer,
    root: &Database,
    id: u32,
    commit: u64,
    read_time: Option<Timestamp>,
    snapshot: &Snapshot<'_, D>,
) -> Result<(), NoMemory>
    ensures { Puts result out.old out.new
        (object (present (snapshot_members root.now id commit read_time snapshot.now.raised))) }
{
    out.begin_object()?;
    put_changes(alloc, out, root, snapshot.changes())?;
    put_count(out, "commit", commit)?;
    put_documents(alloc, out, root, id, read_time, snapshot)
}

/// A snapshot of the listener of this id, at the store's number, with the time of the last read where there is one: its changes,
/// its documents in their order, and whether they are from the cache alone.
///
/// # Errors
/// `NoMemory`
pub fn print_snapshot<D: Documents>(
    alloc: Global,
    root: &Database,
    id: u32,
    commit: u64,
    read_time: Option<Timestamp>,
    snapshot: &Snapshot<'_, D>,
) -> Result<String, NoMemory>
    ensures { IfOk result (λ line. string_bytes line
        ≡ line_of (snapshot_tree root.now id commit read_time snapshot.now.raised)) }
{
    let mut out = begin_line(alloc, "snapshot")?;
    put_snapshot(alloc, &mut out, root, id, commit, read_time, snapshot)?;
    end_line(out)
}
