//! The line of a batch in the plain form, built in one pass of a tree that borrows from the line.

ghost use Rattle.json.specs.Value.{value_view};
ghost use Rattle.json_model.specs.declared.place.Object.TheVariants as objects;
ghost use Rattle.json_model.specs.declared.place.Place.TheVariants as places;
ghost use Rattle.json_model.specs.Faults.{max_nesting};
ghost use Rattle.json_model.specs.Fits.{Fits};
ghost use Rattle.plain_json.specs.Built.{IfBuilt};
ghost use Rattle.plain_json.specs.Trees.{StandsFor};
ghost use Rattle.line_reader.specs.Grammar.{Spells};
ghost use Rattle.line_reader.specs.Reading.{IsLineOf};
ghost use Rattle.line_reader.specs.Spelled.{HoldsStorable};

use crate::raw_event::RawEvent;
use document_keys::{Database, NoMemory};
use json_model::{Setting, Side};
use mutations::Writes;
use plain_json::{Room, Tree, both_under, only_under, parse, plain_time, plain_writes};
use std::alloc::Global;
use std::str;

/// The batch that the tree of a line spells, with its time.
fn plain_batch(
    alloc: Global,
    setting: &Setting<'_>,
    tree: &Tree<'_>,
) -> Result<Option<RawEvent>, NoMemory>
    ensures is { IfBuilt result (λ event. StandsFor (value_view tree.now)
        (λ d. Fits setting.now max_nesting (places.Object objects.Line) d
        × Spells setting.now.root d event)) }
    ensures storable { IfBuilt result HoldsStorable }
{
    let Some(line) = only_under(tree, "write") else {
        return Ok(None);
    };
    let Some((at, writes)) = both_under(line, "at", "writes") else {
        return Ok(None);
    };
    let Some(at) = plain_time(at) else {
        return Ok(None);
    };
    let Some(writes) = plain_writes(alloc, setting, writes)? else {
        return Ok(None);
    };
    Ok(Some(RawEvent::Write {
        at,
        writes: Writes::from_vec(writes),
    }))
}

/// Whether a line begins and ends as that of a batch does, spelled without blanks. Nearly all such batches are plain, so that few
/// lines are read twice.
fn may_be_plain(text: &[u8]) -> bool {
    text.starts_with(b"{\"write\"") && text.ends_with(b"}]}}")
}

/// What a line spells that begins and ends as that of a batch does, where the batch is of the form of `plain_writes`. Then the
/// line has no fault. Else none, which says nothing of the line.
pub(crate) fn read_batch_line(
    alloc: Global,
    root: &Database,
    text: &[u8],
    room: &mut Room,
) -> Result<Option<RawEvent>, NoMemory>
    ensures is { IfBuilt result (IsLineOf root.now text.now) }
    ensures storable { IfBuilt result HoldsStorable }
{
    if !may_be_plain(text) {
        return Ok(None);
    }
    let Ok(text) = str::from_utf8(text) else {
        return Ok(None);
    };
    let setting = Setting {
        side: Side::Caller,
        root,
    };
    let Some(tree) = parse(alloc, text, room)? else {
        return Ok(None);
    };
    plain_batch(alloc, &setting, &tree)
}
