ghost use Rattle.std.specs.Prelude.{◌≢◌, ℕ, List, IfOk};
ghost use Rattle.host_api.specs.Items.{Bytes, item_of};
ghost use Rattle.serde_json.specs.View.{view};
ghost use Rattle.line_reader.specs.Reading.{IsJson, Reads};
ghost use Rattle.line_reader.specs.Spelled.{IsSpelledReading};

use crate::batch::read_batch_line;
use crate::reading::Reading;
use crate::refusal::{Refusal, refusal_of};
use crate::tree::read_tree;
use document_keys::{Database, NoMemory, Text};
use host_api::Line;
use plain_json::Room;
use serde_json::Value as Json;
use std::alloc::Global;

/// What a line of this tree is.
fn read_json(alloc: Global, root: &Database, json: &Json) -> Result<Reading, NoMemory>
    ensures is { IfOk result (λ reading. (text : List ℕ) → IsJson text (view json.now)
        → Reads root.now (Bytes text) reading) }
    ensures spelled { IfOk result IsSpelledReading }
{
    match read_tree(alloc, root, json) {
        Ok(raw) => raw.read(alloc),
        Err(fault) => Ok(Reading::Refused(refusal_of(fault)?)),
    }
}

/// What a line of these bytes is.
fn read_line(
    alloc: Global,
    root: &Database,
    text: &[u8],
    room: &mut Room,
) -> Result<Reading, NoMemory>
    ensures is { IfOk result (λ reading. Reads root.now (Bytes text.now) reading) }
    ensures spelled { IfOk result IsSpelledReading }
{
    if let Some(batch) = read_batch_line(alloc, root, text, room)? {
        return batch.read(alloc);
    }
    let json = match Json::from_slice(alloc, text) {
        Ok(json) => json,
        Err(error) => {
            if error.is_memory() {
                return Err(NoMemory);
            }
            return Ok(Reading::Refused(Refusal::BadLine(Text::from_str(alloc, "")?)));
        }
    };
    read_json(alloc, root, &json)
}

/// What the item that a source gave is: an event, or why it is refused. The refusal is by the first of these that holds: the
/// line is too long; it isn't JSON in UTF-8, or is JSON with faults, of which the first of the least kind is told; it has no
/// writes, or too many; its query breaks a rule, of which the least is told. A message of either stream with faults is an event,
/// which tells the member of the first of the least kind. What an event commits, or brings to a later commit, has a spelling.
/// `room` is what trees are read into, and may be kept from line to line: what stands in it is nothing to the next one.
///
/// # Errors
/// `NoMemory`
pub fn read_item(
    alloc: Global,
    root: &Database,
    line: Line,
    text: &[u8],
    room: &mut Room,
) -> Result<Reading, NoMemory>
    requires { line ≢ Line.End }
    ensures is { IfOk result (λ reading. Reads root.now (item_of line text.now) reading) }
    ensures spelled { IfOk result IsSpelledReading }
{
    match line {
        Line::Text => read_line(alloc, root, text, room),
        Line::TooLong => Ok(Reading::Refused(Refusal::LineTooLong)),
        Line::End => unreachable!(),
    }
}
