//! Documents.

ghost use Rattle.std.specs.Prelude.{codes, ◌∷◌, [], OnOk};
ghost use Rattle.json.specs.Token.{key, string as string_token};
ghost use Rattle.serde_json.specs.Data.{string, member};
ghost use Rattle.json_model.specs.Printed.{printed_document, document_tree, with_time};
ghost use Rattle.json_text.specs.Puts.{Adds, Puts, PutsMembers, members_in};

use crate::values::put_fields;
use document_keys::{Database, NoMemory};
use json::Writer;
use json_model::state_text;
use std::alloc::{AllocError, Global};
use value_model::{DocRef, Fields, Timestamp};

/// Puts a member that is a text.
///
/// # Errors
/// `AllocError`
pub fn put_text_member(out: &mut Writer, name: &str, text: &str) -> Result<(), AllocError>
    ensures { OnOk result (Adds out.old out.new (key name.now ∷ string_token text.now ∷ [])) }
{
    out.key(name)?;
    out.string(text)
}

/// Puts the member `updateTime`, where there is a time, and the closing brace.
fn put_time(alloc: Global, out: &mut Writer, time: Option<Timestamp>) -> Result<(), NoMemory>
    ensures { PutsMembers result out.old out.new (with_time time) }
{
    let Some(time) = time else {
        return Ok(out.end_object()?);
    };
    let text = time.print(alloc)?;
    put_text_member(out, "updateTime", text.as_str())?;
    Ok(out.end_object()?)
}

/// Puts the members of a document behind its fields, with the closing brace.
fn put_named(
    alloc: Global,
    out: &mut Writer,
    name: &str,
    state: &str,
    time: Option<Timestamp>,
) -> Result<(), NoMemory>
    ensures { PutsMembers result out.old out.new (member (codes "name") (string name.now)
        (member (codes "state") (string state.now) (with_time time))) }
{
    put_text_member(out, "name", name)?;
    put_text_member(out, "state", state)?;
    put_time(alloc, out, time)
}

/// Puts the members of a document by its parts.
fn put_parts(
    alloc: Global,
    out: &mut Writer,
    name: &str,
    fields: &Fields,
    state: &str,
    time: Option<Timestamp>,
) -> Result<(), NoMemory>
    ensures { PutsMembers result out.old out.new
        (members_in (document_tree name.now fields.now time state.now)) }
{
    if fields.len() == 0 {
        return put_named(alloc, out, name, state, time);
    }
    out.key("fields")?;
    put_fields(alloc, out, fields)?;
    put_named(alloc, out, name, state, time)
}

/// Puts the members of a document under the root, with the closing brace: `fields` where it has
/// some, `name`, `state`, and `updateTime` where it has one.
///
/// # Errors
/// `NoMemory`
pub fn put_members(
    alloc: Global,
    out: &mut Writer,
    root: &Database,
    doc: DocRef<'_>,
) -> Result<(), NoMemory>
    ensures { PutsMembers result out.old out.new (members_in (printed_document root.now
        doc.entry.key.now doc.entry.fields.now doc.entry.update_time doc.entry.state)) }
{
    let name = doc.key.print(alloc, root)?;
    put_parts(
        alloc,
        out,
        name.as_str(),
        doc.fields,
        state_text(doc.state),
        doc.update_time,
    )
}

/// Puts a document under the root: an object of those members.
///
/// # Errors
/// `NoMemory`
pub fn put_document(
    alloc: Global,
    out: &mut Writer,
    root: &Database,
    doc: DocRef<'_>,
) -> Result<(), NoMemory>
    ensures { Puts result out.old out.new (printed_document root.now
        doc.entry.key.now doc.entry.fields.now doc.entry.update_time doc.entry.state) }
{
    out.begin_object()?;
    put_members(alloc, out, root, doc)
}
