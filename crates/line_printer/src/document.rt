//! Documents, as a get shows them.

ghost use Rattle.std.specs.Prelude.{◌≡◌, codes, false, Some, None, IfOk};
ghost use Rattle.std.specs.String.{string_bytes};
ghost use Rattle.serde_json.specs.Data.{boolean, string};
ghost use Rattle.json_model.specs.Printed.{printed_document};
ghost use Rattle.json_text.specs.Puts.{Puts};
ghost use Rattle.line_printer.specs.Lines.{line_of, existing, document_in, document_tree};
ghost use Rattle.line_printer.specs.Trees.{three};

use crate::line::{begin_line, end_line};
use crate::pieces::put_flag;
use document_keys::{Database, DocumentKey, NoMemory};
use json::Writer;
use json_model::state_text;
use json_text::{put_members, put_text_member};
use std::alloc::{AllocError, Global};
use value_model::{DocRef, DocState};

/// Puts a document that is there.
fn put_found(
    alloc: Global,
    out: &mut Writer,
    root: &Database,
    doc: DocRef<'_>,
) -> Result<(), NoMemory>
    ensures { Puts result out.old out.new (existing (printed_document root.now
        doc.entry.key.now doc.entry.fields.now doc.entry.update_time doc.entry.state)) }
{
    out.begin_object()?;
    put_flag(out, "exists", true)?;
    put_members(alloc, out, root, doc)
}

/// A document that is there.
///
/// # Errors
/// `NoMemory`
pub fn print_found(alloc: Global, root: &Database, doc: DocRef<'_>) -> Result<String, NoMemory>
    ensures { IfOk result (λ line. string_bytes line ≡ line_of
        (document_tree root.now doc.entry.key.now (Some (document_in doc.entry)) doc.entry.state)) }
{
    let mut out = begin_line(alloc, "document")?;
    put_found(alloc, &mut out, root, doc)?;
    end_line(out)
}

/// Puts a document that isn't there.
fn put_missing(out: &mut Writer, name: &str, state: &str) -> Result<(), AllocError>
    ensures { Puts result out.old out.new
        (three (codes "exists") (boolean false) (codes "name") (string name.now)
        (codes "state") (string state.now)) }
{
    out.begin_object()?;
    put_flag(out, "exists", false)?;
    put_text_member(out, "name", name)?;
    put_text_member(out, "state", state)?;
    out.end_object()
}

/// A document that isn't there, with how its key stands to the backend.
///
/// # Errors
/// `NoMemory`
pub fn print_missing(
    alloc: Global,
    root: &Database,
    key: &DocumentKey,
    state: DocState,
) -> Result<String, NoMemory>
    ensures { IfOk result (λ line. string_bytes line
        ≡ line_of (document_tree root.now key.now None state)) }
{
    let name = key.print(alloc, root)?;
    let mut out = begin_line(alloc, "document")?;
    put_missing(&mut out, name.as_str(), state_text(state))?;
    end_line(out)
}
