//! Values without parts, each as an object with one member.

ghost use Rattle.std.specs.Prelude.{◌∷◌, [], codes, OnOk};
ghost use Rattle.std.specs.Fmt.{signed_decimal};
ghost use Rattle.json.specs.Token.{begin_object, key};
ghost use Rattle.serde_json.specs.Data.{boolean};
ghost use Rattle.document_keys.specs.Names.{name_text};
ghost use Rattle.value_model.specs.Time.{time_text};
ghost use Rattle.json_model.specs.Bytes.{printed_bytes};
ghost use Rattle.json_model.specs.Printed.{printed_null, printed_text};
ghost use Rattle.json_model.specs.References.{root_of};
ghost use Rattle.json_model.specs.Trees.{one, empty};
ghost use Rattle.json_text.specs.Puts.{Adds, Puts};

use document_keys::{NoMemory, Text};
use json::Writer;
use json_model::{print_bytes, reference_text};
use std::alloc::{AllocError, Global};
use value_model::{RefName, Timestamp};

pub(crate) fn put_null(out: &mut Writer) -> Result<(), AllocError>
    ensures { Puts result out.old out.new printed_null }
{
    out.begin_object()?;
    out.key("nullValue")?;
    out.null()?;
    out.end_object()
}

pub(crate) fn put_boolean(out: &mut Writer, is: bool) -> Result<(), AllocError>
    ensures { Puts result out.old out.new (one (codes "booleanValue") (boolean is)) }
{
    out.begin_object()?;
    out.key("booleanValue")?;
    out.boolean(is)?;
    out.end_object()
}

pub(crate) fn put_integer(out: &mut Writer, number: i64) -> Result<(), AllocError>
    ensures { Puts result out.old out.new
        (printed_text (codes "integerValue") (signed_decimal number)) }
{
    out.begin_object()?;
    out.key("integerValue")?;
    out.quoted_i64(number)?;
    out.end_object()
}

/// A value that is printed as a text.
pub(crate) fn put_text(out: &mut Writer, name: &str, text: &str) -> Result<(), AllocError>
    ensures { Puts result out.old out.new (printed_text name.now text.now) }
{
    out.begin_object()?;
    out.key(name)?;
    out.string(text)?;
    out.end_object()
}

pub(crate) fn put_string(out: &mut Writer, text: &Text) -> Result<(), AllocError>
    ensures { Puts result out.old out.new (printed_text (codes "stringValue") text.now) }
{
    put_text(out, "stringValue", text.as_str())
}

pub(crate) fn put_time(alloc: Global, out: &mut Writer, time: &Timestamp) -> Result<(), NoMemory>
    ensures { Puts result out.old out.new
        (printed_text (codes "timestampValue") (time_text time.now)) }
{
    let text = time.print(alloc)?;
    put_text(out, "timestampValue", text.as_str())?;
    Ok(())
}

pub(crate) fn put_bytes(alloc: Global, out: &mut Writer, bytes: &[u8]) -> Result<(), NoMemory>
    ensures { Puts result out.old out.new
        (printed_text (codes "bytesValue") (printed_bytes bytes.now)) }
{
    let text = print_bytes(alloc, bytes)?;
    put_text(out, "bytesValue", text.as_str())?;
    Ok(())
}

pub(crate) fn put_reference(alloc: Global, out: &mut Writer, name: &RefName) -> Result<(), NoMemory>
    ensures { Puts result out.old out.new
        (printed_text (codes "referenceValue") (name_text (root_of name.now) name.now.key)) }
{
    let text = reference_text(alloc, name)?;
    put_text(out, "referenceValue", text.as_str())?;
    Ok(())
}

/// A list or a map that has nothing in it.
pub(crate) fn put_empty(out: &mut Writer, name: &str) -> Result<(), AllocError>
    ensures { Puts result out.old out.new (one name.now empty) }
{
    out.begin_object()?;
    out.key(name)?;
    out.begin_object()?;
    out.end_object()?;
    out.end_object()
}

/// The beginning of a list or of a map: an object in an object.
pub(crate) fn open_inner(out: &mut Writer, name: &str, inner: &str) -> Result<(), AllocError>
    ensures { OnOk result (Adds out.old out.new
        (begin_object ∷ key name.now ∷ begin_object ∷ key inner.now ∷ [])) }
{
    out.begin_object()?;
    out.key(name)?;
    out.begin_object()?;
    out.key(inner)
}
