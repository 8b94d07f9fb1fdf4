//! The names of fields: whether they are fields' names and ascend strictly, and where one stands among them.

ghost use Rattle.std.specs.Prelude.{IsTrue, ◌↔◌, IfOk, IfErr};
ghost use Rattle.std.specs.List.{All, AllPairs};
ghost use Rattle.std.specs.Map.{keys_of};
ghost use Rattle.document_keys.specs.Order.{TextBefore};
ghost use Rattle.document_keys.specs.Paths.{IsFieldName};
ghost use Rattle.value_model.specs.Fields.{AreFields, IsAt, IsGapFor};
ghost use Rattle.value_model.specs.Named.{fields_data};

use crate::fields::Field;
use document_keys::check_field_name;

/// Whether each name is a field's.
fn have_field_names(fields: &[Field]) -> bool
    ensures { IsTrue result ↔ All IsFieldName (keys_of (fields_data fields.now)) }
{
    for field in fields {
        if check_field_name(field.name.as_str()).is_err() {
            return false;
        }
    }
    true
}

/// Whether the names ascend strictly.
fn are_ascending(fields: &[Field]) -> bool
    ensures { IsTrue result ↔ AllPairs TextBefore (keys_of (fields_data fields.now)) }
{
    for i in 1..fields.len() {
        if fields[i - 1].name >= fields[i].name {
            return false;
        }
    }
    true
}

/// Whether both hold.
pub(crate) fn are_fields(fields: &[Field]) -> bool
    ensures { IsTrue result ↔ AreFields (fields_data fields.now) }
{
    have_field_names(fields) && are_ascending(fields)
}

/// The place at which the name stands, or else the one at which it would stand.
pub(crate) fn place(fields: &[Field], name: &str) -> Result<usize, usize>
    requires { AllPairs TextBefore (keys_of (fields_data fields.now)) }
    ensures found { IfOk result (λ at. IsAt (keys_of (fields_data fields.now)) name.now at) }
    ensures gap { IfErr result (λ at. IsGapFor (keys_of (fields_data fields.now)) name.now at) }
{
    fields.binary_search_by(|field| field.name.as_str().cmp(name))
}
