//! Changes of one field among others.

ghost use Rattle.std.specs.Prelude.{◌≡◌, ◌<◌, length, slice_index_or};
ghost use Rattle.std.specs.List.{remove};
ghost use Rattle.value_model.specs.Named.{HasValueAt};
ghost use Rattle.value_model.specs.declared.fields.Field.{Field};

use crate::fields::Field;
use crate::value::Value;
use std::mem;

/// Sets the value of the field at the place.
pub(crate) fn set_value(fields: &mut Vec<Field>, at: usize, value: Value)
    requires { at < length fields.old.items }
    ensures { HasValueAt at value fields.old.items fields.new.items }
{
    let field = &mut fields[at];
    field.value = value;
}

/// Puts the value in place of that of the field at the place, which it gives back.
pub(crate) fn swap_value(fields: &mut Vec<Field>, at: usize, value: Value) -> Value
    requires { at < length fields.old.items }
    ensures before { (d : Field) → result ≡ (slice_index_or fields.old.items at d).value }
    ensures after { HasValueAt at value fields.old.items fields.new.items }
{
    let field = &mut fields[at];
    mem::replace(&mut field.value, value)
}

/// Takes the field at the place away.
pub(crate) fn take_out(fields: &mut Vec<Field>, at: usize)
    requires { at < length fields.old.items }
    ensures { fields.new.items ≡ remove fields.old.items at }
{
    fields.remove(at);
}
