//! What a mask makes of fields.

ghost use Rattle.std.specs.Prelude.{◌≡◌, IfOk};
ghost use Rattle.std.specs.List.{All};
ghost use Rattle.mutations.specs.Effect.{IsOfFields};
ghost use Rattle.mutations.specs.Local as function;
ghost use Rattle.mutations.specs.Masks.{Masked, TakesOver};

use document_keys::{FieldPath, NoMemory};
use std::alloc::Global;
use value_model::Fields;

/// The fields with the input's value at the path, or without one where the input has none.
fn taken_over(
    alloc: Global,
    fields: Fields,
    input: &Fields,
    path: &FieldPath,
) -> Result<Fields, NoMemory>
    requires { IsOfFields path.now }
    ensures takes { IfOk result (λ after. TakesOver fields input.now path.now after) }
    ensures exact { IfOk result (λ after. after ≡ function.taken_over input.now fields path.now) }
{
    let _names = path.len();
    match input.at(path) {
        Some(value) => Ok(fields.with_at(alloc, path, value.copy(alloc)?)?),
        None => Ok(fields.without_at(alloc, path)?),
    }
}

/// The fields after a masked update: each masked path is taken over from the input.
pub(crate) fn masked(
    alloc: Global,
    mut fields: Fields,
    input: &Fields,
    mask: &[FieldPath],
) -> Result<Fields, NoMemory>
    requires { All IsOfFields mask.now }
    ensures says { IfOk result (λ after. Masked fields input.now mask.now after) }
    ensures exact { IfOk result (λ after. after ≡ function.masked fields input.now mask.now) }
{
    for path in mask {
        fields = taken_over(alloc, fields, input, path)?;
    }
    Ok(fields)
}
