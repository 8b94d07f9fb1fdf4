//! Fields with another value at a path, by moving what stands in them. Where others hold a map on the way too, it is
//! copied first, by one level; what lies beside the way stays shared.

ghost use Rattle.std.specs.Prelude.{◌≡◌, ◌≢◌, [], ◌∷◌, codes, ◌<◌, length, drop, Option, None, IfOk, unwrap_or};
ghost use Rattle.value_model.specs.Changes.{members_in, with_value, with_value_at, on_members, without_value_at};
ghost use Rattle.value_model.specs.Data as Data;
ghost use Rattle.value_model.specs.Paths.{value_in, value_at};

use crate::fields::Fields;
use crate::value::{Kind, Value};
use document_keys::{FieldPath, NoMemory, Text};
use std::alloc::Global;

/// The members of a map, to change; of another value, no fields.
fn members(alloc: Global, value: Value) -> Result<Fields, NoMemory>
    ensures { IfOk result (λ fields. fields ≡ members_in value) }
{
    let Value { kind } = value;
    match kind {
        Kind::Map(fields) => fields.into_fields(alloc),
        _ => Ok(Fields::new(alloc)),
    }
}

/// The value, or null.
fn or_null(value: Option<Value>) -> Value
    ensures { result ≡ unwrap_or value Data.null }
{
    match value {
        Some(value) => value,
        None => Value { kind: Kind::Null },
    }
}

/// The value with another inside it, at the names of the path from this index on.
#[cycle(with)]
fn with_inner(
    alloc: Global,
    value: Value,
    path: &FieldPath,
    from: u64,
    new: Value,
) -> Result<Value, NoMemory>
    requires { path.now ≢ codes "__name__" ∷ [] }
    ensures done { IfOk result (λ changed. changed ≡ with_value value (drop from path.now) new) }
    ensures same { IfOk result (λ d. value_in value (drop from path.now) ≡ Option.Some new → d ≡ value) }
{
    if from >= path.len() {
        return Ok(new);
    }
    let fields = with_member(alloc, members(alloc, value)?, path, from, new)?;
    Value::map(alloc, fields)
}

/// The fields with the value inside them, at the names of the path from this index on.
#[cycle(with)]
fn with_member(
    alloc: Global,
    mut fields: Fields,
    path: &FieldPath,
    from: u64,
    new: Value,
) -> Result<Fields, NoMemory>
    requires inside { from < length path.now }
    requires path { path.now ≢ codes "__name__" ∷ [] }
    ensures done { IfOk result
        (λ f. Data.map_of f ≡ with_value (Data.map_of fields) (drop from path.now) new) }
    ensures same { IfOk result (λ f. value_at fields (drop from path.now) ≡ Option.Some new → f ≡ fields) }
{
    let _count = fields.len();
    let _names = path.len();
    let Some(name) = path.segment(from) else {
        return Ok(fields);
    };
    let inner = or_null(fields.replace(name, Value { kind: Kind::Null }));
    let changed = with_inner(alloc, inner, path, from + 1, new)?;
    fields.put(alloc, Text::from_str(alloc, name)?, changed)?;
    Ok(fields)
}

/// The value without what stands inside it, at the names of the path from this index on.
#[cycle(without)]
fn without_inner(
    alloc: Global,
    value: Value,
    path: &FieldPath,
    from: u64,
) -> Result<Value, NoMemory>
    requires { from < length path.now }
    ensures done { IfOk result
        (λ d. d ≡ on_members (λ fields. without_value_at fields (drop from path.now)) value) }
    ensures gone { IfOk result (λ d. value_in d (drop from path.now) ≡ None) }
    ensures missing { IfOk result (λ d. value_in value (drop from path.now) ≡ None → d ≡ value) }
{
    let Value { kind } = value;
    match kind {
        Kind::Map(fields) => {
            let rest = without_member(alloc, fields.into_fields(alloc)?, path, from)?;
            Value::map(alloc, rest)
        }
        kind => Ok(Value { kind }),
    }
}

/// The fields without what stands in them, at the names of the path from this index on.
#[cycle(without)]
fn without_member(
    alloc: Global,
    mut fields: Fields,
    path: &FieldPath,
    from: u64,
) -> Result<Fields, NoMemory>
    requires { from < length path.now }
    ensures done { IfOk result (λ rest. rest ≡ without_value_at fields (drop from path.now)) }
    ensures gone { IfOk result (λ rest. value_at rest (drop from path.now) ≡ None) }
    ensures missing { IfOk result (λ rest. value_at fields (drop from path.now) ≡ None → rest ≡ fields) }
{
    let _count = fields.len();
    let names = path.len();
    let Some(name) = path.segment(from) else {
        return Ok(fields);
    };
    if from + 1 == names {
        fields.remove(name);
        return Ok(fields);
    }
    let Some(inner) = fields.replace(name, Value { kind: Kind::Null }) else {
        return Ok(fields);
    };
    let rest = without_inner(alloc, inner, path, from + 1)?;
    fields.replace(name, rest);
    Ok(fields)
}

impl Fields {
    /// The fields with the value at the path: the maps above it are made, in place of what isn't one. The path isn't
    /// `__name__`.
    ///
    /// # Errors
    /// `NoMemory`: the fields are then gone.
    pub fn with_at(self, alloc: Global, path: &FieldPath, value: Value) -> Result<Fields, NoMemory>
        requires { path.now ≢ codes "__name__" ∷ [] }
        ensures done { IfOk result (λ fields. fields ≡ with_value_at self path.now value) }
        ensures same { IfOk result (λ f. value_at self path.now ≡ Option.Some value → f ≡ self) }
    {
        let _names = path.len();
        with_member(alloc, self, path, 0, value)
    }

    /// The fields without what stands at the path. Nothing is made on the way to it.
    ///
    /// # Errors
    /// `NoMemory`: the fields are then gone.
    pub fn without_at(self, alloc: Global, path: &FieldPath) -> Result<Fields, NoMemory>
        ensures done { IfOk result (λ fields. fields ≡ without_value_at self path.now) }
        ensures gone { IfOk result (λ fields. value_at fields path.now ≡ None) }
        ensures missing { IfOk result (λ f. value_at self path.now ≡ None → f ≡ self) }
    {
        let _names = path.len();
        without_member(alloc, self, path, 0)
    }
}
