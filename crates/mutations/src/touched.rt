//! The fields that a masked update touches, those of the first names of its paths: copied, worked on, and put back into the
//! document. Their names are kept as fields with null values.

ghost use Rattle.std.specs.Prelude.{◌≡◌, Some, None, IfOk, OnOk, OnErr};
ghost use Rattle.std.specs.List.{All};
ghost use Rattle.document_keys.specs.Paths.{IsFieldName};
ghost use Rattle.value_model.specs.Fields.{AreFields, field};
ghost use Rattle.mutations.specs.Effect.{HavePathsOfFields, IsOfFields};
ghost use Rattle.mutations.specs.Local as function;
ghost use Rattle.mutations.specs.Touched.{AreTouched, Completes, HasGrown, HasName, HasNames, IsPartOf, IsTouched, SameAt, SameBeside, SameBut, StandsFor};

use crate::change::transformed;
use crate::mask::masked;
use crate::transform::Transform;
use document_keys::{FieldPath, NoMemory, Text};
use std::alloc::Global;
use value_model::{Fields, Kind, Timestamp, Value};

/// Adds the first name of the path.
fn touch(alloc: Global, names: &mut Fields, path: &FieldPath) -> Result<(), NoMemory>
    requires { IsOfFields path.now }
    ensures touched { OnOk result (IsTouched names.new path.now) }
    ensures kept { OnOk result (HasNames names.new names.old) }
{
    let _length = path.len();
    let Some(name) = path.segment(0) else {
        return Ok(());
    };
    names.put(
        alloc,
        Text::from_str(alloc, name)?,
        Value { kind: Kind::Null },
    )?;
    Ok(())
}

/// The first names of the mask's paths.
fn names_of_mask(alloc: Global, mask: &[FieldPath]) -> Result<Fields, NoMemory>
    requires { All IsOfFields mask.now }
    ensures { IfOk result (λ names. All (IsTouched names) mask.now) }
{
    let mut names = Fields::new(alloc);
    for path in mask {
        touch(alloc, &mut names, path)?;
    }
    Ok(names)
}

/// The first names of all paths of an update.
fn touched_names(
    alloc: Global,
    mask: &[FieldPath],
    transforms: &[Transform],
) -> Result<Fields, NoMemory>
    requires mask { All IsOfFields mask.now }
    requires transforms { HavePathsOfFields transforms.now }
    ensures mask { IfOk result (λ names. All (IsTouched names) mask.now) }
    ensures transforms { IfOk result (λ names. AreTouched names transforms.now) }
{
    let mut names = names_of_mask(alloc, mask)?;
    for transform in transforms {
        touch(alloc, &mut names, &transform.path)?;
    }
    Ok(names)
}

/// Copies the field of this name, if there is one.
fn pick(alloc: Global, part: &mut Fields, fields: &Fields, name: &Text) -> Result<(), NoMemory>
    requires name { IsFieldName name.now }
    requires part { IsPartOf part.old fields.now }
    ensures here { OnOk result (field part.new name.now ≡ field fields.now name.now) }
    ensures beside { OnOk result (SameBut name.now part.new part.old) }
{
    if let Some(value) = fields.get(name.as_str()) {
        part.put(alloc, name.copy(alloc)?, value.copy(alloc)?)?;
    }
    Ok(())
}

/// Copies of the fields of these names.
fn picked(alloc: Global, fields: &Fields, names: &Fields) -> Result<Fields, NoMemory>
    ensures same { IfOk result (λ part. SameAt names.now part fields.now) }
    ensures fields { IfOk result AreFields }
{
    let mut part = Fields::new(alloc);
    for named in names.as_slice() {
        pick(alloc, &mut part, fields, &named.name)?;
    }
    let _count = part.len();
    Ok(part)
}

/// Makes a field of this name where there is none, and notes it among those made.
fn make_place(
    alloc: Global,
    fields: &mut Fields,
    made: &mut Fields,
    name: &Text,
) -> Result<(), NoMemory>
    requires { IsFieldName name.now }
    ensures there { OnOk result (HasName fields.new name.now) }
    ensures kept { HasNames fields.new fields.old }
    ensures grown { (old : _) → HasGrown made.old old fields.old → HasGrown made.new old fields.new }
    ensures within { SameBut name.now made.new made.old }
{
    if fields.get(name.as_str()).is_some() {
        return Ok(());
    }
    made.put(alloc, name.copy(alloc)?, Value { kind: Kind::Null })?;
    fields.put(alloc, name.copy(alloc)?, Value { kind: Kind::Null })?;
    Ok(())
}

/// Makes a field of each of the names where there is none, and notes those made.
fn make_places(
    alloc: Global,
    fields: &mut Fields,
    made: &mut Fields,
    names: &Fields,
) -> Result<(), NoMemory>
    ensures there { OnOk result (HasNames fields.new names.now) }
    ensures grown { (old : _) → HasGrown made.old old fields.old → HasGrown made.new old fields.new }
    ensures within { SameBeside names.now made.new made.old }
{
    for named in names.as_slice() {
        make_place(alloc, fields, made, &named.name)?;
    }
    Ok(())
}

/// Takes the fields of these names away.
fn take_away(fields: &mut Fields, names: &Fields)
    ensures gone { (name : _) → HasName names.now name → field fields.new name ≡ None }
    ensures others { SameBeside names.now fields.new fields.old }
    ensures fields { AreFields fields.new }
{
    let _count = fields.len();
    for named in names.as_slice() {
        fields.remove(named.name.as_str());
    }
}

/// Makes a field of each of the names where there is none.
///
/// # Errors
/// `NoMemory`: the fields are then as before.
fn make_room(alloc: Global, fields: &mut Fields, names: &Fields) -> Result<(), NoMemory>
    ensures there { OnOk result (HasNames fields.new names.now) }
    ensures beside { OnOk result (SameBeside names.now fields.new fields.old) }
    ensures undone { OnErr result (fields.new ≡ fields.old) }
{
    let _count = fields.len();
    let mut made = Fields::new(alloc);
    match make_places(alloc, fields, &mut made, names) {
        Ok(()) => Ok(()),
        Err(fault) => {
            take_away(fields, &made);
            Err(fault)
        }
    }
}

/// Moves the field of this name from the part into the fields, or takes it away where the part has none.
fn settle(fields: &mut Fields, part: &mut Fields, name: &Text)
    requires { HasName fields.old name.now }
    ensures here { field fields.new name.now ≡ field part.old name.now }
    ensures beside { SameBut name.now fields.new fields.old }
    ensures left { SameBut name.now part.new part.old }
    ensures fields { AreFields fields.new }
{
    let _count = fields.len();
    match part.replace(name.as_str(), Value { kind: Kind::Null }) {
        Some(value) => {
            fields.replace(name.as_str(), value);
        }
        None => fields.remove(name.as_str()),
    }
}

/// Moves the fields of these names from the part into the fields, and takes away those that the part hasn't.
fn put_back(fields: &mut Fields, mut part: Fields, names: &Fields)
    requires { HasNames fields.old names.now }
    ensures here { SameAt names.now fields.new part }
    ensures beside { SameBeside names.now fields.new fields.old }
    ensures fields { AreFields fields.new }
{
    let _fields = fields.len();
    for named in names.as_slice() {
        settle(fields, &mut part, &named.name);
    }
}

/// The fields of these names after the masked update.
fn masked_part(
    alloc: Global,
    fields: &Fields,
    names: &Fields,
    input: &Fields,
    mask: &[FieldPath],
) -> Result<Fields, NoMemory>
    requires mask { All IsOfFields mask.now }
    requires names { All (IsTouched names.now) mask.now }
    ensures part { IfOk result (λ part. StandsFor names.now part
        (function.masked fields.now input.now mask.now)) }
    ensures says { OnOk result (function.MasksRight fields.now input.now mask.now) }
{
    let _count = names.len();
    let _fields = fields.len();
    let part = picked(alloc, fields, names)?;
    Ok(masked(alloc, part, input, mask)?)
}

/// Puts the worked-out fields of these names in place of the old ones.
///
/// # Errors
/// `NoMemory`: the fields are then as before.
fn put_in_place(
    alloc: Global,
    fields: &mut Fields,
    part: Fields,
    names: &Fields,
) -> Result<(), NoMemory>
    ensures done { (whole : _) → Completes names.now part fields.old whole
        → OnOk result (fields.new ≡ whole) }
    ensures undone { OnErr result (fields.new ≡ fields.old) }
{
    make_room(alloc, fields, names)?;
    put_back(fields, part, names);
    Ok(())
}

/// Makes of the fields what a masked update and transforms make of them. It copies no other fields than those touched.
///
/// # Errors
/// `NoMemory`: the fields are then as before.
pub(crate) fn update_touched(
    alloc: Global,
    fields: &mut Fields,
    input: &Fields,
    mask: &[FieldPath],
    transforms: &[Transform],
    at: Timestamp,
) -> Result<(), NoMemory>
    requires mask { All IsOfFields mask.now }
    requires transforms { HavePathsOfFields transforms.now }
    ensures says { OnOk result (function.MasksRight fields.old input.now mask.now) }
    ensures exact { OnOk result (fields.new
        ≡ function.updated at fields.old input.now (Some mask.now) transforms.now) }
    ensures undone { OnErr result (fields.new ≡ fields.old) }
{
    let names = touched_names(alloc, mask, transforms)?;
    let _count = names.len();
    let part = masked_part(alloc, fields, &names, input, mask)?;
    let part = transformed(alloc, part, transforms, at)?;
    put_in_place(alloc, fields, part, &names)?;
    Ok(())
}
