//! What a write makes of a document before the backend has answered.

ghost use Rattle.std.specs.Prelude.{◌≡◌, ◌↔◌, [], IsTrue, IfOk, OnOk, OnErr, Some};
ghost use Rattle.std.specs.List.{All};
ghost use Rattle.mutations.specs.Effect.{HasEffect, HasMaskOfFields, HavePathsOfFields, Holds, IsOfFields, IsOfFieldsOnly, SetsFields, Updates, fields_of, update_time_of};
ghost use Rattle.mutations.specs.Local as function;

use crate::change::transformed;
use crate::lists::Mask;
use crate::mask::masked;
use crate::touched::update_touched;
use crate::transform::{Transform, Transforms};
use crate::write::{Precondition, Write};
use document_keys::{FieldPath, NoMemory};
use std::alloc::Global;
use value_model::{Document, Fields, SharedFields, Timestamp};

/// Whether the document was last changed at the time.
fn is_of_time(update_time: Option<Timestamp>, time: Timestamp) -> bool
    ensures exact { result ≡ function.is_of_time update_time time }
    ensures says { IsTrue result ↔ (update_time ≡ Some time) }
{
    match update_time {
        None => false,
        Some(other) => other.seconds == time.seconds && other.nanos == time.nanos,
    }
}

impl Precondition {
    /// Whether it holds of the document, or of there being none.
    fn holds(&self, document: &Option<Document>) -> bool
        ensures exact { result ≡ function.holds self.now document.now }
        ensures says { IsTrue result ↔ Holds self.now document.now }
    {
        match (self, document) {
            (Precondition::Free, _) => true,
            (Precondition::Exists(there), Some(_)) => *there,
            (Precondition::Exists(there), None) => !*there,
            (Precondition::UpdateTime(time), Some(document)) => {
                is_of_time(document.update_time, *time)
            }
            (Precondition::UpdateTime(_), None) => false,
        }
    }
}

/// The fields that an update sets where there were none: all of the input's, or those of its mask.
fn set(alloc: Global, input: &Fields, mask: &Option<Mask>) -> Result<Fields, NoMemory>
    requires { HasMaskOfFields mask.now }
    ensures sets { IfOk result (λ fields. SetsFields [] input.now mask.now fields) }
    ensures exact { IfOk result (λ fields. fields ≡ function.set [] input.now mask.now) }
{
    match mask {
        None => input.copy(alloc),
        Some(mask) => masked(alloc, Fields::new(alloc), input, mask.as_slice()),
    }
}

/// The fields after an update where there were none: shared where they are the input's.
fn made(
    alloc: Global,
    input: &SharedFields,
    mask: &Option<Mask>,
    transforms: &Transforms,
    at: Timestamp,
) -> Result<SharedFields, NoMemory>
    requires mask { HasMaskOfFields mask.now }
    requires transforms { HavePathsOfFields transforms.now }
    ensures sets { OnOk result (function.SetsRight [] input.now mask.now) }
    ensures exact { IfOk result (λ fields. fields
        ≡ function.updated at [] input.now mask.now transforms.now) }
{
    if mask.is_none() && transforms.as_slice().is_empty() {
        return input.share();
    }
    let fields = set(alloc, input.as_fields(), mask)?;
    let fields = transformed(alloc, fields, transforms.as_slice(), at)?;
    SharedFields::new(alloc, fields)
}

/// Makes of fields what a masked update and transforms make of them; they are copied where others hold them too.
///
/// # Errors
/// `NoMemory`: the fields are then as before.
fn update_shared(
    alloc: Global,
    fields: &mut SharedFields,
    input: &Fields,
    mask: &[FieldPath],
    transforms: &[Transform],
    at: Timestamp,
) -> Result<(), NoMemory>
    requires mask { All IsOfFields mask.now }
    requires transforms { HavePathsOfFields transforms.now }
    ensures sets { OnOk result (function.SetsRight fields.old input.now (Some mask.now)) }
    ensures exact { OnOk result (fields.new
        ≡ function.updated at fields.old input.now (Some mask.now) transforms.now) }
    ensures undone { OnErr result (fields.new ≡ fields.old) }
{
    if let Some(own) = fields.alone() {
        return update_touched(alloc, own, input, mask, transforms, at);
    }
    let mut copy = fields.as_fields().copy(alloc)?;
    update_touched(alloc, &mut copy, input, mask, transforms, at)?;
    *fields = SharedFields::new(alloc, copy)?;
    Ok(())
}

/// Makes of a document's fields what an update makes of them.
fn update_fields(
    alloc: Global,
    fields: &mut SharedFields,
    input: &SharedFields,
    mask: &Option<Mask>,
    transforms: &Transforms,
    at: Timestamp,
) -> Result<(), NoMemory>
    requires mask { HasMaskOfFields mask.now }
    requires transforms { HavePathsOfFields transforms.now }
    ensures sets { OnOk result (function.SetsRight fields.old input.now mask.now) }
    ensures exact { OnOk result (fields.new
        ≡ function.updated at fields.old input.now mask.now transforms.now) }
    ensures undone { OnErr result (fields.new ≡ fields.old) }
{
    match mask {
        Some(mask) => update_shared(
            alloc,
            fields,
            input.as_fields(),
            mask.as_slice(),
            transforms.as_slice(),
            at,
        )?,
        None => *fields = made(alloc, input, &None, transforms, at)?,
    }
    Ok(())
}

/// Makes of the document, or of there being none, what an update makes of it.
fn update(
    alloc: Global,
    doc: &mut Option<Document>,
    input: &SharedFields,
    mask: &Option<Mask>,
    transforms: &Transforms,
    at: Timestamp,
) -> Result<(), NoMemory>
    requires mask { HasMaskOfFields mask.now }
    requires transforms { HavePathsOfFields transforms.now }
    ensures updates { OnOk result (Updates doc.old input.now mask.now transforms.now at doc.new) }
    ensures exact { OnOk result (doc.new ≡ Some (record {
      fields = function.updated at (fields_of doc.old) input.now mask.now transforms.now;
      update_time = update_time_of doc.old;
    })) }
    ensures undone { OnErr result (doc.new ≡ doc.old) }
{
    match doc {
        Some(document) => {
            update_fields(alloc, &mut document.fields, input, mask, transforms, at)?;
        }
        None => {
            let fields = made(alloc, input, mask, transforms, at)?;
            *doc = Some(Document {
                fields,
                update_time: None,
            });
        }
    }
    Ok(())
}

/// Makes of the document what the write makes of it, until the backend has answered; `at` is the write's local time. No
/// path of the write is `__name__`.
///
/// # Errors
/// `NoMemory`: the document is then as before.
#[tactic(auto, unfolding(crate::specs::Local::effect))]
pub fn apply_local(
    alloc: Global,
    doc: &mut Option<Document>,
    write: &Write,
    at: Timestamp,
) -> Result<(), NoMemory>
    requires { IsOfFieldsOnly write.now }
    ensures done { OnOk result (HasEffect doc.old write.now at doc.new) }
    ensures exact { OnOk result (doc.new ≡ function.effect doc.old write.now at) }
    ensures undone { OnErr result (doc.new ≡ doc.old) }
{
    match write {
        Write::Delete { key: _, condition } => {
            if condition.holds(doc) {
                *doc = None;
            }
        }
        Write::Update {
            key: _,
            fields,
            mask,
            transforms,
            condition,
        } => {
            if condition.holds(doc) {
                update(alloc, doc, fields, mask, transforms, at)?;
            }
        }
    }
    Ok(())
}

/// Whether none of the paths is `__name__`.
fn are_of_fields(paths: &[FieldPath]) -> bool
    ensures { IsTrue result ↔ All IsOfFields paths.now }
{
    for path in paths {
        if path.is_document_name() {
            return false;
        }
    }
    true
}

/// Whether none of the transforms is at `__name__`.
fn have_paths_of_fields(transforms: &[Transform]) -> bool
    ensures { IsTrue result ↔ HavePathsOfFields transforms.now }
{
    for transform in transforms {
        if transform.path.is_document_name() {
            return false;
        }
    }
    true
}

/// Whether no path of the mask is `__name__`.
fn has_mask_of_fields(mask: &Option<Mask>) -> bool
    ensures { IsTrue result ↔ HasMaskOfFields mask.now }
{
    match mask {
        None => true,
        Some(mask) => are_of_fields(mask.as_slice()),
    }
}

impl Write {
    /// Whether no path of the write is `__name__`.
    pub fn is_of_fields_only(&self) -> bool
        ensures { IsTrue result ↔ IsOfFieldsOnly self.now }
    {
        match self {
            Write::Update {
                key: _,
                fields: _,
                mask,
                transforms,
                condition: _,
            } => has_mask_of_fields(mask) && have_paths_of_fields(transforms.as_slice()),
            Write::Delete {
                key: _,
                condition: _,
            } => true,
        }
    }
}
