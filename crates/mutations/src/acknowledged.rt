//! What the backend's answer to a write makes of what is known of its document.

ghost use Rattle.std.specs.Prelude.{◌≡◌, IfOk, OnOk, OnErr, Some};
ghost use Rattle.mutations.specs.Acknowledged.{acknowledged, document_in, settled_by, version_in};
ghost use Rattle.mutations.specs.Effect.{HasMaskOfFields, HavePathsOfFields, IsOfFieldsOnly, fields_of};
ghost use Rattle.mutations.specs.Local.{holds, masked as masked_fields};
ghost use Rattle.mutations.specs.Results.{FitsTransforms, FitsWrite};
ghost use Rattle.value_model.specs.declared.document.Entry.TheVariants as entries;

use crate::change::settled_fields;
use crate::lists::Mask;
use crate::mask::masked;
use crate::results::WriteResult;
use crate::transform::Transforms;
use crate::write::{Precondition, Write};
use document_keys::NoMemory;
use std::alloc::Global;
use value_model::{Document, Entry, Fields, Timestamp};

/// The fields of the entry's document; where it has none, no fields.
fn known_fields(alloc: Global, entry: &Option<Entry>) -> Result<Fields, NoMemory>
    ensures { IfOk result (λ fields. fields ≡ fields_of (document_in entry.now)) }
{
    match entry {
        Some(Entry::Found(fields, _)) => fields.copy(alloc),
        _ => Ok(Fields::new(alloc)),
    }
}

impl Precondition {
    /// Whether it holds of the entry's document, or of there being none.
    fn holds_in(&self, entry: &Option<Entry>) -> bool
        ensures { result ≡ holds self.now (document_in entry.now) }
    {
        match (self, entry) {
            (Precondition::Free, _) => true,
            (Precondition::Exists(there), Some(Entry::Found(_, _))) => *there,
            (Precondition::Exists(there), _) => !*there,
            (Precondition::UpdateTime(time), Some(Entry::Found(_, version))) => {
                version.seconds == time.seconds && version.nanos == time.nanos
            }
            (Precondition::UpdateTime(_), _) => false,
        }
    }
}

/// The fields of the entry's document after a masked update, without its transforms.
fn masked_known(
    alloc: Global,
    entry: &Option<Entry>,
    input: &Fields,
    mask: &Mask,
) -> Result<Fields, NoMemory>
    requires { HasMaskOfFields (Some mask.now) }
    ensures { IfOk result (λ fields. fields
        ≡ masked_fields (fields_of (document_in entry.now)) input.now mask.now) }
{
    let known = known_fields(alloc, entry)?;
    masked(alloc, known, input, mask.as_slice())
}

/// The entry with the fields that an update set, after its transforms.
fn found(
    alloc: Global,
    fields: Fields,
    transforms: &Transforms,
    returned: &WriteResult,
    version: Timestamp,
) -> Result<Entry, NoMemory>
    requires paths { HavePathsOfFields transforms.now }
    requires results { FitsTransforms transforms.now returned.now.transforms }
    ensures { IfOk result (λ entry. entry
        ≡ entries.Found (settled_by fields transforms.now returned.now.transforms) version) }
{
    let results = returned.transforms.as_slice();
    let fields = settled_fields(alloc, fields, transforms.as_slice(), results)?;
    Ok(Entry::Found(fields, version))
}

impl WriteResult {
    /// Since when the write holds at the backend: its own update time, or the time of its commit.
    pub fn version(&self, commit: Timestamp) -> Timestamp
        ensures { result ≡ version_in self.now commit }
    {
        match self.update_time {
            Some(time) => time,
            None => commit,
        }
    }
}

/// What is known of the write's document once the backend has answered: the entry as the write leaves it, at the version that
/// the writes of this document have in their batch. The write has no path `__name__`, and the result fits it.
///
/// # Errors
/// `NoMemory`: the entry is then as before.
#[tactic(auto, unfolding(crate::specs::Acknowledged::acknowledged))]
pub fn apply_result(
    alloc: Global,
    entry: &mut Option<Entry>,
    write: &Write,
    returned: &WriteResult,
    version: Timestamp,
) -> Result<(), NoMemory>
    requires paths { IsOfFieldsOnly write.now }
    requires fits { FitsWrite write.now returned.now }
    ensures done { OnOk result (entry.new ≡ Some (acknowledged entry.old write.now returned.now version)) }
    ensures undone { OnErr result (entry.new ≡ entry.old) }
{
    let after = match write {
        Write::Delete {
            key: _,
            condition: _,
        } => Entry::Missing(version),
        Write::Update {
            key: _,
            fields,
            mask: None,
            transforms,
            condition: _,
        } => {
            let fields = fields.as_fields().copy(alloc)?;
            found(alloc, fields, transforms, returned, version)?
        }
        Write::Update {
            key: _,
            fields,
            mask: Some(mask),
            transforms,
            condition,
        } => {
            if condition.holds_in(entry) {
                let fields = masked_known(alloc, entry, fields.as_fields(), mask)?;
                found(alloc, fields, transforms, returned, version)?
            } else {
                Entry::Unknown(version)
            }
        }
    };
    *entry = Some(after);
    Ok(())
}
