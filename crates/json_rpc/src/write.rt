//! Writes.

ghost use Rattle.std.specs.Prelude.{◌≡◌, ◌≤◌, ◌⊎◌, [], ◌∷◌, false, Some, Ok, Err, IfOk, IfErr, OnOk, codes, option_map};
ghost use Rattle.std.specs.List.{All};
ghost use Rattle.serde_json.specs.Data.{Data, object};
ghost use Rattle.serde_json.specs.View.{view, members_view};
ghost use Rattle.serde_json.specs.Written.{has_float};
ghost use Rattle.value_model.specs.Data.{entries_depth};
ghost use Rattle.value_model.specs.Storable.{AreStorable, IsStorableKey};
ghost use Rattle.json_model.specs.Clean.{IsClean, AreClean};
ghost use Rattle.json_model.specs.Faults.{IsFault, max_nesting};
ghost use Rattle.json_model.specs.Forms.{IsGiven, SpellsEach, present, printed_each, unless_empty};
ghost use Rattle.json_model.specs.Grammar.{SpellsName};
ghost use Rattle.json_model.specs.Members.{given, refined};
ghost use Rattle.json_model.specs.Objects.{with_given};
ghost use Rattle.json_model.specs.declared.side.Side.TheVariants.{Caller};
ghost use Rattle.json_model.specs.declared.fault.JsonFault.TheVariants as json_fault;
ghost use Rattle.json_model.specs.declared.place.Leaf.TheVariants as leaves;
ghost use Rattle.json_model.specs.declared.place.Object.TheVariants as objects;
ghost use Rattle.json_model.specs.declared.place.Place.TheVariants as places;
ghost use Rattle.json_model.specs.declared.place.Series.TheVariants as serieses;
ghost use Rattle.mutations.specs.declared.write.Write.{Write as AWrite};
ghost use Rattle.json_rpc.specs.Faults.{WriteFaults};
ghost use Rattle.json_rpc.specs.Grammar.{SpellsDocument, SpellsFieldsIn, SpellsWrite, SpellsWriteUnder};
ghost use Rattle.json_rpc.specs.Printed.{fields_given, printed_condition, printed_mask, printed_transform, printed_update, printed_write};
ghost use Rattle.json_rpc.specs.Storable.{IsStorableWrite};

use crate::condition::{clean_condition, print_condition};
use crate::mask::{clean_mask, print_mask};
use crate::transform::{clean_transforms, print_transforms};
use document_keys::{Database, DocumentKey, NoMemory};
use json_model::{
    JsonFault, MAX_NESTING, Object, Place, Series, Setting, Side, check, clean_choice,
    clean_fields, clean_list, clean_member, clean_name, clean_object, print_fields, put_given,
    put_member, text_tree,
};
use mutations::{Mask, Precondition, Transforms, Write};
use serde_json::{Map, Value as Json};
use std::alloc::Global;
use value_model::{Fields, SharedFields};

/// The key under `name` of an update.
#[tactic(auto, unfolding(json_model::specs::Places::update_rows))]
fn clean_key(
    alloc: Global,
    setting: &Setting<'_>,
    members: &Map<String, Json>,
) -> Result<DocumentKey, NoMemory>
    requires { AreClean setting.now objects.Update (members_view members.now.entries) }
    ensures key { IfOk result (λ key. IsGiven
        (given (codes "name") (members_view members.now.entries))
        (λ d. SpellsName setting.now.root d key)) }
    ensures storable { IfOk result IsStorableKey }
{
    match clean_member(setting, Object::Update, members, "name") {
        Some(json) => clean_name(alloc, setting, json),
        None => unreachable!(),
    }
}

/// The fields under `fields` of an update.
#[tactic(auto, unfolding(json_model::specs::Places::update_rows))]
fn clean_given_fields(
    alloc: Global,
    setting: &Setting<'_>,
    members: &Map<String, Json>,
) -> Result<Fields, NoMemory>
    requires { AreClean setting.now objects.Update (members_view members.now.entries) }
    ensures fields { IfOk result (λ fields. SpellsFieldsIn
        (given (codes "fields") (members_view members.now.entries)) fields) }
    ensures storable { IfOk result AreStorable }
    ensures deep { IfOk result (λ fields. entries_depth fields ≤ max_nesting) }
{
    match clean_member(setting, Object::Update, members, "fields") {
        Some(json) => clean_fields(alloc, setting, json),
        None => Ok(Fields::new(alloc)),
    }
}

/// The same, for the write and the documents that it makes to share.
fn clean_shared_fields(
    alloc: Global,
    setting: &Setting<'_>,
    members: &Map<String, Json>,
) -> Result<SharedFields, NoMemory>
    requires { AreClean setting.now objects.Update (members_view members.now.entries) }
    ensures fields { IfOk result (λ fields. SpellsFieldsIn
        (given (codes "fields") (members_view members.now.entries)) fields) }
    ensures storable { IfOk result AreStorable }
    ensures deep { IfOk result (λ fields. entries_depth fields ≤ max_nesting) }
{
    let fields = clean_given_fields(alloc, setting, members)?;
    SharedFields::new(alloc, fields)
}

/// An update of a document, with what stands beside it.
#[tactic(auto, unfolding(json_model::specs::Places::write_rows))]
fn clean_beside(
    alloc: Global,
    setting: &Setting<'_>,
    members: &Map<String, Json>,
    key: DocumentKey,
    fields: SharedFields,
) -> Result<Write, NoMemory>
    requires refined { refined objects.Write (members_view members.now.entries) ≡ objects.Write }
    requires beside { AreClean setting.now objects.Write (members_view members.now.entries) }
    ensures write { (d : Data) → SpellsDocument setting.now.root d key fields → IfOk result
        (λ write. SpellsWriteUnder setting.now.root (members_view members.now.entries)
        (codes "update") d write) }
    ensures storable { IsStorableKey key → AreStorable fields → entries_depth fields ≤ max_nesting
        → IfOk result IsStorableWrite }
{
    let mask = clean_member(setting, Object::Write, members, "updateMask");
    let mask = clean_mask(alloc, setting, mask)?;
    let transforms = clean_member(setting, Object::Write, members, "updateTransforms");
    let transforms = clean_transforms(alloc, setting, transforms)?;
    let condition = clean_member(setting, Object::Write, members, "currentDocument");
    let condition = clean_condition(setting, condition);
    Ok(Write::Update {
        key,
        fields,
        mask,
        transforms,
        condition,
    })
}

/// An update, with what stands beside it.
fn clean_update(
    alloc: Global,
    setting: &Setting<'_>,
    members: &Map<String, Json>,
    update: &Json,
) -> Result<Write, NoMemory>
    requires refined { refined objects.Write (members_view members.now.entries) ≡ objects.Write }
    requires beside { AreClean setting.now objects.Write (members_view members.now.entries) }
    requires clean { IsClean setting.now (places.Object objects.Update) (view update.now) }
    ensures write { IfOk result (λ write. SpellsWriteUnder setting.now.root
        (members_view members.now.entries) (codes "update") (view update.now) write) }
    ensures storable { IfOk result IsStorableWrite }
{
    let inside = clean_object(setting, Object::Update, update);
    let key = clean_key(alloc, setting, inside)?;
    let fields = clean_shared_fields(alloc, setting, inside)?;
    clean_beside(alloc, setting, members, key, fields)
}

/// A delete, with what stands beside it.
#[tactic(auto, unfolding(json_model::specs::Places::delete_write_rows))]
fn clean_delete(
    alloc: Global,
    setting: &Setting<'_>,
    members: &Map<String, Json>,
    name: &Json,
) -> Result<Write, NoMemory>
    requires refined { refined objects.Write (members_view members.now.entries) ≡ objects.DeleteWrite }
    requires beside { AreClean setting.now objects.Write (members_view members.now.entries) }
    requires clean { IsClean setting.now (places.Leaf leaves.Name) (view name.now) }
    ensures write { IfOk result (λ write. SpellsWriteUnder setting.now.root
        (members_view members.now.entries) (codes "delete") (view name.now) write) }
    ensures storable { IfOk result IsStorableWrite }
{
    let key = clean_name(alloc, setting, name)?;
    let condition = clean_member(setting, Object::Write, members, "currentDocument");
    let condition = clean_condition(setting, condition);
    Ok(Write::Delete { key, condition })
}

/// The write that a tree without faults spells.
///
/// # Errors
/// `NoMemory`
pub fn clean_write(alloc: Global, setting: &Setting<'_>, json: &Json) -> Result<Write, NoMemory>
    requires { IsClean setting.now (places.Object objects.Write) (view json.now) }
    ensures write { IfOk result (λ write. SpellsWrite setting.now.root (view json.now) write) }
    ensures storable { IfOk result IsStorableWrite }
{
    let members = clean_object(setting, Object::Write, json);
    let (name, inner) = clean_choice(setting, Object::Write, members);
    match name {
        "update" => clean_update(alloc, setting, members, inner),
        "delete" => clean_delete(alloc, setting, members, inner),
        _ => unreachable!(),
    }
}

/// The writes that a list without faults spells.
///
/// # Errors
/// `NoMemory`
#[tactic(auto, using(json_model::proofs::Forms::all_spelled))]
pub fn clean_writes(
    alloc: Global,
    setting: &Setting<'_>,
    json: &Json,
) -> Result<Vec<Write>, NoMemory>
    requires { IsClean setting.now (places.Series serieses.Writes) (view json.now) }
    ensures writes { IfOk result (λ writes. SpellsEach (SpellsWrite setting.now.root)
        (Some (view json.now)) writes.items) }
    ensures storable { IfOk result (λ writes. All IsStorableWrite writes.items) }
{
    let items = clean_list(setting, Series::Writes, json);
    let mut writes = Vec::with_capacity(alloc, items.len())?;
    for item in items {
        writes.push(clean_write(alloc, setting, item)?)?;
    }
    Ok(writes)
}

/// The write that the tree spells, by the caller's side. The tree then has no fault, and the write can be stored. Of the printed
/// tree of a write that can be stored, this write.
///
/// # Errors
/// The first fault of the least kind, in the walk through the tree; one of the tree itself names `writes`. Or `NoMemory`.
pub fn read_write(alloc: Global, root: &Database, json: &Json) -> Result<Write, JsonFault>
    ensures write { IfOk result (λ write. SpellsWrite root.now (view json.now) write) }
    ensures storable { IfOk result IsStorableWrite }
    ensures clean { IfOk result (λ _. WriteFaults (record { side = Caller; root = root.now })
        (view json.now) []) }
    ensures fault { IfErr result (λ fault. IsFault
        (WriteFaults (record { side = Caller; root = root.now }) (view json.now)) fault) }
    ensures printed { (write : AWrite) → IsStorableWrite write
        → view json.now ≡ printed_write root.now write → (result ≡ Ok write)
        ⊎ (result ≡ Err json_fault.NoMemory) }
{
    let setting = Setting {
        side: Side::Caller,
        root,
    };
    let place = Place::Object(Object::Write);
    if let Err(fault) = check(alloc, &setting, MAX_NESTING, place, "writes", json) {
        return Err(fault);
    }
    let write = clean_write(alloc, &setting, json)?;
    Ok(write)
}

/// Fields, unless there are none.
fn print_given_fields(alloc: Global, fields: &Fields) -> Result<Option<Json>, NoMemory>
    ensures { IfOk result (λ found. option_map view found ≡ fields_given fields.now) }
{
    if fields.len() == 0 {
        return Ok(None);
    }
    Ok(Some(print_fields(alloc, fields)?))
}

/// What `update` holds.
fn print_update(
    alloc: Global,
    root: &Database,
    key: &DocumentKey,
    fields: &Fields,
) -> Result<Json, NoMemory>
    ensures { IfOk result (λ json. view json ≡ printed_update root.now key.now fields.now) }
{
    let name = key.print(alloc, root)?;
    let mut members = Map::new(alloc);
    put_member(
        alloc,
        &mut members,
        "name",
        text_tree(alloc, name.as_str())?,
    )?;
    put_given(
        alloc,
        &mut members,
        "fields",
        print_given_fields(alloc, fields)?,
    )?;
    Ok(Json::Object(members))
}

/// What stands beside an update, but for its precondition.
fn print_beside(
    alloc: Global,
    mask: &Option<Mask>,
    transforms: &Transforms,
) -> Result<Map<String, Json>, NoMemory>
    ensures { IfOk result (λ members. members_view members.entries
        ≡ present ((codes "updateMask", option_map printed_mask mask.now) ∷
        (codes "updateTransforms", unless_empty (printed_each printed_transform transforms.now))
        ∷ [])) }
{
    let mut members = Map::new(alloc);
    put_given(
        alloc,
        &mut members,
        "updateTransforms",
        print_transforms(alloc, transforms)?,
    )?;
    put_given(alloc, &mut members, "updateMask", print_mask(alloc, mask)?)?;
    Ok(members)
}

/// Puts the precondition into a write.
fn put_condition(
    alloc: Global,
    members: &mut Map<String, Json>,
    condition: Precondition,
) -> Result<(), NoMemory>
    ensures { OnOk result (members_view members.new.entries
        ≡ with_given (codes "currentDocument") (printed_condition condition)
        (members_view members.old.entries)) }
{
    put_given(
        alloc,
        members,
        "currentDocument",
        print_condition(alloc, condition)?,
    )
}

/// The tree of a write, with the names of documents under the root. It has no floats.
///
/// # Errors
/// `NoMemory`
pub fn print_write(alloc: Global, root: &Database, write: &Write) -> Result<Json, NoMemory>
    ensures tree { IfOk result (λ json. view json ≡ printed_write root.now write.now) }
    ensures digits { IfOk result (λ json. has_float (view json) ≡ false) }
{
    let members = print_members(alloc, root, write)?;
    Ok(Json::Object(members))
}

/// The members of a write.
fn print_members(
    alloc: Global,
    root: &Database,
    write: &Write,
) -> Result<Map<String, Json>, NoMemory>
    ensures { IfOk result (λ members. object (members_view members.entries)
        ≡ printed_write root.now write.now) }
{
    match write {
        Write::Update {
            key,
            fields,
            mask,
            transforms,
            condition,
        } => {
            let mut members = print_beside(alloc, mask, transforms)?;
            let update = print_update(alloc, root, key, fields.as_fields())?;
            put_member(alloc, &mut members, "update", update)?;
            put_condition(alloc, &mut members, *condition)?;
            Ok(members)
        }
        Write::Delete { key, condition } => {
            let mut members = Map::new(alloc);
            let name = key.print(alloc, root)?;
            put_member(
                alloc,
                &mut members,
                "delete",
                text_tree(alloc, name.as_str())?,
            )?;
            put_condition(alloc, &mut members, *condition)?;
            Ok(members)
        }
    }
}
