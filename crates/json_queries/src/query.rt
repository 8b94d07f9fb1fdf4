//! Queries.

ghost use Rattle.std.specs.Prelude.{◌≡◌, ◌⊎◌, [], IfOk, IfErr, IfSome, Some, Ok, Err, FitsSigned, codes, option_map};
ghost use Rattle.std.specs.Int.{w32};
ghost use Rattle.std.specs.List.{All};
ghost use Rattle.serde_json.specs.View.{view, members_view};
ghost use Rattle.value_model.specs.Storable.{IsStorableKey, IsStorableSegment};
ghost use Rattle.json_model.specs.Clean.{IsClean, AreClean};
ghost use Rattle.json_model.specs.Faults.{IsFault};
ghost use Rattle.json_model.specs.Forms.{InObject, IsGiven, SpellsEach};
ghost use Rattle.json_model.specs.Grammar.{SpellsParent};
ghost use Rattle.json_model.specs.Members.{given};
ghost use Rattle.json_model.specs.declared.fault.JsonFault.TheVariants as json_fault;
ghost use Rattle.json_model.specs.declared.place.Object.TheVariants as objects;
ghost use Rattle.json_model.specs.declared.place.Leaf.TheVariants as leaves;
ghost use Rattle.json_model.specs.declared.place.Place.TheVariants as places;
ghost use Rattle.json_model.specs.declared.place.Series.TheVariants as serieses;
ghost use Rattle.json_queries.specs.Faults.{QueryFaults};
ghost use Rattle.json_queries.specs.Grammar.{SpellsSelector, SpellsLimit, SpellsStructured, SpellsCollectionIn, SpellsOnlyName, SpellsDocuments, SpellsQuery};
ghost use Rattle.json_queries.specs.Laws.{target_read};
ghost use Rattle.json_queries.specs.Printed.{target_tree};
ghost use Rattle.json_queries.specs.Storable.{IsStorableRawCollection, IsStorableRawQuery, IsStorableTarget};
ghost use Rattle.queries.specs.declared.target.Target.{Target as ATarget};

use crate::cursor::clean_cursor;
use crate::filter::clean_where;
use crate::order::clean_orders;
use document_keys::{Database, DocumentKey, NoMemory, Segment, Sequence};
use json_model::{
    JsonFault, MAX_NESTING, Object, Place, Series, Setting, Side, check, clean_choice, clean_id,
    clean_limit, clean_list, clean_member, clean_name, clean_object, clean_parent,
};
use queries::{RawCollection, RawQuery};
use serde_json::{Map, Value as Json};
use std::alloc::Global;

/// An item of `from`.
#[tactic(auto, unfolding(json_model::specs::Places::selector_rows))]
fn clean_selector(alloc: Global, setting: &Setting<'_>, json: &Json) -> Result<Segment, NoMemory>
    requires { IsClean setting.now (places.Object objects.Selector) (view json.now) }
    ensures id { IfOk result (λ id. SpellsSelector (view json.now) id) }
    ensures storable { IfOk result IsStorableSegment }
{
    let members = clean_object(setting, Object::Selector, json);
    match clean_member(setting, Object::Selector, members, "collectionId") {
        Some(id) => clean_id(alloc, setting, id),
        None => unreachable!(),
    }
}

/// The ids of a list.
fn clean_items(alloc: Global, setting: &Setting<'_>, json: &Json) -> Result<Vec<Segment>, NoMemory>
    requires { IsClean setting.now (places.Series serieses.Selectors) (view json.now) }
    ensures ids { IfOk result (λ ids. SpellsEach SpellsSelector (Some (view json.now)) ids.items) }
    ensures storable { IfOk result (λ ids. All IsStorableSegment ids.items) }
{
    let items = clean_list(setting, Series::Selectors, json);
    let mut ids = Vec::new(alloc);
    for item in items {
        ids.push(clean_selector(alloc, setting, item)?)?;
    }
    Ok(ids)
}

/// The ids under `from`.
fn clean_from(
    alloc: Global,
    setting: &Setting<'_>,
    found: Option<&Json>,
) -> Result<Sequence<Segment>, NoMemory>
    requires { IfSome found (λ json. IsClean setting.now (places.Series serieses.Selectors) (view json.now)) }
    ensures ids { IfOk result (λ ids. SpellsEach SpellsSelector
        (option_map (λ json. view json.now) found.entry) ids) }
    ensures storable { IfOk result (λ ids. All IsStorableSegment ids) }
{
    match found {
        Some(json) => Ok(Sequence::from_vec(clean_items(alloc, setting, json)?)),
        None => Ok(Sequence::new(alloc)),
    }
}

/// The number under `limit`.
fn clean_limit_in(setting: &Setting<'_>, found: Option<&Json>) -> Option<i32>
    requires { IfSome found (λ json. IsClean setting.now (places.Leaf leaves.Limit) (view json.now)) }
    ensures limit { SpellsLimit (option_map (λ json. view json.now) found.entry) result }
    ensures storable { IfSome result (FitsSigned w32) }
{
    match found {
        Some(json) => Some(clean_limit(setting, json)),
        None => None,
    }
}

/// What `structuredQuery` holds, under the parent.
#[tactic(auto, unfolding(json_model::specs::Places::structured_query_rows))]
fn clean_structured(
    alloc: Global,
    setting: &Setting<'_>,
    parent: Option<DocumentKey>,
    json: &Json,
) -> Result<RawCollection, NoMemory>
    requires { IsClean setting.now (places.Object objects.StructuredQuery) (view json.now) }
    ensures query { IfOk result (λ query. InObject (view json.now)
        (λ inside. SpellsStructured inside query)) }
    ensures parent { IfOk result (λ query. query.parent ≡ parent) }
    ensures storable { IfSome parent IsStorableKey → IfOk result IsStorableRawCollection }
{
    let kind = Object::StructuredQuery;
    let members = clean_object(setting, kind, json);
    let from = clean_from(alloc, setting, clean_member(setting, kind, members, "from"))?;
    let filter = clean_where(
        alloc,
        setting,
        clean_member(setting, kind, members, "where"),
    )?;
    let orders = clean_orders(
        alloc,
        setting,
        clean_member(setting, kind, members, "orderBy"),
    )?;
    let start_at = clean_cursor(
        alloc,
        setting,
        clean_member(setting, kind, members, "startAt"),
    )?;
    let end_at = clean_cursor(
        alloc,
        setting,
        clean_member(setting, kind, members, "endAt"),
    )?;
    let limit = clean_limit_in(setting, clean_member(setting, kind, members, "limit"));
    Ok(RawCollection {
        parent,
        from,
        filter,
        orders,
        start_at,
        end_at,
        limit,
    })
}

/// What stands under `parent`.
#[tactic(auto, unfolding(json_model::specs::Places::query_rows))]
fn clean_parent_in(
    alloc: Global,
    setting: &Setting<'_>,
    members: &Map<String, Json>,
) -> Result<Option<DocumentKey>, NoMemory>
    requires { AreClean setting.now objects.Query (members_view members.now.entries) }
    ensures parent { IfOk result (λ parent. IsGiven
        (given (codes "parent") (members_view members.now.entries))
        (λ d. SpellsParent setting.now.root d parent)) }
    ensures storable { IfOk result (λ parent. IfSome parent IsStorableKey) }
{
    match clean_member(setting, Object::Query, members, "parent") {
        Some(parent) => clean_parent(alloc, setting, parent),
        None => unreachable!(),
    }
}

/// What `query` holds.
#[tactic(auto, unfolding(json_model::specs::Places::query_rows))]
fn clean_collection(
    alloc: Global,
    setting: &Setting<'_>,
    json: &Json,
) -> Result<RawCollection, NoMemory>
    requires { IsClean setting.now (places.Object objects.Query) (view json.now) }
    ensures query { IfOk result (λ query. InObject (view json.now)
        (λ ms. SpellsCollectionIn setting.now.root ms query)) }
    ensures storable { IfOk result IsStorableRawCollection }
{
    let members = clean_object(setting, Object::Query, json);
    let parent = clean_parent_in(alloc, setting, members)?;
    match clean_member(setting, Object::Query, members, "structuredQuery") {
        Some(structured) => clean_structured(alloc, setting, parent, structured),
        None => unreachable!(),
    }
}

/// The only name of a list.
fn clean_only_name(
    alloc: Global,
    setting: &Setting<'_>,
    json: &Json,
) -> Result<DocumentKey, NoMemory>
    requires { IsClean setting.now (places.Series serieses.Names) (view json.now) }
    ensures key { IfOk result (λ key. SpellsOnlyName setting.now.root (view json.now) key) }
    ensures storable { IfOk result IsStorableKey }
{
    let items = clean_list(setting, Series::Names, json);
    match items.first() {
        Some(name) => clean_name(alloc, setting, name),
        None => unreachable!(),
    }
}

/// What `documents` holds.
fn clean_documents(
    alloc: Global,
    setting: &Setting<'_>,
    json: &Json,
) -> Result<DocumentKey, NoMemory>
    requires { IsClean setting.now (places.Object objects.Documents) (view json.now) }
    ensures key { IfOk result (λ key. SpellsDocuments setting.now.root (view json.now) key) }
    ensures storable { IfOk result IsStorableKey }
{
    let members = clean_object(setting, Object::Documents, json);
    match clean_member(setting, Object::Documents, members, "documents") {
        Some(names) => clean_only_name(alloc, setting, names),
        None => unreachable!(),
    }
}

/// The query that a tree without faults spells.
///
/// # Errors
/// `NoMemory`
#[tactic(auto, unfolding(json_model::specs::Places::target_rows))]
pub fn clean_query(alloc: Global, setting: &Setting<'_>, json: &Json) -> Result<RawQuery, NoMemory>
    requires { IsClean setting.now (places.Object objects.Target) (view json.now) }
    ensures query { IfOk result (λ query. SpellsQuery setting.now.root (view json.now) query) }
    ensures storable { IfOk result IsStorableRawQuery }
{
    let members = clean_object(setting, Object::Target, json);
    let (name, inner) = clean_choice(setting, Object::Target, members);
    match name {
        "documents" => Ok(RawQuery::Document(clean_documents(alloc, setting, inner)?)),
        "query" => Ok(RawQuery::Collection(clean_collection(alloc, setting, inner)?)),
        _ => unreachable!(),
    }
}

/// The query that the tree spells, as the target of a line. The tree then has no fault, and the query can be stored: its keys
/// and paths are sound, its values and filters nest at most 20 deep. Of the printed tree of a target that can be stored, the
/// query with the same members.
///
/// # Errors
/// The first fault of the least kind, in the walk through the tree; one of the tree itself names `target`. Or `NoMemory`.
pub fn read_query(
    alloc: Global,
    root: &Database,
    side: Side,
    json: &Json,
) -> Result<RawQuery, JsonFault>
    ensures query { IfOk result (λ query. SpellsQuery root.now (view json.now) query) }
    ensures storable { IfOk result IsStorableRawQuery }
    ensures clean { IfOk result (λ _. QueryFaults (record { side = side; root = root.now })
        (view json.now) []) }
    ensures fault { IfErr result (λ fault. IsFault
        (QueryFaults (record { side = side; root = root.now }) (view json.now)) fault) }
    ensures printed { (target : ATarget) → IsStorableTarget target
        → view json.now ≡ target_tree root.now target → (result ≡ Ok (target_read target))
        ⊎ (result ≡ Err json_fault.NoMemory) }
{
    let setting = Setting { side, root };
    let place = Place::Object(Object::Target);
    if let Err(fault) = check(alloc, &setting, MAX_NESTING, place, "target", json) {
        return Err(fault);
    }
    let query = clean_query(alloc, &setting, json)?;
    Ok(query)
}
