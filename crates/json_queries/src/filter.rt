//! Filters.

ghost use Rattle.std.specs.Prelude.{◌≡◌, IfOk, IfSome, Some, codes, option_map};
ghost use Rattle.serde_json.specs.Data.{string};
ghost use Rattle.serde_json.specs.View.{view, items_view, members_view};
ghost use Rattle.json_model.specs.Clean.{IsClean, AreClean};
ghost use Rattle.json_model.specs.Forms.{IsGiven};
ghost use Rattle.json_model.specs.Grammar.{SpellsValue};
ghost use Rattle.json_model.specs.Members.{given};
ghost use Rattle.json_model.specs.Storable.{IsStorableQueryPath};
ghost use Rattle.json_model.specs.Trees.{one, two};
ghost use Rattle.json_model.specs.declared.place.Object.TheVariants as objects;
ghost use Rattle.json_model.specs.declared.place.Place.TheVariants as places;
ghost use Rattle.json_model.specs.declared.place.Series.TheVariants as serieses;
ghost use Rattle.queries.specs.Filters.{field, filters_of, unary};
ghost use Rattle.json_queries.specs.Constants.{junction_text as junction_text_of, operator_text as operator_text_of};
ghost use Rattle.json_queries.specs.Grammar.{SpellsField, SpellsFilter, SpellsFilterUnder, SpellsFilters, SpellsWhere};
ghost use Rattle.json_queries.specs.Printed.{composite_filter_tree, field_filter_tree, printed_filter, printed_filters};
ghost use Rattle.json_queries.specs.Storable.{HasCountedParts, HaveCountedParts, IsStorableOperand, IsStorableRawFilter};

use crate::constants::{
    clean_junction, clean_operator, clean_test, junction_text, operator_text, test_text,
};
use crate::field::{clean_field, print_field};
use document_keys::{FieldPath, NoMemory};
use json_model::{
    Object, Series, Setting, clean_choice, clean_list, clean_member, clean_object, clean_value,
    print_value, put_given, put_member, text_tree, unless_empty,
};
use queries::{Filter, FilterKind, Junction, Operator, UnaryOp};
use serde_json::{Map, Value as Json, json};
use std::alloc::{AllocError, Global};
use value_model::Value;

/// The operator of a filter of a field.
#[tactic(auto, unfolding(json_model::specs::Places::field_filter_rows, json_model::specs::Places::list_filter_rows))]
fn clean_operator_in(setting: &Setting<'_>, members: &Map<String, Json>) -> Operator
    requires { AreClean setting.now objects.FieldFilter (members_view members.now.entries) }
    ensures { IsGiven (given (codes "op") (members_view members.now.entries))
        (λ d. d ≡ string (operator_text_of result)) }
{
    match clean_member(setting, Object::FieldFilter, members, "op") {
        Some(op) => clean_operator(setting, op),
        None => unreachable!(),
    }
}

/// The path of a filter of a field.
#[tactic(auto, unfolding(json_model::specs::Places::field_filter_rows, json_model::specs::Places::list_filter_rows))]
fn clean_path_in(
    alloc: Global,
    setting: &Setting<'_>,
    members: &Map<String, Json>,
) -> Result<FieldPath, NoMemory>
    requires { AreClean setting.now objects.FieldFilter (members_view members.now.entries) }
    ensures path { IfOk result (λ path. IsGiven
        (given (codes "field") (members_view members.now.entries)) (λ d. SpellsField d path)) }
    ensures storable { IfOk result IsStorableQueryPath }
{
    match clean_member(setting, Object::FieldFilter, members, "field") {
        Some(field) => clean_field(alloc, setting, field),
        None => unreachable!(),
    }
}

/// The operand of a filter of a field.
#[tactic(auto, unfolding(json_model::specs::Places::field_filter_rows, json_model::specs::Places::list_filter_rows))]
fn clean_operand_in(
    alloc: Global,
    setting: &Setting<'_>,
    members: &Map<String, Json>,
) -> Result<Value, NoMemory>
    requires { AreClean setting.now objects.FieldFilter (members_view members.now.entries) }
    ensures operand { IfOk result (λ operand. IsGiven
        (given (codes "value") (members_view members.now.entries)) (λ d. SpellsValue d operand)) }
    ensures storable { IfOk result IsStorableOperand }
{
    match clean_member(setting, Object::FieldFilter, members, "value") {
        Some(value) => clean_value(alloc, setting, value),
        None => unreachable!(),
    }
}

/// What `fieldFilter` holds.
fn clean_field_filter(alloc: Global, setting: &Setting<'_>, json: &Json) -> Result<Filter, NoMemory>
    requires { IsClean setting.now (places.Object objects.FieldFilter) (view json.now) }
    ensures filter { IfOk result (λ filter. SpellsFilterUnder (codes "fieldFilter") (view json.now) filter) }
    ensures storable { IfOk result HasCountedParts }
{
    let members = clean_object(setting, Object::FieldFilter, json);
    let op = clean_operator_in(setting, members);
    let path = clean_path_in(alloc, setting, members)?;
    let value = clean_operand_in(alloc, setting, members)?;
    Ok(Filter {
        kind: FilterKind::Field { path, op, value },
    })
}

/// What `unaryFilter` holds.
#[tactic(auto, unfolding(json_model::specs::Places::unary_filter_rows))]
fn clean_unary_filter(alloc: Global, setting: &Setting<'_>, json: &Json) -> Result<Filter, NoMemory>
    requires { IsClean setting.now (places.Object objects.UnaryFilter) (view json.now) }
    ensures filter { IfOk result (λ filter. SpellsFilterUnder (codes "unaryFilter") (view json.now) filter) }
    ensures storable { IfOk result HasCountedParts }
{
    let members = clean_object(setting, Object::UnaryFilter, json);
    let Some(op) = clean_member(setting, Object::UnaryFilter, members, "op") else {
        unreachable!();
    };
    let op = clean_test(setting, op);
    let Some(field) = clean_member(setting, Object::UnaryFilter, members, "field") else {
        unreachable!();
    };
    let path = clean_field(alloc, setting, field)?;
    Ok(Filter {
        kind: FilterKind::Unary { path, op },
    })
}

/// The operator of a composite filter.
#[tactic(auto, unfolding(json_model::specs::Places::composite_filter_rows))]
fn clean_junction_in(setting: &Setting<'_>, members: &Map<String, Json>) -> Junction
    requires { AreClean setting.now objects.CompositeFilter (members_view members.now.entries) }
    ensures { IsGiven (given (codes "op") (members_view members.now.entries))
        (λ d. d ≡ string (junction_text_of result)) }
{
    match clean_member(setting, Object::CompositeFilter, members, "op") {
        Some(op) => clean_junction(setting, op),
        None => unreachable!(),
    }
}

/// The filters of a list.
#[cycle(build)]
fn clean_items(alloc: Global, setting: &Setting<'_>, json: &Json) -> Result<Vec<Filter>, NoMemory>
    requires { IsClean setting.now (places.Series serieses.Filters) (view json.now) }
    ensures filters { IfOk result (λ filters. SpellsFilters (Some (view json.now))
        (filters_of filters.items)) }
    ensures storable { IfOk result (λ filters. HaveCountedParts (filters_of filters.items)) }
{
    let items = clean_list(setting, Series::Filters, json);
    let mut filters = Vec::new(alloc);
    for item in items {
        filters.push(clean_filter(alloc, setting, item)?)?;
    }
    Ok(filters)
}

/// The filters of a composite one.
#[cycle(build)]
#[tactic(auto, unfolding(json_model::specs::Places::composite_filter_rows))]
fn clean_filters_in(
    alloc: Global,
    setting: &Setting<'_>,
    members: &Map<String, Json>,
) -> Result<Vec<Filter>, NoMemory>
    requires { AreClean setting.now objects.CompositeFilter (members_view members.now.entries) }
    ensures filters { IfOk result (λ filters. SpellsFilters
        (given (codes "filters") (members_view members.now.entries)) (filters_of filters.items)) }
    ensures storable { IfOk result (λ filters. HaveCountedParts (filters_of filters.items)) }
{
    match clean_member(setting, Object::CompositeFilter, members, "filters") {
        Some(list) => clean_items(alloc, setting, list),
        None => Ok(Vec::new(alloc)),
    }
}

/// What `compositeFilter` holds.
#[cycle(build)]
fn clean_composite_filter(
    alloc: Global,
    setting: &Setting<'_>,
    json: &Json,
) -> Result<Filter, NoMemory>
    requires { IsClean setting.now (places.Object objects.CompositeFilter) (view json.now) }
    ensures filter { IfOk result (λ filter. SpellsFilterUnder (codes "compositeFilter")
        (view json.now) filter) }
    ensures storable { IfOk result HasCountedParts }
{
    let members = clean_object(setting, Object::CompositeFilter, json);
    let op = clean_junction_in(setting, members);
    let filters = clean_filters_in(alloc, setting, members)?;
    let _count = filters.len();
    Ok(Filter {
        kind: FilterKind::Composite { op, filters },
    })
}

/// A filter.
#[cycle(build)]
#[tactic(auto, unfolding(json_model::specs::Places::filter_rows))]
fn clean_filter(alloc: Global, setting: &Setting<'_>, json: &Json) -> Result<Filter, NoMemory>
    requires { IsClean setting.now (places.Object objects.Filter) (view json.now) }
    ensures filter { IfOk result (λ filter. SpellsFilter (view json.now) filter) }
    ensures storable { IfOk result HasCountedParts }
{
    let members = clean_object(setting, Object::Filter, json);
    let (name, inner) = clean_choice(setting, Object::Filter, members);
    match name {
        "compositeFilter" => clean_composite_filter(alloc, setting, inner),
        "fieldFilter" => clean_field_filter(alloc, setting, inner),
        "unaryFilter" => clean_unary_filter(alloc, setting, inner),
        _ => unreachable!(),
    }
}

/// The filter under `where`; where it is left out there is none.
pub(crate) fn clean_where(
    alloc: Global,
    setting: &Setting<'_>,
    found: Option<&Json>,
) -> Result<Option<Filter>, NoMemory>
    requires { IfSome found (λ json. IsClean setting.now (places.Object objects.Filter) (view json.now)) }
    ensures filter { IfOk result (λ filter. SpellsWhere
        (option_map (λ json. view json.now) found.entry) filter) }
    ensures storable { IfOk result (λ filter. IfSome filter IsStorableRawFilter) }
{
    match found {
        Some(json) => Ok(Some(clean_filter(alloc, setting, json)?)),
        None => Ok(None),
    }
}

fn unary_filter_json(alloc: Global, field: Json, op: &str) -> Result<Json, AllocError>
    ensures { IfOk result (λ json. view json
        ≡ one (codes "unaryFilter") (two (codes "field") (view field) (codes "op") (string op.now))) }
{
    json!(in alloc; {"unaryFilter": {"field": field, "op": op}})
}

fn field_filter_json(
    alloc: Global,
    field: Json,
    op: &str,
    operand: Json,
) -> Result<Json, AllocError>
    ensures { IfOk result (λ json. view json
        ≡ one (codes "fieldFilter") (field_filter_tree (view field) op.now (view operand))) }
{
    json!(in alloc; {"fieldFilter": {"field": field, "op": op, "value": operand}})
}

fn composite_filter_json(alloc: Global, inside: Json) -> Result<Json, AllocError>
    ensures { IfOk result (λ json. view json ≡ one (codes "compositeFilter") (view inside)) }
{
    json!(in alloc; {"compositeFilter": inside})
}

/// A test of a field.
fn print_unary(alloc: Global, path: &FieldPath, op: UnaryOp) -> Result<Json, NoMemory>
    ensures { IfOk result (λ json. view json ≡ printed_filter (unary path.now op)) }
{
    let field = print_field(alloc, path)?;
    Ok(unary_filter_json(alloc, field, test_text(op))?)
}

/// A field against an operand.
fn print_comparison(
    alloc: Global,
    path: &FieldPath,
    op: Operator,
    operand: &Value,
) -> Result<Json, NoMemory>
    ensures { IfOk result (λ json. view json ≡ printed_filter (field path.now op operand.now)) }
{
    let field = print_field(alloc, path)?;
    let operand = print_value(alloc, operand)?;
    Ok(field_filter_json(alloc, field, operator_text(op), operand)?)
}

/// Filters that are joined, of their trees.
fn composite_tree(alloc: Global, filters: Vec<Json>, op: &str) -> Result<Json, NoMemory>
    ensures { IfOk result (λ json. view json
        ≡ one (codes "compositeFilter") (composite_filter_tree (items_view filters.items) op.now)) }
{
    let mut members = Map::new(alloc);
    put_member(alloc, &mut members, "op", text_tree(alloc, op)?)?;
    put_given(alloc, &mut members, "filters", unless_empty(filters))?;
    Ok(composite_filter_json(alloc, Json::Object(members))?)
}

/// The trees of filters.
#[cycle(print)]
fn print_filters(alloc: Global, filters: &Vec<Filter>) -> Result<Vec<Json>, NoMemory>
    ensures { IfOk result (λ trees. items_view trees.items ≡ printed_filters (filters_of filters.now.items)) }
{
    let mut trees = Vec::new(alloc);
    for filter in filters {
        trees.push(print_filter(alloc, filter)?)?;
    }
    Ok(trees)
}

/// A filter under the name of its kind.
#[cycle(print)]
fn print_filter(alloc: Global, filter: &Filter) -> Result<Json, NoMemory>
    ensures { IfOk result (λ json. view json ≡ printed_filter filter.now) }
{
    match &filter.kind {
        FilterKind::Composite { op, filters } => {
            let trees = print_filters(alloc, filters)?;
            composite_tree(alloc, trees, junction_text(*op))
        }
        FilterKind::Field { path, op, value } => print_comparison(alloc, path, *op, value),
        FilterKind::Unary { path, op } => print_unary(alloc, path, *op),
    }
}

/// What `where` holds; it is left out where there is no filter.
pub(crate) fn print_where(alloc: Global, filter: &Option<Filter>) -> Result<Option<Json>, NoMemory>
    ensures { IfOk result (λ found. option_map view found ≡ option_map printed_filter filter.now) }
{
    match filter {
        Some(filter) => Ok(Some(print_filter(alloc, filter)?)),
        None => Ok(None),
    }
}
