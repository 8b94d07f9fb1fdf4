//! Orders.

ghost use Rattle.std.specs.Prelude.{◌≡◌, IfOk, IfSome, Some, codes, option_map};
ghost use Rattle.serde_json.specs.Data.{string};
ghost use Rattle.serde_json.specs.View.{view, items_view};
ghost use Rattle.json_model.specs.Clean.{IsClean};
ghost use Rattle.json_model.specs.Forms.{SpellsEach, printed_each, unless_empty as unless_empty_of};
ghost use Rattle.json_model.specs.Storable.{IsStorableQueryPath};
ghost use Rattle.json_model.specs.Trees.{two};
ghost use Rattle.json_model.specs.declared.place.Object.TheVariants as objects;
ghost use Rattle.json_model.specs.declared.place.Place.TheVariants as places;
ghost use Rattle.json_model.specs.declared.place.Series.TheVariants as serieses;
ghost use Rattle.json_queries.specs.Grammar.{SpellsOrder};
ghost use Rattle.json_queries.specs.Printed.{printed_order};
ghost use Rattle.json_queries.specs.Storable.{AreStorableOrders};

use crate::constants::{clean_direction, direction_text};
use crate::field::{clean_field, print_field};
use document_keys::{NoMemory, Sequence};
use json_model::{Object, Series, Setting, clean_list, clean_member, clean_object, unless_empty};
use queries::Order;
use serde_json::{Value as Json, json};
use std::alloc::{AllocError, Global};

/// An item of `orderBy`.
#[tactic(auto, unfolding(json_model::specs::Places::order_rows))]
fn clean_order(alloc: Global, setting: &Setting<'_>, json: &Json) -> Result<Order, NoMemory>
    requires { IsClean setting.now (places.Object objects.Order) (view json.now) }
    ensures order { IfOk result (λ order. SpellsOrder (view json.now) order) }
    ensures storable { IfOk result (λ order. IsStorableQueryPath order.path) }
{
    let members = clean_object(setting, Object::Order, json);
    let direction = clean_member(setting, Object::Order, members, "direction");
    let descending = clean_direction(setting, direction);
    match clean_member(setting, Object::Order, members, "field") {
        Some(field) => Ok(Order {
            path: clean_field(alloc, setting, field)?,
            descending,
        }),
        None => unreachable!(),
    }
}

/// The orders of a list.
fn clean_items(alloc: Global, setting: &Setting<'_>, json: &Json) -> Result<Vec<Order>, NoMemory>
    requires { IsClean setting.now (places.Series serieses.Orders) (view json.now) }
    ensures orders { IfOk result (λ orders. SpellsEach SpellsOrder (Some (view json.now)) orders.items) }
    ensures storable { IfOk result (λ orders. AreStorableOrders orders.items) }
{
    let items = clean_list(setting, Series::Orders, json);
    let mut orders = Vec::new(alloc);
    for item in items {
        orders.push(clean_order(alloc, setting, item)?)?;
    }
    let _count = orders.len();
    Ok(orders)
}

/// The orders under `orderBy`.
pub(crate) fn clean_orders(
    alloc: Global,
    setting: &Setting<'_>,
    found: Option<&Json>,
) -> Result<Sequence<Order>, NoMemory>
    requires { IfSome found (λ json. IsClean setting.now (places.Series serieses.Orders) (view json.now)) }
    ensures orders { IfOk result (λ orders. SpellsEach SpellsOrder
        (option_map (λ json. view json.now) found.entry) orders) }
    ensures storable { IfOk result AreStorableOrders }
{
    match found {
        Some(json) => Ok(Sequence::from_vec(clean_items(alloc, setting, json)?)),
        None => Ok(Sequence::new(alloc)),
    }
}

fn order_json(alloc: Global, direction: &str, field: Json) -> Result<Json, AllocError>
    ensures { IfOk result (λ json. view json
        ≡ two (codes "direction") (string direction.now) (codes "field") (view field)) }
{
    json!(in alloc; {"direction": direction, "field": field})
}

/// An item of `orderBy`, with its direction.
fn print_order(alloc: Global, order: &Order) -> Result<Json, NoMemory>
    ensures { IfOk result (λ json. view json ≡ printed_order order.now) }
{
    let field = print_field(alloc, &order.path)?;
    Ok(order_json(alloc, direction_text(order.descending), field)?)
}

/// The trees of orders.
fn print_items(alloc: Global, orders: &[Order]) -> Result<Vec<Json>, NoMemory>
    ensures { IfOk result (λ trees. items_view trees.items ≡ printed_each printed_order orders.now) }
{
    let mut trees = Vec::new(alloc);
    for order in orders {
        trees.push(print_order(alloc, order)?)?;
    }
    Ok(trees)
}

/// The list `orderBy`; it is left out where it is empty.
pub(crate) fn print_orders(
    alloc: Global,
    orders: &Sequence<Order>,
) -> Result<Option<Json>, NoMemory>
    ensures { IfOk result (λ found. option_map view found
        ≡ unless_empty_of (printed_each printed_order orders.now)) }
{
    let trees = print_items(alloc, orders.as_slice())?;
    Ok(unless_empty(trees))
}
