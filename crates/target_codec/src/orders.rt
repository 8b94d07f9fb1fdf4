//! Orders.

ghost use Rattle.std.specs.Prelude.{◌≡◌, ◌++◌, OnOk};
ghost use Rattle.record_parts.specs.Reading.{Reads};
ghost use Rattle.record_parts.specs.Spelling.{many, AreSpelled};
ghost use Rattle.target_codec.specs.Spelling.{order, IsSpelledOrder};

use crate::bytes::{direction_byte, direction_of};
use crate::paths::query_path_of;
use document_keys::{NoMemory, Sequence};
use queries::Order;
use record_parts::{ReadError, put_number, put_path, u64_of};
use std::alloc::Global;

/// An order, and what follows it.
fn order_of(alloc: Global, bytes: &[u8]) -> Result<(Order, &[u8]), ReadError>
    ensures { Reads order IsSpelledOrder bytes.now (λ x. (x.0, x.1.now)) result }
{
    let (path, rest) = query_path_of(alloc, bytes)?;
    let (descending, rest) = direction_of(rest)?;
    Ok((Order { path, descending }, rest))
}

/// Orders, as many as the number before them says, and what follows them.
pub(crate) fn orders_of(alloc: Global, bytes: &[u8]) -> Result<(Sequence<Order>, &[u8]), ReadError>
    ensures { Reads (many order) (AreSpelled IsSpelledOrder) bytes.now (λ x. (x.0, x.1.now)) result }
{
    let (count, start) = u64_of(bytes)?;
    let mut orders = Vec::new(alloc);
    let mut rest = start;
    for _ in 0..count {
        let (order, next) = order_of(alloc, rest)?;
        orders.push(order)?;
        rest = next;
    }
    Ok((Sequence::from_vec(orders), rest))
}

#[tactic(auto, unfolding(crate::specs::Spelling::order))]
fn put_order(out: &mut Vec<u8>, content: &Order) -> Result<(), NoMemory>
    ensures { OnOk result (out.new.items ≡ out.old.items ++ order content.now) }
{
    put_path(out, &content.path)?;
    out.push(direction_byte(content.descending))?;
    Ok(())
}

/// Appends the spelling of the orders.
pub(crate) fn put_orders(out: &mut Vec<u8>, orders: &[Order]) -> Result<(), NoMemory>
    ensures { OnOk result (out.new.items ≡ out.old.items ++ many order orders.now) }
{
    put_number(out, orders.len() as u64)?;
    for order in orders {
        put_order(out, order)?;
    }
    Ok(())
}
