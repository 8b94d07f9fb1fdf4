//! Scalars, read of whatever tree stands under the name of their kind.

ghost use Rattle.std.specs.Prelude.{IfOk, MatchOption};
ghost use Rattle.serde_json.specs.View.{view};
ghost use Rattle.value_model.specs.Time.{IsMoment};
ghost use Rattle.value_model.specs.declared.timestamp.Timestamp.{Timestamp as Moment};
ghost use Rattle.json_model.specs.declared.place.Leaf.TheVariants as leaves;
ghost use Rattle.json_model.specs.Grammar.{SpellsTime};
ghost use Rattle.json_model.specs.Scalars.{ReadsScalar};

use crate::bytes::read_bytes;
use crate::leaves::is_null_tree;
use crate::names::read_reference;
use crate::numbers::read_whole;
use crate::place::Leaf;
use crate::texts::show_text;
use document_keys::{NoMemory, Text};
use serde_json::Value as Json;
use std::alloc::Global;
use value_model::{Bytes, Kind, Timestamp, Value};

fn null_value(json: &Json) -> Option<Value>
    ensures { ReadsScalar leaves.Null (view json.now) result }
{
    if !is_null_tree(json) {
        return None;
    }
    Some(Value { kind: Kind::Null })
}

fn boolean_value(json: &Json) -> Option<Value>
    ensures { ReadsScalar leaves.Boolean (view json.now) result }
{
    let is = json.as_bool()?;
    Some(Value {
        kind: Kind::Boolean(is),
    })
}

/// The time that the tree spells.
pub(crate) fn read_time(json: &Json) -> Option<Timestamp>
    ensures { MatchOption result ((time : Moment) → SpellsTime (view json.now) time → ⊥)
        (λ time. SpellsTime (view json.now) time × IsMoment time) }
{
    let text = json.as_str()?;
    Timestamp::read(text)
}

fn time_value(json: &Json) -> Option<Value>
    ensures { ReadsScalar leaves.Time (view json.now) result }
{
    let Some(time) = read_time(json) else {
        return None;
    };
    Some(Value {
        kind: Kind::Time(time),
    })
}

fn integer_value(json: &Json) -> Option<Value>
    ensures { ReadsScalar leaves.Integer (view json.now) result }
{
    let Some(number) = read_whole(json) else {
        return None;
    };
    Some(Value {
        kind: Kind::Integer(number),
    })
}

fn text_value(alloc: Global, json: &Json) -> Result<Option<Value>, NoMemory>
    ensures { IfOk result (ReadsScalar leaves.Text (view json.now)) }
{
    let Some(text) = json.as_str() else {
        return Ok(None);
    };
    show_text(text);
    let text = Text::from_str(alloc, text)?;
    Ok(Some(Value {
        kind: Kind::Text(text),
    }))
}

fn bytes_value(alloc: Global, json: &Json) -> Result<Option<Value>, NoMemory>
    ensures { IfOk result (ReadsScalar leaves.Bytes (view json.now)) }
{
    let Some(text) = json.as_str() else {
        return Ok(None);
    };
    let Some(bytes) = read_bytes(alloc, text)? else {
        return Ok(None);
    };
    Ok(Some(Value {
        kind: Kind::Bytes(Bytes::from_vec(bytes)),
    }))
}

fn reference_value(alloc: Global, json: &Json) -> Result<Option<Value>, NoMemory>
    ensures { IfOk result (ReadsScalar leaves.Reference (view json.now)) }
{
    let Some(text) = json.as_str() else {
        return Ok(None);
    };
    match read_reference(alloc, text) {
        Ok(name) => Ok(Some(Value {
            kind: Kind::Reference(Box::new(alloc, name)?),
        })),
        Err(fault) => {
            fault.unless_memory()?;
            Ok(None)
        }
    }
}

/// The scalar of that kind that the tree spells.
pub(crate) fn read_scalar(alloc: Global, leaf: Leaf, json: &Json) -> Result<Option<Value>, NoMemory>
    ensures { IfOk result (ReadsScalar leaf (view json.now)) }
{
    match leaf {
        Leaf::Null => Ok(null_value(json)),
        Leaf::Boolean => Ok(boolean_value(json)),
        Leaf::Integer => Ok(integer_value(json)),
        Leaf::Time => Ok(time_value(json)),
        Leaf::Text => text_value(alloc, json),
        Leaf::Bytes => bytes_value(alloc, json),
        Leaf::Reference => reference_value(alloc, json),
        _ => Ok(None),
    }
}
