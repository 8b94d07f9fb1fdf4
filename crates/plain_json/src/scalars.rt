//! Scalars under the name of their kind.

ghost use Rattle.json.specs.Value.{value_view};
ghost use Rattle.serde_json.specs.Data.{string};
ghost use Rattle.json_model.specs.declared.place.Leaf.TheVariants as leaves;
ghost use Rattle.json_model.specs.Scalars.{IsReadScalar};
ghost use Rattle.std.specs.Prelude.{IfSome};
ghost use Rattle.plain_json.specs.Built.{IfBuilt};
ghost use Rattle.plain_json.specs.Trees.{StandsFor};

use crate::room::Tree;
use document_keys::{NoMemory, Text};
use json_model::{Leaf, read_bytes, read_integer, read_reference, show_text};
use std::alloc::Global;
use value_model::{Bytes, Kind, Timestamp, Value};

fn text_value(alloc: Global, text: &str) -> Result<Option<Value>, NoMemory>
    ensures { IfBuilt result (IsReadScalar leaves.Text (string text.now)) }
{
    show_text(text);
    let text = Text::from_str(alloc, text)?;
    Ok(Some(Value {
        kind: Kind::Text(text),
    }))
}

fn integer_value(text: &str) -> Option<Value>
    ensures { IfSome result (IsReadScalar leaves.Integer (string text.now)) }
{
    let Some(number) = read_integer(text) else {
        return None;
    };
    Some(Value {
        kind: Kind::Integer(number),
    })
}

fn time_value(text: &str) -> Option<Value>
    ensures { IfSome result (IsReadScalar leaves.Time (string text.now)) }
{
    let time = Timestamp::read(text)?;
    Some(Value {
        kind: Kind::Time(time),
    })
}

fn bytes_value(alloc: Global, text: &str) -> Result<Option<Value>, NoMemory>
    ensures { IfBuilt result (IsReadScalar leaves.Bytes (string text.now)) }
{
    let Some(bytes) = read_bytes(alloc, text)? else {
        return Ok(None);
    };
    Ok(Some(Value {
        kind: Kind::Bytes(Bytes::from_vec(bytes)),
    }))
}

fn reference_value(alloc: Global, text: &str) -> Result<Option<Value>, NoMemory>
    ensures { IfBuilt result (IsReadScalar leaves.Reference (string text.now)) }
{
    match read_reference(alloc, text) {
        Ok(name) => Ok(Some(Value {
            kind: Kind::Reference(Box::new(alloc, name)?),
        })),
        Err(fault) => {
            fault.unless_memory()?;
            Ok(None)
        }
    }
}

/// The scalar of that kind that a text spells.
fn text_scalar(alloc: Global, leaf: Leaf, text: &str) -> Result<Option<Value>, NoMemory>
    ensures { IfBuilt result (IsReadScalar leaf (string text.now)) }
{
    match leaf {
        Leaf::Text => text_value(alloc, text),
        Leaf::Integer => Ok(integer_value(text)),
        Leaf::Time => Ok(time_value(text)),
        Leaf::Bytes => bytes_value(alloc, text),
        Leaf::Reference => reference_value(alloc, text),
        _ => Ok(None),
    }
}

fn null_value(tree: &Tree<'_>) -> Option<Value>
    ensures { IfSome result (λ v.
        StandsFor (value_view tree.now) (λ d. IsReadScalar leaves.Null d v)) }
{
    let Tree::Null = tree else {
        return None;
    };
    Some(Value { kind: Kind::Null })
}

fn boolean_value(tree: &Tree<'_>) -> Option<Value>
    ensures { IfSome result (λ v.
        StandsFor (value_view tree.now) (λ d. IsReadScalar leaves.Boolean d v)) }
{
    let Tree::Bool(is) = tree else {
        return None;
    };
    Some(Value {
        kind: Kind::Boolean(*is),
    })
}

/// The scalar of that kind that a text in the tree spells.
#[tactic(auto, using(crate::proofs::Single::text_stands))]
fn value_in_text(alloc: Global, leaf: Leaf, tree: &Tree<'_>) -> Result<Option<Value>, NoMemory>
    ensures { IfBuilt result (λ v. StandsFor (value_view tree.now) (λ d. IsReadScalar leaf d v)) }
{
    let Tree::String(text) = tree else {
        return Ok(None);
    };
    text_scalar(alloc, leaf, text)
}

/// The scalar of that kind that a tree of no members and items spells; a number is none.
pub(crate) fn plain_scalar(
    alloc: Global,
    leaf: Leaf,
    tree: &Tree<'_>,
) -> Result<Option<Value>, NoMemory>
    ensures { IfBuilt result (λ v. StandsFor (value_view tree.now) (λ d. IsReadScalar leaf d v)) }
{
    match leaf {
        Leaf::Null => Ok(null_value(tree)),
        Leaf::Boolean => Ok(boolean_value(tree)),
        leaf => value_in_text(alloc, leaf, tree),
    }
}
