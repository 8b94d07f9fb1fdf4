//! Required members, as a walk over an object's members in their order finds them missing.

ghost use Rattle.std.specs.Prelude.{◌≡◌, map, IfOk};
ghost use Rattle.serde_json.specs.View.{view};
ghost use Rattle.json_model.specs.Faults.{missing as missing_of, missing_fault as missing_fault_of};
ghost use Rattle.json_model.specs.Members.{missed, later as later_of};
ghost use Rattle.json_model.specs.Ranks.{first_of_least};

use crate::fault::{JsonFault, NamingFault};
use crate::names::bad_name;
use crate::place::Object;
use document_keys::{NoMemory, Text};
use serde_json::Value as Json;
use std::alloc::Global;
use std::cmp::Ordering;

/// The fault of a required member that is missing. The path of a field and the id of a collection then count as the empty text.
fn missing_fault(alloc: Global, object: Object, name: &str) -> Result<JsonFault, NoMemory>
    ensures { IfOk result (λ fault. fault ≡ missing_fault_of object name.now) }
{
    match object {
        Object::Field => bad_name(alloc, NamingFault::BadPath, ""),
        Object::Selector => bad_name(alloc, NamingFault::BadSegment, ""),
        _ => Ok(JsonFault::BadShape(Text::from_str(alloc, name)?)),
    }
}

/// The fault of required members that are missing: that of the first.
#[tactic(auto, using(crate::proofs::Missing::told_first))]
pub(crate) fn find_missing(
    alloc: Global,
    object: Object,
    names: &[&'static str],
) -> Result<Option<JsonFault>, NoMemory>
    ensures { IfOk result (λ found. found
        ≡ first_of_least (missing_of object (map (λ name. name.now) names.now))) }
{
    match names {
        [] => Ok(None),
        [first, ..] => Ok(Some(missing_fault(alloc, object, first)?)),
    }
}

/// The fault of those of the required members that a member shows to be missing.
#[tactic(auto, using(crate::proofs::Missing::told_missed))]
pub(crate) fn find_missed(
    alloc: Global,
    object: Object,
    names: &[&'static str],
    name: &str,
    json: &Json,
) -> Result<Option<JsonFault>, NoMemory>
    ensures { IfOk result (λ found. found
        ≡ first_of_least (missing_of object
        (missed name.now (view json.now) (map (λ name. name.now) names.now)))) }
{
    let [first, ..] = names else {
        return Ok(None);
    };
    let first: &str = first;
    let is_missing = match first.cmp(name) {
        Ordering::Less => true,
        Ordering::Equal => json.is_null(),
        Ordering::Greater => false,
    };
    if !is_missing {
        return Ok(None);
    }
    Ok(Some(missing_fault(alloc, object, first)?))
}

/// The required members that are still to come behind the member of that name.
pub(crate) fn later<'a>(names: &'a [&'static str], name: &str) -> &'a [&'static str]
    ensures { map (λ name. name.now) result.now ≡ later_of name.now (map (λ name. name.now) names.now) }
{
    match names {
        [] => names,
        [first, others @ ..] => {
            let first: &str = first;
            match first.cmp(name) {
                Ordering::Less => later(others, name),
                Ordering::Equal => others,
                Ordering::Greater => names,
            }
        }
    }
}
