//! The answers of refused lines, each with the number of its line in the run, from 1.

ghost use Rattle.std.specs.Prelude.{◌≡◌, codes, IfOk};
ghost use Rattle.std.specs.String.{string_bytes};
ghost use Rattle.serde_json.specs.Data.{boolean, string};
ghost use Rattle.serde_json.specs.View.{view};
ghost use Rattle.line_printer.specs.Lines.{line_of, count, naming_text as naming_text_of, bad_line_tree, bad_name_tree, unsupported_tree, too_deep_tree, bad_writes_tree, bad_query_tree, listener_tree, listener_taken_tree, no_listener_tree, stream_text as stream_text_of, stream_state_tree, bad_message_tree, too_long_tree, ids_spent_tree};
ghost use Rattle.line_printer.specs.Trees.{one, five};

use crate::line::print_line;
use document_keys::NoMemory;
use json_model::NamingFault;
use serde_json::{Value as Json, json};
use std::alloc::{AllocError, Global};
use value_model::StreamName;

fn bad_line_json(alloc: Global, line: u64, member: &str) -> Result<Json, AllocError>
    ensures { IfOk result (λ json. view json ≡ bad_line_tree line member.now) }
{
    json!(in alloc; {"refused": {"cause": "BadLine", "line": line, "member": member, "number": 1u64}})
}

/// Number 1: the member's value has the wrong shape, is missing, or the member isn't known; the name is empty where the line
/// isn't an object with exactly one member, the name of a line.
///
/// # Errors
/// `NoMemory`
pub fn print_bad_line(alloc: Global, line: u64, member: &str) -> Result<String, NoMemory>
    ensures { IfOk result (λ text. string_bytes text ≡ line_of (bad_line_tree line member.now)) }
{
    let json = bad_line_json(alloc, line, member)?;
    print_line(alloc, &json)
}

fn naming_text(fault: NamingFault) -> &'static str
    ensures { result.now ≡ naming_text_of fault }
{
    match fault {
        NamingFault::WrongRoot => "WrongRoot",
        NamingFault::BadSegment => "BadSegment",
        NamingFault::OddLength => "OddLength",
        NamingFault::BadPath => "BadPath",
        NamingFault::ReservedField => "ReservedField",
    }
}

fn bad_name_json(alloc: Global, line: u64, why: &str, name: &str) -> Result<Json, AllocError>
    ensures { IfOk result (λ json. view json ≡ bad_name_tree line why.now name.now) }
{
    json!(in alloc; {"refused": {"cause": "BadName", "fault": why, "line": line, "name": name, "number": 2u64}})
}

/// Number 2: a name breaks the rules of names.
///
/// # Errors
/// `NoMemory`
pub fn print_bad_name(
    alloc: Global,
    line: u64,
    fault: NamingFault,
    name: &str,
) -> Result<String, NoMemory>
    ensures { IfOk result (λ text. string_bytes text
        ≡ line_of (bad_name_tree line (naming_text_of fault) name.now)) }
{
    let json = bad_name_json(alloc, line, naming_text(fault), name)?;
    print_line(alloc, &json)
}

fn unsupported_json(alloc: Global, line: u64, member: &str) -> Result<Json, AllocError>
    ensures { IfOk result (λ json. view json ≡ unsupported_tree line member.now) }
{
    json!(in alloc; {"refused": {"cause": "Unsupported", "line": line, "member": member, "number": 3u64}})
}

/// Number 3: the member isn't supported.
///
/// # Errors
/// `NoMemory`
pub fn print_unsupported(alloc: Global, line: u64, member: &str) -> Result<String, NoMemory>
    ensures { IfOk result (λ text. string_bytes text ≡ line_of (unsupported_tree line member.now)) }
{
    let json = unsupported_json(alloc, line, member)?;
    print_line(alloc, &json)
}

fn too_deep_json(alloc: Global, line: u64) -> Result<Json, AllocError>
    ensures { IfOk result (λ json. view json ≡ too_deep_tree line) }
{
    json!(in alloc; {"refused": {"cause": "TooDeep", "line": line, "number": 4u64}})
}

/// Number 4: arrays and maps, or filters, nest too deep.
///
/// # Errors
/// `NoMemory`
pub fn print_too_deep(alloc: Global, line: u64) -> Result<String, NoMemory>
    ensures { IfOk result (λ text. string_bytes text ≡ line_of (too_deep_tree line)) }
{
    let json = too_deep_json(alloc, line)?;
    print_line(alloc, &json)
}

fn bad_writes_json(alloc: Global, line: u64, count: u64) -> Result<Json, AllocError>
    ensures { IfOk result (λ json. view json ≡ bad_writes_tree line count) }
{
    json!(in alloc; {"refused": {"cause": "BadWrites", "count": count, "line": line, "number": 5u64}})
}

/// Number 5: the line has no writes, or more than may be made at once; it has so many.
///
/// # Errors
/// `NoMemory`
pub fn print_bad_writes(alloc: Global, line: u64, count: u64) -> Result<String, NoMemory>
    ensures { IfOk result (λ text. string_bytes text ≡ line_of (bad_writes_tree line count)) }
{
    let json = bad_writes_json(alloc, line, count)?;
    print_line(alloc, &json)
}

fn bad_query_json(alloc: Global, line: u64, fault: u64) -> Result<Json, AllocError>
    ensures { IfOk result (λ json. view json ≡ bad_query_tree line fault) }
{
    json!(in alloc; {"refused": {"cause": "BadQuery", "fault": fault, "line": line, "number": 6u64}})
}

/// Number 6: the query breaks the rule of this number.
///
/// # Errors
/// `NoMemory`
pub fn print_bad_query(alloc: Global, line: u64, fault: u64) -> Result<String, NoMemory>
    ensures { IfOk result (λ text. string_bytes text ≡ line_of (bad_query_tree line fault)) }
{
    let json = bad_query_json(alloc, line, fault)?;
    print_line(alloc, &json)
}

fn listener_json(
    alloc: Global,
    cause: &str,
    line: u64,
    id: u32,
    number: u64,
) -> Result<Json, AllocError>
    ensures { IfOk result (λ json. view json ≡ listener_tree cause.now line id number) }
{
    json!(in alloc; {"refused": {"cause": cause, "id": id, "line": line, "number": number}})
}

/// Number 7: there is a listener of this id already.
///
/// # Errors
/// `NoMemory`
pub fn print_listener_taken(alloc: Global, line: u64, id: u32) -> Result<String, NoMemory>
    ensures { IfOk result (λ text. string_bytes text ≡ line_of (listener_taken_tree line id)) }
{
    let json = listener_json(alloc, "ListenerTaken", line, id, 7)?;
    print_line(alloc, &json)
}

/// Number 8: there is no listener of this id.
///
/// # Errors
/// `NoMemory`
pub fn print_no_listener(alloc: Global, line: u64, id: u32) -> Result<String, NoMemory>
    ensures { IfOk result (λ text. string_bytes text ≡ line_of (no_listener_tree line id)) }
{
    let json = listener_json(alloc, "NoListener", line, id, 8)?;
    print_line(alloc, &json)
}

fn stream_text(stream: StreamName) -> &'static str
    ensures { result.now ≡ stream_text_of stream }
{
    match stream {
        StreamName::Watch => "watch",
        StreamName::Write => "write",
    }
}

fn stream_state_json(
    alloc: Global,
    line: u64,
    stream: &str,
    is_open: bool,
) -> Result<Json, AllocError>
    ensures { IfOk result (λ json. view json ≡ one (codes "refused")
        (five (codes "cause") (string (codes "StreamState"))
        (codes "line") (count line) (codes "number") (count 9)
        (codes "open") (boolean is_open) (codes "stream") (string stream.now))) }
{
    json!(in alloc; {"refused": {"cause": "StreamState", "line": line, "number": 9u64, "open": is_open, "stream": stream}})
}

/// Number 9: the line needs the stream in another state; it was open or not.
///
/// # Errors
/// `NoMemory`
pub fn print_stream_state(
    alloc: Global,
    line: u64,
    stream: StreamName,
    is_open: bool,
) -> Result<String, NoMemory>
    ensures { IfOk result (λ text. string_bytes text
        ≡ line_of (stream_state_tree line stream is_open)) }
{
    let json = stream_state_json(alloc, line, stream_text(stream), is_open)?;
    print_line(alloc, &json)
}

fn bad_message_json(
    alloc: Global,
    line: u64,
    stream: &str,
    member: &str,
) -> Result<Json, AllocError>
    ensures { IfOk result (λ json. view json ≡ one (codes "refused")
        (five (codes "cause") (string (codes "BadMessage"))
        (codes "line") (count line) (codes "member") (string member.now)
        (codes "number") (count 10) (codes "stream") (string stream.now))) }
{
    json!(in alloc; {"refused": {"cause": "BadMessage", "line": line, "member": member, "number": 10u64, "stream": stream}})
}

/// Number 10: the backend's message has a fault, or can't come next on the stream, by this member.
///
/// # Errors
/// `NoMemory`
pub fn print_bad_message(
    alloc: Global,
    line: u64,
    stream: StreamName,
    member: &str,
) -> Result<String, NoMemory>
    ensures { IfOk result (λ text. string_bytes text
        ≡ line_of (bad_message_tree line stream member.now)) }
{
    let json = bad_message_json(alloc, line, stream_text(stream), member)?;
    print_line(alloc, &json)
}

fn too_long_json(alloc: Global, line: u64) -> Result<Json, AllocError>
    ensures { IfOk result (λ json. view json ≡ too_long_tree line) }
{
    json!(in alloc; {"refused": {"cause": "LineTooLong", "line": line, "number": 11u64}})
}

/// Number 11: the line has more bytes than it may have.
///
/// # Errors
/// `NoMemory`
pub fn print_too_long(alloc: Global, line: u64) -> Result<String, NoMemory>
    ensures { IfOk result (λ text. string_bytes text ≡ line_of (too_long_tree line)) }
{
    let json = too_long_json(alloc, line)?;
    print_line(alloc, &json)
}

fn ids_spent_json(alloc: Global, line: u64) -> Result<Json, AllocError>
    ensures { IfOk result (λ json. view json ≡ ids_spent_tree line) }
{
    json!(in alloc; {"refused": {"cause": "IdsSpent", "line": line, "number": 12u64}})
}

/// Number 12: no number is left for the commit of the line.
///
/// # Errors
/// `NoMemory`
pub fn print_ids_spent(alloc: Global, line: u64) -> Result<String, NoMemory>
    ensures { IfOk result (λ text. string_bytes text ≡ line_of (ids_spent_tree line)) }
{
    let json = ids_spent_json(alloc, line)?;
    print_line(alloc, &json)
}
