ghost use Rattle.std.specs.Prelude.{◌≡◌, Some, IfOk};
ghost use Rattle.line_reader.specs.Grammar.{member_of as member_of_fault};
ghost use Rattle.line_reader.specs.Reading.{refusal_of as refusal_of_fault};

use document_keys::{NoMemory, Text};
use json_model::{BadName, JsonFault};
use queries::QueryRule;
use std::alloc::Global;

/// Why a line is refused by itself, whatever the client did before. A refused line changes nothing.
#[derive(Debug, Drop)]
pub enum Refusal {
    /// Number 11: the line has more than 4,194,304 bytes.
    LineTooLong,
    /// Number 1: the member's value has the wrong shape, is missing, or the member isn't known; the name is empty where the
    /// line isn't a JSON object in UTF-8 with exactly one member, the name of a line.
    BadLine(Text),
    /// Number 4: arrays, maps or filters nest too deep, or a field path has too many names.
    TooDeep,
    /// Number 3: the member or constant isn't supported.
    Unsupported(Text),
    /// Number 2: a name breaks the rules of names.
    BadName(BadName),
    /// Number 5: the line has no writes, or more than 500.
    BadWrites { count: u64 },
    /// Number 6: the query breaks this rule of queries, and none of a lesser number.
    BadQuery(QueryRule),
}

/// Why a line with this fault is refused.
pub(crate) fn refusal_of(fault: JsonFault) -> Result<Refusal, NoMemory>
    ensures { IfOk result (λ refusal. refusal_of_fault fault ≡ Some refusal) }
{
    match fault {
        JsonFault::BadShape(member) => Ok(Refusal::BadLine(member)),
        JsonFault::BadTime(member) => Ok(Refusal::BadLine(member)),
        JsonFault::BadBytes(member) => Ok(Refusal::BadLine(member)),
        JsonFault::TooDeep => Ok(Refusal::TooDeep),
        JsonFault::Unsupported(member) => Ok(Refusal::Unsupported(member)),
        JsonFault::BadName(bad) => Ok(Refusal::BadName(bad)),
        JsonFault::NoMemory => Err(NoMemory),
    }
}

/// The member that a fault of a message is told by: `value` where something nests too deep, and `name` of a bad name.
pub(crate) fn member_of(alloc: Global, fault: JsonFault) -> Result<Text, NoMemory>
    ensures { IfOk result (λ member. member_of_fault fault ≡ Some member) }
{
    match fault {
        JsonFault::BadShape(member) => Ok(member),
        JsonFault::BadTime(member) => Ok(member),
        JsonFault::BadBytes(member) => Ok(member),
        JsonFault::TooDeep => Text::from_str(alloc, "value"),
        JsonFault::Unsupported(member) => Ok(member),
        JsonFault::BadName(_) => Text::from_str(alloc, "name"),
        JsonFault::NoMemory => Err(NoMemory),
    }
}
