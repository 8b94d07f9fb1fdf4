//! What one byte says: how filters are joined, how a field is compared or tested, and the direction of an order.

ghost use Rattle.std.specs.Prelude.{◌≡◌, ◌≢◌, MatchOption};
ghost use Rattle.record_parts.specs.Reading.{Reads};
ghost use Rattle.queries.specs.declared.filter.Junction.{Junction as AJunction};
ghost use Rattle.queries.specs.declared.filter.Operator.{Operator as AnOperator};
ghost use Rattle.queries.specs.declared.filter.UnaryOp.{UnaryOp as ATest};
ghost use Rattle.target_codec.specs.Spelling.{junction, operator, test, direction, junction_number, operator_number, test_number, direction_number};

use queries::{Junction, Operator, UnaryOp};
use record_parts::{ReadError, byte_of};

/// The byte of a junction.
pub(crate) fn junction_byte(op: Junction) -> u8
    ensures { result ≡ junction_number op }
{
    match op {
        Junction::And => 1,
        Junction::Or => 2,
    }
}

/// The byte of an operator.
pub(crate) fn operator_byte(op: Operator) -> u8
    ensures { result ≡ operator_number op }
{
    match op {
        Operator::Equal => 1,
        Operator::LessThan => 2,
        Operator::LessThanOrEqual => 3,
        Operator::GreaterThan => 4,
        Operator::GreaterThanOrEqual => 5,
        Operator::NotEqual => 6,
        Operator::IsIn => 7,
        Operator::IsNotIn => 8,
        Operator::ArrayContains => 9,
        Operator::ArrayContainsAny => 10,
    }
}

/// The byte of a test.
pub(crate) fn test_byte(op: UnaryOp) -> u8
    ensures { result ≡ test_number op }
{
    match op {
        UnaryOp::IsNull => 1,
        UnaryOp::IsNotNull => 2,
    }
}

/// The byte of a direction.
pub(crate) fn direction_byte(descending: bool) -> u8
    ensures { result ≡ direction_number descending }
{
    if descending { 2 } else { 1 }
}

/// The operator of a byte.
fn operator_from(byte: u8) -> Option<Operator>
    ensures { MatchOption result ((op : AnOperator) → operator_number op ≢ byte)
        (λ op. operator_number op ≡ byte) }
{
    match byte {
        1 => Some(Operator::Equal),
        2 => Some(Operator::LessThan),
        3 => Some(Operator::LessThanOrEqual),
        4 => Some(Operator::GreaterThan),
        5 => Some(Operator::GreaterThanOrEqual),
        6 => Some(Operator::NotEqual),
        7 => Some(Operator::IsIn),
        8 => Some(Operator::IsNotIn),
        9 => Some(Operator::ArrayContains),
        10 => Some(Operator::ArrayContainsAny),
        _ => None,
    }
}

/// The junction of a byte.
fn junction_from(byte: u8) -> Option<Junction>
    ensures { MatchOption result ((op : AJunction) → junction_number op ≢ byte)
        (λ op. junction_number op ≡ byte) }
{
    match byte {
        1 => Some(Junction::And),
        2 => Some(Junction::Or),
        _ => None,
    }
}

/// The test of a byte.
fn test_from(byte: u8) -> Option<UnaryOp>
    ensures { MatchOption result ((op : ATest) → test_number op ≢ byte) (λ op. test_number op ≡ byte) }
{
    match byte {
        1 => Some(UnaryOp::IsNull),
        2 => Some(UnaryOp::IsNotNull),
        _ => None,
    }
}

/// Whether a byte is that of descending order.
fn direction_from(byte: u8) -> Option<bool>
    ensures { MatchOption result ((descending : _) → direction_number descending ≢ byte)
        (λ descending. direction_number descending ≡ byte) }
{
    match byte {
        1 => Some(false),
        2 => Some(true),
        _ => None,
    }
}

/// An operator, and what follows it.
pub(crate) fn operator_of(bytes: &[u8]) -> Result<(Operator, &[u8]), ReadError>
    ensures { Reads operator (λ _. Unit {0}) bytes.now (λ x. (x.0, x.1.now)) result }
{
    let (byte, rest) = byte_of(bytes)?;
    match operator_from(byte) {
        Some(op) => Ok((op, rest)),
        None => Err(ReadError::NotSpelled),
    }
}

/// A junction, and what follows it.
pub(crate) fn junction_of(bytes: &[u8]) -> Result<(Junction, &[u8]), ReadError>
    ensures { Reads junction (λ _. Unit {0}) bytes.now (λ x. (x.0, x.1.now)) result }
{
    let (byte, rest) = byte_of(bytes)?;
    match junction_from(byte) {
        Some(op) => Ok((op, rest)),
        None => Err(ReadError::NotSpelled),
    }
}

/// A test, and what follows it.
pub(crate) fn test_of(bytes: &[u8]) -> Result<(UnaryOp, &[u8]), ReadError>
    ensures { Reads test (λ _. Unit {0}) bytes.now (λ x. (x.0, x.1.now)) result }
{
    let (byte, rest) = byte_of(bytes)?;
    match test_from(byte) {
        Some(op) => Ok((op, rest)),
        None => Err(ReadError::NotSpelled),
    }
}

/// Whether an order is descending, and what follows that.
pub(crate) fn direction_of(bytes: &[u8]) -> Result<(bool, &[u8]), ReadError>
    ensures { Reads direction (λ _. Unit {0}) bytes.now (λ x. (x.0, x.1.now)) result }
{
    let (byte, rest) = byte_of(bytes)?;
    match direction_from(byte) {
        Some(descending) => Ok((descending, rest)),
        None => Err(ReadError::NotSpelled),
    }
}
