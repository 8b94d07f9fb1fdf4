ghost use Rattle.std.specs.Prelude.{◌≡◌, ◌≢◌, OnOk, OnErr};
ghost use Rattle.json_model.specs.declared.fault.JsonFault.TheVariants as json_fault;
ghost use Rattle.json_model.specs.Ranks.{rank as rank_of, better as better_of};

use document_keys::{NoMemory, Text};
use std::alloc::{AllocError, AllocFailed};

/// Why a text isn't the name that was to be read. The first that holds is reported.
#[derive(Clone, Copy, Debug, PartialEq, Eq)]
pub enum NamingFault {
    /// The text doesn't begin as a name of that database does.
    WrongRoot = 1,
    /// A part of the text isn't a segment.
    BadSegment = 2,
    /// A document name has an odd number of segments.
    OddLength = 3,
    /// A field name is empty or has more than 1,500 bytes, or a text isn't of the form of a field path.
    BadPath = 4,
    /// A field name is of the form `__.*__`.
    ReservedField = 5,
}

/// A name that breaks the rules of names.
#[derive(Debug, Drop)]
pub struct BadName {
    /// The rule.
    pub fault: NamingFault,
    /// The whole text that was read, or the field name.
    pub name: Text,
}

/// Why a tree isn't what was to be read. The text is the name of the member at fault.
#[derive(Debug, Drop)]
pub enum JsonFault {
    /// The member's value has the wrong shape, is missing, or the member isn't known.
    BadShape(Text),
    /// The member's value isn't a time.
    BadTime(Text),
    /// The member's value isn't base64.
    BadBytes(Text),
    /// Arrays and maps nest too deep.
    TooDeep,
    /// The member is one that isn't supported.
    Unsupported(Text),
    /// A name of a document or a field breaks the rules of names.
    BadName(BadName),
    /// No memory was found.
    NoMemory,
}

impl JsonFault {
    /// Nothing where the fault is one of a tree.
    ///
    /// # Errors
    /// `NoMemory` where it is want of memory.
    pub fn unless_memory(&self) -> Result<(), NoMemory>
        ensures fault { OnOk result (self.now ≢ json_fault.NoMemory) }
        ensures memory { OnErr result (self.now ≡ json_fault.NoMemory) }
    {
        match self {
            JsonFault::NoMemory => Err(NoMemory),
            _ => Ok(()),
        }
    }
}

impl From<NoMemory> for JsonFault {
    ghost use Rattle.std.specs.Prelude.{◌≡◌};
    ghost use Rattle.json_model.specs.declared.fault.JsonFault.TheVariants as json_fault;

    ghost from_gives = { λ _ e. e ≡ json_fault.NoMemory };

    fn from(_none: NoMemory) -> Self {
        JsonFault::NoMemory
    }
}

/// The place of a kind of fault in the order in which kinds are reported.
fn rank(fault: &JsonFault) -> u8
    ensures { result ≡ rank_of fault.now }
{
    match fault {
        JsonFault::BadShape(_) => 1,
        JsonFault::BadTime(_) => 1,
        JsonFault::BadBytes(_) => 1,
        JsonFault::TooDeep => 2,
        JsonFault::Unsupported(_) => 3,
        JsonFault::BadName(_) => 4,
        JsonFault::NoMemory => 5,
    }
}

/// Puts the later of two faults in place of the earlier one, where it is of a kind that is reported first, or there is none
/// earlier.
pub(crate) fn improve(fault: &mut Option<JsonFault>, later: Option<JsonFault>)
    ensures { fault.new ≡ better_of fault.old later }
{
    let Some(second) = later else {
        return;
    };
    let is_better = match fault {
        Some(first) => rank(&second) < rank(first),
        None => true,
    };
    if is_better {
        *fault = Some(second);
    }
}
