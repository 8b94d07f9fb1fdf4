use std::alloc::{AllocError, AllocFailed};

/// No memory was found.
#[derive(Clone, Copy, Debug, PartialEq, Eq)]
pub struct NoMemory;

/// Why a text isn't the name that was to be read. The first that holds is reported.
#[derive(Clone, Copy, Debug, PartialEq, Eq)]
pub enum NameFault {
    /// The text doesn't begin as a name of that database does.
    WrongRoot = 1,
    /// A part of the text isn't a segment.
    BadSegment = 2,
    /// A document name has an odd number of segments.
    OddLength = 3,
    /// No memory was found.
    NoMemory,
}

/// Why a text isn't a field path, or names aren't those of one. The first that holds is reported.
#[derive(Clone, Copy, Debug, PartialEq, Eq)]
pub enum FieldFault {
    /// The text isn't of the form of a path, there is no name, or a name is empty or has more than 1,500 bytes.
    BadPath = 4,
    /// A name is of the form `__.*__`.
    ReservedField = 5,
    /// No memory was found.
    NoMemory,
}

impl From<AllocError> for NoMemory {
    fn from(_error: AllocError) -> Self {
        NoMemory
    }
}

impl<T: Drop> From<AllocFailed<T>> for NoMemory {
    fn from(_failed: AllocFailed<T>) -> Self {
        NoMemory
    }
}

impl From<NoMemory> for NameFault {
    ghost use Rattle.std.specs.Prelude.{◌≡◌};
    ghost use Rattle.document_keys.specs.declared.faults.NameFault.TheVariants as name;

    ghost from_gives = { λ _ e. e ≡ name.NoMemory };

    fn from(_none: NoMemory) -> Self {
        NameFault::NoMemory
    }
}

impl From<NoMemory> for FieldFault {
    ghost use Rattle.std.specs.Prelude.{◌≡◌};
    ghost use Rattle.document_keys.specs.declared.faults.FieldFault.TheVariants as field;

    ghost from_gives = { λ _ e. e ≡ field.NoMemory };

    fn from(_none: NoMemory) -> Self {
        FieldFault::NoMemory
    }
}

impl From<AllocError> for NameFault {
    ghost use Rattle.std.specs.Prelude.{◌≡◌};
    ghost use Rattle.document_keys.specs.declared.faults.NameFault.TheVariants as name;

    ghost from_gives = { λ _ e. e ≡ name.NoMemory };

    fn from(_error: AllocError) -> Self {
        NameFault::NoMemory
    }
}

impl<T: Drop> From<AllocFailed<T>> for NameFault {
    ghost use Rattle.std.specs.Prelude.{◌≡◌};
    ghost use Rattle.document_keys.specs.declared.faults.NameFault.TheVariants as name;

    ghost from_gives = { λ _ e. e ≡ name.NoMemory };

    fn from(_failed: AllocFailed<T>) -> Self {
        NameFault::NoMemory
    }
}

impl From<AllocError> for FieldFault {
    ghost use Rattle.std.specs.Prelude.{◌≡◌};
    ghost use Rattle.document_keys.specs.declared.faults.FieldFault.TheVariants as field;

    ghost from_gives = { λ _ e. e ≡ field.NoMemory };

    fn from(_error: AllocError) -> Self {
        FieldFault::NoMemory
    }
}

impl<T: Drop> From<AllocFailed<T>> for FieldFault {
    ghost use Rattle.std.specs.Prelude.{◌≡◌};
    ghost use Rattle.document_keys.specs.declared.faults.FieldFault.TheVariants as field;

    ghost from_gives = { λ _ e. e ≡ field.NoMemory };

    fn from(_failed: AllocFailed<T>) -> Self {
        FieldFault::NoMemory
    }
}
