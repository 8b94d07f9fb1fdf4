//! Laws of what two files find. These functions do nothing: their contracts are the laws.

ghost use Rattle.local_store.specs.Files.{RefusedFilesAreNoStore, TwoFilesFindOnce};

/// Two files find at most one state.
pub fn two_files_find_once()
    ensures { TwoFilesFindOnce }
{}

/// Files that are refused as no store find no state.
pub fn refused_files_are_no_store()
    ensures { RefusedFilesAreNoStore }
{}
