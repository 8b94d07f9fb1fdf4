//! Laws of what two files give. These functions do nothing: their contracts are the laws.

ghost use Rattle.disk_journal.specs.Laws.{AFileIsReadOnce, AFileIsNotBlank, NoneIsForeign, OneFileCounts, TwoFilesGiveOnce};

/// A file has at most one generation, one list of payloads and one place of its first closed gate, and isn't blank then.
pub fn a_file_is_read_once()
    ensures once { AFileIsReadOnce }
    ensures not_blank { AFileIsNotBlank }
{}

/// Of two files at most one counts, with one generation, they give at most one list of payloads, and none of them
/// is foreign then.
pub fn two_files_give_once()
    ensures counts { OneFileCounts }
    ensures gives { TwoFilesGiveOnce }
    ensures not_foreign { NoneIsForeign }
{}
