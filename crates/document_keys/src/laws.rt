//! Laws of names, paths and their order. Nothing is done when they run.

ghost use Rattle.document_keys.specs.Laws.{PathsAreOrdered, NamesOnePath, KeyFaultsExclude, FaultsExclude, PathsReadBack, SameMembersAreOneSet};

/// Keys and paths are in a strict total order.
pub fn paths_are_ordered()
    ensures { PathsAreOrdered }
{}

/// A text names at most one path under a root.
pub fn names_one_path()
    ensures { NamesOnePath }
{}

/// A text has at most one fault as a document name, and the name of a key has none.
pub fn key_faults_exclude()
    ensures { KeyFaultsExclude }
{}

/// A text spells at most one field path, and what a path prints reads back as it.
pub fn field_paths_read_back()
    ensures { PathsReadBack }
{}

/// A text has at most one fault as a database or a field path, and a parent and an id at most one as a collection.
pub fn faults_exclude()
    ensures { FaultsExclude }
{}

/// Sets of keys with the same members are one list.
pub fn same_members_are_one_set()
    ensures { SameMembersAreOneSet }
{}
