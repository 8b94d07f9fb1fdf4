ghost use Rattle.std.specs.Prelude.{◌≡◌, ◌≢◌, ℕ, ◌++◌, ◌∷◌, List, length, ◌↔◌, IsTrue, IfOk, IfErr, MatchOption};
ghost use Rattle.document_keys.specs.Names.{Root, IsPart, IsSegment, IsRoot, IsKey, documents_text, name_text};
ghost use Rattle.std.specs.List.{All};
ghost use Rattle.document_keys.specs.Paths.{IsFieldName, SpellsPath};
ghost use Rattle.value_model.specs.Storable.{IsStorableName};
ghost use Rattle.json_model.specs.References.{SpellsReference, IsUnder, root_of, HasDocumentFault, HasReferenceFault};
ghost use Rattle.json_model.specs.Faults.{FirstOf, IsFault};
ghost use Rattle.json_model.specs.Leaves.{IsNameFault, FieldNameFaults, PathFaults, SpellsFieldPath, HasFieldPathFault, QueryPathFaults, SpellsQueryPath, HasManyNames, bad_name as bad_name_of};

use crate::fault::{BadName, JsonFault, NamingFault};
use crate::texts::{show_key, show_segment};
use document_keys::{
    Database, DocumentKey, FieldFault, FieldPath, NameFault, NoMemory, Segment, Text,
    check_field_name,
};
use std::alloc::Global;
use value_model::RefName;

/// How many names a path may have.
const MAX_NAMES: u64 = 21;

/// The fault of a name.
pub(crate) fn bad_name(alloc: Global, fault: NamingFault, name: &str) -> Result<JsonFault, NoMemory>
    ensures { IfOk result (λ bad. bad ≡ bad_name_of fault name.now) }
{
    let name = Text::from_str(alloc, name)?;
    Ok(JsonFault::BadName(BadName { fault, name }))
}

/// The key of the document whose name under the root is the text.
pub(crate) fn read_key(alloc: Global, root: &Database, text: &str) -> Result<DocumentKey, JsonFault>
    ensures key { IfOk result (λ key. IsKey key × (text.now ≡ name_text root.now key)) }
    ensures fault { IfErr result (λ fault. IsNameFault (HasDocumentFault root.now text.now) text.now fault) }
{
    match DocumentKey::read(alloc, root, text) {
        Ok(key) => Ok(key),
        Err(NameFault::WrongRoot) => Err(bad_name(alloc, NamingFault::WrongRoot, text)?),
        Err(NameFault::BadSegment) => Err(bad_name(alloc, NamingFault::BadSegment, text)?),
        Err(NameFault::OddLength) => Err(bad_name(alloc, NamingFault::OddLength, text)?),
        Err(NameFault::NoMemory) => Err(JsonFault::NoMemory),
    }
}

/// What follows the front in the text, if the text begins with it.
fn after<'a>(text: &'a str, front: &str) -> Option<&'a str>
    ensures { MatchOption result ((rest : List ℕ) → text.now ≢ front.now ++ rest)
        (λ rest. text.now ≡ front.now ++ rest.now) }
{
    text.strip_prefix(front)
}

/// The part between the front and the next `/`, and what follows that.
fn cut<'a>(text: &'a str, front: &str) -> Option<(&'a str, &'a str)>
    ensures { MatchOption result
        ((part rest : List ℕ) → IsPart part → text.now ≢ front.now ++ (part ++ 47 ∷ rest))
        (λ parts. IsPart parts.0.now × (text.now ≡ front.now ++ (parts.0.now ++ 47 ∷ parts.1.now))) }
{
    let Some(rest) = after(text, front) else {
        return None;
    };
    rest.split_once('/')
}

/// The project and the database's own name of a text that begins as a document's name does.
fn cut_root(text: &str) -> Option<(&str, &str)>
    ensures { MatchOption result
        ((root : Root) → IsPart root.project → IsPart root.name → ¬ (IsUnder root text.now))
        (λ parts. IsPart parts.0.now × IsPart parts.1.now × IsUnder (record { project = parts.0.now; name = parts.1.now }) text.now) }
{
    let Some((project, rest)) = cut(text, "projects/") else {
        return None;
    };
    let Some((name, rest)) = cut(rest, "databases/") else {
        return None;
    };
    let Some(_path) = after(rest, "documents/") else {
        return None;
    };
    Some((project, name))
}

/// The segment that the text is.
pub(crate) fn read_segment(alloc: Global, text: &str) -> Result<Option<Segment>, NoMemory>
    ensures { IfOk result (λ found. MatchOption found (¬ (IsSegment text.now))
        (λ segment. (segment ≡ text.now) × IsSegment text.now)) }
{
    match Segment::read(alloc, text) {
        Ok(segment) => Ok(Some(segment)),
        Err(NameFault::NoMemory) => Err(NoMemory),
        Err(_) => Ok(None),
    }
}

/// The database of a text that begins as the name of a document of it does.
fn read_root(alloc: Global, text: &str) -> Result<Option<Database>, NoMemory>
    ensures { IfOk result (λ found. MatchOption found
        ((root : Root) → IsRoot root → ¬ (IsUnder root text.now))
        (λ root. IsRoot root × IsUnder root text.now)) }
{
    let Some((project, name)) = cut_root(text) else {
        return Ok(None);
    };
    let Some(project) = read_segment(alloc, project)? else {
        return Ok(None);
    };
    let Some(name) = read_segment(alloc, name)? else {
        return Ok(None);
    };
    Ok(Some(Database::from_segments(alloc, project, name)?))
}

/// The name of the document of that key in the database.
fn name_in(alloc: Global, root: &Database, key: DocumentKey) -> Result<RefName, NoMemory>
    ensures database { IfOk result (λ name. root_of name ≡ root.now) }
    ensures key { IfOk result (λ name. name.key ≡ key) }
    ensures storable { IfOk result IsStorableName }
{
    let project = root.project().copy(alloc)?;
    let database = root.name().copy(alloc)?;
    show_segment(&project);
    show_segment(&database);
    show_key(&key);
    Ok(RefName {
        project,
        database,
        key,
    })
}

/// The document, of any database, whose name is the text.
///
/// # Errors
/// `BadName`: `WrongRoot` where the text doesn't begin with `projects/{p}/databases/{d}/documents/` for segments `p` and
/// `d`, else as `DocumentKey::read` says; or `NoMemory`.
pub fn read_reference(alloc: Global, text: &str) -> Result<RefName, JsonFault>
    ensures name { IfOk result (λ name. SpellsReference text.now name) }
    ensures storable { IfOk result IsStorableName }
    ensures fault { IfErr result (λ fault. IsNameFault (HasReferenceFault text.now) text.now fault) }
{
    let Some(root) = read_root(alloc, text)? else {
        return Err(bad_name(alloc, NamingFault::WrongRoot, text)?);
    };
    let key = match read_key(alloc, &root, text) {
        Ok(key) => key,
        Err(fault) => return Err(fault),
    };
    Ok(name_in(alloc, &root, key)?)
}

/// The fault of a field's name.
pub(crate) fn find_in_field_name(alloc: Global, name: &str) -> Result<Option<JsonFault>, NoMemory>
    ensures { IfOk result (λ found. FirstOf (FieldNameFaults name.now) found) }
{
    match check_field_name(name) {
        Ok(()) => Ok(None),
        Err(FieldFault::BadPath) => Ok(Some(bad_name(alloc, NamingFault::BadPath, name)?)),
        Err(FieldFault::ReservedField) => Ok(Some(bad_name(
            alloc,
            NamingFault::ReservedField,
            name,
        )?)),
        Err(FieldFault::NoMemory) => Err(NoMemory),
    }
}

/// How many names the text has as a path, where it is of the form of one.
pub(crate) fn count_names(alloc: Global, text: &str) -> Result<Option<u64>, NoMemory>
    ensures { IfOk result (λ found. MatchOption found
        ((names : List (List ℕ)) → ¬ (SpellsPath text.now names))
        (λ count. (names : List (List ℕ)) × (SpellsPath text.now names × (length names ≡ count)))) }
{
    match FieldPath::count(alloc, text) {
        Ok(count) => Ok(Some(count)),
        Err(FieldFault::NoMemory) => Err(NoMemory),
        Err(_) => Ok(None),
    }
}

/// Whether the text has more names than a path may have. One that isn't of the form of a path has none.
fn has_many_names(alloc: Global, text: &str) -> Result<bool, NoMemory>
    ensures { IfOk result (λ is. IsTrue is ↔ HasManyNames text.now) }
{
    match count_names(alloc, text)? {
        Some(count) => Ok(count > MAX_NAMES),
        None => Ok(false),
    }
}

/// The path of a field of a document that the text spells, whatever the number of its names.
///
/// # Errors
/// `BadName`: `BadPath` where the text isn't of the form of a path or a name doesn't have 1 to 1,500 bytes, `ReservedField` where a
/// name is of the form `__.*__`; or `NoMemory`.
#[tactic(auto, using(crate::proofs::OneLeaf::document_name))]
pub fn read_names(alloc: Global, text: &str) -> Result<FieldPath, JsonFault>
    ensures path { IfOk result (λ path. SpellsPath text.now path × All IsFieldName path) }
    ensures fault { IfErr result (λ fault. IsNameFault (HasFieldPathFault text.now) text.now fault) }
{
    match FieldPath::read(alloc, text) {
        Ok(path) => {
            if path.is_document_name() {
                return Err(bad_name(alloc, NamingFault::ReservedField, text)?);
            }
            let _count = path.len();
            Ok(path)
        }
        Err(FieldFault::BadPath) => Err(bad_name(alloc, NamingFault::BadPath, text)?),
        Err(FieldFault::ReservedField) => Err(bad_name(alloc, NamingFault::ReservedField, text)?),
        Err(FieldFault::NoMemory) => Err(JsonFault::NoMemory),
    }
}

/// The path of a field in a write.
///
/// # Errors
/// `TooDeep` where the text has more than 21 names; else `BadName`: `BadPath` where it isn't of the form of a path or a name
/// doesn't have 1 to 1,500 bytes, `ReservedField` where a name is of the form `__.*__`; or `NoMemory`.
pub(crate) fn read_path(alloc: Global, text: &str) -> Result<FieldPath, JsonFault>
    ensures path { IfOk result (λ path. SpellsFieldPath text.now path) }
    ensures fault { IfErr result (λ fault. IsFault (PathFaults text.now) fault) }
{
    if has_many_names(alloc, text)? {
        return Err(JsonFault::TooDeep);
    }
    read_names(alloc, text)
}

/// The path of a field in a query, or `__name__`.
///
/// # Errors
/// As `read_path`, but that `__name__` by itself is a path.
pub(crate) fn read_query_path(alloc: Global, text: &str) -> Result<FieldPath, JsonFault>
    ensures path { IfOk result (λ path. SpellsQueryPath text.now path) }
    ensures fault { IfErr result (λ fault. IsFault (QueryPathFaults text.now) fault) }
{
    if has_many_names(alloc, text)? {
        return Err(JsonFault::TooDeep);
    }
    match FieldPath::read(alloc, text) {
        Ok(path) => {
            let _count = path.len();
            Ok(path)
        }
        Err(FieldFault::BadPath) => Err(bad_name(alloc, NamingFault::BadPath, text)?),
        Err(FieldFault::ReservedField) => Err(bad_name(alloc, NamingFault::ReservedField, text)?),
        Err(FieldFault::NoMemory) => Err(JsonFault::NoMemory),
    }
}

/// Whether the text is the name of the root's `documents`.
pub(crate) fn is_documents(root: &Database, text: &str) -> bool
    ensures { IsTrue result ↔ (text.now ≡ documents_text root.now) }
{
    match after(text, root.as_str()) {
        Some(rest) => rest == "/documents",
        None => false,
    }
}
