ghost use Rattle.std.specs.Prelude.{◌≡◌, ◌≢◌, ◌↔◌, ◌%◌, IsTrue, IfOk, IfErr, MatchOption, option_map, List, ℕ, [], ◌++◌, ◌∷◌, length};
ghost use Rattle.std.specs.String.{string_bytes};
ghost use Rattle.std.specs.List.{slice_get};
ghost use Rattle.document_keys.specs.Names.{IsCollection, documents_text, name_text, parent_path};
ghost use Rattle.document_keys.specs.Faults.{HasKeyFault, HasCollectionFault, IsParent};
ghost use Rattle.document_keys.specs.Order.{Ranks};

use crate::database::Database;
use crate::faults::{NameFault, NoMemory};
use crate::key::DocumentKey;
use crate::path::{after, copy_segments, print_name, show_segments};
use crate::segment::Segment;
use std::alloc::Global;
use std::cmp::Ordering;
use std::marker::Model;

/// The path of a collection: an odd number of segments, which are collection ids and document ids in turn. Contracts
/// see it as the list of its segments.
#[derive(Debug, Drop)]
pub struct CollectionPath {
    segments: Vec<Segment>,
}

impl Model for CollectionPath {
    ghost use Rattle.std.specs.Prelude.{List, ℕ};
    ghost use Rattle.document_keys.specs.Names.{IsCollection};

    ghost Value = { List (List ℕ) };

    ghost view = { λ path. path.segments.items };

    ghost invariant = { λ path. IsCollection path.segments.items };
}

/// Whether the text is `{root}/documents`.
fn is_documents(root: &Database, text: &str) -> bool
    ensures { IsTrue result ↔ (text.now ≡ documents_text root.now) }
{
    match after(text, root.as_str()) {
        Some(rest) => rest == "/documents",
        None => false,
    }
}

/// The segments of a collection's parent: none of `{root}/documents`, else those of a document name.
fn read_parent(alloc: Global, root: &Database, parent: &str) -> Result<Vec<Segment>, NameFault>
    ensures parent { IfOk result (λ segments. IsParent root.now parent.now segments.items) }
    ensures fault { IfErr result
        (λ fault. (parent.now ≢ documents_text root.now) × HasKeyFault root.now parent.now fault) }
{
    if is_documents(root, parent) {
        return Ok(Vec::new(alloc));
    }
    let key = DocumentKey::read(alloc, root, parent)?;
    Ok(key.segments(alloc)?)
}

/// The segments of a parent: those of its key, or none.
fn segments_of(alloc: Global, parent: Option<DocumentKey>) -> Result<Vec<Segment>, NoMemory>
    ensures segments { IfOk result (λ segments. segments.items ≡ parent_path parent) }
    ensures even { IfOk result (λ segments. length segments.items % 2 ≡ 0) }
{
    match parent {
        Some(key) => key.segments(alloc),
        None => Ok(Vec::new(alloc)),
    }
}

impl CollectionPath {
    /// The path of these segments, or `None` exactly where their number is even.
    pub fn from_segments(segments: Vec<Segment>) -> Option<CollectionPath>
        ensures { MatchOption result (length segments.items % 2 ≡ 0)
            (λ path. (path ≡ segments.items) × IsCollection segments.items) }
    {
        show_segments(segments.as_slice());
        if segments.len() % 2 == 0 {
            return None;
        }
        Some(CollectionPath { segments })
    }

    /// The path of these segments.
    pub(crate) fn of_segments(segments: Vec<Segment>) -> CollectionPath
        requires { IsCollection segments.items }
        ensures { result ≡ segments.items }
    {
        CollectionPath { segments }
    }

    /// The path of the collection with this id in the parent's document, or without a parent at the root's `documents`.
    ///
    /// # Errors
    /// `NoMemory`
    pub fn inside(
        alloc: Global,
        parent: Option<DocumentKey>,
        id: Segment,
    ) -> Result<CollectionPath, NoMemory>
        ensures { IfOk result (λ path. path ≡ parent_path parent ++ id ∷ []) }
    {
        let mut segments = segments_of(alloc, parent)?;
        segments.push(id)?;
        let Some(path) = CollectionPath::from_segments(segments) else {
            unreachable!();
        };
        Ok(path)
    }

    /// The path of the collection with this id in the parent, which is `{root}/documents` or a document name.
    ///
    /// # Errors
    /// A fault of the parent: `WrongRoot`, `BadSegment` or `OddLength`, as of a document name. Else `BadSegment` where
    /// the id isn't a segment. Or `NoMemory`.
    pub fn read(
        alloc: Global,
        root: &Database,
        parent: &str,
        id: &str,
    ) -> Result<CollectionPath, NameFault>
        ensures collection { IfOk result (λ path. IsCollection path) }
        ensures path { IfOk result (λ path. (front : List (List ℕ))
            × IsParent root.now parent.now front × (path ≡ front ++ id.now ∷ [])) }
        ensures fault { IfErr result (λ fault. HasCollectionFault root.now parent.now id.now fault) }
    {
        let mut segments = read_parent(alloc, root, parent)?;
        let id = Segment::read(alloc, id)?;
        segments.push(id)?;
        Ok(CollectionPath { segments })
    }

    /// The name of the parent under the root: `{root}/documents`, or the name of the document that has the collection.
    ///
    /// # Errors
    /// `NoMemory`
    pub fn print_parent(&self, alloc: Global, root: &Database) -> Result<String, NoMemory>
        ensures { IfOk result (λ name. (front : List (List ℕ)) × (id : List ℕ)
            × (self.now ≡ front ++ id ∷ []) × (string_bytes name ≡ name_text root.now front)) }
    {
        let count = self.segments.len() - 1;
        print_name(alloc, root, &self.segments.as_slice()[..count])
    }

    /// The number of segments.
    pub fn len(&self) -> u64
        ensures count { result ≡ length self.now }
        ensures collection { IsCollection self.now }
    {
        self.segments.len() as u64
    }

    /// The segment at the index, from 0, or `None` past the last, which is the collection's id.
    pub fn segment(&self, index: u64) -> Option<&str>
        ensures { option_map (λ segment. segment.now) result ≡ slice_get self.now index }
    {
        let segment = self.segments.get(index as usize)?;
        Some(segment.as_str())
    }

    /// The order of paths: the first segment that differs decides by its bytes, and a front comes first.
    pub fn compare(&self, other: &CollectionPath) -> Ordering
        ensures { Ranks result self.now other.now }
    {
        self.segments.as_slice().cmp(other.segments.as_slice())
    }

    /// The segments, lent.
    pub(crate) fn as_slice(&self) -> &[Segment]
        ensures { result.now ≡ self.now }
    {
        self.segments.as_slice()
    }

    /// A copy.
    ///
    /// # Errors
    /// `NoMemory`
    pub fn copy(&self, alloc: Global) -> Result<CollectionPath, NoMemory>
        ensures { IfOk result (λ path. path ≡ self.now) }
    {
        let segments = copy_segments(alloc, self.segments.as_slice())?;
        Ok(CollectionPath { segments })
    }
}
