ghost use Rattle.std.specs.Prelude.{◌≡◌, ◌≢◌, ◌↔◌, IsTrue, IfOk, IfErr};
ghost use Rattle.document_keys.specs.Names.{IsReserved, HasNameLength, IsPart, IsSegment};

use crate::faults::{NameFault, NoMemory};
use crate::sequence::Replicate;
use crate::text::Text;
use std::alloc::Global;
use std::cmp::Ordering;
use std::hash::{Hash, Hasher};
use std::marker::Model;

/// A segment of a name: 1 to 1,500 bytes of UTF-8 without `/`, other than `.` and `..`, and not of the form `__.*__`.
/// Contracts see it as the list of its bytes, by which segments are also ordered.
#[derive(Debug, Drop)]
pub struct Segment {
    text: Text,
}

impl Model for Segment {
    ghost use Rattle.std.specs.Prelude.{List, ℕ};
    ghost use Rattle.document_keys.specs.Names.{IsSegment};

    ghost Value = { List ℕ };

    ghost view = { λ segment. segment.text };

    ghost invariant = { λ segment. IsSegment segment.text };
}

/// Whether the text is of the form `__.*__`.
pub(crate) fn is_reserved(text: &str) -> bool
    ensures { IsTrue result ↔ IsReserved text.now }
{
    match text.strip_prefix("__") {
        Some(rest) => rest.ends_with("__"),
        None => false,
    }
}

/// Whether the text has 1 to 1,500 bytes.
pub(crate) fn has_name_length(text: &str) -> bool
    ensures { IsTrue result ↔ HasNameLength text.now }
{
    !text.is_empty() && text.len() <= 1500
}

/// Whether the text has no `/`.
pub(crate) fn is_part(text: &str) -> bool
    ensures { IsTrue result ↔ IsPart text.now }
{
    !text.contains('/')
}

/// Whether the text is a segment.
pub(crate) fn is_segment(text: &str) -> bool
    ensures { IsTrue result ↔ IsSegment text.now }
{
    if !has_name_length(text) {
        return false;
    }
    if !is_part(text) {
        return false;
    }
    if text == "." || text == ".." {
        return false;
    }
    !is_reserved(text)
}

impl Segment {
    /// The segment that the text is.
    ///
    /// # Errors
    /// `BadSegment` where it is none, or `NoMemory`.
    pub fn read(alloc: Global, text: &str) -> Result<Segment, NameFault>
        ensures segment { IfOk result (λ segment. (segment ≡ text.now) × IsSegment text.now) }
        ensures fault { IfErr result (λ fault. fault ≢ NameFault.NoMemory
            → (fault ≡ NameFault.BadSegment) × ¬ (IsSegment text.now)) }
    {
        if !is_segment(text) {
            return Err(NameFault::BadSegment);
        }
        let text = Text::from_str(alloc, text)?;
        Ok(Segment { text })
    }

    /// The segment's text, lent.
    pub fn as_str(&self) -> &str
        ensures text { result.now ≡ self.now }
        ensures segment { IsSegment self.now }
    {
        self.text.as_str()
    }

    /// A copy.
    ///
    /// # Errors
    /// `NoMemory`
    pub fn copy(&self, alloc: Global) -> Result<Segment, NoMemory>
        ensures { IfOk result (λ segment. segment ≡ self.now) }
    {
        let text = self.text.copy(alloc)?;
        Ok(Segment { text })
    }
}

impl PartialEq for Segment {
    ghost use Rattle.std.specs.Cmp.{partial_equiv_from_equiv};
    ghost use Rattle.std.specs.Cmp.Lexicographic.{pointwise, nat_list_eq_equiv};
    ghost use Rattle.std.specs.Prelude.{nat_eq};

    ghost eq = { pointwise nat_eq };

    ghost laws = { partial_equiv_from_equiv nat_list_eq_equiv };

    fn eq(&self, other: &Segment) -> bool {
        self.text == other.text
    }
}

impl Eq for Segment {
    ghost use Rattle.std.specs.Cmp.Lexicographic.{nat_list_eq_equiv};

    ghost laws = { nat_list_eq_equiv };
}

impl PartialOrd for Segment {
    ghost use Rattle.std.specs.Cmp.Lexicographic.{slice_cmp, texts_po};
    ghost use Rattle.std.specs.Ordering.{nat_cmp};
    ghost use Rattle.std.specs.Prelude.{Some};

    ghost partial_cmp = { λ x y. Some (slice_cmp nat_cmp x y) };

    ghost laws = { texts_po };

    fn partial_cmp(&self, other: &Segment) -> Option<Ordering> {
        Some(self.text.cmp(&other.text))
    }
}

impl Ord for Segment {
    ghost use Rattle.std.specs.Cmp.Lexicographic.{slice_cmp, nat_list_cmp_total, texts_ties};
    ghost use Rattle.std.specs.Ordering.{nat_cmp};
    ghost use Rattle.std.specs.Prelude.{refl};

    ghost cmp = { slice_cmp nat_cmp };

    ghost total = { nat_list_cmp_total };

    ghost matches_partial_cmp = { λ x y. refl };

    ghost matches_eq = { texts_ties };

    fn cmp(&self, other: &Segment) -> Ordering {
        self.text.cmp(&other.text)
    }
}

impl Replicate for Segment {
    fn replicate(&self, alloc: Global) -> Result<Segment, NoMemory> {
        self.copy(alloc)
    }
}

impl Hash for Segment {
    ghost use Rattle.std.specs.Hash as fed;
    ghost use Rattle.std.specs.Cmp.Rules.{hashing};
    ghost use Rattle.std.proofs.Common.{rules};

    ghost hash_input = { fed.str };

    ghost respects_eq = { Prim.search (hashing, rules) };

    fn hash<H: Hasher>(&self, state: &mut H) {
        self.text.as_str().hash(state);
    }
}
