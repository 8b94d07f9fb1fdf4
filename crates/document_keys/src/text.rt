ghost use Rattle.std.specs.Prelude.{◌≡◌, IfOk};

use crate::faults::NoMemory;
use crate::held_text::HeldText;
use crate::sequence::Replicate;
use std::alloc::Global;
use std::cmp::Ordering;
use std::marker::Model;

/// So many bytes stand in the text itself: with their count as many as a `String` takes.
const INLINE: usize = 22;

/// A text of its own. Contracts see it as the list of its UTF-8 bytes, by which texts are also ordered.
///
/// A short one takes no memory, and a long one is shared by its copies.
#[derive(Debug, Drop)]
pub struct Text {
    held: HeldText<INLINE>,
}

impl Model for Text {
    ghost use Rattle.std.specs.Prelude.{List, ℕ};

    ghost Value = { List ℕ };

    ghost view = { λ text. text.held };
}

impl Text {
    /// A copy of the text.
    ///
    /// # Errors
    /// `NoMemory`
    pub fn from_str(alloc: Global, content: &str) -> Result<Text, NoMemory>
        ensures { IfOk result (λ text. text ≡ content.now) }
    {
        let held = HeldText::from_str(alloc, content)?;
        Ok(Text { held })
    }

    /// The text, lent.
    pub fn as_str(&self) -> &str
        ensures { result.now ≡ self.now }
    {
        self.held.as_str()
    }

    /// A copy. It takes no memory.
    ///
    /// # Errors
    /// `NoMemory` where more copies stand than can be counted.
    pub fn copy(&self, _alloc: Global) -> Result<Text, NoMemory>
        ensures { IfOk result (λ text. text ≡ self.now) }
    {
        let held = self.held.copy()?;
        Ok(Text { held })
    }
}

impl PartialEq for Text {
    ghost use Rattle.std.specs.Cmp.{partial_equiv_from_equiv};
    ghost use Rattle.std.specs.Cmp.Lexicographic.{pointwise, nat_list_eq_equiv};
    ghost use Rattle.std.specs.Prelude.{nat_eq};

    ghost eq = { pointwise nat_eq };

    ghost laws = { partial_equiv_from_equiv nat_list_eq_equiv };

    fn eq(&self, other: &Text) -> bool {
        self.as_str() == other.as_str()
    }
}

impl Eq for Text {
    ghost use Rattle.std.specs.Cmp.Lexicographic.{nat_list_eq_equiv};

    ghost laws = { nat_list_eq_equiv };
}

impl PartialOrd for Text {
    ghost use Rattle.std.specs.Cmp.Lexicographic.{slice_cmp, texts_po};
    ghost use Rattle.std.specs.Ordering.{nat_cmp};
    ghost use Rattle.std.specs.Prelude.{Some};

    ghost partial_cmp = { λ x y. Some (slice_cmp nat_cmp x y) };

    ghost laws = { texts_po };

    fn partial_cmp(&self, other: &Text) -> Option<Ordering> {
        Some(self.as_str().cmp(other.as_str()))
    }
}

impl Ord for Text {
    ghost use Rattle.std.specs.Cmp.Lexicographic.{slice_cmp, nat_list_cmp_total, texts_ties};
    ghost use Rattle.std.specs.Ordering.{nat_cmp};
    ghost use Rattle.std.specs.Prelude.{refl};

    ghost cmp = { slice_cmp nat_cmp };

    ghost total = { nat_list_cmp_total };

    ghost matches_partial_cmp = { λ x y. refl };

    ghost matches_eq = { texts_ties };

    fn cmp(&self, other: &Text) -> Ordering {
        self.as_str().cmp(other.as_str())
    }
}

impl Replicate for Text {
    fn replicate(&self, alloc: Global) -> Result<Text, NoMemory> {
        self.copy(alloc)
    }
}
