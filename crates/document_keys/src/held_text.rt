ghost use Rattle.std.specs.Prelude.{◌≡◌, ◌<◌, IfOk};
ghost use Rattle.document_keys.specs.Texts.{content_bytes};

use crate::faults::NoMemory;
use crate::short::Short;
use std::alloc::Global;
use std::marker::Model;
use std::rc::RcStr;

/// A text that stands in the value itself where it has at most `MOST` bytes, and is else shared by its copies. Contracts see
/// the list of its UTF-8 bytes.
#[derive(Debug)]
pub(crate) struct HeldText<const MOST: usize> {
    content: Content<MOST>,
}

#[derive(Debug, Drop)]
enum Content<const MOST: usize> {
    Short(Short<MOST>),
    Long(RcStr),
}

impl<const MOST: usize> Model for HeldText<MOST> {
    ghost use Rattle.std.specs.Prelude.{List, ℕ};
    ghost use Rattle.document_keys.specs.Texts.{content_bytes};

    ghost Value = { List ℕ };

    ghost view = { λ text. content_bytes text.content };
}

impl<const MOST: usize> HeldText<MOST> {
    /// A text of its own with this content. A short one takes no memory.
    ///
    /// # Errors
    /// `NoMemory`
    pub(crate) fn from_str(alloc: Global, content: &str) -> Result<HeldText<MOST>, NoMemory>
        requires { MOST < 256 }
        ensures { IfOk result (λ text. text ≡ content.now) }
    {
        let content = match Short::of(content) {
            Some(short) => Content::Short(short),
            None => Content::Long(RcStr::from_str(alloc, content)?),
        };
        Ok(HeldText { content })
    }

    /// The text, lent.
    pub(crate) fn as_str(&self) -> &str
        ensures { result.now ≡ self.now }
    {
        match &self.content {
            Content::Short(short) => short.as_str(),
            Content::Long(shared) => shared.as_str(),
        }
    }

    /// A copy. It takes no memory.
    ///
    /// # Errors
    /// `NoMemory` where more copies stand than can be counted.
    pub(crate) fn copy(&self) -> Result<HeldText<MOST>, NoMemory>
        ensures { IfOk result (λ text. text ≡ self.now) }
    {
        let content = match &self.content {
            Content::Short(short) => Content::Short(short.copy()),
            Content::Long(shared) => Content::Long(shared.clone()?),
        };
        Ok(HeldText { content })
    }
}

/// A call of its own: a holder's proof, in letting a text go, sees no two forms.
impl<const MOST: usize> Drop for HeldText<MOST> {
    fn drop(self) {
        let HeldText { content: _ } = self;
    }
}
