ghost use Rattle.std.specs.Prelude.{◌≡◌, ◌≤◌, ◌<◌, ◌↔◌, length, IsSome, IfSome};

use std::marker::Model;
use std::str;

/// A text of at most `MOST` bytes, which stand in the value itself.
#[derive(Debug, Drop)]
pub(crate) struct Short<const MOST: usize> {
    len: u8,
    bytes: [u8; MOST],
}

impl<const MOST: usize> Model for Short<MOST> {
    ghost use Rattle.std.specs.Prelude.{◌≡◌, ◌≤◌, List, ℕ, length, take, IsUtf8};

    ghost Value = { List ℕ };

    ghost view = { λ short. take short.len short.bytes };

    ghost invariant = { λ short. (short.len ≤ length short.bytes)
        × ∥ IsUtf8 (take short.len short.bytes) ∥₁ };
}

impl<const MOST: usize> Short<MOST> {
    /// The text, where it has no more bytes than fit.
    pub(crate) fn of(content: &str) -> Option<Short<MOST>>
        requires { MOST < 256 }
        ensures fits { IsSome result ↔ (length content.now ≤ MOST) }
        ensures same { IfSome result (λ short. short ≡ content.now) }
    {
        let len = content.len();
        if len > MOST {
            return None;
        }
        let mut bytes = [0; MOST];
        bytes[..len].copy_from_slice(content.as_bytes());
        Some(Short {
            len: len as u8,
            bytes,
        })
    }

    /// The text, lent.
    pub(crate) fn as_str(&self) -> &str
        ensures { result.now ≡ self.now }
    {
        unsafe { str::from_utf8_unchecked(&self.bytes[..self.len as usize]) }
    }

    /// A copy.
    pub(crate) fn copy(&self) -> Short<MOST>
        ensures { result ≡ self.now }
    {
        Short {
            len: self.len,
            bytes: self.bytes,
        }
    }
}
