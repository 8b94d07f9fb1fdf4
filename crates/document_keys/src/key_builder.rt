ghost use Rattle.std.specs.Prelude.{◌≡◌, ◌≢◌, ◌⊎◌, ◌%◌, IfOk, IfErr, OnOk, [], ◌++◌, ◌∷◌, length};
ghost use Rattle.std.specs.List.{All};
ghost use Rattle.std.specs.String.{string_bytes};
ghost use Rattle.document_keys.specs.Names.{IsKey, IsSegment, segments_in};

use crate::faults::{NameFault, NoMemory};
use crate::key::DocumentKey;
use crate::relative::count_parts;
use crate::segment::is_segment;
use std::alloc::Global;
use std::marker::Model;

/// Room for the segments of most keys, so that their text doesn't grow piece by piece.
const ROOM: usize = 64;

/// The segments of a key that come one after another. Contracts see their list.
#[derive(Debug, Drop)]
pub struct KeyBuilder {
    // the segments, with a `/` between each two
    path: String,
}

impl Model for KeyBuilder {
    ghost use Rattle.std.specs.Prelude.{List, ℕ};
    ghost use Rattle.std.specs.List.{All};
    ghost use Rattle.std.specs.String.{string_bytes};
    ghost use Rattle.document_keys.specs.Names.{IsSegment, segments_in};

    ghost Value = { List (List ℕ) };

    ghost view = { λ builder. segments_in (string_bytes builder.path) };

    ghost invariant = { λ builder. All IsSegment (segments_in (string_bytes builder.path)) };
}

/// Appends the segment, with a `/` before it where others stand there.
fn push_segment(path: &mut String, segment: &str) -> Result<(), NoMemory>
    requires segments { All IsSegment (segments_in (string_bytes path.old)) }
    requires segment { IsSegment segment.now }
    ensures { OnOk result (segments_in (string_bytes path.new)
        ≡ segments_in (string_bytes path.old) ++ segment.now ∷ []) }
{
    if path.is_empty() {
        path.reserve(ROOM)?;
        path.push_str(segment)?;
        return Ok(());
    }
    path.push('/')?;
    path.push_str(segment)?;
    Ok(())
}

impl KeyBuilder {
    /// No segments. It takes no memory yet.
    pub fn new(alloc: Global) -> KeyBuilder
        ensures { result ≡ [] }
    {
        KeyBuilder {
            path: String::new(alloc),
        }
    }

    /// The segments and one more.
    ///
    /// # Errors
    /// `BadSegment` where the text isn't a segment, or `NoMemory`. The segments are then gone.
    pub fn with(self, segment: &str) -> Result<KeyBuilder, NameFault>
        ensures segments { IfOk result (λ builder. builder ≡ self ++ segment.now ∷ []) }
        ensures segment { IfOk result (λ builder. IsSegment segment.now) }
        ensures fault { IfErr result (λ fault. fault ≢ NameFault.NoMemory
            → (fault ≡ NameFault.BadSegment) × ¬ (IsSegment segment.now)) }
    {
        if !is_segment(segment) {
            return Err(NameFault::BadSegment);
        }
        let KeyBuilder { mut path } = self;
        push_segment(&mut path, segment)?;
        Ok(KeyBuilder { path })
    }

    /// The key of the segments.
    ///
    /// # Errors
    /// `OddLength` where their number is 0 or odd; or `NoMemory`.
    pub fn finish(self) -> Result<DocumentKey, NameFault>
        ensures key { IfOk result (λ key. (key ≡ self) × IsKey self) }
        ensures fault { IfErr result (λ fault. fault ≢ NameFault.NoMemory → (fault ≡ NameFault.OddLength)
            × ((length self ≡ 0) ⊎ (length self % 2 ≡ 1))) }
    {
        let path = self.path.as_str();
        if path.is_empty() || count_parts(path) % 2 == 1 {
            return Err(NameFault::OddLength);
        }
        Ok(DocumentKey::of_path(*self.path.allocator(), path)?)
    }
}
