//! What texts and names are in memory, shown where it is needed. Nothing is done when these run.

ghost use Rattle.std.specs.Prelude.{◌<◌, length, IsUtf8};
ghost use Rattle.std.specs.List.{All};
ghost use Rattle.value_model.specs.Storable.{IsStorableText, IsStorableSegment, IsStorableKey};

use document_keys::{DocumentKey, FieldPath, Segment};

/// Shows that a text is UTF-8. Nothing is done.
pub fn show_text(text: &str)
    ensures { IsStorableText text.now }
{
    let _count = text.len();
}

/// A segment is a text.
pub(crate) fn show_segment(segment: &Segment)
    ensures { IsStorableSegment segment.now }
{
    show_text(segment.as_str());
}

/// Shows that the segments of a key are UTF-8. Nothing is done.
pub fn show_key(key: &DocumentKey)
    ensures { IsStorableKey key.now }
{
    for i in 0..key.len() {
        if let Some(segment) = key.segment(i) {
            show_text(segment);
        }
    }
}

/// A path has names, which are texts.
pub fn show_path(path: &FieldPath)
    ensures some { 0 < length path.now }
    ensures utf8 { All IsUtf8 path.now }
{
    for i in 0..path.len() {
        if let Some(name) = path.segment(i) {
            show_text(name);
        }
    }
}
