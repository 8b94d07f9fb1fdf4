//! What keys and bytes are in memory, shown where it is needed. Nothing is done when these run.

ghost use Rattle.value_model.specs.Storable.{AreStorableBytes};
ghost use Rattle.outcome_codec.specs.Spelling.{AreSpelledKeys};
ghost use Rattle.record_parts.specs.Spelling.{IsSpelledKey};
ghost use Rattle.std.specs.Prelude.{IsUtf8};
ghost use Rattle.std.specs.List.{All};

use document_keys::{DocumentKey, KeySet};

/// A text is UTF-8.
fn show_text(text: &str)
    ensures { IsUtf8 text.now }
{
    let _count = text.len();
}

/// The segments of a key are texts.
pub(crate) fn show_key(key: &DocumentKey)
    ensures { IsSpelledKey key.now }
{
    for i in 0..key.len() {
        if let Some(segment) = key.segment(i) {
            show_text(segment);
        }
    }
}

/// Each of the keys has a spelling.
fn show_each(keys: &[DocumentKey])
    ensures { All IsSpelledKey keys.now }
{
    for key in keys {
        show_key(key);
    }
}

/// Keys of a set ascend, and each has a spelling.
pub fn show_keys(keys: &KeySet)
    ensures { AreSpelledKeys keys.now }
{
    let _count = keys.len();
    show_each(keys.as_slice());
}

/// Bytes are numbers below 256.
pub(crate) fn show_bytes(bytes: &[u8])
    ensures { AreStorableBytes bytes.now }
{
    let _count = bytes.len();
}
