ghost use Rattle.std.specs.Prelude.{◌≡◌, IfOk, IfSome, IfNone};
ghost use Rattle.record_codec.specs.declared.commit.Commit.{Commit as CommitData};
ghost use Rattle.record_codec.specs.Spelling.{spelling, HasSpelling};

use crate::commits::{commit_of, put_commit};
use document_keys::{KeySet, NoMemory, Sequence};
use mutations::{Batch, WriteResults};
use outcome_codec::{KeyedEntry, PointRow};
use queries::Target;
use record_parts::ReadError;
use std::alloc::Global;
use value_model::Timestamp;

/// So many bytes are taken for a commit at once: most have no more, and need no room beside it.
const USUAL_COMMIT: usize = 1000;

/// One step of the durable state.
#[derive(Debug, Drop)]
pub enum Commit {
    /// A batch joins the pending ones.
    Enqueue(Batch),
    /// The backend took the first pending batch, at the time, with a result for each of its writes.
    Acknowledge {
        batch: u64,
        at: Timestamp,
        results: WriteResults,
    },
    /// The backend refused the first pending batch.
    Reject {
        batch: u64,
    },
    /// A target gets an id.
    Allocate {
        id: u32,
        target: Target,
    },
    /// What the backend told up to the read time: entries by ascending key, and rows of targets by ascending id.
    Point {
        at: Timestamp,
        entries: Sequence<KeyedEntry>,
        rows: Sequence<PointRow>,
    },
    /// The rows of the targets, by ascending id, become blank.
    Reset {
        ids: Sequence<u32>,
    },
    /// The entries of the keys go, and the rows of the targets, by ascending id, become blank.
    Drop {
        keys: KeySet,
        ids: Sequence<u32>,
    },
}

/// The commit's one spelling.
///
/// # Errors
/// `NoMemory`
pub fn encode(alloc: Global, commit: &Commit) -> Result<Vec<u8>, NoMemory>
    ensures { IfOk result (λ bytes. bytes.items ≡ spelling commit.now) }
{
    let mut bytes = Vec::with_capacity(alloc, USUAL_COMMIT)?;
    put_commit(&mut bytes, commit)?;
    Ok(bytes)
}

/// The commit that the bytes spell, all of them; `None` exactly where they spell none.
///
/// # Errors
/// `NoMemory`
pub fn decode(alloc: Global, bytes: &[u8]) -> Result<Option<Commit>, NoMemory>
    ensures found { IfOk result (λ found. IfSome found
        (λ commit. HasSpelling commit × (bytes.now ≡ spelling commit))) }
    ensures none { IfOk result (λ found. IfNone found
        ((commit : CommitData) → HasSpelling commit → bytes.now ≡ spelling commit → ⊥)) }
{
    match commit_of(alloc, bytes) {
        Ok((commit, rest)) => {
            if rest.is_empty() {
                Ok(Some(commit))
            } else {
                Ok(None)
            }
        }
        Err(ReadError::NotSpelled) => Ok(None),
        Err(ReadError::Memory) => Err(NoMemory),
    }
}
