//! For each key its first place in a batch, and behind each place the next one of its key.

ghost use Rattle.std.specs.Prelude.{IfOk};
ghost use Rattle.keyed_writes.specs.Keyed.{AreLinked};

use document_keys::{DocumentKey, NoMemory};
use mutations::Write;
use std::alloc::Global;
use std::collections::HashMap;

/// The first place of each key, and behind each place the next one of its key; past the last write where there is none.
#[derive(Drop)]
pub(crate) struct Links {
    pub(crate) firsts: HashMap<DocumentKey, usize>,
    pub(crate) nexts: Vec<usize>,
}

impl Links {
    /// The links of the writes. It goes from the last write to the first, so that of each key the place behind is known.
    ///
    /// # Errors
    /// `NoMemory`
    pub(crate) fn new(alloc: Global, writes: &[Write]) -> Result<Links, NoMemory>
        ensures { IfOk result (λ links. AreLinked 0 writes.now links.firsts.entries links.nexts.items) }
    {
        let count = writes.len();
        let mut firsts = HashMap::with_capacity(alloc, count)?;
        let mut nexts = vec![in alloc; count; count]?;
        for passed in 0..count {
            let place = count - 1 - passed;
            let key = writes[place].key().copy(alloc)?;
            let next = firsts.insert(key, place)?;
            nexts[place] = next.unwrap_or(count);
        }
        Ok(Links { firsts, nexts })
    }
}
