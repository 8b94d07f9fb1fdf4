ghost use Rattle.std.specs.Prelude.{◌≡◌, ◌<◌, ◌≤◌, ◌+◌, length, get_or, IfOk};
ghost use Rattle.mutations.specs.declared.write.Write.{Write};
ghost use Rattle.mutations.specs.Written.{written_key};
ghost use Rattle.keyed_writes.specs.Keyed.{IsNext};

use crate::links::Links;
use document_keys::{DocumentKey, NoMemory};
use mutations::Write;
use std::alloc::Global;
use std::marker::Model;

/// So many writes are looked at one by one.
const FEW: usize = 8;

/// The writes of a batch, with the places of those that have one key. Contracts see the writes.
#[derive(Drop)]
pub struct KeyedWrites<'a> {
    writes: &'a [Write],
    // none where the writes are few
    links: Option<Links>,
}

impl<'a> Model for KeyedWrites<'a> {
    ghost use Rattle.std.specs.Prelude.{List};
    ghost use Rattle.std.specs.Coded.{coded_list};
    ghost use Rattle.std.specs.Option.{ForSome};
    ghost use Rattle.mutations.specs.contracts.write.Write as write;
    ghost use Rattle.mutations.specs.declared.write.Write.{Write};
    ghost use Rattle.keyed_writes.specs.Keyed.{AreLinked};

    ghost Value = { List Write };

    ghost coded = { coded_list write.the_row.coded };

    ghost view = { λ keyed. keyed.writes.now };

    ghost invariant = { λ keyed. ForSome keyed.links (λ links.
        AreLinked 0 keyed.writes.now links.firsts.entries links.nexts.items) };
}

/// The first place, from this one on, of a write that has the key; past the last write where none has.
fn scan(writes: &[Write], key: &DocumentKey, from: usize) -> usize
    requires { from ≤ length writes.now }
    ensures { IsNext writes.now key.now from result }
{
    for place in from..writes.len() {
        if writes[place].key() == key {
            return place;
        }
    }
    writes.len()
}

impl<'a> KeyedWrites<'a> {
    /// The writes, with their places by key.
    ///
    /// # Errors
    /// `NoMemory`
    pub fn new(alloc: Global, writes: &'a [Write]) -> Result<KeyedWrites<'a>, NoMemory>
        ensures { IfOk result (λ keyed. keyed ≡ writes.entry.now) }
    {
        if writes.len() <= FEW {
            return Ok(KeyedWrites {
                writes,
                links: None,
            });
        }
        let links = Some(Links::new(alloc, writes)?);
        Ok(KeyedWrites { writes, links })
    }

    /// The writes, lent.
    pub fn as_slice(&self) -> &'a [Write]
        ensures { result.now ≡ self.now }
    {
        self.writes
    }

    /// The first place of a write that has the key; past the last write where none has.
    pub fn first(&self, key: &DocumentKey) -> usize
        ensures { IsNext self.now key.now 0 result }
    {
        let Some(links) = &self.links else {
            return scan(self.writes, key, 0);
        };
        match links.firsts.get(key) {
            Some(place) => *place,
            None => self.writes.len(),
        }
    }

    /// The next place behind this one of a write that has the same key; past the last write where none has.
    pub fn after(&self, place: usize) -> usize
        requires { place < length self.now }
        ensures { (write : Write) →
            IsNext self.now (written_key (get_or self.now place write)) (place + 1) result }
    {
        match &self.links {
            None => scan(self.writes, self.writes[place].key(), place + 1),
            Some(links) => links.nexts[place],
        }
    }
}
