//! Which pending batches go out.

ghost use Rattle.std.specs.Prelude.{◌≡◌, length, OnOk};
ghost use Rattle.write_pipeline.specs.Order.{next_place};
ghost use Rattle.write_pipeline.specs.Standing.{StandsFor as PipelineStandsFor};
ghost use Rattle.sync_engine.specs.Sending.{KeepsButPipeline, Sends, then_sent};
ghost use Rattle.sync_engine.specs.Standing.{ComesAs};

use crate::client::Client;
use crate::out::Out;
use document_keys::NoMemory;
use std::alloc::Global;

/// How many batches may be outstanding.
const OUTSTANDING_LIMIT: u64 = 10;

impl Client {
    /// Takes the next pending batch for sent, if one may be sent, and tells its place in the pending list.
    fn send_next(&mut self) -> Option<u64>
        ensures rest { KeepsButPipeline self.old self.new }
        ensures next { ComesAs self.old.writes
            (λ h. result ≡ next_place h (length self.old.store.state.batches)) }
        ensures stands { ComesAs self.old.writes
            (λ h. PipelineStandsFor self.new.writes.pipeline (then_sent result h)) }
    {
        let pending = self.store.pending().len();
        let place = self.writes.pipeline.next_to_send(pending)?;
        self.writes.pipeline.sent();
        Some(place)
    }

    /// Sends the next pending batches, while fewer than 10 are outstanding.
    pub(crate) fn send(&mut self, alloc: Global, outs: &mut Vec<Out>) -> Result<(), NoMemory>
        ensures rest { KeepsButPipeline self.old self.new }
        ensures sends { OnOk result (Sends self.old self.new outs.old.items outs.new.items) }
    {
        for _ in 0..OUTSTANDING_LIMIT {
            let Some(place) = self.send_next() else {
                return Ok(());
            };
            outs.push(Out::SendBatch(place))?;
        }
        Ok(())
    }
}
