ghost use Rattle.std.specs.Prelude.{◌∷◌, [], true, false};
ghost use Rattle.write_pipeline.specs.Order as step;
ghost use Rattle.write_pipeline.specs.Standing.{step_of};
ghost use Rattle.sync_engine.specs.Standing.{GoesOn, StandsOn};

use value_model::Bytes;
use write_pipeline::{Answer, WritePipeline};

/// The stream of writes, as a client keeps it: whether it is open, and how the pending batches go on it. Contracts speak of each
/// list of steps that it stands for.
#[derive(Debug, Drop)]
pub struct WriteStream {
    pub(crate) is_open: bool,
    pub(crate) pipeline: WritePipeline,
}

impl WriteStream {
    /// A stream that was never opened.
    pub(crate) fn new() -> WriteStream
        ensures { StandsOn result [] }
    {
        WriteStream {
            is_open: false,
            pipeline: WritePipeline::new(),
        }
    }

    /// It was opened.
    pub(crate) fn opened(&mut self)
        ensures { GoesOn self.old self.new (λ h. step.opened ∷ h) }
    {
        self.is_open = true;
        self.pipeline.opened();
    }

    /// It was closed.
    pub(crate) fn closed(&mut self)
        ensures { GoesOn self.old self.new (λ h. step.closed ∷ h) }
    {
        self.is_open = false;
        self.pipeline.close();
    }

    /// A message came that fits, with this token.
    pub(crate) fn came(&mut self, answer: Answer, token: Bytes)
        ensures { GoesOn self.old self.new (λ h. step.kept token ∷ step_of answer ∷ h) }
    {
        self.pipeline.accept(answer);
        self.pipeline.keep_token(token);
    }
}
