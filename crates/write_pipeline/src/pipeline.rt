ghost use Rattle.std.specs.Prelude.{◌≡◌, ◌≤◌, [], option_map, IfOk, IfErr, OnErr};
ghost use Rattle.write_pipeline.specs.Order.{Steps, latest_token, next_place, rejects};
ghost use Rattle.write_pipeline.specs.Order as step;

use crate::answer::{Answer, Closing, WriteMember};
use mutations::{Batch, WriteResponse, fit_writes};
use value_model::{Bytes, RpcStatus};

/// How many batches may be outstanding.
const OUTSTANDING_LIMIT: u64 = 10;

/// The batches of a stream that were sent and not yet answered, its handshake, and its latest token. Contracts speak of each
/// list of steps that it stands for.
#[derive(Debug, Drop)]
pub struct WritePipeline {
    shaken: bool,
    outstanding: u64,
    token: Option<Bytes>,
    ghost few: { outstanding ≤ 10 },
}

/// Whether a closing with the code rejects a write.
fn rejects(code: u8) -> bool
    ensures { result ≡ rejects code }
{
    matches!(code, 3 | 5 | 6 | 7 | 9 | 11 | 12 | 15)
}

impl WritePipeline {
    ghost use Rattle.write_pipeline.specs.Standing.{Fails, Fits, MaySend, StandsFor, Stays, Takes, closing_of, step_of};

    /// A pipeline without a stream.
    pub fn new() -> WritePipeline
        ensures { StandsFor result [] }
    {
        WritePipeline {
            shaken: false,
            outstanding: 0,
            token: None,
        }
    }

    /// A stream was opened.
    pub fn opened(&mut self)
        ensures { Takes self.old self.new step.opened }
    {
        self.close();
        self.token = None;
    }

    /// What a response is; `first` is the first outstanding batch, if there is one. Nothing changes.
    ///
    /// # Errors
    /// The first member by which it doesn't fit.
    pub fn judge(
        &self,
        response: &WriteResponse,
        first: Option<&Batch>,
    ) -> Result<Answer, WriteMember>
        ensures fits { IfOk result (λ answer. (h : Steps) → StandsFor self.now h
            → Fits h (option_map (λ batch. batch.now) first.entry) response.now answer) }
        ensures fails { IfErr result (λ member. (h : Steps) → StandsFor self.now h
            → Fails h (option_map (λ batch. batch.now) first.entry) response.now member) }
    {
        let results = response.results.as_slice();
        if !self.shaken {
            if !results.is_empty() {
                return Err(WriteMember::WriteResults);
            }
            return Ok(Answer::Handshake);
        }
        if self.outstanding == 0 {
            return Err(WriteMember::WriteResults);
        }
        let Some(batch) = first else {
            return Err(WriteMember::WriteResults);
        };
        let writes = batch.writes.as_slice();
        if results.len() != writes.len() {
            return Err(WriteMember::WriteResults);
        }
        if response.commit_time.is_none() {
            return Err(WriteMember::CommitTime);
        }
        if !fit_writes(writes, results) {
            return Err(WriteMember::TransformResults);
        }
        Ok(Answer::Acknowledges)
    }

    /// A response came that was judged to be this.
    pub fn accept(&mut self, answer: Answer)
        ensures { Takes self.old self.new (step_of answer) }
    {
        match answer {
            Answer::Handshake => self.shaken = true,
            Answer::Acknowledges => self.outstanding = self.outstanding.saturating_sub(1),
        }
    }

    /// A response came; `first` is the first outstanding batch, if there is one.
    ///
    /// # Errors
    /// The first member by which it doesn't fit. The pipeline stands for the same steps as before then.
    pub fn answer(
        &mut self,
        response: &WriteResponse,
        first: Option<&Batch>,
    ) -> Result<Answer, WriteMember>
        ensures fits { IfOk result (λ answer. (h : Steps) → StandsFor self.old h
            → Fits h (option_map (λ batch. batch.now) first.entry) response.now answer) }
        ensures done { IfOk result (λ answer. Takes self.old self.new (step_of answer)) }
        ensures fails { IfErr result (λ member. (h : Steps) → StandsFor self.old h
            → Fails h (option_map (λ batch. batch.now) first.entry) response.now member) }
        ensures undone { OnErr result (Stays self.old self.new) }
    {
        let answer = self.judge(response, first)?;
        self.accept(answer);
        Ok(answer)
    }

    /// Keeps the token of a response; an empty one changes nothing.
    pub fn keep_token(&mut self, token: Bytes)
        ensures { Takes self.old self.new (step.kept token) }
    {
        if !token.as_slice().is_empty() {
            self.token = Some(token);
        }
    }

    /// The latest token since the stream was opened, empty where there is none.
    pub fn token(&self) -> &[u8]
        ensures { (h : Steps) → StandsFor self.now h → result.now ≡ latest_token h }
    {
        match &self.token {
            Some(token) => token.as_slice(),
            None => &[],
        }
    }

    /// What a closing with the status does to the first outstanding batch. Nothing changes.
    pub fn closing(&self, status: &RpcStatus) -> Closing
        ensures { (h : Steps) → StandsFor self.now h → result ≡ closing_of h status.now.code }
    {
        if self.shaken && self.outstanding > 0 && rejects(status.code) {
            Closing::Rejects
        } else {
            Closing::Kept
        }
    }

    /// The stream was closed: no batch is outstanding any more.
    pub fn close(&mut self)
        ensures { Takes self.old self.new step.closed }
    {
        self.shaken = false;
        self.outstanding = 0;
    }

    /// The stream was closed with the status.
    pub fn closed(&mut self, status: &RpcStatus) -> Closing
        ensures closing { (h : Steps) → StandsFor self.old h → result ≡ closing_of h status.now.code }
        ensures stands { Takes self.old self.new step.closed }
    {
        let closing = self.closing(status);
        self.close();
        closing
    }

    /// The place in the pending list, of so many batches, of the one that is to be sent; none where there was no handshake, 10
    /// are outstanding or all were sent.
    pub fn next_to_send(&self, pending: u64) -> Option<u64>
        ensures { (h : Steps) → StandsFor self.now h → result ≡ next_place h pending }
    {
        if self.shaken && self.outstanding < OUTSTANDING_LIMIT && self.outstanding < pending {
            return Some(self.outstanding);
        }
        None
    }

    /// That batch was sent.
    pub fn sent(&mut self)
        requires { MaySend self.old }
        ensures { Takes self.old self.new step.sent }
    {
        self.outstanding += 1;
    }
}
