//! What the pipeline answers.

/// What a response is.
#[derive(Clone, Copy, Debug, PartialEq, Eq)]
pub enum Answer {
    /// The first of a stream: batches may be sent from now on.
    Handshake,
    /// The first outstanding batch was committed.
    Acknowledges,
}

/// The first member by which a response doesn't fit.
#[derive(Clone, Copy, Debug, PartialEq, Eq)]
pub enum WriteMember {
    /// Results in a handshake, where nothing is outstanding, or not one for each write.
    WriteResults,
    /// The time of the commit is missing.
    CommitTime,
    /// The results of a write's transforms can't be theirs.
    TransformResults,
}

/// What a closing does to the first outstanding batch.
#[derive(Clone, Copy, Debug, PartialEq, Eq)]
pub enum Closing {
    /// It stays and is sent again; or none was outstanding.
    Kept,
    /// It is rejected.
    Rejects,
}
