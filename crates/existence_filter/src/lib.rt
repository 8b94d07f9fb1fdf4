//! Whether what the backend counts in a target is what the client was told of it.
//!
//! An existence filter comes on the stream of listeners with the number of documents that the backend has in a target. A client
//! that was told another number has missed something: the target is then listened to from the beginning. Which keys were told,
//! and what becomes of the target, is said above, in `watch_aggregator`. Here `judge` compares the two numbers, and its `Verdict`
//! says how it went.
#![tactic(auto)]

ghost use Rattle.std.specs.Prelude.{◌≡◌, ◌==◌, if◌then◌else◌};
ghost use Rattle.existence_filter.specs.declared.Verdict.TheVariants as verdict;

/// What an existence filter says of the keys that a target was told.
#[derive(Clone, Copy, Debug, PartialEq, Eq)]
pub enum Verdict {
    /// There are as many as the backend counts.
    Agrees,
    /// There are more or fewer.
    Differs,
}

/// The verdict of a filter with this count, where the target was told so many keys: `Agrees` exactly where the numbers are equal.
pub fn judge(told: u64, count: u64) -> Verdict
    ensures { result ≡ (if told == count then verdict.Agrees else verdict.Differs) }
{
    if told == count {
        return Verdict::Agrees;
    }
    Verdict::Differs
}
