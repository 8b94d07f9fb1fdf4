//! How the pending batches go out on a stream of writes, and come back.
//!
//! A `WritePipeline` is told what is done on the stream, and stands for the list of these steps (`specs/Standing.antt`). It
//! says which batch is sent next (`next_to_send`) and with which token, what a response is (`Answer`) or by which member it
//! doesn't fit (`WriteMember`), and whether a closing rejects the first batch (`Closing`). It holds no batches: the
//! outstanding ones are the first of the pending list.
#![tactic(auto)]

mod answer;
mod laws;
mod pipeline;

pub use answer::{Answer, Closing, WriteMember};
pub use laws::batches_go_in_order;
pub use pipeline::WritePipeline;
