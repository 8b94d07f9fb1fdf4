//! What a closing does to the first outstanding batch of a stream of writes, by its code.

use document_keys::Text;
use mutations::{WriteResponse, WriteResults};
use std::alloc::Global;
use std::process::Abort;
use std::test::Fail;
use value_model::{Bytes, RpcStatus};
use write_pipeline::{Answer, Closing, WritePipeline};

/// A response without results.
fn handshake(alloc: Global) -> WriteResponse {
    WriteResponse {
        token: Bytes::from_vec(Vec::new(alloc)),
        results: WriteResults::from_vec(Vec::new(alloc)),
        commit_time: None,
    }
}

/// What a closing with the code does where a batch is outstanding.
fn close_one(alloc: Global, code: u8) -> Result<Option<Closing>, Fail> {
    let mut pipeline = WritePipeline::new();
    pipeline.opened();
    let response = handshake(alloc);
    match pipeline.answer(&response, None) {
        Ok(Answer::Handshake) => {
            pipeline.sent();
            let message = Text::from_str(alloc, "closed")?;
            Ok(Some(pipeline.closed(&RpcStatus { code, message })))
        }
        _ => Ok(None),
    }
}

#[test]
fn codes_at_a_close(rt: HostRuntime) -> Result<(), Fail> {
    for code in [3, 5, 6, 7, 9, 11, 12, 15] {
        assert!(&rt; close_one(rt.alloc(), code)? == Some(Closing::Rejects));
    }
    for code in [0, 1, 2, 4, 8, 10, 13, 14, 16] {
        assert!(&rt; close_one(rt.alloc(), code)? == Some(Closing::Kept));
    }
    Ok(())
}
