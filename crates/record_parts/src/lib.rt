//! The parts of commits as bytes: numbers, texts, keys, times, values, fields and writes.
//!
//! Each part has one spelling (`specs/Spelling.antt`): numbers are big-endian, a list is its count and its items, a case
//! begins with its byte. A reader takes bytes and gives what they begin with and what follows it, or says that they begin
//! with no such part (`specs/Reading.antt`); a writer appends the spelling. `proofs/Combine.antt` makes the form of a whole
//! of those of its parts, for readers of wholes above.
#![tactic(auto)]

mod fault;
mod fields;
mod names;
mod numbers;
mod paths;
mod scalars;
mod times;
mod transforms;
mod writes;
mod writing;

pub use fault::ReadError;
pub use fields::{DEPTH, fields_of, value_of, values_of};
pub use names::{key_of, segment_of, segments_of, slice_of, text_of};
pub use numbers::{after, byte_of, flag_of, room_for, u32_of, u64_of};
pub use paths::{path_of, put_path};
pub use times::time_of;
pub use writes::{put_writes, writes_of};
pub use writing::{put_bytes, put_fields, put_key, put_number, put_text, put_time, put_value};
