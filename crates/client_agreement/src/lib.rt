//! What a client promises of an honest backend: its synced snapshots agree, and what it keeps on the disk stays sound.
//!
//! What a client has heard, its past, is a list of events with their turns, as `client_turns` defines them; of the client itself,
//! which keeps what they come to, nothing is named here. `specs/Durable.antt` has a durable state as the client of the theorem of
//! `agreement`, `specs/Transcript.antt` what a past says was sent and heard on the streams of listeners, and `specs/Honest.antt` what
//! is asked of the backend. The theorem's client stands for a past (`specs/Standing.antt`) where its entries, rows, current ids and
//! waiting entries are those of the past; an event that is heard leads from one that does to the next by a few allowed turns
//! (`proofs/Turns.antt`), so that the theorem carries over. The laws (`specs/Laws.antt`) are the contracts of functions with nothing
//! to do; `client_run` has them as a clause of a run.
#![tactic(auto)]

mod laws;

pub use laws::{
    events_are_turns, first_sync_is_honest, found_states_are_well_made, limbo_listens_stay_sound,
    snapshots_agree, soundness_is_kept, start_is_sound, states_stay_sound, tokens_stay_known,
};
