//! The state that payloads lead to.

ghost use Rattle.std.specs.Prelude.{◌≡◌, false, IsTrue, IfOk, MatchOption};
ghost use Rattle.durable_state.specs.Tables.{state_in};
ghost use Rattle.record_codec.specs.Spelling.{HasSpelling};
ghost use Rattle.local_store.specs.State.{State, Fits, Replays, committed, start};

use disk_journal::Payloads;
use document_keys::NoMemory;
use durable_state::DurableState;
use record_codec::{Commit, decode};
use std::alloc::Global;

/// Makes the commit where it fits, and tells whether it does.
fn make_if_fits(alloc: Global, tables: &mut DurableState, commit: Commit) -> Result<bool, NoMemory>
    requires { HasSpelling commit }
    ensures made { IfOk result (λ fits. IsTrue fits → Fits (state_in tables.old) commit
        × (state_in tables.new ≡ committed (state_in tables.old) commit)) }
    ensures unfit { IfOk result (λ fits. fits ≡ false → ¬ (Fits (state_in tables.old) commit)) }
{
    if !tables.fits(&commit) {
        return Ok(false);
    }
    let ready = tables.ready(alloc, commit)?;
    tables.apply(ready);
    Ok(true)
}

/// Makes the commits that the payloads spell, one after another, and tells whether each spells one that fits. It is left
/// behind before its commit is made, so that its bytes don't stand beside what it comes to.
fn replay_each(
    alloc: Global,
    tables: &mut DurableState,
    payloads: Payloads,
) -> Result<bool, NoMemory>
    ensures made { IfOk result (λ fit. IsTrue fit
        → Replays (state_in tables.old) payloads (state_in tables.new)) }
    ensures unfit { IfOk result (λ fit. fit ≡ false
        → (s : State) → Replays (state_in tables.old) payloads s → ⊥) }
{
    let mut rest = payloads;
    'payloads: loop {
        let Some(payload) = rest.at(0) else {
            return Ok(true);
        };
        let Some(commit) = decode(alloc, payload)? else {
            return Ok(false);
        };
        rest = rest.behind_first(alloc)?;
        let fits = make_if_fits(alloc, tables, commit)?;
        if !fits {
            return Ok(false);
        }
    }
}

/// The state to which the payloads, one after another, lead from the empty one, or `None` where one of them doesn't spell a
/// commit that fits.
pub(crate) fn replay(alloc: Global, payloads: Payloads) -> Result<Option<DurableState>, NoMemory>
    ensures { IfOk result (λ found. MatchOption found
        ((s : State) → Replays start payloads s → ⊥)
        (λ tables. Replays start payloads (state_in tables))) }
{
    let mut tables = DurableState::new(alloc);
    let fit = replay_each(alloc, &mut tables, payloads)?;
    if fit {
        return Ok(Some(tables));
    }
    Ok(None)
}
