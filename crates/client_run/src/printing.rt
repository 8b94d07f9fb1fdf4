//! What a line came to, as text.

ghost use Rattle.std.specs.Prelude.{◌≡◌, List, ◌++◌, IfOk};
ghost use Rattle.std.specs.String.{string_bytes};
ghost use Rattle.line_printer.specs.Lines.{document_tree, line_of};
ghost use Rattle.local_store.specs.Documents.{document_of, standing_of};
ghost use Rattle.client_turns.specs.Asking.{IsAddLine, IsListenLine};
ghost use Rattle.client_turns.specs.Lines.{Line};
ghost use Rattle.sync_engine.specs.Standing.{IsLive, IsStanding};
ghost use Rattle.sync_engine.specs.Telling.{IsRaised, IsSent, IsShown};
ghost use Rattle.client_run.specs.Printed.{printed, rule_number as rule_number_of, text_of, tree_of, unheard_tree, unread_tree};
ghost use Rattle.client_run.specs.Taken.{AreShown, IsHeard, Tells};
ghost use Rattle.client_run.specs.Turn.{LineTurn};

use crate::taken::Taken;
use client_turns::Refusal;
use document_keys::{Database, DocumentKey, NoMemory};
use line_printer::{
    print_add_target, print_bad_line, print_bad_message, print_bad_name, print_bad_query,
    print_bad_writes, print_batch, print_error, print_found, print_handshake, print_ids_spent,
    print_listener_taken, print_listening, print_missing, print_no_listener, print_rejected,
    print_remove_target, print_result, print_snapshot, print_stream_state, print_too_deep,
    print_too_long, print_unlistened, print_unsupported, print_wrote,
};
use line_reader::Refusal as Unread;
use local_store::{LocalStore, documents_are_local};
use queries::{QueryRule, Target};
use std::alloc::Global;
use sync_engine::{Client, Out, Outcome};
use value_model::Documents;

/// The number of a rule of queries.
fn rule_number(rule: QueryRule) -> u64
    ensures { result ≡ rule_number_of rule }
{
    match rule {
        QueryRule::OneCollection => 1,
        QueryRule::Negations => 2,
        QueryRule::Lists => 3,
        QueryRule::Cursors => 4,
        QueryRule::Limit => 5,
        QueryRule::ArrayFilters => 6,
    }
}

/// The answer of a line that is no event; it is this line of the run, from 1.
fn print_unread(alloc: Global, line: u64, refusal: &Unread) -> Result<String, NoMemory>
    ensures { IfOk result (λ text. string_bytes text ≡ line_of (unread_tree line refusal.now)) }
{
    match refusal {
        Unread::LineTooLong => print_too_long(alloc, line),
        Unread::BadLine(member) => print_bad_line(alloc, line, member.as_str()),
        Unread::TooDeep => print_too_deep(alloc, line),
        Unread::Unsupported(member) => print_unsupported(alloc, line, member.as_str()),
        Unread::BadName(bad) => print_bad_name(alloc, line, bad.fault, bad.name.as_str()),
        Unread::BadWrites { count } => print_bad_writes(alloc, line, *count),
        Unread::BadQuery(rule) => print_bad_query(alloc, line, rule_number(*rule)),
    }
}

/// The answer of a line whose event the client refuses.
fn print_unheard(alloc: Global, line: u64, refusal: &Refusal) -> Result<String, NoMemory>
    ensures { IfOk result (λ text. string_bytes text ≡ line_of (unheard_tree line refusal.now)) }
{
    match refusal {
        Refusal::ListenerTaken(id) => print_listener_taken(alloc, line, *id),
        Refusal::NoListener(id) => print_no_listener(alloc, line, *id),
        Refusal::StreamState { stream, is_open } => {
            print_stream_state(alloc, line, *stream, *is_open)
        }
        Refusal::BadMessage { stream, member } => {
            print_bad_message(alloc, line, *stream, member.as_str())
        }
        Refusal::IdsSpent => print_ids_spent(alloc, line),
    }
}

/// The document of the key, as the store has it.
fn print_document(
    alloc: Global,
    root: &Database,
    store: &LocalStore,
    key: &DocumentKey,
) -> Result<String, NoMemory>
    ensures { IfOk result (λ line. string_bytes line ≡ line_of (document_tree root.now key.now
        (document_of store.now.state key.now) (standing_of store.now.state key.now))) }
{
    documents_are_local();
    match store.document(key) {
        Some(doc) => print_found(alloc, root, doc),
        None => print_missing(alloc, root, key, store.state_of(key)),
    }
}

/// The last snapshot of the listener of the id.
fn print_raised(alloc: Global, client: &Client, id: u32) -> Result<String, NoMemory>
    requires live { IsLive client.now }
    requires standing { IsStanding client.now }
    requires raised { (line : Line) × IsRaised client.now id line }
    ensures { IfOk result (λ text. (line : Line) → IsRaised client.now id line
        → string_bytes text ≡ line_of (tree_of client.now.root line)) }
{
    let Some(snapshot) = client.snapshot(id) else {
        unreachable!();
    };
    let store = client.store();
    print_snapshot(
        alloc,
        client.root(),
        id,
        store.number(),
        store.last_read(),
        &snapshot,
    )
}

/// The request with the pending batch at the place.
fn print_sent(alloc: Global, client: &Client, place: u64) -> Result<String, NoMemory>
    requires sent { (line : Line) × IsSent client.now place line }
    ensures { IfOk result (λ text. (line : Line) → IsSent client.now place line
        → string_bytes text ≡ line_of (tree_of client.now.root line)) }
{
    let Some(batch) = client.store().pending().get(place) else {
        unreachable!();
    };
    let writes = batch.writes.as_slice();
    let line = print_batch(alloc, client.root(), client.token(), writes)?;
    Ok(line)
}

/// The request that adds the target of the id, as its row stands.
fn print_added(alloc: Global, client: &Client, id: i32) -> Result<String, NoMemory>
    requires { (line : Line) × IsAddLine client.now.store.state id line }
    ensures { IfOk result (λ text. (line : Line) → IsAddLine client.now.store.state id line
        → string_bytes text ≡ line_of (tree_of client.now.root line)) }
{
    let Some(row) = client.store().targets().row(id) else {
        unreachable!();
    };
    let root = client.root();
    let Some(held) = &row.held else {
        let line = print_add_target(alloc, root, id, &row.target, None)?;
        return Ok(line);
    };
    let resume = (held.token.as_slice(), held.keys.len());
    let line = print_add_target(alloc, root, id, &row.target, Some(resume))?;
    Ok(line)
}

/// The request that adds the listen of the document in limbo under the id.
fn print_limbo_added(alloc: Global, client: &Client, id: i32) -> Result<String, NoMemory>
    requires { (line : Line) × IsListenLine client.now.limbo.limbo id line }
    ensures { IfOk result (λ text. (line : Line) → IsListenLine client.now.limbo.limbo id line
        → string_bytes text ≡ line_of (tree_of client.now.root line)) }
{
    let Some(key) = client.limbo_document(id) else {
        unreachable!();
    };
    let target = Target::Document(key.copy(alloc)?);
    let line = print_add_target(alloc, client.root(), id, &target, None)?;
    Ok(line)
}

/// A line that was handed out.
fn print_out(alloc: Global, client: &Client, out: &Out) -> Result<String, NoMemory>
    requires live { IsLive client.now }
    requires standing { IsStanding client.now }
    requires shown { (line : Line) × IsShown client.now out.now line }
    ensures { IfOk result (λ text. (line : Line) → IsShown client.now out.now line
        → string_bytes text ≡ line_of (tree_of client.now.root line)) }
{
    match out {
        Out::Wrote { batch, commit } => print_wrote(alloc, *batch, *commit),
        Out::Listening { id, target, commit } => print_listening(alloc, *id, *target, *commit),
        Out::Unlistened { id, commit } => print_unlistened(alloc, *id, *commit),
        Out::Document(key) => {
            let line = print_document(alloc, client.root(), client.store(), key)?;
            Ok(line)
        }
        Out::Result {
            batch,
            commit,
            time,
        } => print_result(alloc, *batch, *commit, *time),
        Out::Rejected {
            batch,
            commit,
            status,
        } => print_rejected(alloc, *batch, *commit, status),
        Out::Error { id, status } => print_error(alloc, *id, status),
        Out::Raised(id) => print_raised(alloc, client, *id),
        Out::AddTarget(id) => print_added(alloc, client, *id),
        Out::AddLimboTarget(id) => print_limbo_added(alloc, client, *id),
        Out::RemoveTarget(id) => print_remove_target(alloc, client.root(), *id),
        Out::SendHandshake => print_handshake(alloc, client.root()),
        Out::SendBatch(place) => print_sent(alloc, client, *place),
    }
}

/// Lines that were handed out, one after another.
fn print_outs(alloc: Global, client: &Client, outs: &[Out]) -> Result<String, NoMemory>
    requires live { IsLive client.now }
    requires standing { IsStanding client.now }
    requires shown { (lines : List Line) × AreShown client.now outs.now lines }
    ensures { IfOk result (λ text. (lines : List Line) → AreShown client.now outs.now lines
        → string_bytes text ≡ text_of client.now.root lines) }
{
    // most events hand out one line, whose text is not copied
    if outs.len() == 1 {
        let line = print_out(alloc, client, &outs[0])?;
        return Ok(line);
    }
    let mut text = String::new(alloc);
    for out in outs {
        let line = print_out(alloc, client, out)?;
        text.push_str(line.as_str())?;
    }
    Ok(text)
}

/// The refusal of an event, and behind it the lines that were handed out.
fn print_refused(
    alloc: Global,
    client: &Client,
    number: u64,
    refusal: &Refusal,
    outs: &[Out],
) -> Result<String, NoMemory>
    requires live { IsLive client.now }
    requires standing { IsStanding client.now }
    requires shown { (lines : List Line) × AreShown client.now outs.now lines }
    ensures { IfOk result (λ text. (lines : List Line) → AreShown client.now outs.now lines
        → string_bytes text
        ≡ line_of (unheard_tree number refusal.now) ++ text_of client.now.root lines) }
{
    let mut text = print_unheard(alloc, number, refusal)?;
    let lines = print_outs(alloc, client, outs)?;
    text.push_str(lines.as_str())?;
    Ok(text)
}

/// What an event came to.
fn print_outcome(
    alloc: Global,
    client: &Client,
    number: u64,
    outcome: &Outcome,
) -> Result<String, NoMemory>
    requires live { IsLive client.now }
    requires standing { IsStanding client.now }
    requires told { (t : LineTurn) × IsHeard outcome.now client.now t }
    ensures { IfOk result (λ text. (t : LineTurn) → IsHeard outcome.now client.now t
        → string_bytes text ≡ printed client.now.root number t) }
{
    match outcome {
        Outcome::Done(outs) => print_outs(alloc, client, outs.as_slice()),
        Outcome::Refused(refusal, outs) => {
            print_refused(alloc, client, number, refusal, outs.as_slice())
        }
    }
}

/// What the line of this number, from 1, came to.
pub fn print_taken(
    alloc: Global,
    client: &Client,
    number: u64,
    taken: &Taken,
) -> Result<String, NoMemory>
    requires live { IsLive client.now }
    requires standing { IsStanding client.now }
    requires told { (t : LineTurn) × Tells taken.now client.now t }
    ensures { IfOk result (λ text. (t : LineTurn) → Tells taken.now client.now t
        → string_bytes text ≡ printed client.now.root number t) }
{
    match taken {
        Taken::Unread(refusal) => print_unread(alloc, number, refusal),
        Taken::Heard(outcome) => print_outcome(alloc, client, number, outcome),
    }
}
