ghost use Rattle.std.specs.Prelude.{◌≡◌, IfOk};
ghost use Rattle.std.specs.List.{All};
ghost use Rattle.value_model.specs.Time.{IsMoment};
ghost use Rattle.json_messages.specs.Storable.{IsStorableAnswer, IsStorableResponse};
ghost use Rattle.json_queries.specs.Storable.{IsStorableRawQuery};
ghost use Rattle.json_rpc.specs.Storable.{IsStorableWrite};
ghost use Rattle.line_reader.specs.Reading.{batch_reading, IsListenerReading, IsReadingOf};
ghost use Rattle.line_reader.specs.Spelled.{HasCountedOrders, HoldsStorable, IsSpelledReading};

use crate::reading::Reading;
use crate::refusal::Refusal;
use client_events::{Event, is_batch};
use document_keys::{DocumentKey, NoMemory, Text};
use mutations::{WriteResponse, Writes};
use queries::{Query, QueryFault, RawQuery, Target};
use std::alloc::Global;
use value_model::{ListenResponse, RpcStatus, StreamName, Timestamp};

/// What the tree of a line spells, before the rules of batches and of queries are asked.
#[derive(Debug, Drop)]
pub enum RawEvent {
    /// However many writes, with their local write time.
    Write { at: Timestamp, writes: Writes },
    /// The document of a key.
    Get(DocumentKey),
    /// A listener of this id to the query, which may break rules of queries.
    Listen { id: u32, query: RawQuery },
    /// The end of the listener of this id.
    Unlisten(u32),
    /// The stream was opened.
    Opened(StreamName),
    /// The stream was closed, with this status.
    Closed(StreamName, RpcStatus),
    /// A message came on the stream of listeners.
    Watch(ListenResponse),
    /// A message came on the stream of listeners that has faults, the first of the least kind in the member of this name.
    BadWatch(Text),
    /// A message came on the stream of writes.
    Written(WriteResponse),
    /// A message came on the stream of writes that has faults, the first of the least kind in the member of this name.
    BadWritten(Text),
    /// The timer went off.
    Timer,
}

/// The writes, unless there are none or too many.
fn read_batch(at: Timestamp, writes: Writes) -> Reading
    requires moment { IsMoment at }
    requires storable { All IsStorableWrite writes }
    ensures is { result ≡ batch_reading at writes }
    ensures spelled { IsSpelledReading result }
{
    let count = writes.as_slice().len() as u64;
    if is_batch(count) {
        return Reading::Line(Event::Write { at, writes });
    }
    Reading::Refused(Refusal::BadWrites { count })
}

/// Shows that eight bytes have the number of a query's orders.
fn show_orders(query: &Query)
    ensures { HasCountedOrders query.now }
{
    match query.as_target() {
        Target::Document(_) => (),
        Target::Collection(target) => {
            let _count = target.orders.as_slice().len();
        }
    }
}

/// The listener to the query, unless the query breaks a rule.
fn read_listener(alloc: Global, id: u32, query: RawQuery) -> Result<Reading, NoMemory>
    requires { IsStorableRawQuery query }
    ensures is { IfOk result (λ reading. IsListenerReading id query reading) }
    ensures spelled { IfOk result IsSpelledReading }
{
    match Query::check(alloc, query) {
        Ok(query) => {
            show_orders(&query);
            Ok(Reading::Line(Event::Listen { id, query }))
        }
        Err(QueryFault::BadQuery(rule)) => Ok(Reading::Refused(Refusal::BadQuery(rule))),
        Err(QueryFault::NoMemory) => Err(NoMemory),
    }
}

/// The end of a listener.
fn read_end(id: u32) -> Reading
    ensures is { result ≡ Reading.Line (Event.Unlisten id) }
    ensures spelled { IsSpelledReading result }
{
    Reading::Line(Event::Unlisten(id))
}

/// The stream was closed, with this status.
fn read_close(name: StreamName, status: RpcStatus) -> Reading
    ensures is { result ≡ Reading.Line (Event.Closed name status) }
    ensures spelled { IsSpelledReading result }
{
    Reading::Line(Event::Closed(name, status))
}

/// A message of the stream of listeners.
fn read_watch(response: ListenResponse) -> Reading
    requires { IsStorableResponse response }
    ensures is { result ≡ Reading.Line (Event.Watch response) }
    ensures spelled { IsSpelledReading result }
{
    Reading::Line(Event::Watch(response))
}

/// A message of the stream of writes.
fn read_written(response: WriteResponse) -> Reading
    requires { IsStorableAnswer response }
    ensures is { result ≡ Reading.Line (Event.Written response) }
    ensures spelled { IsSpelledReading result }
{
    Reading::Line(Event::Written(response))
}

/// A message of the stream that has a fault, in that member.
fn read_bad_message(name: StreamName, member: Text) -> Reading
    ensures is { result ≡ Reading.Line (Event.BadMessage name member) }
    ensures spelled { IsSpelledReading result }
{
    Reading::Line(Event::BadMessage(name, member))
}

impl RawEvent {
    /// The event, unless it breaks the rules of batches or of queries.
    pub(crate) fn read(self, alloc: Global) -> Result<Reading, NoMemory>
        requires { HoldsStorable self }
        ensures is { IfOk result (λ reading. IsReadingOf self reading) }
        ensures spelled { IfOk result IsSpelledReading }
    {
        match self {
            RawEvent::Write { at, writes } => Ok(read_batch(at, writes)),
            RawEvent::Get(key) => Ok(Reading::Line(Event::Get(key))),
            RawEvent::Listen { id, query } => read_listener(alloc, id, query),
            RawEvent::Unlisten(id) => Ok(read_end(id)),
            RawEvent::Opened(name) => Ok(Reading::Line(Event::Opened(name))),
            RawEvent::Closed(name, status) => Ok(read_close(name, status)),
            RawEvent::Watch(response) => Ok(read_watch(response)),
            RawEvent::BadWatch(member) => Ok(read_bad_message(StreamName::Watch, member)),
            RawEvent::Written(response) => Ok(read_written(response)),
            RawEvent::BadWritten(member) => Ok(read_bad_message(StreamName::Write, member)),
            RawEvent::Timer => Ok(Reading::Line(Event::Timer)),
        }
    }
}
