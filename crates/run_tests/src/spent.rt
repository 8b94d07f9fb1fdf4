//! A client behind a fault, which is asked on.

ghost use Rattle.std.specs.Prelude.{IsTrue, IfOk};
ghost use Rattle.client_events.specs.Spelled.{IsSpelledEvent};
ghost use Rattle.local_store.specs.Store.{IsStored};
ghost use Rattle.sync_engine.specs.Standing.{IsSpent, IsStanding};

use crate::fixtures::{WRITE, host_over};
use crate::stops::last_call;
use client_events::Event;
use document_keys::Database;
use host_api::{Host, Line};
use line_reader::{Reading, read_item};
use plain_json::Room;
use std::alloc::Global;
use std::process::Abort;
use std::test::Fail;
use sync_engine::{Client, ClientFault};

// the event of the line
fn event_of(alloc: Global, root: &Database, line: &str) -> Result<Event, Fail>
    ensures { IfOk result IsSpelledEvent }
{
    let mut room = Room::new(alloc);
    match read_item(alloc, root, Line::Text, line.as_bytes(), &mut room)? {
        Reading::Line(event) => Ok(event),
        Reading::Refused(_) => Err("the line is an event".into()),
    }
}

// whether the disk fails at the event's commit
fn meets_fault<H: Host>(alloc: Global, host: &mut H, client: &mut Client, event: Event) -> bool
    requires stored { IsTrue H.tells_files → IsStored client.old.store (H.view host.old) }
    requires stands { IsStanding client.old }
    requires spelled { IsSpelledEvent event }
    ensures spent { IsTrue result → IsSpent client.new }
{
    let answer = client.event(alloc, host, event);
    matches!(answer, Err(ClientFault::DiskFault))
}

// whether a client that met a fault answers so
fn is_spent<H: Host>(alloc: Global, host: &mut H, client: &mut Client) -> bool
    requires { IsSpent client.old }
{
    let answer = client.event(alloc, host, Event::Timer);
    if !matches!(answer, Err(ClientFault::Spent)) {
        return false;
    }
    client.snapshot(1).is_none()
}

// whether the disk fails at the commit of a write, and the client is spent then
fn is_spent_behind<H: Host>(alloc: Global, host: &mut H, client: &mut Client) -> Result<bool, Fail>
    requires stored { IsTrue H.tells_files → IsStored client.old.store (H.view host.old) }
    requires stands { IsStanding client.old }
{
    let event = event_of(alloc, client.root(), WRITE)?;
    if !meets_fault(alloc, host, client, event) {
        return Ok(false);
    }
    Ok(is_spent(alloc, host, client))
}

// the same of a client that is opened over the host
fn is_spent_over<H: Host>(alloc: Global, host: &mut H) -> Result<bool, Fail> {
    let root = Database::read(alloc, "projects/demo/databases/(default)")?;
    match Client::open(alloc, host, root) {
        Ok(mut client) => is_spent_behind(alloc, host, &mut client),
        Err(_) => Err("the store opens".into()),
    }
}

#[test]
fn spent_behind_a_fault(rt: HostRuntime) -> Result<(), Fail> {
    // the last call of a run prints, and the one before it ends the commit
    let call = last_call(&rt)?.saturating_sub(1);
    let mut host = host_over(rt.alloc(), &[], &[], &[call])?;
    assert!(rt; is_spent_over(rt.alloc(), &mut host)?);
    Ok(())
}
