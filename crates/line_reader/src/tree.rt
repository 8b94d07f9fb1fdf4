//! What the tree of a line spells, or its first fault.

ghost use Rattle.std.specs.Prelude.{◌≡◌, [], false, IfOk, IfErr, IfSome, IsSome, codes, option_map};
ghost use Rattle.std.specs.List.{All};
ghost use Rattle.serde_json.specs.Data.{string};
ghost use Rattle.serde_json.specs.View.{view, members_view};
ghost use Rattle.value_model.specs.Time.{IsMoment};
ghost use Rattle.json_model.specs.declared.place.Constants.TheVariants as constants;
ghost use Rattle.json_model.specs.declared.place.Leaf.TheVariants as leaves;
ghost use Rattle.json_model.specs.declared.place.Object.TheVariants as objects;
ghost use Rattle.json_model.specs.declared.place.Place.TheVariants as places;
ghost use Rattle.json_model.specs.Clean.{IsClean, AreClean};
ghost use Rattle.json_model.specs.Faults.{IsFault};
ghost use Rattle.json_model.specs.Forms.{IsGiven, SpellsEach};
ghost use Rattle.json_model.specs.Grammar.{SpellsTime};
ghost use Rattle.json_model.specs.Members.{given};
ghost use Rattle.json_model.specs.Places.{is_unknown, member_place};
ghost use Rattle.json_queries.specs.Grammar.{SpellsQuery};
ghost use Rattle.json_queries.specs.Storable.{IsStorableRawQuery};
ghost use Rattle.json_rpc.specs.Grammar.{SpellsWrite};
ghost use Rattle.json_rpc.specs.Storable.{IsStorableWrite};
ghost use Rattle.line_reader.specs.Faults.{LineFaults};
ghost use Rattle.line_reader.specs.Grammar.{SpellsListenerId, SpellsNamed, SpellsClosingStatus, Spells, stream_text};
ghost use Rattle.line_reader.specs.Spelled.{HoldsStorable};

use crate::raw_event::RawEvent;
use crate::refusal::member_of;
use document_keys::{Database, NoMemory, Text};
use json_messages::{clean_status, read_listen_response, read_write_response};
use json_model::{
    Constants, JsonFault, MAX_NESTING, Object, Place, Setting, Side, check, clean_choice,
    clean_constant, clean_listener_id, clean_member, clean_name, clean_object, clean_time,
};
use json_queries::clean_query;
use json_rpc::clean_writes;
use mutations::Writes;
use queries::RawQuery;
use serde_json::{Map, Value as Json};
use std::alloc::Global;
use value_model::{RpcStatus, StreamName, Timestamp};

/// The writes under `writes`, none where it is left out.
#[tactic(auto, unfolding(json_model::specs::Places::write_line_rows))]
fn build_writes(
    alloc: Global,
    setting: &Setting<'_>,
    members: &Map<String, Json>,
) -> Result<Writes, NoMemory>
    requires { AreClean setting.now objects.WriteLine (members_view members.now.entries) }
    ensures writes { IfOk result (λ writes. SpellsEach (SpellsWrite setting.now.root)
        (given (codes "writes") (members_view members.now.entries)) writes) }
    ensures storable { IfOk result (λ writes. All IsStorableWrite writes) }
{
    let Some(list) = clean_member(setting, Object::WriteLine, members, "writes") else {
        return Ok(Writes::from_vec(Vec::new(alloc)));
    };
    let writes = clean_writes(alloc, setting, list)?;
    Ok(Writes::from_vec(writes))
}

/// The local write time under `at`.
#[tactic(auto, unfolding(json_model::specs::Places::write_line_rows))]
fn build_time(setting: &Setting<'_>, members: &Map<String, Json>) -> Timestamp
    requires { AreClean setting.now objects.WriteLine (members_view members.now.entries) }
    ensures time { IsGiven (given (codes "at") (members_view members.now.entries))
        (λ d. SpellsTime d result) }
    ensures moment { IsMoment result }
{
    match clean_member(setting, Object::WriteLine, members, "at") {
        Some(json) => clean_time(setting, json),
        None => unreachable!(),
    }
}

/// What `write` holds.
fn build_write_line(alloc: Global, setting: &Setting<'_>, json: &Json) -> Result<RawEvent, NoMemory>
    requires { IsClean setting.now (places.Object objects.WriteLine) (view json.now) }
    ensures event { IfOk result (λ event. SpellsNamed setting.now.root (codes "write")
        (view json.now) event) }
    ensures storable { IfOk result HoldsStorable }
{
    let members = clean_object(setting, Object::WriteLine, json);
    let at = build_time(setting, members);
    let writes = build_writes(alloc, setting, members)?;
    Ok(RawEvent::Write { at, writes })
}

/// What `get` holds.
fn build_get_line(alloc: Global, setting: &Setting<'_>, json: &Json) -> Result<RawEvent, NoMemory>
    requires { IsClean setting.now (places.Object objects.GetLine) (view json.now) }
    ensures event { IfOk result (λ event. SpellsNamed setting.now.root (codes "get")
        (view json.now) event) }
    ensures storable { IfOk result HoldsStorable }
{
    let members = clean_object(setting, Object::GetLine, json);
    match clean_member(setting, Object::GetLine, members, "name") {
        Some(name) => Ok(RawEvent::Get(clean_name(alloc, setting, name)?)),
        None => unreachable!(),
    }
}

/// The id of a listener, 0 where it is left out.
fn build_id(setting: &Setting<'_>, found: Option<&Json>) -> u32
    requires { IfSome found (λ json. IsClean setting.now (places.Leaf leaves.ListenerId)
        (view json.now)) }
    ensures { SpellsListenerId (option_map (λ json. view json.now) found.entry) result }
{
    match found {
        Some(json) => clean_listener_id(setting, json),
        None => 0,
    }
}

/// The query under `target`.
#[tactic(auto, unfolding(json_model::specs::Places::listen_line_rows))]
fn build_target(
    alloc: Global,
    setting: &Setting<'_>,
    members: &Map<String, Json>,
) -> Result<RawQuery, NoMemory>
    requires { AreClean setting.now objects.ListenLine (members_view members.now.entries) }
    ensures query { IfOk result (λ query. IsGiven
        (given (codes "target") (members_view members.now.entries))
        (λ d. SpellsQuery setting.now.root d query)) }
    ensures storable { IfOk result IsStorableRawQuery }
{
    match clean_member(setting, Object::ListenLine, members, "target") {
        Some(target) => clean_query(alloc, setting, target),
        None => unreachable!(),
    }
}

/// What `listen` holds.
#[tactic(auto, unfolding(json_model::specs::Places::listen_line_rows))]
fn build_listen_line(
    alloc: Global,
    setting: &Setting<'_>,
    json: &Json,
) -> Result<RawEvent, NoMemory>
    requires { IsClean setting.now (places.Object objects.ListenLine) (view json.now) }
    ensures event { IfOk result (λ event. SpellsNamed setting.now.root (codes "listen")
        (view json.now) event) }
    ensures storable { IfOk result HoldsStorable }
{
    let members = clean_object(setting, Object::ListenLine, json);
    let found = clean_member(setting, Object::ListenLine, members, "id");
    let id = build_id(setting, found);
    let query = build_target(alloc, setting, members)?;
    Ok(RawEvent::Listen { id, query })
}

/// What `unlisten` holds.
fn build_unlisten_line(setting: &Setting<'_>, json: &Json) -> RawEvent
    requires { IsClean setting.now (places.Object objects.UnlistenLine) (view json.now) }
    ensures event { SpellsNamed setting.now.root (codes "unlisten") (view json.now) result }
    ensures storable { HoldsStorable result }
{
    let members = clean_object(setting, Object::UnlistenLine, json);
    let found = clean_member(setting, Object::UnlistenLine, members, "id");
    RawEvent::Unlisten(build_id(setting, found))
}

/// The stream of a name.
#[tactic(auto, unfolding(json_model::specs::Constants::is_stream_name))]
fn build_stream(setting: &Setting<'_>, found: Option<&Json>) -> StreamName
    requires there { IsSome found }
    requires clean { IfSome found (λ json. IsClean setting.now
        (places.Leaf (leaves.Constant constants.StreamName)) (view json.now)) }
    ensures { option_map (λ json. view json.now) found.entry ≡ Some (string (stream_text result)) }
{
    let Some(json) = found else {
        unreachable!();
    };
    match clean_constant(setting, Constants::StreamName, json) {
        "watch" => StreamName::Watch,
        "write" => StreamName::Write,
        _ => unreachable!(),
    }
}

/// What `open` holds.
fn build_open_line(setting: &Setting<'_>, json: &Json) -> RawEvent
    requires { IsClean setting.now (places.Object objects.OpenLine) (view json.now) }
    ensures event { SpellsNamed setting.now.root (codes "open") (view json.now) result }
    ensures storable { HoldsStorable result }
{
    let members = clean_object(setting, Object::OpenLine, json);
    let found = clean_member(setting, Object::OpenLine, members, "stream");
    RawEvent::Opened(build_stream(setting, found))
}

/// A status, that of a call that ended well where it is left out.
fn build_status(
    alloc: Global,
    setting: &Setting<'_>,
    found: Option<&Json>,
) -> Result<RpcStatus, NoMemory>
    requires { IfSome found (λ json. IsClean setting.now (places.Object objects.Status)
        (view json.now)) }
    ensures { IfOk result (λ status. SpellsClosingStatus
        (option_map (λ json. view json.now) found.entry) status) }
{
    match found {
        Some(json) => clean_status(alloc, setting, json),
        None => {
            let message = Text::from_str(alloc, "")?;
            Ok(RpcStatus { code: 0, message })
        }
    }
}

/// What `close` holds.
#[tactic(auto, unfolding(json_model::specs::Places::close_line_rows))]
fn build_close_line(alloc: Global, setting: &Setting<'_>, json: &Json) -> Result<RawEvent, NoMemory>
    requires { IsClean setting.now (places.Object objects.CloseLine) (view json.now) }
    ensures event { IfOk result (λ event. SpellsNamed setting.now.root (codes "close")
        (view json.now) event) }
    ensures storable { IfOk result HoldsStorable }
{
    let members = clean_object(setting, Object::CloseLine, json);
    let found = clean_member(setting, Object::CloseLine, members, "stream");
    let name = build_stream(setting, found);
    let found = clean_member(setting, Object::CloseLine, members, "status");
    let status = build_status(alloc, setting, found)?;
    Ok(RawEvent::Closed(name, status))
}

/// What `watch` holds, by the backend's side: a message, or the member that its first fault of the least kind is told by.
fn build_watch(alloc: Global, root: &Database, json: &Json) -> Result<RawEvent, NoMemory>
    ensures event { IfOk result (λ event. SpellsNamed root.now (codes "watch")
        (view json.now) event) }
    ensures storable { IfOk result HoldsStorable }
{
    match read_listen_response(alloc, root, json) {
        Ok(response) => Ok(RawEvent::Watch(response)),
        Err(fault) => {
            let member = member_of(alloc, fault)?;
            Ok(RawEvent::BadWatch(member))
        }
    }
}

/// What `written` holds, in the same way.
fn build_written(alloc: Global, root: &Database, json: &Json) -> Result<RawEvent, NoMemory>
    ensures event { IfOk result (λ event. SpellsNamed root.now (codes "written")
        (view json.now) event) }
    ensures storable { IfOk result HoldsStorable }
{
    match read_write_response(alloc, root, json) {
        Ok(response) => Ok(RawEvent::Written(response)),
        Err(fault) => {
            let member = member_of(alloc, fault)?;
            Ok(RawEvent::BadWritten(member))
        }
    }
}

/// What `timer` holds: the name of the one timer.
#[tactic(auto, unfolding(json_model::specs::Constants::is_timer_name))]
fn build_timer_line(setting: &Setting<'_>, json: &Json) -> RawEvent
    requires { IsClean setting.now (places.Object objects.TimerLine) (view json.now) }
    ensures event { SpellsNamed setting.now.root (codes "timer") (view json.now) result }
    ensures storable { HoldsStorable result }
{
    let members = clean_object(setting, Object::TimerLine, json);
    let Some(name) = clean_member(setting, Object::TimerLine, members, "name") else {
        unreachable!();
    };
    match clean_constant(setting, Constants::TimerName, name) {
        "online" => RawEvent::Timer,
        _ => unreachable!(),
    }
}

/// What the only member of a line holds, by its name.
#[tactic(auto, unfolding(json_model::specs::Places::line_rows))]
fn build_named(
    alloc: Global,
    setting: &Setting<'_>,
    name: &str,
    json: &Json,
) -> Result<RawEvent, NoMemory>
    requires known { is_unknown (member_place objects.Line name.now) ≡ false }
    requires clean { IsClean setting.now (member_place objects.Line name.now) (view json.now) }
    ensures event { IfOk result (λ event. SpellsNamed setting.now.root name.now
        (view json.now) event) }
    ensures storable { IfOk result HoldsStorable }
{
    match name {
        "write" => build_write_line(alloc, setting, json),
        "get" => build_get_line(alloc, setting, json),
        "listen" => build_listen_line(alloc, setting, json),
        "unlisten" => Ok(build_unlisten_line(setting, json)),
        "open" => Ok(build_open_line(setting, json)),
        "close" => build_close_line(alloc, setting, json),
        "watch" => build_watch(alloc, setting.root, json),
        "written" => build_written(alloc, setting.root, json),
        "timer" => Ok(build_timer_line(setting, json)),
        _ => unreachable!(),
    }
}

/// What a line without faults holds.
fn build_event(alloc: Global, setting: &Setting<'_>, json: &Json) -> Result<RawEvent, NoMemory>
    requires { IsClean setting.now (places.Object objects.Line) (view json.now) }
    ensures event { IfOk result (λ event. Spells setting.now.root (view json.now) event) }
    ensures storable { IfOk result HoldsStorable }
{
    let members = clean_object(setting, Object::Line, json);
    let (name, inner) = clean_choice(setting, Object::Line, members);
    build_named(alloc, setting, name, inner)
}

/// What the tree of a line spells, with however many writes and whatever query. An unsupported member's value isn't read, and a
/// message of the backend's has its own faults, which are none of the line.
///
/// # Errors
/// The first fault of the least kind, in the walk through the tree; `BadShape` of the empty name where the tree isn't an object
/// with exactly one member that isn't null, the name of a line; or `NoMemory`.
pub(crate) fn read_tree(alloc: Global, root: &Database, json: &Json) -> Result<RawEvent, JsonFault>
    ensures event { IfOk result (λ event. Spells root.now (view json.now) event) }
    ensures clean { IfOk result (λ _. LineFaults root.now (view json.now) []) }
    ensures storable { IfOk result HoldsStorable }
    ensures fault { IfErr result (λ fault. IsFault (LineFaults root.now (view json.now)) fault) }
{
    let setting = Setting {
        side: Side::Caller,
        root,
    };
    let place = Place::Object(Object::Line);
    if let Err(fault) = check(alloc, &setting, MAX_NESTING, place, "", json) {
        return Err(fault);
    }
    let event = build_event(alloc, &setting, json)?;
    Ok(event)
}
