// Whose a frame is that comes down.
ghost use Rattle.std.specs.Prelude.{◌≡◌, Some, IfOk, codes};
ghost use Rattle.serde_json.specs.View.{view, members_view};
ghost use Rattle.cdp_json.specs.Fields.{field_of};
ghost use Rattle.cdp_json.specs.Kinds.{as_whole};
ghost use Rattle.cdp_messages.specs.SessionFrames.{without_session};
ghost use Rattle.multi_replay.specs.Held.{incoming_seen, HasText};
ghost use Rattle.multi_replay.specs.Incoming.{if_there, strange_frame, session_frame, down_value, frame_down};

use cdp_json::{Field, all_whole, int_field, text_field};
use cdp_messages::json_of;
use node_tree::Text;
use serde_json::{Map, Value};
use std::alloc::{AllocError, Global};

/// What a frame is.
#[derive(Drop)]
pub(crate) enum Incoming {
    /// It names no session; with its id, if it has one.
    Bare(Option<u64>),
    /// It names this session, and says this beside.
    OfSession { session: Text, text: Vec<u8> },
}

// The id of an object.
fn id_in(members: &Map<String, Value>) -> Option<u64>
    ensures { result ≡ if_there (field_of as_whole (codes "id") (members_view members.now.entries)) }
{
    match int_field(members, "id") {
        Field::Is(id) => Some(id),
        Field::Missing | Field::WrongKind => None,
    }
}

// The value without its session, if it is an object that has one.
fn without_session(value: Value) -> Value
    ensures { view result ≡ without_session (view value) }
{
    match value {
        Value::Object(mut members) => {
            drop(members.remove("sessionId"));
            Value::Object(members)
        }
        Value::Null => Value::Null,
        Value::Bool(flag) => Value::Bool(flag),
        Value::Number(number) => Value::Number(number),
        Value::String(text) => Value::String(text),
        Value::Array(items) => Value::Array(items),
    }
}

// A frame of a session that no front has.
fn strange(alloc: Global) -> Incoming
    ensures is { incoming_seen result ≡ strange_frame }
    ensures text { HasText result }
{
    Incoming::OfSession {
        session: Text::empty(alloc),
        text: Vec::new(alloc),
    }
}

// A frame of this session, which says this beside.
fn of_session(alloc: Global, session: Text, rest: Value) -> Result<Incoming, AllocError>
    ensures is { IfOk result (λ frame. incoming_seen frame ≡ session_frame session (view rest)) }
    ensures text { IfOk result (λ frame. HasText frame) }
{
    if all_whole(&rest) {
        let text = rest.to_vec(alloc)?;
        Ok(Incoming::OfSession { session, text })
    } else {
        Ok(strange(alloc))
    }
}

// What a value is.
fn read_value(alloc: Global, value: Value) -> Result<Incoming, AllocError>
    ensures is { IfOk result (λ frame. incoming_seen frame ≡ down_value (Some (view value))) }
    ensures text { IfOk result (λ frame. HasText frame) }
{
    let Some(members) = value.as_object() else {
        return Ok(Incoming::Bare(None));
    };
    let session = match text_field(members, "sessionId") {
        Field::Missing => return Ok(Incoming::Bare(id_in(members))),
        Field::WrongKind => return Ok(strange(alloc)),
        Field::Is(session) => Text::copied(alloc, session)?,
    };
    of_session(alloc, session, without_session(value))
}

/// What a frame is. What a frame of a session says beside has no zero byte.
pub(crate) fn read_incoming(alloc: Global, frame: &[u8]) -> Result<Incoming, AllocError>
    ensures is { IfOk result (λ found. incoming_seen found ≡ frame_down frame.now) }
    ensures text { IfOk result (λ found. HasText found) }
{
    match json_of(alloc, frame)? {
        Some(value) => read_value(alloc, value),
        None => Ok(Incoming::Bare(None)),
    }
}
