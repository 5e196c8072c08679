// Reading the frames of an attached session.
ghost use Rattle.std.specs.Prelude.{◌≡◌, IfOk, true};
ghost use Rattle.serde_json.specs.View.{view};
ghost use Rattle.cdp_messages.specs.Asked.{fits_command};
ghost use Rattle.cdp_messages.specs.Answers.{ReadsAsked};
ghost use Rattle.cdp_messages.specs.SessionFrames.{without_session, session_asked, SessionsAreAsked};

use crate::command::{Asked, ReadErr};
use crate::read::{asked_by, json_of};
use serde_json::Value;
use std::alloc::Global;

// The value without its session, if it is an object that has one.
fn without_session(value: Value) -> Value
    ensures { view result ≡ without_session (view value) }
{
    match value {
        Value::Object(mut members) => {
            drop(members.remove("sessionId"));
            Value::Object(members)
        }
        Value::Null => Value::Null,
        Value::Bool(flag) => Value::Bool(flag),
        Value::Number(number) => Value::Number(number),
        Value::String(text) => Value::String(text),
        Value::Array(items) => Value::Array(items),
    }
}

/// Reads what a frame of an attached session asks, as if it had no `sessionId`: a command, or the first refusal that applies.
/// Our own two methods are not known there. Each parameter of the command is in its range.
pub fn read_session_command(alloc: Global, bytes: &[u8]) -> Result<Asked, ReadErr>
    ensures asked { ReadsAsked result (session_asked bytes.now) }
    ensures fits { IfOk result (λ a. fits_command a.command ≡ true) }
{
    let Ok(found) = json_of(alloc, bytes) else {
        return Err(ReadErr::Memory);
    };
    match found {
        Some(value) => asked_by(alloc, &Some(without_session(value)), false),
        None => asked_by(alloc, &None, false),
    }
}

/// A command that was written for a session is asked in that session as the command without it.
pub fn session_law()
    ensures { SessionsAreAsked }
{}
