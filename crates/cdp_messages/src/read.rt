// Reading frames on their way up.
ghost use Rattle.std.specs.Prelude.{◌≡◌, Some, option_map, IfOk, IfSome, true, false};
ghost use Rattle.serde_json.specs.Find.{as_object, get_member};
ghost use Rattle.serde_json.specs.View.{view, members_view};
ghost use Rattle.cdp_json.specs.Lookups.{then_ok};
ghost use Rattle.cdp_messages.specs.Methods.{known_method};
ghost use Rattle.cdp_messages.specs.Asked.{json_of, of_method, unless_session, or_bad_request, command_of, command_in, asked_in};
ghost use Rattle.cdp_messages.specs.Asked.{asked_value, asked, fits_command};
ghost use Rattle.cdp_messages.specs.Answers.{ReadsAsked, Commands};

use crate::command::{Asked, Command, CommandErr, ReadErr, Refused, Why};
use crate::method::Method;
use crate::read_by::command_by;
use cdp_json::{Field, int_field, text_field};
use serde_json::{Map, Value};
use short_json::read_short;
use std::alloc::{AllocError, Global};
use std::str;

// The most bytes of a text that is read byte by byte: behind them the table that finds the tokens of a long one is worth its making.
const SHORT: usize = 1_024;

// Our own two methods are known where `own` says so.
fn known_method(name: &str, own: bool) -> Option<Method>
    ensures { result ≡ known_method own name.now }
{
    let method = Method::named(name)?;
    if method.is_own() && !own {
        None
    } else {
        Some(method)
    }
}

// The parameters are an object.
fn routed(
    alloc: Global,
    method: Option<Method>,
    params: &Value,
    session: Option<&Value>,
) -> Result<Command, CommandErr>
    ensures { Commands result (then_ok (or_bad_request (as_object (view params.now))) (λ ps.
        unless_session (option_map (λ s. view s.now) session.entry) (of_method method ps))) }
{
    let Some(members) = params.as_object() else {
        return Err(CommandErr::Refused(Why::BadRequest));
    };
    if session.is_some() {
        return Err(CommandErr::Refused(Why::NoSession));
    }
    match method {
        Some(method) => command_by(alloc, method, params, members),
        None => Err(CommandErr::Refused(Why::NoMethod)),
    }
}

// The command of the method of that name.
fn command_of(
    alloc: Global,
    name: &str,
    params: Option<&Value>,
    session: Option<&Value>,
    own: bool,
) -> Result<Command, CommandErr>
    ensures { Commands result (command_of own name.now
        (option_map (λ p. view p.now) params.entry) (option_map (λ s. view s.now) session.entry)) }
{
    let method = known_method(name, own);
    match params {
        None => routed(alloc, method, &Value::Object(Map::new(alloc)), session),
        Some(params) => routed(alloc, method, params, session),
    }
}

/// The command of that method of the protocol, with parameters and a session where they are given, or the first refusal that
/// applies.
pub fn read_ask(
    alloc: Global,
    method: &str,
    params: Option<&Value>,
    session: Option<&Value>,
) -> Result<Command, CommandErr>
    ensures { Commands result (command_of false method.now
        (option_map (λ p. view p.now) params.entry) (option_map (λ s. view s.now) session.entry)) }
{
    command_of(alloc, method, params, session, false)
}

fn member<'a>(object: &'a Map<String, Value>, name: &str) -> Option<&'a Value>
    ensures { option_map (λ v. view v.now) result
        ≡ get_member name.now (members_view object.now.entries) }
{
    object.get(name)
}

fn command_in(alloc: Global, frame: &Map<String, Value>, own: bool) -> Result<Command, CommandErr>
    ensures { Commands result (command_in own (members_view frame.now.entries)) }
{
    let Field::Is(method) = text_field(frame, "method") else {
        return Err(CommandErr::Refused(Why::BadRequest));
    };
    let params = member(frame, "params");
    let session = member(frame, "sessionId");
    command_of(alloc, method, params, session, own)
}

fn asked_in(alloc: Global, value: &Value, own: bool) -> Result<Asked, ReadErr>
    ensures { ReadsAsked result (asked_in own (as_object (view value.now))) }
{
    let refused = ReadErr::Refused(Refused {
        id: None,
        why: Why::NoId,
    });
    let Some(frame) = value.as_object() else {
        return Err(refused);
    };
    let Field::Is(id) = int_field(frame, "id") else {
        return Err(refused);
    };
    match command_in(alloc, frame, own) {
        Ok(command) => Ok(Asked { id, command }),
        Err(CommandErr::Refused(why)) => Err(ReadErr::Refused(Refused { id: Some(id), why })),
        Err(CommandErr::Memory) => Err(ReadErr::Memory),
    }
}

// The value that short bytes in their usual form are. `None` says nothing of them.
fn short_json_of(alloc: Global, bytes: &[u8]) -> Result<Option<Value>, AllocError>
    ensures { IfOk result (λ found. IfSome found (λ v. json_of bytes.now ≡ Some (view v))) }
{
    if bytes.len() > SHORT {
        return Ok(None);
    }
    let Ok(text) = str::from_utf8(bytes) else {
        return Ok(None);
    };
    let found = read_short(alloc, text)?;
    Ok(found)
}

/// The JSON value that the bytes are, where they are UTF-8 and JSON.
pub fn json_of(alloc: Global, bytes: &[u8]) -> Result<Option<Value>, AllocError>
    ensures { IfOk result (λ found. option_map view found ≡ json_of bytes.now) }
{
    if let Some(value) = short_json_of(alloc, bytes)? {
        return Ok(Some(value));
    }
    match Value::from_slice(alloc, bytes) {
        Ok(value) => Ok(Some(value)),
        Err(error) => if error.is_memory() {
            Err(AllocError)
        } else {
            Ok(None)
        },
    }
}

// What is asked by a frame that is this value, if it is any.
pub(crate) fn asked_by(alloc: Global, found: &Option<Value>, own: bool) -> Result<Asked, ReadErr>
    ensures { ReadsAsked result (asked_value own (option_map view found.now)) }
{
    match found {
        Some(value) => asked_in(alloc, value, own),
        None => Err(ReadErr::Refused(Refused {
            id: None,
            why: Why::NotJson,
        })),
    }
}

/// Reads what a frame asks: a command, or the first refusal that applies. `own` says whether our own two methods are known,
/// `Replay.load` and `Replay.act`. Each parameter of the command is in its range.
pub fn read_command(alloc: Global, bytes: &[u8], own: bool) -> Result<Asked, ReadErr>
    ensures asked { ReadsAsked result (asked bytes.now own) }
    ensures fits { IfOk result (λ a. fits_command a.command ≡ true) }
{
    let Ok(found) = json_of(alloc, bytes) else {
        return Err(ReadErr::Memory);
    };
    asked_by(alloc, &found, own)
}
