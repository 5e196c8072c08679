// Reading messages on their way down.
ghost use Rattle.std.specs.Prelude.{◌≡◌, codes, option_map};
ghost use Rattle.serde_json.specs.Find.{get};
ghost use Rattle.serde_json.specs.View.{view};
ghost use Rattle.cdp_json.specs.Left.{left};
ghost use Rattle.cdp_json.specs.Rows.{left_with, need};
ghost use Rattle.dom_objects.specs.Answers.{GivesMessage};
ghost use Rattle.cdp_messages.specs.Events.{news_in};
ghost use Rattle.cdp_messages.specs.Replies.{message_of, event, reply_kind, error_kind, error_seen, fault_kind, fault_from, message_in};
ghost use Rattle.cdp_messages.specs.Replies.{down_of};
ghost use Rattle.node_tree.specs.Keys.{first_of};

use crate::down::Down;
use crate::event_read::event_of;
use crate::read::json_of;
use cdp_json::Cursor;
use dom_objects::DownErr;
use node_tree::Text;
use serde_json::Value;
use std::alloc::Global;

// The id of a reply, where the value is one.
fn reply_id(value: &Value) -> Option<u64>
    ensures { result ≡ option_map (λ p. p.0) (reply_kind.reads (view value.now)) }
{
    let mut fields = Cursor::new(value.as_object()?);
    let id = fields.need_whole("id")?;
    let result = fields.need("result")?;
    if !fields.is_done() || !result.is_object() {
        return None;
    }
    Some(id)
}

// What an object has under `result`.
fn into_result(value: Value) -> Option<Value>
    ensures { option_map view result ≡ get (codes "result") (view value) }
{
    match value {
        Value::Object(mut members) => members.remove("result"),
        Value::Null | Value::Bool(_) | Value::Number(_) | Value::String(_) | Value::Array(_) =>
            None,
    }
}

// The code and the text of an error.
fn error_of(value: &Value) -> Option<(i64, &str)>
    ensures { option_map error_seen result ≡ error_kind.reads (view value.now) }
{
    let mut fields = Cursor::new(value.as_object()?);
    let code = fields.need_signed("code")?;
    let text = fields.need_text("message")?;
    if !fields.is_done() {
        return None;
    }
    Some((code, text))
}

fn error_field<'a>(fields: &mut Cursor<'a>) -> Option<(i64, &'a str)>
    ensures { option_map (λ e. left_with (left fields.new) (error_seen e)) result
        ≡ need error_kind.reads (codes "error") (left fields.old) }
{
    let value = fields.need("error")?;
    error_of(value)
}

fn fault_of(alloc: Global, value: &Value) -> Result<Down, DownErr>
    ensures { GivesMessage message_of result (option_map fault_from (fault_kind.reads (view value.now))) }
{
    let object = value.as_object().ok_or(DownErr::NotMessage)?;
    let mut fields = Cursor::new(object);
    let error = error_field(&mut fields).ok_or(DownErr::NotMessage)?;
    let id = fields.may_whole("id").ok_or(DownErr::NotMessage)?;
    if !fields.is_done() {
        return Err(DownErr::NotMessage);
    }
    let text = Text::copied(alloc, error.1)?;
    Ok(Down::Fault {
        id,
        code: error.0,
        text,
    })
}

// A message that is no reply.
fn fault_or_event(alloc: Global, value: &Value) -> Result<Down, DownErr>
    ensures { GivesMessage message_of result (first_of (option_map fault_from (fault_kind.reads (view value.now)))
        (option_map event (news_in (view value.now)))) }
{
    match fault_of(alloc, value) {
        Ok(fault) => Ok(fault),
        Err(DownErr::Memory) => Err(DownErr::Memory),
        Err(DownErr::NotMessage) => match event_of(alloc, value) {
            Ok(event) => Ok(Down::Event(event)),
            Err(error) => Err(error),
        },
    }
}

fn message_in(alloc: Global, value: Value) -> Result<Down, DownErr>
    ensures { GivesMessage message_of result (message_in (view value)) }
{
    let Some(id) = reply_id(&value) else {
        return fault_or_event(alloc, &value);
    };
    match into_result(value) {
        Some(result) => Ok(Down::Reply { id, result }),
        None => Err(DownErr::NotMessage),
    }
}

/// Reads a message from the back end. It has exactly the fields that its form has; of a reply's result only that it is
/// an object is seen.
pub fn read_down(alloc: Global, bytes: &[u8]) -> Result<Down, DownErr>
    ensures { GivesMessage message_of result (down_of bytes.now) }
{
    let Ok(found) = json_of(alloc, bytes) else {
        return Err(DownErr::Memory);
    };
    match found {
        Some(value) => message_in(alloc, value),
        None => Err(DownErr::NotMessage),
    }
}
