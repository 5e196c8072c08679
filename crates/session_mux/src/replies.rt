// The messages that answer a frame at once.
ghost use Rattle.std.specs.Prelude.{◌≡◌, ◌++◌, string_bytes, IfOk, OnOk, OnErr, Some};
ghost use Rattle.serde_json.specs.Data.{object, no_members};
ghost use Rattle.serde_json.specs.View.{view};
ghost use Rattle.cdp_messages.specs.Asked.{refusal};
ghost use Rattle.cdp_messages.specs.Replies.{reply, refusal_message, message_frame};
ghost use Rattle.session_mux.specs.Sessions.{session_text};
ghost use Rattle.session_mux.specs.Targets.{attached_result};

use cdp_json::ObjectBuilder;
use cdp_messages::{Refused, ReplyBody, Why, append_reply, write_refused, write_reply};
use serde_json::Value;
use std::alloc::{AllocError, Global};

// The text of the session of that number.
pub(crate) fn session_text(alloc: Global, session: u64) -> Result<String, AllocError>
    ensures { IfOk result (λ text. string_bytes text ≡ session_text session) }
{
    format!(in alloc; "S{session}")
}

// The result that tells that the session of that number is attached.
fn attached_result(alloc: Global, session: u64) -> Result<Value, AllocError>
    ensures { IfOk result (λ v. view v ≡ attached_result session) }
{
    let text = session_text(alloc, session)?;
    ObjectBuilder::new(alloc)
        .with_value("sessionId", Value::String(text))?
        .build()
}

// Appends the reply that the session of that number is attached.
pub(crate) fn write_attached(
    alloc: Global,
    id: u64,
    session: u64,
    out: &mut Vec<u8>,
) -> Result<(), AllocError>
    ensures ok { OnOk result (out.new.items ≡ out.old.items ++ message_frame (reply id (attached_result session))) }
    ensures err { OnErr result (out.new.items ≡ out.old.items) }
{
    let body = attached_result(alloc, session)?;
    append_reply(alloc, id, body, out)
}

// Appends the reply that a session is detached: the empty object.
pub(crate) fn write_detached(alloc: Global, id: u64, out: &mut Vec<u8>) -> Result<(), AllocError>
    ensures ok { OnOk result (out.new.items ≡ out.old.items ++ message_frame (reply id (object no_members))) }
    ensures err { OnErr result (out.new.items ≡ out.old.items) }
{
    write_reply(alloc, id, &ReplyBody::Nothing, out)
}

// Appends the refusal of the frame of that id.
pub(crate) fn write_refusal(
    alloc: Global,
    id: u64,
    why: Why,
    out: &mut Vec<u8>,
) -> Result<(), AllocError>
    ensures ok { OnOk result (out.new.items ≡ out.old.items ++ message_frame (refusal_message (refusal (Some id) why))) }
    ensures err { OnErr result (out.new.items ≡ out.old.items) }
{
    write_refused(alloc, &Refused { id: Some(id), why }, out)
}
