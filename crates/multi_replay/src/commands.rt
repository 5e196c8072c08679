// The frames of commands that attach a session and detach it, and of fetches in a session.
ghost use Rattle.std.specs.Prelude.{◌≡◌, Some, IfOk, codes};
ghost use Rattle.serde_json.specs.Data.{string};
ghost use Rattle.serde_json.specs.View.{view};
ghost use Rattle.pipe_frames.specs.Frames.{framed};
ghost use Rattle.cdp_messages.specs.Asked.{command_text};
ghost use Rattle.front_mirror.specs.Front.{fetch_params};
ghost use Rattle.multi_replay.specs.States.{attach_text, detach_text};

use cdp_json::ObjectBuilder;
use cdp_messages::write_command;
use css_objects::sheet_value;
use serde_json::Value;
use std::alloc::{AllocError, Global};

/// The text of a session as JSON.
pub(crate) fn session_value(alloc: Global, session: &str) -> Result<Value, AllocError>
    ensures { IfOk result (λ v. view v ≡ string session.now) }
{
    Value::try_from_str(alloc, session)
}

/// The frame that attaches a session, under this id.
pub(crate) fn attach_frame(alloc: Global, id: u64) -> Result<Vec<u8>, AllocError>
    ensures { IfOk result (λ frame. frame.items ≡ framed (attach_text id)) }
{
    let params = ObjectBuilder::new(alloc)
        .with_value("flatten", Value::Bool(true))?
        .with_text("targetId", "page")?
        .build()?;
    let mut frame = Vec::new(alloc);
    write_command(
        alloc,
        id,
        "Target.attachToTarget",
        Some(&params),
        None,
        &mut frame,
    )?;
    Ok(frame)
}

/// The frame that detaches the session of this text, under this id.
pub(crate) fn detach_frame(alloc: Global, id: u64, session: &str) -> Result<Vec<u8>, AllocError>
    ensures { IfOk result (λ frame. frame.items ≡ framed (detach_text id session.now)) }
{
    let params = ObjectBuilder::new(alloc)
        .with_text("sessionId", session)?
        .build()?;
    let mut frame = Vec::new(alloc);
    write_command(
        alloc,
        id,
        "Target.detachFromTarget",
        Some(&params),
        None,
        &mut frame,
    )?;
    Ok(frame)
}

/// The frame that fetches the text of a sheet in a session, under this id.
pub(crate) fn fetch_frame(
    alloc: Global,
    id: u64,
    sheet: u64,
    session: &str,
) -> Result<Vec<u8>, AllocError>
    ensures { IfOk result (λ frame. frame.items ≡ framed (command_text id (codes "CSS.getStyleSheetText") (Some (fetch_params sheet))
        (Some (string session.now)))) }
{
    let params = ObjectBuilder::new(alloc)
        .with_value("styleSheetId", sheet_value(alloc, sheet)?)?
        .build()?;
    let session = session_value(alloc, session)?;
    let mut frame = Vec::new(alloc);
    write_command(
        alloc,
        id,
        "CSS.getStyleSheetText",
        Some(&params),
        Some(&session),
        &mut frame,
    )?;
    Ok(frame)
}
