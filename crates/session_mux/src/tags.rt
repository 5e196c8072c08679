// The session of a message, as its last property.
ghost use Rattle.std.specs.Prelude.{◌≡◌, ◌-◌, ◌++◌, length, take, string_bytes, IfOk, OnOk, OnErr};
ghost use Rattle.std.specs.List.{flat_map};
ghost use Rattle.pipe_frames.specs.Frames.{frames_of};
ghost use Rattle.session_mux.specs.Tags.{AreMessages, session_frames};
ghost use Rattle.session_mux.specs.TaggedTexts.{written_end, tagged_frame};

use pipe_frames::Splitter;
use std::alloc::{AllocError, Global};

// What stands behind the properties of a message in the place of its closing brace, and the zero byte of its frame.
fn session_end(alloc: Global, session: u64) -> Result<String, AllocError>
    ensures { IfOk result (λ end. string_bytes end ≡ written_end session) }
{
    format!(in alloc; ",\"sessionId\":\"S{session}\"}}\0")
}

// What stands before the last byte.
fn before_last(text: &[u8]) -> &[u8]
    ensures { result.now ≡ take (length text.now - 1) text.now }
{
    match text.split_last() {
        Some((_last, before)) => before,
        None => text,
    }
}

// Appends each of the frames with this end in the place of its last byte.
fn append_tagged(mut frames: Splitter, end: &[u8], out: &mut Vec<u8>) -> Result<(), AllocError>
    ensures { OnOk result (out.new.items ≡ out.old.items ++ flat_map (tagged_frame end.now) frames.whole) }
{
    while let Some(frame) = frames.next() {
        out.extend_from_slice(before_last(&frame))?;
        out.extend_from_slice(end)?;
    }
    Ok(())
}

// The frames that these bytes are cut into.
fn frames_of(alloc: Global, bytes: &[u8]) -> Result<Splitter, AllocError>
    ensures { IfOk result (λ frames. frames.whole ≡ (frames_of bytes.now).whole) }
{
    let mut frames = Splitter::new(alloc);
    frames.take(bytes)?;
    Ok(frames)
}

/// Appends the frames that the writers of messages wrote, each as a frame of the session of that number: with its `sessionId` as
/// the last property. After want of memory nothing is appended.
pub fn tag(alloc: Global, frames: &[u8], session: u64, out: &mut Vec<u8>) -> Result<(), AllocError>
    requires messages { ∥ AreMessages frames.now ∥₁ }
    ensures tagged { (told : AreMessages frames.now)
        → OnOk result (out.new.items ≡ out.old.items ++ session_frames session told.messages) }
    ensures err { OnErr result (out.new.items ≡ out.old.items) }
{
    let end = session_end(alloc, session)?;
    let mut tagged = Vec::new(alloc);
    append_tagged(frames_of(alloc, frames)?, end.as_bytes(), &mut tagged)?;
    out.extend_from_slice(&tagged)
}
