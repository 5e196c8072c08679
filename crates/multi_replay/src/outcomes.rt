// What the replies to an attach and a detach say.
ghost use Rattle.std.specs.Prelude.{◌≡◌, option_map};
ghost use Rattle.serde_json.specs.View.{view};
ghost use Rattle.session_mux.specs.Targets.{attached_kind};
ghost use Rattle.multi_replay.specs.Held.{command_kind, Says};
ghost use Rattle.multi_replay.specs.Incoming.{session_number, made_told, target_says};

use cdp_json::Cursor;
use cdp_messages::{Down, DownErr, read_down};
use css_objects::number_in;
use front_mirror::{FrameErr, FrontKind};
use node_tree::Text;
use serde_json::Value;
use session_mux::Target;
use std::alloc::Global;

/// What a reply says.
#[derive(Drop)]
pub(crate) enum Outcome {
    /// It is an error.
    NothingDone,
    /// A session was attached, of this text and number.
    Made { session: Text, number: u64 },
    /// The session was detached.
    Dropped,
}

// The number of the session with this text: `S` and the number, from 1 to 2^53-1, in decimal digits without a leading zero.
fn session_number(text: &str) -> Option<u64>
    ensures { result ≡ session_number text.now }
{
    let digits = text.strip_prefix('S')?;
    number_in(digits)
}

// The session that the result of an attach tells.
fn told_session(told: &Value) -> Option<&str>
    ensures { option_map (λ s. (s.now, tt)) result ≡ attached_kind.reads (view told.now) }
{
    let mut fields = Cursor::new(told.as_object()?);
    let session = fields.need_text("sessionId")?;
    if !fields.is_done() {
        return None;
    }
    Some(session)
}

// What the result of an attach says.
fn attached(alloc: Global, told: &Value) -> Result<Outcome, FrameErr>
    ensures { Says result (made_told (attached_kind.reads (view told.now))) }
{
    let Some(session) = told_session(told) else {
        return Err(FrameErr::Refused(FrontKind::NotMessage));
    };
    match session_number(session) {
        Some(number) => Ok(Outcome::Made {
            session: Text::copied(alloc, session)?,
            number,
        }),
        None => Err(FrameErr::Refused(FrontKind::NotMessage)),
    }
}

/// What a frame says as the reply to that command. It is refused where it is neither an error nor what such a command is answered.
pub(crate) fn read_outcome(
    alloc: Global,
    command: Target,
    frame: &[u8],
) -> Result<Outcome, FrameErr>
    ensures { Says result (target_says (command_kind command) frame.now) }
{
    match read_down(alloc, frame) {
        Ok(
            Down::Reply {
                id: _,
                result: told,
            },
        ) => match command {
            Target::Attach => attached(alloc, &told),
            Target::Detach => Ok(Outcome::Dropped),
        },
        Ok(Down::Fault { .. }) => Ok(Outcome::NothingDone),
        Ok(Down::Event(_)) | Err(DownErr::NotMessage) => {
            Err(FrameErr::Refused(FrontKind::NotMessage))
        }
        Err(DownErr::Memory) => Err(FrameErr::Memory),
    }
}
