//! Rows of sessions: frames between blanks, which a router that is new takes one after the other. For each is told whose it is,
//! `root` or `attached`, or the reply that answers it at once, and on a line of its own the same reply as a message of session 7.
ghost use Rattle.std.specs.Prelude.{◌<◌};
ghost use Rattle.session_mux.specs.Sessions.{session_limit};
ghost use Rattle.session_mux.specs.Tags.{AreMessages};

use crate::row_parts::Answer;
use session_mux::{Routed, Router, route_law, tag};
use std::alloc::{AllocError, Global};

/// A row attaches fewer sessions than this; what stands behind is left out.
const MOST_SESSIONS: u64 = 1 << 20;

/// The session that replies are tagged with.
const TAGGED: u64 = 7;

/// What comes of a row.
pub(crate) fn told(alloc: Global, row: &str, answer: &mut Answer) -> Result<(), AllocError> {
    let mut router = Router::new();
    for frame in row.split_whitespace() {
        if router.next() < MOST_SESSIONS {
            take_frame(alloc, &mut router, frame.as_bytes(), answer)?;
        }
    }
    Ok(())
}

/// Whose a frame is, or its reply.
fn take_frame(
    alloc: Global,
    router: &mut Router,
    frame: &[u8],
    answer: &mut Answer,
) -> Result<(), AllocError>
    requires { router.old.next < session_limit }
{
    route_law();
    let mut reply = Vec::new(alloc);
    match router.route(alloc, frame, &mut reply)? {
        Routed::Root => answer.push("root\n"),
        Routed::Attached => answer.push("attached\n"),
        Routed::Answered => push_replies(alloc, &reply, answer)?,
    }
    Ok(())
}

/// A reply, and below it the same in the session.
fn push_replies(alloc: Global, reply: &[u8], answer: &mut Answer) -> Result<(), AllocError>
    requires { ∥ AreMessages reply.now ∥₁ }
{
    let mut tagged = Vec::new(alloc);
    tag(alloc, reply, TAGGED, &mut tagged)?;
    push_line(reply, answer);
    push_line(&tagged, answer);
    Ok(())
}

/// A frame without its zero byte, on a line.
fn push_line(frame: &[u8], answer: &mut Answer) {
    answer.push_bytes(frame);
    answer.drop_zero();
    answer.push("\n");
}
