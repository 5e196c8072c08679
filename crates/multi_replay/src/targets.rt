// The commands that attach a session and detach it, while they wait for their replies.
ghost use Rattle.std.specs.Prelude.{◌≡◌};
ghost use Rattle.multi_replay.specs.Held.{command_among, without_command};
ghost use Rattle.multi_replay.specs.Incoming.{is_target_id};

use cdp_json::COUNTED_LIMIT;
use front_mirror::FETCH_LIMIT;
use session_mux::Target;
use std::collections::VecDeque;

/// Whether a command that attaches or detaches may have that id, which no ask and no fetch has.
pub(crate) fn is_target_id(id: u64) -> bool
    ensures { result ≡ is_target_id id }
{
    id >= FETCH_LIMIT && id < COUNTED_LIMIT
}

/// A command that waits.
#[derive(Clone, Copy)]
pub(crate) struct Waiting {
    pub(crate) id: u64,
    pub(crate) command: Target,
}

/// The first command with that id.
pub(crate) fn command_under(waiting: &VecDeque<Waiting>, id: u64) -> Option<Target>
    ensures { result ≡ command_among id waiting.now.items }
{
    for one in waiting {
        if one.id == id {
            return Some(one.command);
        }
    }
    None
}

/// Takes the first command with that id out.
pub(crate) fn take_waiting(waiting: &mut VecDeque<Waiting>, id: u64) -> Option<Waiting>
    ensures { waiting.new.items ≡ without_command id waiting.old.items }
{
    for i in 0..waiting.len() {
        let one = &waiting[i];
        if one.id == id {
            return waiting.remove(i);
        }
    }
    None
}
