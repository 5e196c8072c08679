ghost use Rattle.std.specs.Prelude.{◌≡◌};
ghost use Rattle.front_mirror.specs.Front.{seen_pause};

use cdp_messages::PauseData;
use node_tree::WatchKind;

/// A pause that came. Nodes are named by their ids.
#[derive(Clone, Copy)]
pub struct SeenPause {
    /// What is watched.
    pub kind: WatchKind,
    /// The node that is watched.
    pub node: u64,
    /// The node that was put in, taken out or changed; there exactly for `WatchKind::Subtree`.
    pub target: Option<u64>,
    /// Whether the target was put in; `false` for the other kinds.
    pub insertion: bool,
}

/// A pause as it is kept.
pub(crate) fn seen_pause(why: PauseData) -> SeenPause
    ensures { result ≡ seen_pause why }
{
    match why {
        PauseData::Subtree {
            node,
            target,
            insertion,
        } => SeenPause {
            kind: WatchKind::Subtree,
            node,
            target: Some(target),
            insertion,
        },
        PauseData::Attribute { node } => SeenPause {
            kind: WatchKind::Attribute,
            node,
            target: None,
            insertion: false,
        },
        PauseData::Removed { node } => SeenPause {
            kind: WatchKind::Removed,
            node,
            target: None,
            insertion: false,
        },
    }
}
