ghost use Rattle.std.specs.Prelude.{◌≡◌, ◌&&◌, not};
ghost use Rattle.node_tree.specs.Labels.{holds};
ghost use Rattle.node_binding.specs.Openings.{levels_of, less, is_spent, IsDepth};

use page_tree::Kind;

/// The number of levels that a depth of the protocol stands for; `None` stands for all.
pub fn levels_of(depth: i64) -> Option<u64>
    requires { IsDepth depth }
    ensures { result ≡ levels_of depth }
{
    if depth < 0 { None } else { Some(depth as u64) }
}

/// One level less, down to 0.
pub fn less(levels: Option<u64>) -> Option<u64>
    ensures { result ≡ less levels }
{
    match levels {
        None => None,
        Some(0) => Some(0),
        Some(n) => Some(n - 1),
    }
}

/// Whether a node of that kind is opened where that many levels are left.
pub fn is_reached(kind: Kind, levels: Option<u64>) -> bool
    ensures { result ≡ (holds kind && not (is_spent levels)) }
{
    kind.is_container() && levels != Some(0)
}
