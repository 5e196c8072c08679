ghost use Rattle.std.specs.Prelude.{◌≡◌, ◌==◌, ◌∷◌, find, IsSome};
ghost use Rattle.std.specs.List.{list_any};
ghost use Rattle.std.specs.FinSet as set;
ghost use Rattle.page_tree.specs.Pages.{find_in};
ghost use Rattle.page_tree.specs.Ancestors.{ancestors_at};
ghost use Rattle.dom_breakpoints.specs.Watched.{is_within};

use crate::serial_sets::SerialSet;
use page_tree::Page;

/// The nearest node of the set from that one upwards, itself included.
pub fn nearest_from(serials: &SerialSet, page: &Page, serial: u64) -> Option<u64>
    requires { IsSome (find_in serial page.now.tree) }
    ensures { result ≡ find (set.contains serials.now) (serial ∷ ancestors_at serial page.now.tree) }
{
    page.valid();
    let mut at = serial;
    while !serials.contains(at) {
        let parent = page.parent(at);
        if parent == 0 {
            return None;
        }
        at = parent;
    }
    Some(at)
}

/// The nearest node of the set above that one.
pub fn nearest_above(serials: &SerialSet, page: &Page, serial: u64) -> Option<u64>
    requires { IsSome (find_in serial page.now.tree) }
    ensures { result ≡ find (set.contains serials.now) (ancestors_at serial page.now.tree) }
{
    page.valid();
    let parent = page.parent(serial);
    if parent == 0 {
        return None;
    }
    nearest_from(serials, page, parent)
}

/// The root is the node or above it.
fn climbs_to(page: &Page, serial: u64, root: u64) -> bool
    requires { IsSome (find_in serial page.now.tree) }
    ensures { result ≡ list_any (λ k. k == root) (serial ∷ ancestors_at serial page.now.tree) }
{
    page.valid();
    let mut at = serial;
    while at != root {
        let parent = page.parent(at);
        if parent == 0 {
            return false;
        }
        at = parent;
    }
    true
}

/// The node with the first serial is the root or below it; one that is not live is not.
pub fn is_within(page: &Page, serial: u64, root: u64) -> bool
    requires { IsSome (find_in root page.now.tree) }
    ensures { result ≡ is_within serial root page.now.tree }
{
    page.valid();
    if page.live(serial) {
        climbs_to(page, serial, root)
    } else {
        false
    }
}
