//! How the setting of a text is seen.

ghost use Rattle.std.specs.Prelude.{◌≡◌, IsSome};
ghost use Rattle.page_tree.specs.Pages.{find_in};
ghost use Rattle.shown_pages.specs.ShownEdits.{sight_of, sight_at};

use crate::modes::{Mode, is_hidden};
use page_tree::Page;

/// How the setting of a text is seen where a mode may hide its node.
#[derive(Clone, Copy)]
pub enum TextSight {
    /// Its node is hidden before and after.
    Unseen,
    /// Its node shows itself: an attach.
    Comes,
    /// Its node hides itself: a detach.
    Goes,
    /// Its node is shown before and after, with another value.
    Stays,
}

fn sight_of(was: bool, will: bool) -> TextSight
    ensures { result ≡ sight_of was will }
{
    match (was, will) {
        (true, true) => TextSight::Unseen,
        (true, false) => TextSight::Comes,
        (false, true) => TextSight::Goes,
        (false, false) => TextSight::Stays,
    }
}

/// How it is seen where the node gets that value.
pub fn text_sight(page: &Page, serial: u64, value: &str, mode: Mode) -> TextSight
    requires { IsSome (find_in serial page.now.tree) }
    ensures { result ≡ sight_at mode serial value.now page.now.tree }
{
    let node = page.node(serial);
    let was = is_hidden(&node, mode);
    let will = mode.hides(node.kind(), value);
    sight_of(was, will)
}
