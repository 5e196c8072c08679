//! The names of pseudo-classes and pseudo-elements (Selectors 3, sections 6.6 and 7). Each is given in lower case.

ghost use Rattle.std.specs.Prelude.{◌≡◌, Option, option_map};
ghost use Rattle.selectors.specs.Forms.{test_seen};
ghost use Rattle.selectors.specs.Reading.{is_never, first_child, pseudo_class, is_pseudo_element, nth_kind};

use crate::selector::{NthKind, Test};

#[tactic(auto, unfolding(crate::specs::Reading::is_never))]
fn is_never(name: &str) -> bool
    ensures { result ≡ is_never name.now }
{
    name == "hover"
        || name == "active"
        || name == "focus"
        || name == "link"
        || name == "visited"
        || name == "target"
        || name == "enabled"
        || name == "disabled"
        || name == "checked"
}

fn first(kind: NthKind) -> Test
    ensures { test_seen result ≡ first_child kind }
{
    Test::Nth {
        kind,
        step: 0,
        offset: 1,
    }
}

/// The pseudo-class of this name that takes no argument.
#[tactic(auto, unfolding(crate::specs::Reading::pseudo_class))]
pub(crate) fn pseudo_class(name: &str) -> Option<Test>
    ensures { option_map test_seen result ≡ pseudo_class name.now }
{
    if name == "root" {
        Some(Test::Root)
    } else if name == "empty" {
        Some(Test::Empty)
    } else if name == "first-child" {
        Some(first(NthKind::Child))
    } else if name == "last-child" {
        Some(first(NthKind::LastChild))
    } else if name == "only-child" {
        Some(Test::OnlyChild)
    } else if name == "first-of-type" {
        Some(first(NthKind::OfType))
    } else if name == "last-of-type" {
        Some(first(NthKind::LastOfType))
    } else if name == "only-of-type" {
        Some(Test::OnlyOfType)
    } else if is_never(name) {
        Some(Test::Never)
    } else {
        None
    }
}

#[tactic(auto, unfolding(crate::specs::Reading::is_pseudo_element))]
pub(crate) fn is_pseudo_element(name: &str) -> bool
    ensures { result ≡ is_pseudo_element name.now }
{
    name == "before" || name == "after" || name == "first-line" || name == "first-letter"
}

#[tactic(auto, unfolding(crate::specs::Reading::nth_kind))]
pub(crate) fn nth_kind(name: &str) -> Option<NthKind>
    ensures { result ≡ nth_kind name.now }
{
    if name == "nth-child" {
        Some(NthKind::Child)
    } else if name == "nth-last-child" {
        Some(NthKind::LastChild)
    } else if name == "nth-of-type" {
        Some(NthKind::OfType)
    } else if name == "nth-last-of-type" {
        Some(NthKind::LastOfType)
    } else {
        None
    }
}
