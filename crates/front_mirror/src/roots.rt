// Whether the root of a document can be the mirror.
ghost use Rattle.std.specs.Prelude.{◌≡◌, IfOk};
ghost use Rattle.front_mirror.specs.Front.{root_fault};

use crate::checks::{MOST_LEVELS, are_kin, are_new, are_within};
use crate::faults::FrontKind;
use crate::told::children_of;
use dom_objects::NodeTree;
use std::alloc::{AllocError, Global};
use std::slice;

/// What is wrong with the root of a document, judged against an empty mirror, the first by number.
pub(crate) fn root_fault(alloc: Global, root: &NodeTree) -> Result<Option<FrontKind>, AllocError>
    ensures { IfOk result (λ wrong. wrong ≡ root_fault root.now) }
{
    if !are_kin(children_of(root), root.id) {
        return Ok(Some(FrontKind::NotChild));
    }
    let all = slice::from_ref(root);
    if !are_new(alloc, all)? {
        return Ok(Some(FrontKind::IdTaken));
    }
    if !are_within(all, MOST_LEVELS) {
        return Ok(Some(FrontKind::TooDeep));
    }
    Ok(None)
}
