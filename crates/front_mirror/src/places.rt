// Panels at their places, some of which are closed.
ghost use Rattle.std.specs.Prelude.{◌≡◌, IfSome, IfOk, OnOk, Some, None, option_copied, is_some, All, map, option_map};
ghost use Rattle.node_tree.specs.Nodes.{Nodes};
ghost use Rattle.node_tree.specs.Seen.{Seen};
ghost use Rattle.front_mirror.specs.Places.{slot_at, emptied_at, open_at, closed_at};
ghost use Rattle.front_mirror.specs.Panels.{face, Turns, MayShow, MirrorTold};

use crate::mirror::Mirror;
use crate::panels::{Change, Panel};
use std::alloc::{AllocError, Global};

/// Tells the open panels what a message made of the mirror.
pub(crate) fn tell_message<P: Panel>(
    slots: &mut [Option<P>],
    told: Option<Change>,
    mirror: &Mirror,
) -> Result<(), AllocError>
    ensures kinds { map (option_map P.kind_of) slots.new ≡ map (option_map P.kind_of) slots.old }
    ensures shows { (before : Nodes Seen) → MirrorTold before told mirror.now
        → All (λ o. IfSome o (λ p. P.shown p ≡ face (P.kind_of p) before)) slots.old
        → OnOk result (All (λ o. IfSome o (λ p. P.shown p ≡ face (P.kind_of p) mirror.now)) slots.new) }
{
    match told {
        Some(change) => tell_slots(slots, &change, mirror),
        None => Ok(()),
    }
}

/// Tells the panel of a change, where it stands open.
fn tell_slot<P: Panel>(
    slot: &mut Option<P>,
    change: &Change,
    mirror: &Mirror,
) -> Result<(), AllocError>
    ensures kind { option_map P.kind_of slot.new ≡ option_map P.kind_of slot.old }
    ensures shows { (before : Nodes Seen) → Turns before change.now mirror.now
        → IfSome slot.old (λ p. MayShow change.now (P.kind_of p) (P.shown p) before)
        → OnOk result (IfSome slot.new (λ p. P.shown p ≡ face (P.kind_of p) mirror.now)) }
{
    match slot {
        Some(panel) => panel.note(change, mirror),
        None => Ok(()),
    }
}

/// Tells each open panel of a change.
pub(crate) fn tell_slots<P: Panel>(
    slots: &mut [Option<P>],
    change: &Change,
    mirror: &Mirror,
) -> Result<(), AllocError>
    ensures kinds { map (option_map P.kind_of) slots.new ≡ map (option_map P.kind_of) slots.old }
    ensures shows { (before : Nodes Seen) → Turns before change.now mirror.now
        → All (λ o. IfSome o (λ p. MayShow change.now (P.kind_of p) (P.shown p) before)) slots.old
        → OnOk result (All (λ o. IfSome o (λ p. P.shown p ≡ face (P.kind_of p) mirror.now)) slots.new) }
{
    for slot in slots.iter_mut() {
        match tell_slot(slot, change, mirror) {
            Ok(()) => {}
            Err(e) => return Err(e),
        }
    }
    Ok(())
}

/// Each panel stands open at its place.
pub(crate) fn open_all<P: Panel>(
    alloc: Global,
    panels: Vec<P>,
) -> Result<Vec<Option<P>>, AllocError>
    ensures { IfOk result (λ slots. slots.items ≡ map Some panels.items) }
{
    let mut slots = Vec::with_capacity(alloc, panels.len())?;
    for panel in panels {
        slots.push(Some(panel))?;
    }
    Ok(slots)
}

/// What stands in the slot with so many before it.
fn slot_at<P: Panel>(slots: &[Option<P>], i: usize) -> Option<&P>
    ensures { option_copied result ≡ slot_at i slots.now }
{
    if i >= slots.len() {
        return None;
    }
    match &slots[i] {
        Some(panel) => Some(panel),
        None => None,
    }
}

/// The panel that stands open at a place, counted from 1.
#[tactic(auto, using(crate::proofs::PlaceLemmas::open_above))]
pub(crate) fn open_at<P: Panel>(slots: &[Option<P>], place: usize) -> Option<&P>
    ensures { option_copied result ≡ open_at place slots.now }
{
    match place.checked_sub(1) {
        Some(i) => slot_at(slots, i),
        None => None,
    }
}

/// Empties the slot with so many before it; false where it is empty.
fn empty_at<P: Panel>(slots: &mut [Option<P>], i: usize) -> bool
    ensures closed { result ≡ is_some (slot_at i slots.old) }
    ensures slots { slots.new ≡ emptied_at i slots.old }
{
    if i >= slots.len() {
        return false;
    }
    if slots[i].is_none() {
        return false;
    }
    slots[i] = None;
    true
}

/// Drops the panel that stands open at a place, counted from 1; false where none does.
#[tactic(auto, using(crate::proofs::PlaceLemmas::open_above, crate::proofs::PlaceLemmas::closed_above))]
pub(crate) fn close_at<P: Panel>(slots: &mut [Option<P>], place: usize) -> bool
    ensures closed { result ≡ is_some (open_at place slots.old) }
    ensures slots { slots.new ≡ closed_at place slots.old }
{
    match place.checked_sub(1) {
        Some(i) => empty_at(slots, i),
        None => false,
    }
}
