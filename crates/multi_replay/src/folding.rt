ghost use Rattle.std.specs.Prelude.{◌≡◌, ◌+◌, [], IfOk, OnOk};
ghost use Rattle.multi_replay.specs.Folds.{pair_folded, state_reads};
ghost use Rattle.multi_replay.specs.Held.{pair_seen, folded_seen, AreReady, AreCounted, UnlessDead, Folds};

use crate::pair::Pair;
use front_mirror::{FrameErr, FrontErr, FrontFault, Panel};
use pipe_frames::Splitter;
use std::alloc::AllocError;

// The place of the frame that comes next. There is no memory for it only where the count of those that were taken stands at its last
// value.
fn next_place(taken: u64) -> Result<u64, AllocError>
    ensures { IfOk result (λ place. place ≡ taken + 1) }
{
    taken.checked_add(1).ok_or(AllocError)
}

/// Folds the frames that are whole into the two fronts, up to the first that is refused.
pub(crate) fn fold_whole<P: Panel>(
    pair: &mut Pair<P>,
    splitter: &mut Splitter,
) -> Result<(), FrontErr>
    requires ready { AreReady pair.old }
    requires counted { AreCounted pair.old.second }
    ensures ends { Folds (pair_folded state_reads (pair_seen pair.old) pair.old.taken splitter.old.whole) (folded_seen pair.new) result }
    ensures whole { OnOk result (splitter.new.whole ≡ []) }
    ensures rest { splitter.new.rest ≡ splitter.old.rest }
    ensures ready { OnOk result (AreReady pair.new) }
    ensures counted { UnlessDead result (AreCounted pair.new.second) }
{
    while let Some(frame) = splitter.next() {
        let place = next_place(pair.taken)?;
        match pair.take_frame(frame) {
            Ok(()) => {
                pair.taken = place;
            }
            Err(FrameErr::Refused(kind)) => {
                return Err(FrontErr::Fault(FrontFault { place, kind }));
            }
            Err(FrameErr::Memory) => return Err(FrontErr::Memory),
        }
    }
    Ok(())
}
