ghost use Rattle.std.specs.Prelude.{◌≡◌, [], OnOk, IfSome, All, map, option_map};
ghost use Rattle.front_mirror.specs.Front.{front_folded};
ghost use Rattle.front_mirror.specs.Known.{known_value, EndsFold, UnlessMemory};
ghost use Rattle.front_mirror.specs.Panels.{face};

use crate::faults::{FrameErr, FrontErr, FrontFault};
use crate::known::Known;
use crate::panels::Panel;
use crate::places::tell_message;
use pipe_frames::Splitter;

/// Folds the frames that are whole, up to the first that is refused, and tells the open panels of each change of the
/// mirror.
pub(crate) fn fold_whole<P: Panel>(
    known: &mut Known,
    splitter: &mut Splitter,
    places: &mut [Option<P>],
) -> Result<(), FrontErr>
    ensures ends { EndsFold (front_folded (known_value known.old) splitter.old.whole) (known_value known.new) result }
    ensures whole { OnOk result (splitter.new.whole ≡ []) }
    ensures rest { splitter.new.rest ≡ splitter.old.rest }
    ensures kinds { map (option_map P.kind_of) places.new ≡ map (option_map P.kind_of) places.old }
    ensures shows { All (λ o. IfSome o (λ p. P.shown p ≡ face (P.kind_of p) (known_value known.old).tree)) places.old
        → UnlessMemory result (All (λ o. IfSome o (λ p. P.shown p ≡ face (P.kind_of p) (known_value known.new).tree)) places.new) }
{
    while let Some(frame) = splitter.next() {
        let place = known.next_place()?;
        known.mirror.valid();
        match known.take_frame(frame) {
            Ok(told) => {
                known.mirror.valid();
                match tell_message(places, told, &known.mirror) {
                    Ok(()) => {}
                    Err(_) => return Err(FrontErr::Memory),
                }
            }
            Err(FrameErr::Refused(kind)) => {
                return Err(FrontErr::Fault(FrontFault { place, kind }));
            }
            Err(FrameErr::Memory) => return Err(FrontErr::Memory),
        }
    }
    Ok(())
}
