// A drill: its script is carried out, and six numbers tell where it came.
ghost use Rattle.std.specs.Prelude.{◌≡◌, ◌≤◌, length, map, true, IfErr, OnOk, OnErr};
ghost use Rattle.std.specs.Io.KnownBytes.{Appends};
ghost use Rattle.pipe_frames.specs.Pipe.{IsLevel};
ghost use Rattle.pipe_frames.specs.Whole.{WrotePart};
ghost use Rattle.page_forms.specs.Pages.{CanLoadPage, loaded_page};
ghost use Rattle.drill_script.specs.Given.{is_drill};
ghost use Rattle.drill_script.specs.LineKinds.{AreDrillLines, most_lines};
ghost use Rattle.inspect_world.specs.Scripts.{loaded_world};
ghost use Rattle.replay_parts.specs.Stops.{GoesWell, StopRose, two_counts};
ghost use Rattle.replay_parts.specs.Answers.{Prints};
ghost use Rattle.replay_parts.specs.Moments.{seen_by};
ghost use Rattle.inspect_replay.specs.Followed.{AnswersInOrder, StopFolds, fold_since};
ghost use Rattle.inspect_replay.specs.Tallies.{TalliesShown, drill_text, tallied, tally_of, tally_text};
ghost use Rattle.inspect_replay.specs.Drilled.{Tells, TellsShown, IsOfWriting, WritesAtEnd};

use crate::counts::front_text;
use crate::one_front::OneFront;
use crate::turns::run_turns;
use back_end::PageForm;
use drill_script::Drill;
use front_mirror::{Front, Panel};
use pipe_frames::{Link, OutErr, Sink, write_all};
use replay_parts::{Printed, Stop, Watched};
use std::alloc::Global;

/// Writes the six numbers, all at once.
fn print_numbers<P: Panel, K: Sink>(
    alloc: Global,
    front: &Front<P>,
    out: &mut K,
) -> Result<(), Stop>
    ensures ok { OnOk result (Appends (K.taken out.old) (K.taken out.new) (tally_text (tally_of front.now.value))) }
    ensures err { OnErr result (WrotePart (K.taken out.old) (K.taken out.new) (tally_text (tally_of front.now.value))) }
    ensures never { GoesWell result }
    ensures writing { IfErr result IsOfWriting }
    ensures cause { StopRose (two_counts (K.faults out.old) (K.faults out.new) 0 0) result }
{
    let text = front_text(alloc, front)?;
    match write_all(out, &text) {
        Ok(()) => Ok(()),
        Err(OutErr::Failed) => Err(Stop::WriteFault),
        Err(OutErr::Memory) => Err(Stop::Memory),
    }
}

/// Settles, and writes the six numbers of what the front end shows.
fn tell_numbers<P: Panel, K: Sink, L: Link>(
    alloc: Global,
    ends: &mut OneFront<P>,
    out: &mut K,
    link: &mut L,
) -> Result<(), Stop>
    ensures honest { L.honest link.old → L.honest link.new }
    ensures cause { StopRose (two_counts (K.faults out.old) (K.faults out.new) (L.faults link.old) (L.faults link.new)) result }
    ensures shown { TellsShown (seen_by (⟦<L as Watched>⟧.at link.old ends.old) (⟦<K as Printed>⟧.at out.old))
        (seen_by (⟦<L as Watched>⟧.at link.new ends.new) (⟦<K as Printed>⟧.at out.new)) result }
    ensures runs { Tells (seen_by (⟦<L as Watched>⟧.at link.old ends.old) (⟦<K as Printed>⟧.at out.old)) (K.taken out.new) result }
    ensures nothing { WritesAtEnd result (K.taken out.old) (K.taken out.new) }
{
    match ends.settle(link) {
        Ok(()) => print_numbers(alloc, ends.front(), out),
        Err(stop) => Err(stop),
    }
}

/// Carries out the lines of a drill over this page, and writes its numbers.
fn run_page<P: Panel, K: Sink, L: Link>(
    alloc: Global,
    panels: Vec<P>,
    form: PageForm,
    drill: Drill,
    out: &mut K,
    link: &mut L,
) -> Result<(), Stop>
    requires can { CanLoadPage (loaded_page form) }
    requires kinds { AreDrillLines drill }
    requires few { length drill ≤ most_lines }
    ensures honest { L.honest link.old → L.honest link.new }
    ensures cause { StopRose (two_counts (K.faults out.old) (K.faults out.new) (L.faults link.old) (L.faults link.new)) result }
    ensures refused { StopFolds result (fold_since (L.up link.old) (L.down link.old) (L.up link.new) (L.down link.new)) }
    ensures counted { OnOk result (TalliesShown (K.taken out.old) (K.taken out.new)
        (fold_since (L.up link.old) (L.down link.old) (L.up link.new) (L.down link.new))) }
    ensures replies { OnOk result (AnswersInOrder (L.up link.old) (L.down link.old) (L.up link.new) (L.down link.new)) }
    ensures well { L.honest link.old → IsLevel (L.up link.old) → IsLevel (L.down link.old) → GoesWell result }
    ensures took { L.honest link.old → IsLevel (L.up link.old) → IsLevel (L.down link.old)
        → Prints result (K.taken out.old) (K.taken out.new)
        (tallied drill (loaded_world (map P.kind_of panels.items) (loaded_page form))) }
    ensures nothing { WritesAtEnd result (K.taken out.old) (K.taken out.new) }
{
    let mut ends = OneFront::new(alloc, panels, form)?;
    match run_turns(alloc, drill, &mut ends, link) {
        Ok(()) => tell_numbers(alloc, &mut ends, out, link),
        Err(stop) => Err(stop),
    }
}

/// Carries out a drill with so many divs, and writes its numbers.
pub(crate) fn run_drill<P: Panel, K: Sink, L: Link>(
    alloc: Global,
    panels: Vec<P>,
    divs: u64,
    out: &mut K,
    link: &mut L,
) -> Result<(), Stop>
    requires { is_drill divs ≡ true }
    ensures honest { L.honest link.old → L.honest link.new }
    ensures cause { StopRose (two_counts (K.faults out.old) (K.faults out.new) (L.faults link.old) (L.faults link.new)) result }
    ensures refused { StopFolds result (fold_since (L.up link.old) (L.down link.old) (L.up link.new) (L.down link.new)) }
    ensures counted { OnOk result (TalliesShown (K.taken out.old) (K.taken out.new)
        (fold_since (L.up link.old) (L.down link.old) (L.up link.new) (L.down link.new))) }
    ensures replies { OnOk result (AnswersInOrder (L.up link.old) (L.down link.old) (L.up link.new) (L.down link.new)) }
    ensures well { L.honest link.old → IsLevel (L.up link.old) → IsLevel (L.down link.old) → GoesWell result }
    ensures took { L.honest link.old → IsLevel (L.up link.old) → IsLevel (L.down link.old)
        → Prints result (K.taken out.old) (K.taken out.new) (drill_text (map P.kind_of panels.items) divs) }
    ensures nothing { WritesAtEnd result (K.taken out.old) (K.taken out.new) }
{
    let (form, drill) = Drill::start(alloc, divs)?;
    run_page(alloc, panels, form, drill, out, link)
}
