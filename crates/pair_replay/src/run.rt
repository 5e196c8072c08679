// A whole script with two front ends.
ghost use Rattle.std.specs.Prelude.{◌≤◌, Some, length, map, OnOk};
ghost use Rattle.node_tree.specs.Numbers.{max_input};
ghost use Rattle.pipe_frames.specs.Pipe.{IsLevel};
ghost use Rattle.page_forms.specs.Pages.{CanLoadPage, loaded_page};
ghost use Rattle.replay_script.specs.PairScript.{pair_first_bad, pair_good_lines};
ghost use Rattle.inspect_world.specs.Costs.{line_bytes};
ghost use Rattle.pair_world.specs.PairRuns.{pair_loaded_run};
ghost use Rattle.pair_world.specs.PairScripts.{pair_report, pair_refused, pair_rest_text, pair_rest_refused};
ghost use Rattle.pair_world.specs.PairFresh.{LinesHaveRoom, closing_or, ScriptHasRoom};
ghost use Rattle.replay_parts.specs.Says.{says_of};
ghost use Rattle.replay_parts.specs.Stops.{StopRose, RunRose, two_counts};
ghost use Rattle.replay_parts.specs.Answers.{AtEnd, RunTells};
ghost use Rattle.replay_parts.specs.Moments.{seen_by};
ghost use Rattle.pair_replay.specs.PairAnswers.{PairRunTook, RoomTold, PairStopFolds, PairEndsShown, PairAnswersInOrder};
ghost use Rattle.pair_replay.specs.PairAnswers.{pair_since, moment_of};
ghost use Rattle.pair_replay.specs.Judged.{IsJudged};
ghost use Rattle.pair_replay.specs.Following.{PairLinesJudged, PairClosesShown};
ghost use Rattle.pair_replay.specs.Playing.{Plays, pair_running, PairCloses};

use crate::carry::carry_out;
use crate::reading::{next_line, read, read_load};
use crate::shows::print_end;
use crate::two_fronts::TwoFronts;
use back_end::PageForm;
use front_mirror::Panel;
use pipe_frames::{Link, Sink};
use replay_parts::{Printed, Stop, Watched};
use replay_script::{LineFault, Lines};
use std::alloc::Global;

/// Carries out the lines after the load, each as soon as it is read.
fn run_lines<P: Panel, K: Sink, L: Link>(
    alloc: Global,
    mut lines: Lines,
    ends: &mut TwoFronts<P>,
    out: &mut K,
    link: &mut L,
) -> Result<(), Stop>
    requires few { length lines ≤ max_input }
    ensures { Plays (pair_running lines.entry)
        (seen_by (⟦<L as Watched>⟧.at link.old ends.old) (⟦<K as Printed>⟧.at out.old))
        (seen_by (⟦<L as Watched>⟧.at link.new ends.new) (⟦<K as Printed>⟧.at out.new)) result }
{
    let mut number = 2;
    while let Some(text) = next_line(&mut lines) {
        let line = match read(alloc, number, text) {
            Ok(line) => line,
            Err(stop) => return Err(stop),
        };
        let carried = carry_out(alloc, number, line, ends, out, link);
        match carried {
            Ok(()) => {}
            Err(stop) => return Err(stop),
        }
        number += 1;
    }
    Ok(())
}

/// Settles, and prints the closing part.
fn close<P: Panel, K: Sink, L: Link>(
    alloc: Global,
    ends: &mut TwoFronts<P>,
    out: &mut K,
    link: &mut L,
) -> Result<(), Stop>
    ensures honest { L.honest link.old → L.honest link.new }
    ensures cause { StopRose (two_counts (K.faults out.old) (K.faults out.new) (L.faults link.old) (L.faults link.new)) result }
    ensures shown { PairClosesShown (seen_by (⟦<L as Watched>⟧.at link.old ends.old) (⟦<K as Printed>⟧.at out.old))
        (seen_by (⟦<L as Watched>⟧.at link.new ends.new) (⟦<K as Printed>⟧.at out.new)) result }
    ensures runs { PairCloses (seen_by (⟦<L as Watched>⟧.at link.old ends.old) (⟦<K as Printed>⟧.at out.old)) (K.taken out.new) result }
{
    match ends.settle(link) {
        Ok(()) => print_end(alloc, ends, out),
        Err(stop) => Err(stop),
    }
}

/// Carries out a script whose first line loads this page.
fn run_loaded<P: Panel, K: Sink, L: Link>(
    alloc: Global,
    panels: Vec<P>,
    form: PageForm,
    lines: Lines,
    out: &mut K,
    link: &mut L,
) -> Result<(), Stop>
    requires can { CanLoadPage (loaded_page form) }
    requires few { length lines ≤ max_input }
    requires short { line_bytes lines ≤ max_input }
    ensures tells { AtEnd (says_of result).phase
        (PairLinesJudged (moment_of (L.up link.old) (L.down link.old) (L.up link.new) (L.down link.new))
        (map Some (map P.kind_of panels.items)) lines.entry result) }
    ensures stops { L.honest link.old → IsLevel (L.up link.old) → IsLevel (L.down link.old)
        → RunTells result (pair_rest_refused (pair_first_bad 2 lines.entry) (pair_good_lines 2 lines.entry)
        (pair_loaded_run (map P.kind_of panels.items) (loaded_page form))) }
    ensures room { L.honest link.old → IsLevel (L.up link.old) → IsLevel (L.down link.old)
        → RoomTold result (LinesHaveRoom (closing_or (pair_first_bad 2 lines.entry)) (pair_good_lines 2 lines.entry)
        (pair_loaded_run (map P.kind_of panels.items) (loaded_page form))
        (pair_loaded_run (map P.kind_of panels.items) (loaded_page form))) }
    ensures honest { L.honest link.old → L.honest link.new }
    ensures cause { RunRose (two_counts (K.faults out.old) (K.faults out.new) (L.faults link.old) (L.faults link.new)) result }
    ensures refused { PairStopFolds result (pair_since (L.up link.old) (L.down link.old) (L.up link.new) (L.down link.new)) }
    ensures closes { OnOk result (PairEndsShown (K.taken out.old) (K.taken out.new)
        (pair_since (L.up link.old) (L.down link.old) (L.up link.new) (L.down link.new))) }
    ensures replies { OnOk result (PairAnswersInOrder (L.up link.old) (L.down link.old) (L.up link.new) (L.down link.new)) }
    ensures took { L.honest link.old → IsLevel (L.up link.old) → IsLevel (L.down link.old)
        → PairRunTook result (K.taken out.old) (K.taken out.new)
        (pair_rest_text (pair_first_bad 2 lines.entry) (pair_good_lines 2 lines.entry)
        (pair_loaded_run (map P.kind_of panels.items) (loaded_page form))) }
{
    let mut ends = TwoFronts::new(alloc, panels, form)?;
    match run_lines(alloc, lines, &mut ends, out, link) {
        Ok(()) => close(alloc, &mut ends, out, link),
        Err(stop) => Err(stop),
    }
}

/// Carries out a whole script with two front ends. The panels are told of the first.
pub fn run_pair<P: Panel, K: Sink, L: Link>(
    alloc: Global,
    panels: Vec<P>,
    input: &[u8],
    out: &mut K,
    link: &mut L,
) -> Result<(), Stop>
    requires few { length input.now ≤ max_input }
    // over every link: the line that is answered is the first that is refused, each being judged at its own moment
    ensures tells { AtEnd (says_of result).phase (IsJudged (moment_of (L.up link.old) (L.down link.old) (L.up link.new) (L.down link.new))
        (map P.kind_of panels.items) input.now (says_of result).line) }
    // over an honest link it is the first that the run of the script refuses
    ensures stops { L.honest link.old → IsLevel (L.up link.old) → IsLevel (L.down link.old)
        → RunTells result (pair_refused (map P.kind_of panels.items) input.now) }
    // and no room is left exactly where a step of the run meets two sessions of which one has none
    ensures room { L.honest link.old → IsLevel (L.up link.old) → IsLevel (L.down link.old)
        → RoomTold result (ScriptHasRoom (map P.kind_of panels.items) input.now) }
    ensures honest { L.honest link.old → L.honest link.new }
    ensures cause { RunRose (two_counts (K.faults out.old) (K.faults out.new) (L.faults link.old) (L.faults link.new)) result }
    // over every link: a message is refused exactly where the fold of two front ends refuses it
    ensures refused { PairStopFolds result (pair_since (L.up link.old) (L.down link.old) (L.up link.new) (L.down link.new)) }
    ensures closes { OnOk result (PairEndsShown (K.taken out.old) (K.taken out.new)
        (pair_since (L.up link.old) (L.down link.old) (L.up link.new) (L.down link.new))) }
    ensures replies { OnOk result (PairAnswersInOrder (L.up link.old) (L.down link.old) (L.up link.new) (L.down link.new)) }
    // over an honest link the sink takes the report, or a front part of it
    ensures took { L.honest link.old → IsLevel (L.up link.old) → IsLevel (L.down link.old)
        → PairRunTook result (K.taken out.old) (K.taken out.new) (pair_report (map P.kind_of panels.items) input.now) }
{
    let mut lines = Lines::new(input);
    let Some(first) = next_line(&mut lines) else {
        return Err(Stop::Line {
            number: 1,
            fault: LineFault::NotLoad,
        });
    };
    match read_load(alloc, first) {
        Ok(form) => run_loaded(alloc, panels, form, lines, out, link),
        Err(stop) => Err(stop),
    }
}
