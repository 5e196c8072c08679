ghost use Rattle.std.specs.Prelude.{◌≡◌, ◌≤◌, ◌<◌, ◌+◌, ◌↔◌, ◌||◌, is_some, ℕ, List};
ghost use Rattle.std.specs.Prelude.{map, string_bytes, length, Some, [], false, true, Err, IfOk, OnOk};
ghost use Rattle.node_tree.specs.Numbers.{max_input};
ghost use Rattle.pipe_frames.specs.Pipe.{IsLevel};
ghost use Rattle.pipe_frames.specs.Whole.{ReadPart};
ghost use Rattle.replay_script.specs.Script.{script_refused};
ghost use Rattle.inspect_world.specs.Links.{came_styles};
ghost use Rattle.inspect_world.specs.Scripts.{report, report_refused};
ghost use Rattle.inspect_world.specs.ScriptsFit.{UndoRestoresInRuns};
ghost use Rattle.drill_script.specs.Given.{is_drill};
ghost use Rattle.inspect_replay.specs.Words.{is_replay, is_serve, is_pair, is_share, drill_in};
ghost use Rattle.inspect_replay.specs.Tallies.{TalliesShown, drill_text};
ghost use Rattle.inspect_replay.specs.Drilled.{DrillWrites, IsDrillStatus};
ghost use Rattle.replay_parts.specs.declared.status.Status.TheVariants.{Done, Usage};
ghost use Rattle.inspect_replay.specs.Followed.{StatusFolds, EndsShown, AnswersInOrder, StatusLess, fold_since};
ghost use Rattle.replay_parts.specs.Answers.{FitsLimits, TellsLine, Took, IsHonest, WritesNothing, StatusRose, AnswersFaults};
ghost use Rattle.replay_parts.specs.Answers.{InputTells, IsInputStop};
ghost use Rattle.replay_parts.specs.Answers.{ReadsAll, IsLate};
ghost use Rattle.replay_parts.specs.Says.{status_of, says};
ghost use Rattle.replay_parts.specs.Answers.{AtEnd};
ghost use Rattle.pair_world.specs.PairScripts.{pair_report, pair_refused};
ghost use Rattle.pair_world.specs.PairFresh.{ScriptHasRoom};
ghost use Rattle.pair_replay.specs.PairAnswers.{PairTook, IsPairHonest, TellsRoom, PairFolds, PairEndsShown, PairAnswersInOrder, PairLess};
ghost use Rattle.pair_replay.specs.PairAnswers.{pair_since, moment_of};
ghost use Rattle.pair_replay.specs.Judged.{IsJudged};
ghost use Rattle.replay_parts.specs.Stops.{two_counts, three_counts};
ghost use Rattle.replay_parts.specs.declared.stop.Stop.TheVariants.{ReadFault};
ghost use Rattle.inspect_replay.specs.Serving.{ServeTook, ShareTook, IsServeStatus, IsShareStatus};
ghost use Rattle.inspect_replay.specs.ServeReads.{ReadsInTurn, SharesInTurn};

use crate::drills::run_drill;
use crate::run::run_script;
use crate::serve::{serve, share};
use crate::words::{drill_in, is_pair, is_replay, is_serve, is_share};
use front_mirror::Panel;
use inspect_world::fits_law;
use pair_replay::run_pair;
use pipe_frames::{Link, ReadErr, Sink, Source, read_all};
use replay_parts::{Status, Stop};
use replay_script::has_long_line;
use std::alloc::Global;

/// The most bytes of an input.
pub const INPUT_LIMIT: usize = 67_108_864;

/// The most bytes of a line of a script.
pub const LINE_LIMIT: usize = 16_777_216;

/// Runs the program that the words name.
///
/// `replay` reads the whole input, and then carries out its lines in order: a back end and a front end speak over `link`,
/// and what the lines print goes to `out` before the next line is looked at.
///
/// `panels` are told of each change of what the front end shows, and dropped by a line that closes them, or at the end.
///
/// `serve` answers frames: each that is whole is answered on `out` before more is read. It uses neither `link` nor `panels`.
///
/// `share` is a `serve` in which a second client may be attached to the page; its frames and messages have a `sessionId`.
///
/// `pair` is a replay with two front ends: one for the root session, and one for a session that the script attaches and detaches.
///
/// `drill N` makes a page of N divs and the lines of a script from that number, carries them out over `link`, and writes six numbers of
/// what came of it. It reads nothing.
pub fn inspect<S: Source, K: Sink, L: Link>(
    alloc: Global,
    words: &[String],
    src: &mut S,
    out: &mut K,
    link: &mut L,
    panels: Vec<Box<dyn Panel>>,
) -> Status
    // the headline: over an honest link with nothing left to give, the sink takes the report of the input
    ensures report { L.honest link.old → IsLevel (L.up link.old) → IsLevel (L.down link.old)
        → (input : List ℕ) → S.left src.old ≡ Some input → is_replay (map string_bytes words.now) ≡ true
        → Took result (K.taken out.old) (K.taken out.new) (report (map (λ p. kind_of p) panels.items) input) }
    // its half on undo: at each moment of the run that is reported, an undo leads to the very tree and texts that were saved
    ensures restores { UndoRestoresInRuns }
    // over an honest link no message is refused, and there is always room, whatever the source tells of its bytes; of `share`, which
    // uses no link, `shares` and `share_status` say when there is room, and of `pair` the clauses with its name
    ensures sound { is_share (map string_bytes words.now) ≡ false → is_pair (map string_bytes words.now) ≡ false
        → L.honest link.old → IsLevel (L.up link.old) → IsLevel (L.down link.old) → IsHonest result }
    // over every link: a message is refused exactly where the fold of the bytes sent up and given down refuses it; and no room
    // is left only where at least 2^28 bytes were sent up
    ensures refused { is_share (map string_bytes words.now) ≡ false → is_pair (map string_bytes words.now) ≡ false
        → StatusFolds result (fold_since (L.up link.old) (L.down link.old) (L.up link.new) (L.down link.new)) }
    // over every link: what is written ends with the outline of what that fold shows
    ensures closes { is_replay (map string_bytes words.now) ≡ true → result ≡ Done → EndsShown (K.taken out.old) (K.taken out.new)
        (fold_since (L.up link.old) (L.down link.old) (L.up link.new) (L.down link.new)) }
    // over every link: the replies sent down answer the frames given up, in their order, each with its frame's id
    ensures replies { is_replay (map string_bytes words.now) ≡ true
        → result ≡ Done → AnswersInOrder (L.up link.old) (L.down link.old) (L.up link.new) (L.down link.new) }
    // over every link, whatever is answered but want of memory: a delivery asks for no more bytes than are there, so no more
    // are given than were sent
    ensures less { StatusLess result (fold_since (L.up link.old) (L.down link.old) (L.up link.new) (L.down link.new)) }
    ensures usage { result ≡ Usage ↔ ((is_replay (map string_bytes words.now) || is_serve (map string_bytes words.now)
        || is_share (map string_bytes words.now) || is_pair (map string_bytes words.now)
        || is_some (drill_in (map string_bytes words.now))) ≡ false) }
    // a drill: over an honest link the sink takes the six lines of the run's numbers, in which no front end takes part
    ensures drill { L.honest link.old → IsLevel (L.up link.old) → IsLevel (L.down link.old)
        → (n : ℕ) → drill_in (map string_bytes words.now) ≡ Some n
        → Took result (K.taken out.old) (K.taken out.new) (drill_text (map (λ p. kind_of p) panels.items) n) }
    // over every link the six numbers are those of the fold of the bytes sent up and given down, replies to fetches not counted
    ensures drill_counted { (n : ℕ) → drill_in (map string_bytes words.now) ≡ Some n
        → result ≡ Done → TalliesShown (K.taken out.old) (K.taken out.new)
        (fold_since (L.up link.old) (L.down link.old) (L.up link.new) (L.down link.new)) }
    // over every link: the replies sent down answer the frames given up
    ensures drill_replies { (n : ℕ) → drill_in (map string_bytes words.now) ≡ Some n
        → result ≡ Done → AnswersInOrder (L.up link.old) (L.down link.old) (L.up link.new) (L.down link.new) }
    // the six lines are written at once: on another answer nothing was written, unless the sink failed or memory did
    ensures drill_nothing { (n : ℕ) → drill_in (map string_bytes words.now) ≡ Some n
        → DrillWrites result (K.taken out.old) (K.taken out.new) }
    ensures drill_status { (n : ℕ) → drill_in (map string_bytes words.now) ≡ Some n → IsDrillStatus result }
    ensures drill_unread { (n : ℕ) → drill_in (map string_bytes words.now) ≡ Some n → src.new ≡ src.old }
    ensures unread { result ≡ Usage → src.new ≡ src.old }
    ensures unwritten { result ≡ Usage → out.new ≡ out.old }
    ensures unlinked { result ≡ Usage → link.new ≡ link.old }
    // over every link: a line is answered exactly where it is the first that is refused; that no panel stands open where it drops one
    // is said by the lines and the panels handed in, and that the matched styles of an ask did not come by what the fold of the bytes
    // sent up and given down has kept at the end of the call
    ensures line { is_replay (map string_bytes words.now) ≡ true
        → (input : List ℕ) → S.left src.old ≡ Some input
        → TellsLine result
        (script_refused (came_styles (fold_since (L.up link.old) (L.down link.old) (L.up link.new) (L.down link.new)).fold)
        (map (λ p. kind_of p) panels.items) input) }
    // over an honest link that line is the first that the run of the script refuses, in which no front end takes part
    ensures stops { L.honest link.old → IsLevel (L.up link.old) → IsLevel (L.down link.old)
        → (input : List ℕ) → S.left src.old ≡ Some input → is_replay (map string_bytes words.now) ≡ true
        → TellsLine result (report_refused (map (λ p. kind_of p) panels.items) input) }
    ensures limits { is_replay (map string_bytes words.now) ≡ true
        → (input : List ℕ) → S.left src.old ≡ Some input → FitsLimits result input }
    ensures whole { is_replay (map string_bytes words.now) ≡ true
        → (input : List ℕ) → S.left src.old ≡ Some input → ReadsAll result (S.left src.new) }
    // reading stops as soon as more than 2^26 bytes came
    ensures reads { ReadPart (S.left src.old) (S.left src.new) (max_input + 1) }
    ensures nothing { is_replay (map string_bytes words.now) ≡ true → WritesNothing result (K.taken out.old) (K.taken out.new) }
    ensures cause { StatusRose (record {
      source_before = S.faults src.old;
      source_after = S.faults src.new;
      sink_before = K.faults out.old;
      sink_after = K.faults out.new;
      link_before = L.faults link.old;
      link_after = L.faults link.new;
    }) result }
    // no fault is hidden: where the count of the source, the sink or the link rose, the answer is that fault
    ensures answered { AnswersFaults (record {
      source_before = S.faults src.old;
      source_after = S.faults src.new;
      sink_before = K.faults out.old;
      sink_after = K.faults out.new;
      link_before = L.faults link.old;
      link_after = L.faults link.new;
    }) result }
    ensures honest { L.honest link.old → L.honest link.new }
    // a client is answered: the sink takes the answers to the whole frames that came, and nothing else
    ensures serves { is_serve (map string_bytes words.now) ≡ true
        → (input : List ℕ) → S.left src.old ≡ Some input → ServeTook result input (record {
          left_before = S.left src.old;
          left_after = S.left src.new;
          taken_before = K.taken out.old;
          taken_after = K.taken out.new;
        }) }
    // it is answered before more is read: at each read the sink had taken the answers to all frames that were whole by then
    ensures serve_reads { is_serve (map string_bytes words.now) ≡ true → ReadsInTurn (S.calls src.old) (S.calls src.new) (record {
      left_before = S.left src.old;
      left_after = S.left src.new;
      taken_before = K.taken out.old;
      taken_after = K.taken out.new;
    }) }
    ensures serve_status { is_serve (map string_bytes words.now) ≡ true → IsServeStatus result }
    ensures serve_unlinked { is_serve (map string_bytes words.now) ≡ true → link.new ≡ link.old }
    // two clients on one pipe are answered likewise, each in its own session: the sink takes the frames of their steps on the whole frames
    // that came, up to the first for which there is no room
    ensures shares { is_share (map string_bytes words.now) ≡ true
        → (input : List ℕ) → S.left src.old ≡ Some input → ShareTook result input (record {
          left_before = S.left src.old;
          left_after = S.left src.new;
          taken_before = K.taken out.old;
          taken_after = K.taken out.new;
        }) }
    ensures share_reads { is_share (map string_bytes words.now) ≡ true → SharesInTurn (S.calls src.old) (S.calls src.new) (record {
      left_before = S.left src.old;
      left_after = S.left src.new;
      taken_before = K.taken out.old;
      taken_after = K.taken out.new;
    }) }
    ensures share_status { is_share (map string_bytes words.now) ≡ true → IsShareStatus result }
    ensures share_unlinked { is_share (map string_bytes words.now) ≡ true → link.new ≡ link.old }
    // with two front ends, over an honest link with nothing left to give: the sink takes the report of the input, or a front part of it
    // where no room is left
    ensures pair_report { is_pair (map string_bytes words.now) ≡ true
        → L.honest link.old → IsLevel (L.up link.old) → IsLevel (L.down link.old) → (input : List ℕ) → S.left src.old ≡ Some input
        → PairTook result (K.taken out.old) (K.taken out.new) (pair_report (map (λ p. kind_of p) panels.items) input) }
    // no message is refused then
    ensures pair_sound { is_pair (map string_bytes words.now) ≡ true
        → L.honest link.old → IsLevel (L.up link.old) → IsLevel (L.down link.old) → IsPairHonest result }
    // and no room is left exactly where a frame, an act or a load of the run meets two sessions of which one has none
    ensures pair_room { is_pair (map string_bytes words.now) ≡ true
        → L.honest link.old → IsLevel (L.up link.old) → IsLevel (L.down link.old) → (input : List ℕ) → S.left src.old ≡ Some input
        → TellsRoom result (ScriptHasRoom (map (λ p. kind_of p) panels.items) input) }
    // over every link: a message is refused exactly where the fold of two front ends refuses it; and no room is left only where at least
    // 2^19 bytes were sent up
    ensures pair_refused { is_pair (map string_bytes words.now) ≡ true → PairFolds result
        (pair_since (L.up link.old) (L.down link.old) (L.up link.new) (L.down link.new)) }
    // over every link: what is written ends with the outlines of what that fold shows
    ensures pair_closes { is_pair (map string_bytes words.now) ≡ true → result ≡ Done → PairEndsShown (K.taken out.old) (K.taken out.new)
        (pair_since (L.up link.old) (L.down link.old) (L.up link.new) (L.down link.new)) }
    // over every link: the replies sent down, of either session, answer the frames given up, in their order, each with its frame's id
    ensures pair_replies { is_pair (map string_bytes words.now) ≡ true → result ≡ Done
        → PairAnswersInOrder (L.up link.old) (L.down link.old) (L.up link.new) (L.down link.new) }
    ensures pair_less { is_pair (map string_bytes words.now) ≡ true → PairLess result
        (pair_since (L.up link.old) (L.down link.old) (L.up link.new) (L.down link.new)) }
    // over every link: a line is answered exactly where it is the first that is refused: each line is judged by what the fold comes to at a
    // moment of its own, and the one that is refused by that of the exit
    ensures pair_line { is_pair (map string_bytes words.now) ≡ true → (input : List ℕ) → S.left src.old ≡ Some input
        → AtEnd (says result).phase (IsJudged (moment_of (L.up link.old) (L.down link.old) (L.up link.new) (L.down link.new))
        (map (λ p. kind_of p) panels.items) input (says result).line) }
    // over an honest link it is the first that the run of the script refuses, in which no front end takes part
    ensures pair_stops { is_pair (map string_bytes words.now) ≡ true
        → L.honest link.old → IsLevel (L.up link.old) → IsLevel (L.down link.old) → (input : List ℕ) → S.left src.old ≡ Some input
        → TellsLine result (pair_refused (map (λ p. kind_of p) panels.items) input) }
    ensures pair_limits { is_pair (map string_bytes words.now) ≡ true
        → (input : List ℕ) → S.left src.old ≡ Some input → FitsLimits result input }
    ensures pair_whole { is_pair (map string_bytes words.now) ≡ true
        → (input : List ℕ) → S.left src.old ≡ Some input → ReadsAll result (S.left src.new) }
    ensures pair_nothing { is_pair (map string_bytes words.now) ≡ true → WritesNothing result (K.taken out.old) (K.taken out.new) }
{
    // Called for the proof alone: the law is what `restores` says.
    fits_law();
    if is_replay(words) {
        return replay(alloc, panels, src, out, link);
    }
    if is_serve(words) {
        return serve(alloc, src, out);
    }
    if is_share(words) {
        return share(alloc, src, out);
    }
    if is_pair(words) {
        return pair(alloc, panels, src, out, link);
    }
    if let Some(divs) = drill_in(words) {
        return drill(alloc, panels, divs, out, link);
    }
    Status::Usage
}

fn replay<P: Panel, S: Source, K: Sink, L: Link>(
    alloc: Global,
    panels: Vec<P>,
    src: &mut S,
    out: &mut K,
    link: &mut L,
) -> Status
    ensures report { L.honest link.old → IsLevel (L.up link.old) → IsLevel (L.down link.old)
        → (input : List ℕ) → S.left src.old ≡ Some input
        → Took result (K.taken out.old) (K.taken out.new) (report (map P.kind_of panels.items) input) }
    ensures sound { L.honest link.old → IsLevel (L.up link.old) → IsLevel (L.down link.old) → IsHonest result }
    ensures refused { StatusFolds result (fold_since (L.up link.old) (L.down link.old) (L.up link.new) (L.down link.new)) }
    ensures closes { result ≡ Done → EndsShown (K.taken out.old) (K.taken out.new)
        (fold_since (L.up link.old) (L.down link.old) (L.up link.new) (L.down link.new)) }
    ensures replies { result ≡ Done → AnswersInOrder (L.up link.old) (L.down link.old) (L.up link.new) (L.down link.new) }
    ensures less { StatusLess result (fold_since (L.up link.old) (L.down link.old) (L.up link.new) (L.down link.new)) }
    ensures used { result ≡ Usage → ⊥ }
    ensures line { (input : List ℕ) → S.left src.old ≡ Some input
        → TellsLine result
        (script_refused (came_styles (fold_since (L.up link.old) (L.down link.old) (L.up link.new) (L.down link.new)).fold)
        (map P.kind_of panels.items) input) }
    ensures stops { L.honest link.old → IsLevel (L.up link.old) → IsLevel (L.down link.old)
        → (input : List ℕ) → S.left src.old ≡ Some input → TellsLine result (report_refused (map P.kind_of panels.items) input) }
    ensures limits { (input : List ℕ) → S.left src.old ≡ Some input → FitsLimits result input }
    ensures whole { (input : List ℕ) → S.left src.old ≡ Some input → ReadsAll result (S.left src.new) }
    // reading stops as soon as more than 2^26 bytes came
    ensures reads { ReadPart (S.left src.old) (S.left src.new) (max_input + 1) }
    ensures nothing { WritesNothing result (K.taken out.old) (K.taken out.new) }
    ensures cause { StatusRose (three_counts (S.faults src.old) (S.faults src.new)
        (two_counts (K.faults out.old) (K.faults out.new) (L.faults link.old) (L.faults link.new))) result }
    ensures answered { AnswersFaults (three_counts (S.faults src.old) (S.faults src.new)
        (two_counts (K.faults out.old) (K.faults out.new) (L.faults link.old) (L.faults link.new))) result }
    ensures honest { L.honest link.old → L.honest link.new }
{
    match read_input(alloc, src) {
        Ok(input) => run_input(alloc, panels, &input, out, link),
        Err(stop) => status_of(stop),
    }
}

/// Carries out a script with two front ends.
fn pair<P: Panel, S: Source, K: Sink, L: Link>(
    alloc: Global,
    panels: Vec<P>,
    src: &mut S,
    out: &mut K,
    link: &mut L,
) -> Status
    ensures report { L.honest link.old → IsLevel (L.up link.old) → IsLevel (L.down link.old)
        → (input : List ℕ) → S.left src.old ≡ Some input
        → PairTook result (K.taken out.old) (K.taken out.new) (pair_report (map P.kind_of panels.items) input) }
    ensures sound { L.honest link.old → IsLevel (L.up link.old) → IsLevel (L.down link.old) → IsPairHonest result }
    ensures room { L.honest link.old → IsLevel (L.up link.old) → IsLevel (L.down link.old)
        → (input : List ℕ) → S.left src.old ≡ Some input → TellsRoom result (ScriptHasRoom (map P.kind_of panels.items) input) }
    ensures refused { PairFolds result (pair_since (L.up link.old) (L.down link.old) (L.up link.new) (L.down link.new)) }
    ensures closes { result ≡ Done → PairEndsShown (K.taken out.old) (K.taken out.new)
        (pair_since (L.up link.old) (L.down link.old) (L.up link.new) (L.down link.new)) }
    ensures replies { result ≡ Done → PairAnswersInOrder (L.up link.old) (L.down link.old) (L.up link.new) (L.down link.new) }
    ensures less { PairLess result (pair_since (L.up link.old) (L.down link.old) (L.up link.new) (L.down link.new)) }
    ensures used { result ≡ Usage → ⊥ }
    ensures line { (input : List ℕ) → S.left src.old ≡ Some input
        → AtEnd (says result).phase (IsJudged (moment_of (L.up link.old) (L.down link.old) (L.up link.new) (L.down link.new))
        (map P.kind_of panels.items) input (says result).line) }
    ensures stops { L.honest link.old → IsLevel (L.up link.old) → IsLevel (L.down link.old)
        → (input : List ℕ) → S.left src.old ≡ Some input → TellsLine result (pair_refused (map P.kind_of panels.items) input) }
    ensures limits { (input : List ℕ) → S.left src.old ≡ Some input → FitsLimits result input }
    ensures whole { (input : List ℕ) → S.left src.old ≡ Some input → ReadsAll result (S.left src.new) }
    // reading stops as soon as more than 2^26 bytes came
    ensures reads { ReadPart (S.left src.old) (S.left src.new) (max_input + 1) }
    ensures nothing { WritesNothing result (K.taken out.old) (K.taken out.new) }
    ensures cause { StatusRose (three_counts (S.faults src.old) (S.faults src.new)
        (two_counts (K.faults out.old) (K.faults out.new) (L.faults link.old) (L.faults link.new))) result }
    ensures answered { AnswersFaults (three_counts (S.faults src.old) (S.faults src.new)
        (two_counts (K.faults out.old) (K.faults out.new) (L.faults link.old) (L.faults link.new))) result }
    ensures honest { L.honest link.old → L.honest link.new }
{
    match read_input(alloc, src) {
        Ok(input) => pair_input(alloc, panels, &input, out, link),
        Err(stop) => status_of(stop),
    }
}

/// Carries out the script with two front ends that was read.
fn pair_input<P: Panel, K: Sink, L: Link>(
    alloc: Global,
    panels: Vec<P>,
    input: &[u8],
    out: &mut K,
    link: &mut L,
) -> Status
    requires few { length input.now ≤ max_input }
    ensures report { L.honest link.old → IsLevel (L.up link.old) → IsLevel (L.down link.old)
        → PairTook result (K.taken out.old) (K.taken out.new) (pair_report (map P.kind_of panels.items) input.now) }
    ensures sound { L.honest link.old → IsLevel (L.up link.old) → IsLevel (L.down link.old) → IsPairHonest result }
    ensures room { L.honest link.old → IsLevel (L.up link.old) → IsLevel (L.down link.old)
        → TellsRoom result (ScriptHasRoom (map P.kind_of panels.items) input.now) }
    ensures refused { PairFolds result (pair_since (L.up link.old) (L.down link.old) (L.up link.new) (L.down link.new)) }
    ensures closes { result ≡ Done → PairEndsShown (K.taken out.old) (K.taken out.new)
        (pair_since (L.up link.old) (L.down link.old) (L.up link.new) (L.down link.new)) }
    ensures replies { result ≡ Done → PairAnswersInOrder (L.up link.old) (L.down link.old) (L.up link.new) (L.down link.new) }
    ensures less { PairLess result (pair_since (L.up link.old) (L.down link.old) (L.up link.new) (L.down link.new)) }
    ensures used { result ≡ Usage → ⊥ }
    ensures line { AtEnd (says result).phase (IsJudged (moment_of (L.up link.old) (L.down link.old) (L.up link.new) (L.down link.new))
        (map P.kind_of panels.items) input.now (says result).line) }
    ensures stops { L.honest link.old → IsLevel (L.up link.old) → IsLevel (L.down link.old)
        → TellsLine result (pair_refused (map P.kind_of panels.items) input.now) }
    ensures late { IsLate result }
    ensures nothing { WritesNothing result (K.taken out.old) (K.taken out.new) }
    ensures cause { StatusRose (record {
      source_before = 0;
      source_after = 0;
      sink_before = K.faults out.old;
      sink_after = K.faults out.new;
      link_before = L.faults link.old;
      link_after = L.faults link.new;
    }) result }
    ensures answered { AnswersFaults (two_counts (K.faults out.old) (K.faults out.new) (L.faults link.old) (L.faults link.new)) result }
    ensures honest { L.honest link.old → L.honest link.new }
{
    match run_pair(alloc, panels, input, out, link) {
        Ok(_) => Status::Done,
        Err(stop) => status_of(stop),
    }
}

/// Carries out a drill with so many divs.
fn drill<P: Panel, K: Sink, L: Link>(
    alloc: Global,
    panels: Vec<P>,
    divs: u64,
    out: &mut K,
    link: &mut L,
) -> Status
    requires { is_drill divs ≡ true }
    ensures took { L.honest link.old → IsLevel (L.up link.old) → IsLevel (L.down link.old)
        → Took result (K.taken out.old) (K.taken out.new) (drill_text (map P.kind_of panels.items) divs) }
    ensures sound { L.honest link.old → IsLevel (L.up link.old) → IsLevel (L.down link.old) → IsHonest result }
    ensures refused { StatusFolds result (fold_since (L.up link.old) (L.down link.old) (L.up link.new) (L.down link.new)) }
    ensures less { StatusLess result (fold_since (L.up link.old) (L.down link.old) (L.up link.new) (L.down link.new)) }
    ensures counted { result ≡ Done → TalliesShown (K.taken out.old) (K.taken out.new)
        (fold_since (L.up link.old) (L.down link.old) (L.up link.new) (L.down link.new)) }
    ensures replies { result ≡ Done → AnswersInOrder (L.up link.old) (L.down link.old) (L.up link.new) (L.down link.new) }
    ensures status { IsDrillStatus result }
    ensures nothing { DrillWrites result (K.taken out.old) (K.taken out.new) }
    ensures cause { (source_before source_after : ℕ) → StatusRose (record {
      source_before = source_before;
      source_after = source_after;
      sink_before = K.faults out.old;
      sink_after = K.faults out.new;
      link_before = L.faults link.old;
      link_after = L.faults link.new;
    }) result }
    ensures answered { AnswersFaults (two_counts (K.faults out.old) (K.faults out.new) (L.faults link.old) (L.faults link.new)) result }
    ensures honest { L.honest link.old → L.honest link.new }
{
    match run_drill(alloc, panels, divs, out, link) {
        Ok(_) => Status::Done,
        Err(stop) => status_of(stop),
    }
}

/// Carries out the script that was read.
fn run_input<P: Panel, K: Sink, L: Link>(
    alloc: Global,
    panels: Vec<P>,
    input: &[u8],
    out: &mut K,
    link: &mut L,
) -> Status
    requires few { length input.now ≤ max_input }
    ensures report { L.honest link.old → IsLevel (L.up link.old) → IsLevel (L.down link.old)
        → Took result (K.taken out.old) (K.taken out.new) (report (map P.kind_of panels.items) input.now) }
    ensures sound { L.honest link.old → IsLevel (L.up link.old) → IsLevel (L.down link.old) → IsHonest result }
    ensures refused { StatusFolds result (fold_since (L.up link.old) (L.down link.old) (L.up link.new) (L.down link.new)) }
    ensures closes { result ≡ Done → EndsShown (K.taken out.old) (K.taken out.new)
        (fold_since (L.up link.old) (L.down link.old) (L.up link.new) (L.down link.new)) }
    ensures replies { result ≡ Done → AnswersInOrder (L.up link.old) (L.down link.old) (L.up link.new) (L.down link.new) }
    ensures less { StatusLess result (fold_since (L.up link.old) (L.down link.old) (L.up link.new) (L.down link.new)) }
    ensures used { result ≡ Usage → ⊥ }
    ensures line { TellsLine result
        (script_refused (came_styles (fold_since (L.up link.old) (L.down link.old) (L.up link.new) (L.down link.new)).fold)
        (map P.kind_of panels.items) input.now) }
    ensures stops { L.honest link.old → IsLevel (L.up link.old) → IsLevel (L.down link.old)
        → TellsLine result (report_refused (map P.kind_of panels.items) input.now) }
    ensures late { IsLate result }
    ensures nothing { WritesNothing result (K.taken out.old) (K.taken out.new) }
    ensures cause { StatusRose (record {
      source_before = 0;
      source_after = 0;
      sink_before = K.faults out.old;
      sink_after = K.faults out.new;
      link_before = L.faults link.old;
      link_after = L.faults link.new;
    }) result }
    ensures answered { AnswersFaults (two_counts (K.faults out.old) (K.faults out.new) (L.faults link.old) (L.faults link.new)) result }
    ensures honest { L.honest link.old → L.honest link.new }
{
    match run_script(alloc, panels, input, out, link) {
        Ok(()) => Status::Done,
        Err(stop) => status_of(stop),
    }
}

/// The whole input, within its limits.
fn read_input<S: Source>(alloc: Global, src: &mut S) -> Result<Vec<u8>, Stop>
    ensures tells { (input : List ℕ) → S.left src.old ≡ Some input → InputTells result input }
    ensures few { IfOk result (λ read. length read.items ≤ max_input) }
    ensures whole { (input : List ℕ) → S.left src.old ≡ Some input → OnOk result (S.left src.new ≡ Some []) }
    ensures rose { IsInputStop (S.faults src.old) (S.faults src.new) result }
    ensures answered { S.faults src.old < S.faults src.new → result ≡ Err ReadFault }
    ensures part { ReadPart (S.left src.old) (S.left src.new) (max_input + 1) }
{
    let input = match read_all(alloc, src, INPUT_LIMIT) {
        Ok(input) => input,
        Err(ReadErr::Failed) => return Err(Stop::ReadFault),
        Err(ReadErr::TooLong) => return Err(Stop::TooLong),
        Err(ReadErr::Memory) => return Err(Stop::Memory),
    };
    if has_long_line(&input, LINE_LIMIT) {
        return Err(Stop::TooLong);
    }
    Ok(input)
}

pub(crate) fn status_of(stop: Stop) -> Status
    ensures { result ≡ status_of stop }
{
    match stop {
        Stop::Line { number, fault } => Status::Line { number, fault },
        Stop::TooLong => Status::TooLong,
        Stop::ReadFault => Status::ReadFault,
        Stop::WriteFault => Status::WriteFault,
        Stop::LinkFault => Status::LinkFault,
        Stop::FrontRefused { place, fault } => Status::FrontRefused { place, fault },
        Stop::NoRoom => Status::NoRoom,
        Stop::Memory => Status::Memory,
    }
}
