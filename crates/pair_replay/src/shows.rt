// What the shows of a front end print.
ghost use Rattle.std.specs.Prelude.{◌≡◌, ◌++◌, ◌∷◌, ℕ, map, drop, length, cond, OnOk, OnErr, IfOk};
ghost use Rattle.std.specs.Io.KnownBytes.{Appends};
ghost use Rattle.pipe_frames.specs.Whole.{WrotePart};
ghost use Rattle.replay_script.specs.Forms.{show_front, show_sheets, show_replies, show_pauses, show_panels, show_styles};
ghost use Rattle.replay_script.specs.PairLines.{of_first};
ghost use Rattle.inspect_world.specs.ShownReplies.{reply_shown, told_lines};
ghost use Rattle.inspect_world.specs.ShownPauses.{seen_pause_lines};
ghost use Rattle.replay_parts.specs.Stops.{StopRose, two_counts, GoesWell};
ghost use Rattle.replay_parts.specs.Moments.{seen_by};
ghost use Rattle.pair_replay.specs.PairStarts.{line_on, ends_text};
ghost use Rattle.pair_replay.specs.Following.{PairLineTells};
ghost use Rattle.pair_replay.specs.Playing.{Plays, pair_carrying, numbered_pair};

use crate::reading::bad_session;
use crate::two_fronts::{ToldCounts, TwoFronts};
use front_mirror::{Front, Panel};
use pipe_frames::{Link, Sink};
use replay_parts::{
    Printed, Stop, Watched, print_matched, print_outline, print_panels, print_pauses,
    print_replies, print_sheets,
};
use std::alloc::Global;

/// The words of the front end that is meant.
fn words_of(second: bool, first_words: &'static str, second_words: &'static str) -> &'static str
    ensures { result.now ≡ cond second second_words.now first_words.now }
{
    if second { second_words } else { first_words }
}

/// Settles, and prints what the front end that is meant shows. The line of that number is refused where it does not stand.
pub(crate) fn show_front<P: Panel, K: Sink, L: Link>(
    alloc: Global,
    number: u64,
    second: bool,
    ends: &mut TwoFronts<P>,
    out: &mut K,
    link: &mut L,
) -> Result<(), Stop>
    ensures plays { Plays (pair_carrying (numbered_pair number (line_on second show_front)))
        (seen_by (⟦<L as Watched>⟧.at link.old ends.old) (⟦<K as Printed>⟧.at out.old))
        (seen_by (⟦<L as Watched>⟧.at link.new ends.new) (⟦<K as Printed>⟧.at out.new)) result }
    ensures tells { PairLineTells (numbered_pair number (line_on second show_front)) (⟦<L as Watched>⟧.at link.old ends.old)
        (⟦<L as Watched>⟧.at link.new ends.new) result }
{
    match ends.settle(link) {
        Ok(()) => {}
        Err(stop) => return Err(stop),
    }
    let Some(front) = ends.front(second) else {
        return Err(bad_session(number));
    };
    let heading = words_of(second, "# front", "# front 2");
    print_outline(alloc, heading, front.mirror(), out)
}

/// Settles, and prints the sheets that the front end knows. The line of that number is refused where it does not stand.
pub(crate) fn show_sheets<P: Panel, K: Sink, L: Link>(
    alloc: Global,
    number: u64,
    second: bool,
    ends: &mut TwoFronts<P>,
    out: &mut K,
    link: &mut L,
) -> Result<(), Stop>
    ensures plays { Plays (pair_carrying (numbered_pair number (line_on second show_sheets)))
        (seen_by (⟦<L as Watched>⟧.at link.old ends.old) (⟦<K as Printed>⟧.at out.old))
        (seen_by (⟦<L as Watched>⟧.at link.new ends.new) (⟦<K as Printed>⟧.at out.new)) result }
    ensures tells { PairLineTells (numbered_pair number (line_on second show_sheets)) (⟦<L as Watched>⟧.at link.old ends.old)
        (⟦<L as Watched>⟧.at link.new ends.new) result }
{
    match ends.settle(link) {
        Ok(()) => {}
        Err(stop) => return Err(stop),
    }
    let Some(front) = ends.front(second) else {
        return Err(bad_session(number));
    };
    let heading = words_of(second, "# sheets", "# sheets 2");
    print_sheets(alloc, heading, front, out)
}

/// Prints the replies that came after so many others; gives how many came in all.
fn print_new_replies<P: Panel, K: Sink>(
    alloc: Global,
    heading: &str,
    front: &Front<P>,
    told: usize,
    out: &mut K,
) -> Result<usize, Stop>
    ensures ok { OnOk result (Appends (K.taken out.old) (K.taken out.new)
        (heading.now ++ 10 ∷ told_lines (map reply_shown (drop told front.now.value.replies)))) }
    ensures err { OnErr result (WrotePart (K.taken out.old) (K.taken out.new)
        (heading.now ++ 10 ∷ told_lines (map reply_shown (drop told front.now.value.replies)))) }
    ensures all { IfOk result (λ n. n ≡ length front.now.value.replies) }
    ensures never { GoesWell result }
    ensures cause { StopRose (two_counts (K.faults out.old) (K.faults out.new) 0 0) result }
{
    let replies = front.replies();
    let told = told.min(replies.len());
    match print_replies(alloc, heading, replies.split_at(told).1, out) {
        Ok(()) => Ok(replies.len()),
        Err(stop) => Err(stop),
    }
}

/// Settles, and prints the replies that came to the front end since the last time. The line of that number is refused where it does not
/// stand.
pub(crate) fn show_replies<P: Panel, K: Sink, L: Link>(
    alloc: Global,
    number: u64,
    second: bool,
    ends: &mut TwoFronts<P>,
    out: &mut K,
    link: &mut L,
) -> Result<(), Stop>
    ensures plays { Plays (pair_carrying (numbered_pair number (line_on second show_replies)))
        (seen_by (⟦<L as Watched>⟧.at link.old ends.old) (⟦<K as Printed>⟧.at out.old))
        (seen_by (⟦<L as Watched>⟧.at link.new ends.new) (⟦<K as Printed>⟧.at out.new)) result }
    ensures tells { PairLineTells (numbered_pair number (line_on second show_replies)) (⟦<L as Watched>⟧.at link.old ends.old)
        (⟦<L as Watched>⟧.at link.new ends.new) result }
{
    match ends.settle(link) {
        Ok(()) => {}
        Err(stop) => return Err(stop),
    }
    let told = ends.told(second);
    let Some(front) = ends.front(second) else {
        return Err(bad_session(number));
    };
    let heading = words_of(second, "# replies", "# replies 2");
    match print_new_replies(alloc, heading, front, told.replies, out) {
        Ok(replies) => {
            ends.tell(
                second,
                ToldCounts {
                    replies,
                    pauses: told.pauses,
                },
            );
            Ok(())
        }
        Err(stop) => Err(stop),
    }
}

/// Prints the pauses that came after so many others; gives how many came in all.
fn print_new_pauses<P: Panel, K: Sink>(
    alloc: Global,
    heading: &str,
    front: &Front<P>,
    told: usize,
    out: &mut K,
) -> Result<usize, Stop>
    ensures ok { OnOk result (Appends (K.taken out.old) (K.taken out.new)
        (heading.now ++ 10 ∷ seen_pause_lines (drop told front.now.value.pauses))) }
    ensures err { OnErr result (WrotePart (K.taken out.old) (K.taken out.new)
        (heading.now ++ 10 ∷ seen_pause_lines (drop told front.now.value.pauses))) }
    ensures all { IfOk result (λ n. n ≡ length front.now.value.pauses) }
    ensures never { GoesWell result }
    ensures cause { StopRose (two_counts (K.faults out.old) (K.faults out.new) 0 0) result }
{
    let pauses = front.pauses();
    let told = told.min(pauses.len());
    match print_pauses(alloc, heading, pauses.split_at(told).1, out) {
        Ok(()) => Ok(pauses.len()),
        Err(stop) => Err(stop),
    }
}

/// Settles, and prints the pauses that came to the front end since the last time. The line of that number is refused where it does not
/// stand.
pub(crate) fn show_pauses<P: Panel, K: Sink, L: Link>(
    alloc: Global,
    number: u64,
    second: bool,
    ends: &mut TwoFronts<P>,
    out: &mut K,
    link: &mut L,
) -> Result<(), Stop>
    ensures plays { Plays (pair_carrying (numbered_pair number (line_on second show_pauses)))
        (seen_by (⟦<L as Watched>⟧.at link.old ends.old) (⟦<K as Printed>⟧.at out.old))
        (seen_by (⟦<L as Watched>⟧.at link.new ends.new) (⟦<K as Printed>⟧.at out.new)) result }
    ensures tells { PairLineTells (numbered_pair number (line_on second show_pauses)) (⟦<L as Watched>⟧.at link.old ends.old)
        (⟦<L as Watched>⟧.at link.new ends.new) result }
{
    match ends.settle(link) {
        Ok(()) => {}
        Err(stop) => return Err(stop),
    }
    let told = ends.told(second);
    let Some(front) = ends.front(second) else {
        return Err(bad_session(number));
    };
    let heading = words_of(second, "# pauses", "# pauses 2");
    match print_new_pauses(alloc, heading, front, told.pauses, out) {
        Ok(pauses) => {
            ends.tell(
                second,
                ToldCounts {
                    replies: told.replies,
                    pauses,
                },
            );
            Ok(())
        }
        Err(stop) => Err(stop),
    }
}

/// Settles, and prints what the panels show that stand open: they are the first front end's.
pub(crate) fn show_panels<P: Panel, K: Sink, L: Link>(
    alloc: Global,
    ends: &mut TwoFronts<P>,
    out: &mut K,
    link: &mut L,
) -> Result<(), Stop>
    ensures plays { (number : ℕ) → Plays (pair_carrying (numbered_pair number (of_first show_panels)))
        (seen_by (⟦<L as Watched>⟧.at link.old ends.old) (⟦<K as Printed>⟧.at out.old))
        (seen_by (⟦<L as Watched>⟧.at link.new ends.new) (⟦<K as Printed>⟧.at out.new)) result }
    ensures tells { (number : ℕ) → PairLineTells (numbered_pair number (of_first show_panels)) (⟦<L as Watched>⟧.at link.old ends.old)
        (⟦<L as Watched>⟧.at link.new ends.new) result }
{
    match ends.settle(link) {
        Ok(()) => print_panels(alloc, ends.first(), out),
        Err(stop) => Err(stop),
    }
}

/// Settles, and prints the matched styles that the reply to the front end's ask told. The line of that number is refused where the front
/// end does not stand, or no reply told them.
pub(crate) fn show_styles<P: Panel, K: Sink, L: Link>(
    alloc: Global,
    number: u64,
    second: bool,
    ask: u64,
    ends: &mut TwoFronts<P>,
    out: &mut K,
    link: &mut L,
) -> Result<(), Stop>
    ensures plays { Plays (pair_carrying (numbered_pair number (line_on second (show_styles ask))))
        (seen_by (⟦<L as Watched>⟧.at link.old ends.old) (⟦<K as Printed>⟧.at out.old))
        (seen_by (⟦<L as Watched>⟧.at link.new ends.new) (⟦<K as Printed>⟧.at out.new)) result }
    ensures tells { PairLineTells (numbered_pair number (line_on second (show_styles ask))) (⟦<L as Watched>⟧.at link.old ends.old)
        (⟦<L as Watched>⟧.at link.new ends.new) result }
{
    match ends.settle(link) {
        Ok(()) => {}
        Err(stop) => return Err(stop),
    }
    let Some(front) = ends.front(second) else {
        return Err(bad_session(number));
    };
    let behind = words_of(second, "", " 2");
    print_matched(alloc, number, ask, behind, front.matched_reply(ask), out)
}

/// Prints the closing part: what the first front end shows, and then what the second does, where it stands.
pub(crate) fn print_end<P: Panel, K: Sink>(
    alloc: Global,
    ends: &TwoFronts<P>,
    out: &mut K,
) -> Result<(), Stop>
    ensures ok { OnOk result (Appends (K.taken out.old) (K.taken out.new) (ends_text ends.now.fronts.pair)) }
    ensures err { OnErr result (WrotePart (K.taken out.old) (K.taken out.new) (ends_text ends.now.fronts.pair)) }
    ensures never { GoesWell result }
    ensures cause { StopRose (two_counts (K.faults out.old) (K.faults out.new) 0 0) result }
{
    match print_outline(alloc, "# end", ends.first().mirror(), out) {
        Ok(()) => {}
        Err(stop) => return Err(stop),
    }
    match ends.front(true) {
        Some(front) => print_outline(alloc, "# end 2", front.mirror(), out),
        None => Ok(()),
    }
}
