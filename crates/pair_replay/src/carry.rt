// The lines of a script with two front ends are carried out.
ghost use Rattle.std.specs.Prelude.{◌≡◌, ℕ, List, Option, true, option_map, IsTrue};
ghost use Rattle.serde_json.specs.View.{view};
ghost use Rattle.cdp_messages.specs.Asked.{is_whole_where_there};
ghost use Rattle.replay_script.specs.Forms.{act, ask};
ghost use Rattle.replay_script.specs.Seen.{seen, seen_ask};
ghost use Rattle.replay_script.specs.Script.{stands_open};
ghost use Rattle.replay_script.specs.Sound.{CanSend, IsSound, FitsPage, AreWhole};
ghost use Rattle.replay_script.specs.PairLines.{attach_session, detach_session, of_first, of_second, may_be_first, may_be_second};
ghost use Rattle.replay_script.specs.PairLines.{may_ask_second};
ghost use Rattle.replay_script.specs.PairSeen.{pair_seen, HoldsOfLine, IsPairSound};
ghost use Rattle.back_end.specs.Steps.{acts};
ghost use Rattle.back_end.specs.Laws.{IsTurn};
ghost use Rattle.multi_replay.specs.States.{after_close};
ghost use Rattle.replay_parts.specs.Stops.{RunRose, two_counts};
ghost use Rattle.replay_parts.specs.Reads.{drops};
ghost use Rattle.replay_parts.specs.Moments.{scene, seen_by};
ghost use Rattle.pair_replay.specs.Following.{PairLinePasses, PairLineTells};
ghost use Rattle.pair_replay.specs.Playing.{Plays, PairCarries, pair_carrying, numbered_pair};

use crate::reading::bad_session;
use crate::shows::{show_front, show_panels, show_pauses, show_replies, show_sheets, show_styles};
use crate::two_fronts::TwoFronts;
use back_end::Act;
use front_mirror::Panel;
use pipe_frames::{Link, Sink};
use replay_parts::{Printed, Stop, Watched, print_fault, print_page};
use replay_script::{Ask, Line, LineFault, PairLine};
use std::alloc::Global;

/// Settles, attaches a session, and settles; nothing was told yet of the second front end that comes of it. The line of that number is
/// refused where one stands.
fn carry_attach<P: Panel, L: Link>(
    number: u64,
    ends: &mut TwoFronts<P>,
    link: &mut L,
) -> Result<(), Stop>
    ensures follows { PairLinePasses attach_session (⟦<L as Watched>⟧.at link.old ends.old) (⟦<L as Watched>⟧.at link.new ends.new) result }
    ensures tells { PairLineTells (numbered_pair number attach_session) (⟦<L as Watched>⟧.at link.old ends.old)
        (⟦<L as Watched>⟧.at link.new ends.new) result }
    ensures runs { (taken : Option (List ℕ)) → PairCarries (numbered_pair number attach_session)
        (scene (⟦<L as Watched>⟧.at link.old ends.old) taken) (scene (⟦<L as Watched>⟧.at link.new ends.new) taken) result }
    ensures honest { L.honest link.old → L.honest link.new }
    ensures cause { RunRose (two_counts 0 0 (L.faults link.old) (L.faults link.new)) result }
{
    match ends.settle(link) {
        Ok(()) => {}
        Err(stop) => return Err(stop),
    }
    if ends.second_stands() {
        return Err(bad_session(number));
    }
    match ends.attach(link) {
        Ok(()) => {}
        Err(stop) => return Err(stop),
    }
    match ends.settle(link) {
        Ok(()) => {
            ends.forget_second();
            Ok(())
        }
        Err(stop) => Err(stop),
    }
}

/// Settles, detaches the session of the second front end, and settles. The line of that number is refused where none stands.
fn carry_detach<P: Panel, L: Link>(
    number: u64,
    ends: &mut TwoFronts<P>,
    link: &mut L,
) -> Result<(), Stop>
    ensures follows { PairLinePasses detach_session (⟦<L as Watched>⟧.at link.old ends.old) (⟦<L as Watched>⟧.at link.new ends.new) result }
    ensures tells { PairLineTells (numbered_pair number detach_session) (⟦<L as Watched>⟧.at link.old ends.old)
        (⟦<L as Watched>⟧.at link.new ends.new) result }
    ensures runs { (taken : Option (List ℕ)) → PairCarries (numbered_pair number detach_session)
        (scene (⟦<L as Watched>⟧.at link.old ends.old) taken) (scene (⟦<L as Watched>⟧.at link.new ends.new) taken) result }
    ensures honest { L.honest link.old → L.honest link.new }
    ensures cause { RunRose (two_counts 0 0 (L.faults link.old) (L.faults link.new)) result }
{
    match ends.settle(link) {
        Ok(()) => {}
        Err(stop) => return Err(stop),
    }
    if !ends.second_stands() {
        return Err(bad_session(number));
    }
    match ends.detach(link) {
        Ok(()) => ends.settle(link),
        Err(stop) => Err(stop),
    }
}

/// Changes the page, or prints why the change is refused.
fn carry_act<P: Panel, K: Sink, L: Link>(
    alloc: Global,
    number: u64,
    change: Act,
    ends: &mut TwoFronts<P>,
    out: &mut K,
    link: &mut L,
) -> Result<(), Stop>
    requires { IsTurn (acts change) }
    ensures plays { Plays (pair_carrying (numbered_pair number (of_first (act change))))
        (seen_by (⟦<L as Watched>⟧.at link.old ends.old) (⟦<K as Printed>⟧.at out.old))
        (seen_by (⟦<L as Watched>⟧.at link.new ends.new) (⟦<K as Printed>⟧.at out.new)) result }
    ensures tells { PairLineTells (numbered_pair number (of_first (act change))) (⟦<L as Watched>⟧.at link.old ends.old)
        (⟦<L as Watched>⟧.at link.new ends.new) result }
{
    match ends.change_page(link, change) {
        Ok(fault) => print_fault(alloc, number, fault, out),
        Err(stop) => Err(stop),
    }
}

/// Drops the panel at that place. The line of that number is refused where none stands open there.
fn drop_panel<P: Panel>(number: u64, place: u64, ends: &mut TwoFronts<P>) -> Result<(), Stop>
    ensures refused { result ≡ drops number (stands_open place ends.old.fronts.pair.one.panels) }
    ensures dropped { ends.new ≡ record ends.old { fronts = after_close ends.old.fronts place } }
{
    if ends.close(place) {
        Ok(())
    } else {
        Err(Stop::Line {
            number,
            fault: LineFault::NoPanel,
        })
    }
}

/// Sends an ask of the second front end. The line of that number is refused where it does not stand.
fn carry_second_ask<P: Panel, L: Link>(
    number: u64,
    ends: &mut TwoFronts<P>,
    link: &mut L,
    sent: &Ask,
) -> Result<(), Stop>
    requires can { CanSend (seen_ask sent.now) }
    requires may { may_ask_second (seen_ask sent.now) ≡ true }
    requires params { IsTrue (is_whole_where_there (option_map view sent.now.params)) }
    ensures follows { PairLinePasses (of_second (ask (seen_ask sent.now))) (⟦<L as Watched>⟧.at link.old ends.old)
        (⟦<L as Watched>⟧.at link.new ends.new) result }
    ensures tells { PairLineTells (numbered_pair number (of_second (ask (seen_ask sent.now)))) (⟦<L as Watched>⟧.at link.old ends.old)
        (⟦<L as Watched>⟧.at link.new ends.new) result }
    ensures runs { (taken : Option (List ℕ)) → PairCarries (numbered_pair number (of_second (ask (seen_ask sent.now))))
        (scene (⟦<L as Watched>⟧.at link.old ends.old) taken) (scene (⟦<L as Watched>⟧.at link.new ends.new) taken) result }
    ensures honest { L.honest link.old → L.honest link.new }
    ensures cause { RunRose (two_counts 0 0 (L.faults link.old) (L.faults link.new)) result }
{
    if !ends.second_stands() {
        return Err(bad_session(number));
    }
    ends.ask(link, true, sent)
}

/// Carries out a line of any script; what it asks and shows is the first front end's.
fn carry_first<P: Panel, K: Sink, L: Link>(
    alloc: Global,
    number: u64,
    line: Line,
    ends: &mut TwoFronts<P>,
    out: &mut K,
    link: &mut L,
) -> Result<(), Stop>
    requires sound { IsSound (seen line) }
    requires may { may_be_first (seen line) ≡ true }
    requires fits { FitsPage line }
    requires whole { AreWhole line }
    ensures plays { Plays (pair_carrying (numbered_pair number (of_first (seen line))))
        (seen_by (⟦<L as Watched>⟧.at link.old ends.old) (⟦<K as Printed>⟧.at out.old))
        (seen_by (⟦<L as Watched>⟧.at link.new ends.new) (⟦<K as Printed>⟧.at out.new)) result }
    ensures tells { PairLineTells (numbered_pair number (of_first (seen line))) (⟦<L as Watched>⟧.at link.old ends.old)
        (⟦<L as Watched>⟧.at link.new ends.new) result }
{
    match line {
        Line::Load(page) => ends.load_page(link, page),
        Line::Act(act) => carry_act(alloc, number, act, ends, out, link),
        Line::Ask(ask) => ends.ask(link, false, &ask),
        Line::Raw(text) => ends.send_raw(link, text.as_str()),
        Line::Up(n) => ends.deliver_up(link, n),
        Line::Down(n) => ends.deliver_down(link, n),
        Line::Settle => ends.settle(link),
        Line::ShowFront => show_front(alloc, number, false, ends, out, link),
        Line::ShowPage => print_page(alloc, ends.page(), out),
        Line::ShowSheets => show_sheets(alloc, number, false, ends, out, link),
        Line::ShowReplies => show_replies(alloc, number, false, ends, out, link),
        Line::ShowPauses => show_pauses(alloc, number, false, ends, out, link),
        Line::ShowPanels => show_panels(alloc, ends, out, link),
        Line::ShowStyles(ask) => show_styles(alloc, number, false, ask, ends, out, link),
        Line::Close(place) => drop_panel(number, place, ends),
    }
}

/// Carries out an ask or a show of the second front end. The line of that number is refused where it does not stand.
fn carry_second<P: Panel, K: Sink, L: Link>(
    alloc: Global,
    number: u64,
    line: Line,
    ends: &mut TwoFronts<P>,
    out: &mut K,
    link: &mut L,
) -> Result<(), Stop>
    requires sound { IsSound (seen line) }
    requires may { may_be_second (seen line) ≡ true }
    requires whole { AreWhole line }
    ensures plays { Plays (pair_carrying (numbered_pair number (of_second (seen line))))
        (seen_by (⟦<L as Watched>⟧.at link.old ends.old) (⟦<K as Printed>⟧.at out.old))
        (seen_by (⟦<L as Watched>⟧.at link.new ends.new) (⟦<K as Printed>⟧.at out.new)) result }
    ensures tells { PairLineTells (numbered_pair number (of_second (seen line))) (⟦<L as Watched>⟧.at link.old ends.old)
        (⟦<L as Watched>⟧.at link.new ends.new) result }
{
    match line {
        Line::Ask(ask) => carry_second_ask(number, ends, link, &ask),
        Line::ShowFront => show_front(alloc, number, true, ends, out, link),
        Line::ShowSheets => show_sheets(alloc, number, true, ends, out, link),
        Line::ShowReplies => show_replies(alloc, number, true, ends, out, link),
        Line::ShowPauses => show_pauses(alloc, number, true, ends, out, link),
        Line::ShowStyles(ask) => show_styles(alloc, number, true, ask, ends, out, link),
        Line::Load(_)
        | Line::Act(_)
        | Line::Raw(_)
        | Line::Up(_)
        | Line::Down(_)
        | Line::Settle
        | Line::ShowPage
        | Line::ShowPanels
        | Line::Close(_) => unreachable!(),
    }
}

/// Carries out the line of that number after the first, and writes what it prints. A line that names a front end that does not stand or
/// attaches one where one stands, drops a panel where none stands open, or shows what did not come, is refused.
pub(crate) fn carry_out<P: Panel, K: Sink, L: Link>(
    alloc: Global,
    number: u64,
    line: PairLine,
    ends: &mut TwoFronts<P>,
    out: &mut K,
    link: &mut L,
) -> Result<(), Stop>
    requires sound { IsPairSound (pair_seen line) }
    requires fits { HoldsOfLine FitsPage line }
    requires whole { HoldsOfLine AreWhole line }
    ensures plays { Plays (pair_carrying (numbered_pair number (pair_seen line)))
        (seen_by (⟦<L as Watched>⟧.at link.old ends.old) (⟦<K as Printed>⟧.at out.old))
        (seen_by (⟦<L as Watched>⟧.at link.new ends.new) (⟦<K as Printed>⟧.at out.new)) result }
    ensures tells { PairLineTells (numbered_pair number (pair_seen line)) (⟦<L as Watched>⟧.at link.old ends.old)
        (⟦<L as Watched>⟧.at link.new ends.new) result }
{
    match line {
        PairLine::Attach => carry_attach(number, ends, link),
        PairLine::Detach => carry_detach(number, ends, link),
        PairLine::First(line) => carry_first(alloc, number, line, ends, out, link),
        PairLine::Second(line) => carry_second(alloc, number, line, ends, out, link),
    }
}
