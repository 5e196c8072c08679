ghost use Rattle.std.specs.Prelude.{◌≡◌, ◌≤◌, ◌∷◌, ◌++◌, [], codes, length, map, option_map, Some, None, IfOk, OnOk, OnErr, IfSome, IsNone};
ghost use Rattle.std.specs.Io.KnownBytes.{Appends};
ghost use Rattle.pipe_frames.specs.Whole.{WrotePart};
ghost use Rattle.front_mirror.specs.Outline.{outline_text, seen_line};
ghost use Rattle.node_tree.specs.Numbers.{max_input};
ghost use Rattle.pipe_frames.specs.Pipe.{IsLevel};
ghost use Rattle.replay_script.specs.Faults.{line_fault};
ghost use Rattle.replay_script.specs.Forms.{act, load, line_form, show_front, show_sheets, show_replies, show_pauses};
ghost use Rattle.replay_script.specs.Forms.{show_panels, show_styles};
ghost use Rattle.page_forms.specs.Pages.{CanLoadPage, loaded_page};
ghost use Rattle.pipe_frames.specs.Frames.{IsText};
ghost use Rattle.back_end.specs.Steps.{acts};
ghost use Rattle.back_end.specs.Laws.{IsTurn};
ghost use Rattle.inspect_world.specs.Fits.{IsBare};
ghost use Rattle.replay_script.specs.Script.{first_bad, good_lines, first_refused, script_refused, styles_ask, closed_by};
ghost use Rattle.replay_script.specs.Script.{stands_open, dropped};
ghost use Rattle.inspect_world.specs.Held.{with_panels};
ghost use Rattle.inspect_world.specs.Links.{came_styles};
ghost use Rattle.replay_script.specs.Seen.{seen, seen_ask};
ghost use Rattle.inspect_world.specs.ScriptsFit.{IsLater};
ghost use Rattle.replay_script.specs.Sound.{CanSend};
ghost use Rattle.inspect_world.specs.World as world;
ghost use Rattle.inspect_world.specs.Costs.{ask_cost, least_line, line_bytes};
ghost use Rattle.inspect_world.specs.Scripts.{report, report_refused, rest_text, rest_refused, loaded_world, sends};
ghost use Rattle.replay_parts.specs.Stops.{StopRose, RunRose, two_counts, GoesWell};
ghost use Rattle.replay_parts.specs.Answers.{RunTells, RunTook};
ghost use Rattle.replay_parts.specs.Moments.{seen_by};
ghost use Rattle.inspect_replay.specs.Goes.{Goes, Plays, spending, showing, showing_styles, carrying, carrying_line, running};
ghost use Rattle.inspect_replay.specs.Followed.{LineTells, ClosesShown, StopFolds};
ghost use Rattle.inspect_replay.specs.Followed.{fold_since, EndsShown, AnswersInOrder};
ghost use Rattle.inspect_replay.specs.Prints.{Closes, IsRead, numbered_line, drops, load_of};

use crate::one_front::OneFront;
use back_end::{Act, PageForm};
use front_mirror::Panel;
use node_tree::Text;
use pipe_frames::{Link, Sink};
use replay_parts::{
    Printed, Stop, Watched, print_fault, print_matched, print_outline, print_page, print_panels,
    print_pauses, print_replies, print_sheets,
};
use replay_script::{Ask, Line, LineErr, LineFault, Lines, read_line};
use std::alloc::Global;

/// Settles, and prints what the front end shows.
fn show_front<P: Panel, K: Sink, L: Link>(
    alloc: Global,
    ends: &mut OneFront<P>,
    out: &mut K,
    link: &mut L,
) -> Result<(), Stop>
    ensures { Plays (showing show_front)
        (seen_by (⟦<L as Watched>⟧.at link.old ends.old) (⟦<K as Printed>⟧.at out.old))
        (seen_by (⟦<L as Watched>⟧.at link.new ends.new) (⟦<K as Printed>⟧.at out.new)) result }
{
    match ends.settle(link) {
        Ok(()) => print_outline(alloc, "# front", ends.mirror(), out),
        Err(stop) => Err(stop),
    }
}

/// Settles, and prints the replies that came since the last time.
fn show_replies<P: Panel, K: Sink, L: Link>(
    alloc: Global,
    ends: &mut OneFront<P>,
    out: &mut K,
    link: &mut L,
) -> Result<(), Stop>
    ensures { Plays (showing show_replies)
        (seen_by (⟦<L as Watched>⟧.at link.old ends.old) (⟦<K as Printed>⟧.at out.old))
        (seen_by (⟦<L as Watched>⟧.at link.new ends.new) (⟦<K as Printed>⟧.at out.new)) result }
{
    match ends.settle(link) {
        Ok(()) => {}
        Err(stop) => return Err(stop),
    }
    let replies = ends.replies();
    let told = ends.told.min(replies.len());
    match print_replies(alloc, "# replies", replies.split_at(told).1, out) {
        Ok(()) => {
            ends.tell_replies();
            Ok(())
        }
        Err(stop) => Err(stop),
    }
}

/// Settles, and prints the sheets that the front end knows.
fn show_sheets<P: Panel, K: Sink, L: Link>(
    alloc: Global,
    ends: &mut OneFront<P>,
    out: &mut K,
    link: &mut L,
) -> Result<(), Stop>
    ensures { Plays (showing show_sheets)
        (seen_by (⟦<L as Watched>⟧.at link.old ends.old) (⟦<K as Printed>⟧.at out.old))
        (seen_by (⟦<L as Watched>⟧.at link.new ends.new) (⟦<K as Printed>⟧.at out.new)) result }
{
    match ends.settle(link) {
        Ok(()) => print_sheets(alloc, "# sheets", ends.front(), out),
        Err(stop) => Err(stop),
    }
}

/// Settles, and prints the pauses that came since the last time.
fn show_pauses<P: Panel, K: Sink, L: Link>(
    alloc: Global,
    ends: &mut OneFront<P>,
    out: &mut K,
    link: &mut L,
) -> Result<(), Stop>
    ensures { Plays (showing show_pauses)
        (seen_by (⟦<L as Watched>⟧.at link.old ends.old) (⟦<K as Printed>⟧.at out.old))
        (seen_by (⟦<L as Watched>⟧.at link.new ends.new) (⟦<K as Printed>⟧.at out.new)) result }
{
    match ends.settle(link) {
        Ok(()) => {}
        Err(stop) => return Err(stop),
    }
    let pauses = ends.pauses();
    let told = ends.told_pauses.min(pauses.len());
    match print_pauses(alloc, "# pauses", pauses.split_at(told).1, out) {
        Ok(()) => {
            ends.tell_pauses();
            Ok(())
        }
        Err(stop) => Err(stop),
    }
}

/// Settles, and prints what the panels show that stand open.
fn show_panels<P: Panel, K: Sink, L: Link>(
    alloc: Global,
    ends: &mut OneFront<P>,
    out: &mut K,
    link: &mut L,
) -> Result<(), Stop>
    ensures { Plays (showing show_panels)
        (seen_by (⟦<L as Watched>⟧.at link.old ends.old) (⟦<K as Printed>⟧.at out.old))
        (seen_by (⟦<L as Watched>⟧.at link.new ends.new) (⟦<K as Printed>⟧.at out.new)) result }
{
    match ends.settle(link) {
        Ok(()) => print_panels(alloc, ends.front(), out),
        Err(stop) => Err(stop),
    }
}

/// Settles, and prints the matched styles that the reply to the ask told. Where none told them, the line of that number is refused.
fn show_styles<P: Panel, K: Sink, L: Link>(
    alloc: Global,
    number: u64,
    ask: u64,
    ends: &mut OneFront<P>,
    out: &mut K,
    link: &mut L,
) -> Result<(), Stop>
    ensures plays { Plays (showing_styles (numbered_line number (show_styles ask)))
        (seen_by (⟦<L as Watched>⟧.at link.old ends.old) (⟦<K as Printed>⟧.at out.old))
        (seen_by (⟦<L as Watched>⟧.at link.new ends.new) (⟦<K as Printed>⟧.at out.new)) result }
    ensures tells { LineTells (⟦<L as Watched>⟧.at link.old ends.old)
        (⟦<L as Watched>⟧.at link.new ends.new) (numbered_line number (show_styles ask)) result }
{
    match ends.settle(link) {
        Ok(()) => print_matched(alloc, number, ask, "", ends.matched_reply(ask), out),
        Err(stop) => Err(stop),
    }
}

/// Changes the page, or prints why the change is refused.
fn carry_act<P: Panel, K: Sink, L: Link>(
    alloc: Global,
    number: u64,
    change: Act,
    ends: &mut OneFront<P>,
    out: &mut K,
    link: &mut L,
) -> Result<(), Stop>
    requires { IsTurn (acts change) }
    ensures { Plays (carrying (numbered_line number (act change)))
        (seen_by (⟦<L as Watched>⟧.at link.old ends.old) (⟦<K as Printed>⟧.at out.old))
        (seen_by (⟦<L as Watched>⟧.at link.new ends.new) (⟦<K as Printed>⟧.at out.new)) result }
{
    match ends.change_page(link, change) {
        Ok(fault) => print_fault(alloc, number, fault, out),
        Err(stop) => Err(stop),
    }
}

/// Sends an ask.
fn carry_ask<P: Panel, L: Link>(ends: &mut OneFront<P>, link: &mut L, sent: Ask) -> Result<(), Stop>
    requires { CanSend (seen_ask sent) }
    ensures { Goes (spending (ask_cost (seen_ask sent)) (λ w. sends (seen_ask sent) w)) (⟦<L as Watched>⟧.at link.old ends.old)
        (⟦<L as Watched>⟧.at link.new ends.new) result }
{
    ends.ask(link, &sent)
}

/// Sends a text as it is.
fn carry_raw<P: Panel, L: Link>(
    ends: &mut OneFront<P>,
    link: &mut L,
    text: Text,
) -> Result<(), Stop>
    requires text { IsText text }
    requires bare { IsBare text }
    ensures { Goes (spending least_line (λ w. world.raw text w)) (⟦<L as Watched>⟧.at link.old ends.old)
        (⟦<L as Watched>⟧.at link.new ends.new) result }
{
    ends.send_raw(link, text.as_str())
}

/// Carries out the line of that number after the first, and writes what it prints; it shows no matched styles and drops no panel.
pub(crate) fn carry_plain<P: Panel, K: Sink, L: Link>(
    alloc: Global,
    number: u64,
    line: Line,
    ends: &mut OneFront<P>,
    out: &mut K,
    link: &mut L,
) -> Result<(), Stop>
    requires later { IsLater (seen line) }
    requires plain { styles_ask (seen line) ≡ None }
    requires keeps { closed_by (seen line) ≡ None }
    ensures { Plays (carrying (numbered_line number (seen line)))
        (seen_by (⟦<L as Watched>⟧.at link.old ends.old) (⟦<K as Printed>⟧.at out.old))
        (seen_by (⟦<L as Watched>⟧.at link.new ends.new) (⟦<K as Printed>⟧.at out.new)) result }
{
    match line {
        Line::Load(page) => ends.load_page(link, page),
        Line::Act(act) => carry_act(alloc, number, act, ends, out, link),
        Line::Ask(ask) => carry_ask(ends, link, ask),
        Line::Raw(text) => carry_raw(ends, link, text),
        Line::Up(n) => ends.deliver_up(link, n),
        Line::Down(n) => ends.deliver_down(link, n),
        Line::Settle => ends.settle(link),
        Line::ShowFront => show_front(alloc, ends, out, link),
        Line::ShowPage => print_page(alloc, ends.page(), out),
        Line::ShowSheets => show_sheets(alloc, ends, out, link),
        Line::ShowReplies => show_replies(alloc, ends, out, link),
        Line::ShowPauses => show_pauses(alloc, ends, out, link),
        Line::ShowPanels => show_panels(alloc, ends, out, link),
        Line::ShowStyles(_) => unreachable!(),
        Line::Close(_) => unreachable!(),
    }
}

/// Carries out the line of that number after the first, which drops no panel, and writes what it prints. A line that shows what did not
/// come is refused.
fn carry_open<P: Panel, K: Sink, L: Link>(
    alloc: Global,
    number: u64,
    line: Line,
    ends: &mut OneFront<P>,
    out: &mut K,
    link: &mut L,
) -> Result<(), Stop>
    requires later { IsLater (seen line) }
    requires keeps { closed_by (seen line) ≡ None }
    ensures plays { Plays (carrying_line (numbered_line number (seen line)))
        (seen_by (⟦<L as Watched>⟧.at link.old ends.old) (⟦<K as Printed>⟧.at out.old))
        (seen_by (⟦<L as Watched>⟧.at link.new ends.new) (⟦<K as Printed>⟧.at out.new)) result }
    ensures tells { LineTells (⟦<L as Watched>⟧.at link.old ends.old)
        (⟦<L as Watched>⟧.at link.new ends.new) (numbered_line number (seen line)) result }
{
    match line.styles_ask() {
        Some(ask) => show_styles(alloc, number, ask, ends, out, link),
        None => carry_plain(alloc, number, line, ends, out, link),
    }
}

/// Drops the panel at that place. The line of that number is refused where none stands open there.
fn drop_panel<P: Panel>(number: u64, place: u64, ends: &mut OneFront<P>) -> Result<(), Stop>
    ensures refused { result ≡ drops number (stands_open place ends.old.front.panels) }
    ensures dropped { ends.new
        ≡ record ends.old { front = with_panels (dropped place ends.old.front.panels) ends.old.front } }
{
    if ends.close(place) {
        Ok(())
    } else {
        Err(Stop::Line {
            number,
            fault: LineFault::NoPanel,
        })
    }
}

/// Carries out the line of that number after the first, and writes what it prints. A line that drops a panel where none stands open,
/// or shows what did not come, is refused.
fn carry_out<P: Panel, K: Sink, L: Link>(
    alloc: Global,
    number: u64,
    line: Line,
    ends: &mut OneFront<P>,
    out: &mut K,
    link: &mut L,
) -> Result<(), Stop>
    requires { IsLater (seen line) }
    ensures plays { Plays (carrying_line (numbered_line number (seen line)))
        (seen_by (⟦<L as Watched>⟧.at link.old ends.old) (⟦<K as Printed>⟧.at out.old))
        (seen_by (⟦<L as Watched>⟧.at link.new ends.new) (⟦<K as Printed>⟧.at out.new)) result }
    ensures tells { LineTells (⟦<L as Watched>⟧.at link.old ends.old)
        (⟦<L as Watched>⟧.at link.new ends.new) (numbered_line number (seen line)) result }
{
    match line.closed_by() {
        Some(place) => drop_panel(number, place, ends),
        None => carry_open(alloc, number, line, ends, out, link),
    }
}

/// Carries out the lines after the load, each as soon as it is read.
fn run_lines<P: Panel, K: Sink, L: Link>(
    alloc: Global,
    mut lines: Lines,
    ends: &mut OneFront<P>,
    out: &mut K,
    link: &mut L,
) -> Result<(), Stop>
    requires few { length lines ≤ max_input }
    ensures { Plays (running lines.entry)
        (seen_by (⟦<L as Watched>⟧.at link.old ends.old) (⟦<K as Printed>⟧.at out.old))
        (seen_by (⟦<L as Watched>⟧.at link.new ends.new) (⟦<K as Printed>⟧.at out.new)) result }
{
    let mut number = 2;
    while let Some(text) = next_line(&mut lines) {
        let line = match read(alloc, number, text) {
            Ok(line) => line,
            Err(stop) => return Err(stop),
        };
        let carried = carry_out(alloc, number, line, ends, out, link);
        match carried {
            Ok(()) => {}
            Err(stop) => return Err(stop),
        }
        number += 1;
    }
    Ok(())
}

fn next_line<'a>(lines: &mut Lines<'a>) -> Option<&'a [u8]>
    ensures none { IsNone result → lines.old ≡ [] }
    ensures some { IfSome result (λ line. lines.old ≡ line.now ∷ lines.new) }
{
    lines.next()
}

fn read(alloc: Global, number: u64, text: &[u8]) -> Result<Line, Stop>
    ensures good { IfOk result (λ _. line_fault number text.now ≡ None) }
    ensures form { IfOk result (λ line. line_form text.now ≡ Some (seen line)) }
    ensures bad { IsRead result number (line_fault number text.now) }
{
    match read_line(alloc, number, text) {
        Ok(line) => Ok(line),
        Err(LineErr::Fault(fault)) => Err(Stop::Line { number, fault }),
        Err(LineErr::Memory) => Err(Stop::Memory),
    }
}

/// The page of a line that loads one.
fn load_of(line: Line) -> Option<PageForm>
    ensures { option_map loaded_page result ≡ load_of (seen line) }
{
    match line {
        Line::Load(page) => Some(page),
        Line::Act(_)
        | Line::Ask(_)
        | Line::Raw(_)
        | Line::Up(_)
        | Line::Down(_)
        | Line::Settle
        | Line::ShowFront
        | Line::ShowPage
        | Line::ShowSheets
        | Line::ShowReplies
        | Line::ShowPauses
        | Line::ShowPanels
        | Line::ShowStyles(_)
        | Line::Close(_) => None,
    }
}

/// Reads the first line of a script, which loads a page.
fn read_load(alloc: Global, text: &[u8]) -> Result<PageForm, Stop>
    ensures good { IfOk result (λ _. line_fault 1 text.now ≡ None) }
    ensures form { IfOk result (λ page. line_form text.now ≡ Some (load (loaded_page page))) }
    ensures bad { IsRead result 1 (line_fault 1 text.now) }
{
    match read(alloc, 1, text) {
        Ok(line) => match load_of(line) {
            Some(page) => Ok(page),
            None => unreachable!(),
        },
        Err(stop) => Err(stop),
    }
}

/// Prints the closing part: what the front end shows.
fn print_end<P: Panel, K: Sink>(alloc: Global, ends: &OneFront<P>, out: &mut K) -> Result<(), Stop>
    ensures ok { OnOk result (Appends (K.taken out.old) (K.taken out.new)
        (codes "# end" ++ 10 ∷ outline_text seen_line ends.now.front.value.tree)) }
    ensures err { OnErr result (WrotePart (K.taken out.old) (K.taken out.new)
        (codes "# end" ++ 10 ∷ outline_text seen_line ends.now.front.value.tree)) }
    ensures never { GoesWell result }
    ensures cause { StopRose (two_counts (K.faults out.old) (K.faults out.new) 0 0) result }
{
    print_outline(alloc, "# end", ends.mirror(), out)
}

/// Settles, and prints the closing part.
fn close<P: Panel, K: Sink, L: Link>(
    alloc: Global,
    ends: &mut OneFront<P>,
    out: &mut K,
    link: &mut L,
) -> Result<(), Stop>
    ensures honest { L.honest link.old → L.honest link.new }
    ensures cause { StopRose (two_counts (K.faults out.old) (K.faults out.new) (L.faults link.old) (L.faults link.new)) result }
    ensures shown { ClosesShown (seen_by (⟦<L as Watched>⟧.at link.old ends.old) (⟦<K as Printed>⟧.at out.old))
        (seen_by (⟦<L as Watched>⟧.at link.new ends.new) (⟦<K as Printed>⟧.at out.new)) result }
    ensures runs { Closes (seen_by (⟦<L as Watched>⟧.at link.old ends.old) (⟦<K as Printed>⟧.at out.old)) (K.taken out.new) result }
{
    match ends.settle(link) {
        Ok(()) => print_end(alloc, ends, out),
        Err(stop) => Err(stop),
    }
}

/// Carries out a script whose first line loads this page.
fn run_loaded<P: Panel, K: Sink, L: Link>(
    alloc: Global,
    panels: Vec<P>,
    form: PageForm,
    lines: Lines,
    out: &mut K,
    link: &mut L,
) -> Result<(), Stop>
    requires can { CanLoadPage (loaded_page form) }
    requires few { length lines ≤ max_input }
    requires short { line_bytes lines ≤ max_input }
    ensures tells { RunTells result
        (first_refused (came_styles (fold_since (L.up link.old) (L.down link.old) (L.up link.new) (L.down link.new)).fold)
        (map Some (map P.kind_of panels.items)) 2 lines.entry) }
    ensures stops { L.honest link.old → IsLevel (L.up link.old) → IsLevel (L.down link.old)
        → RunTells result (rest_refused (first_bad 2 lines.entry) (good_lines 2 lines.entry)
        (loaded_world (map P.kind_of panels.items) (loaded_page form))) }
    ensures honest { L.honest link.old → L.honest link.new }
    ensures cause { RunRose (two_counts (K.faults out.old) (K.faults out.new) (L.faults link.old) (L.faults link.new)) result }
    ensures refused { StopFolds result (fold_since (L.up link.old) (L.down link.old) (L.up link.new) (L.down link.new)) }
    ensures closes { OnOk result (EndsShown (K.taken out.old) (K.taken out.new)
        (fold_since (L.up link.old) (L.down link.old) (L.up link.new) (L.down link.new))) }
    ensures replies { OnOk result (AnswersInOrder (L.up link.old) (L.down link.old) (L.up link.new) (L.down link.new)) }
    ensures took { L.honest link.old → IsLevel (L.up link.old) → IsLevel (L.down link.old)
        → RunTook result (K.taken out.old) (K.taken out.new)
        (rest_text (first_bad 2 lines.entry) (good_lines 2 lines.entry) (loaded_world (map P.kind_of panels.items) (loaded_page form))) }
{
    let mut ends = OneFront::new(alloc, panels, form)?;
    match run_lines(alloc, lines, &mut ends, out, link) {
        Ok(()) => close(alloc, &mut ends, out, link),
        Err(stop) => Err(stop),
    }
}

/// Carries out a whole script.
pub(crate) fn run_script<P: Panel, K: Sink, L: Link>(
    alloc: Global,
    panels: Vec<P>,
    input: &[u8],
    out: &mut K,
    link: &mut L,
) -> Result<(), Stop>
    requires few { length input.now ≤ max_input }
    ensures tells { RunTells result
        (script_refused (came_styles (fold_since (L.up link.old) (L.down link.old) (L.up link.new) (L.down link.new)).fold)
        (map P.kind_of panels.items) input.now) }
    ensures stops { L.honest link.old → IsLevel (L.up link.old) → IsLevel (L.down link.old)
        → RunTells result (report_refused (map P.kind_of panels.items) input.now) }
    ensures honest { L.honest link.old → L.honest link.new }
    ensures cause { RunRose (two_counts (K.faults out.old) (K.faults out.new) (L.faults link.old) (L.faults link.new)) result }
    ensures refused { StopFolds result (fold_since (L.up link.old) (L.down link.old) (L.up link.new) (L.down link.new)) }
    ensures closes { OnOk result (EndsShown (K.taken out.old) (K.taken out.new)
        (fold_since (L.up link.old) (L.down link.old) (L.up link.new) (L.down link.new))) }
    ensures replies { OnOk result (AnswersInOrder (L.up link.old) (L.down link.old) (L.up link.new) (L.down link.new)) }
    ensures took { L.honest link.old → IsLevel (L.up link.old) → IsLevel (L.down link.old)
        → RunTook result (K.taken out.old) (K.taken out.new) (report (map P.kind_of panels.items) input.now) }
{
    let mut lines = Lines::new(input);
    let Some(first) = next_line(&mut lines) else {
        return Err(Stop::Line {
            number: 1,
            fault: LineFault::NotLoad,
        });
    };
    match read_load(alloc, first) {
        Ok(form) => run_loaded(alloc, panels, form, lines, out, link),
        Err(stop) => Err(stop),
    }
}
