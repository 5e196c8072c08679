// The lines of a script with two front ends, with their numbers.
ghost use Rattle.std.specs.Prelude.{◌≡◌, ◌∷◌, [], Some, None, option_map, IfOk, IfSome, IsNone};
ghost use Rattle.page_forms.specs.Pages.{CanLoadPage, loaded_page};
ghost use Rattle.replay_script.specs.Forms.{load};
ghost use Rattle.replay_script.specs.Seen.{seen};
ghost use Rattle.replay_script.specs.Sound.{FitsPage, AreWhole};
ghost use Rattle.replay_script.specs.PairLines.{of_first, pair_line_form, pair_line_fault};
ghost use Rattle.replay_script.specs.PairSeen.{pair_seen, HoldsOfLine, IsPairSound};
ghost use Rattle.replay_script.specs.declared.faults.LineFault.TheVariants.{BadSession};
ghost use Rattle.pair_world.specs.PairScripts.{page_loaded_by, pair_page};
ghost use Rattle.replay_parts.specs.declared.stop.Stop.TheVariants.{Line as RefusedLine};
ghost use Rattle.replay_parts.specs.Reads.{IsRead};

use back_end::PageForm;
use replay_parts::Stop;
use replay_script::{Line, LineErr, LineFault, Lines, PairLine, read_pair_line};
use std::alloc::Global;

/// Takes the next line of the script, where one is left.
pub(crate) fn next_line<'a>(lines: &mut Lines<'a>) -> Option<&'a [u8]>
    ensures none { IsNone result → lines.old ≡ [] }
    ensures some { IfSome result (λ line. lines.old ≡ line.now ∷ lines.new) }
{
    lines.next()
}

/// Reads the line of that number.
pub(crate) fn read(alloc: Global, number: u64, text: &[u8]) -> Result<PairLine, Stop>
    ensures good { IfOk result (λ _. pair_line_fault number text.now ≡ None) }
    ensures form { IfOk result (λ line. pair_line_form text.now ≡ Some (pair_seen line)) }
    ensures bad { IsRead result number (pair_line_fault number text.now) }
    ensures sound { IfOk result (λ line. IsPairSound (pair_seen line)) }
    ensures fits { IfOk result (HoldsOfLine FitsPage) }
    ensures whole { IfOk result (HoldsOfLine AreWhole) }
{
    match read_pair_line(alloc, number, text) {
        Ok(line) => Ok(line),
        Err(LineErr::Fault(fault)) => Err(Stop::Line { number, fault }),
        Err(LineErr::Memory) => Err(Stop::Memory),
    }
}

// The page of a line of any script that loads one.
fn page_of(line: Line) -> Option<PageForm>
    ensures { option_map loaded_page result ≡ page_loaded_by (seen line) }
{
    match line {
        Line::Load(page) => Some(page),
        Line::Act(_)
        | Line::Ask(_)
        | Line::Raw(_)
        | Line::Up(_)
        | Line::Down(_)
        | Line::Settle
        | Line::ShowFront
        | Line::ShowPage
        | Line::ShowSheets
        | Line::ShowReplies
        | Line::ShowPauses
        | Line::ShowPanels
        | Line::ShowStyles(_)
        | Line::Close(_) => None,
    }
}

/// The page of a line that loads one.
fn load_of(line: PairLine) -> Option<PageForm>
    ensures { option_map loaded_page result ≡ pair_page (pair_seen line) }
{
    match line {
        PairLine::First(line) => page_of(line),
        PairLine::Second(_) | PairLine::Attach | PairLine::Detach => None,
    }
}

/// Reads the first line of a script, which loads a page.
pub(crate) fn read_load(alloc: Global, text: &[u8]) -> Result<PageForm, Stop>
    ensures good { IfOk result (λ _. pair_line_fault 1 text.now ≡ None) }
    ensures form { IfOk result (λ page. pair_line_form text.now ≡ Some (of_first (load (loaded_page page)))) }
    ensures bad { IsRead result 1 (pair_line_fault 1 text.now) }
    ensures can { IfOk result (λ page. CanLoadPage (loaded_page page)) }
{
    match read(alloc, 1, text) {
        Ok(line) => match load_of(line) {
            Some(page) => Ok(page),
            None => unreachable!(),
        },
        Err(stop) => Err(stop),
    }
}

/// The line of that number is refused: it names a front end that does not stand, or attaches one where one stands.
pub(crate) fn bad_session(number: u64) -> Stop
    ensures { result ≡ RefusedLine number BadSession }
{
    Stop::Line {
        number,
        fault: LineFault::BadSession,
    }
}
