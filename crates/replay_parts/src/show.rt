ghost use Rattle.std.specs.Prelude.{◌≡◌, ◌++◌, ◌∷◌, map, codes, OnOk, OnErr, IfOk, option_map, is_some, None, false};
ghost use Rattle.std.specs.Io.KnownBytes.{Appends};
ghost use Rattle.pipe_frames.specs.Whole.{WrotePart};
ghost use Rattle.front_mirror.specs.Outline.{outline_text, seen_line};
ghost use Rattle.node_tree.specs.Nodes.{alone};
ghost use Rattle.inspect_world.specs.ActTexts.{edit_fault_name, sheet_fault_name, act_fault_name, refused_line, act_text};
ghost use Rattle.inspect_world.specs.SheetTexts.{known_lines};
ghost use Rattle.inspect_world.specs.ShownPauses.{seen_pause_lines};
ghost use Rattle.inspect_world.specs.PanelTexts.{panels_text};
ghost use Rattle.inspect_world.specs.StylesTexts.{styles_headed};
ghost use Rattle.replay_script.specs.Script.{numbered_or, styles_missing};
ghost use Rattle.replay_parts.specs.Answers.{RunTook, RunTells};
ghost use Rattle.inspect_world.specs.Scripts.{page_line, styles_shown_headed};
ghost use Rattle.inspect_world.specs.ShownReplies.{reply_shown, told_line, told_lines};
ghost use Rattle.replay_parts.specs.Stops.{StopRose, RunRose, two_counts, GoesWell};
ghost use Rattle.replay_parts.specs.Printed.{PrintedSome};

use crate::page_lines::page_text;
use crate::panel_lines::panels_text;
use crate::pause_lines::pauses_text;
use crate::sheet_lines::sheets_text;
use crate::stop::Stop;
use crate::style_lines::styles_text;
use back_end::{ActFault, EditFault, SheetFault};
use cdp_messages::Matched;
use front_mirror::{Front, Kept, Mirror, Panel, SeenPause, write_outline};
use page_tree::Page;
use pipe_frames::{OutErr, Sink, write_all};
use replay_script::LineFault;
use std::alloc::{AllocError, Global};

/// Writes a heading and the outline of what the front end shows.
pub fn print_outline<K: Sink>(
    alloc: Global,
    heading: &str,
    mirror: &Mirror,
    out: &mut K,
) -> Result<(), Stop>
    ensures ok { OnOk result (Appends (K.taken out.old) (K.taken out.new)
        (heading.now ++ 10 ∷ outline_text seen_line mirror.now)) }
    ensures err { OnErr result (WrotePart (K.taken out.old) (K.taken out.new)
        (heading.now ++ 10 ∷ outline_text seen_line mirror.now)) }
    ensures never { GoesWell result }
    ensures cause { StopRose (two_counts (K.faults out.old) (K.faults out.new) 0 0) result }
{
    let text = outline_under(alloc, heading, mirror)?;
    match write_all(out, &text) {
        Ok(()) => Ok(()),
        Err(OutErr::Failed) => Err(Stop::WriteFault),
        Err(OutErr::Memory) => Err(Stop::Memory),
    }
}

fn outline_under(alloc: Global, heading: &str, mirror: &Mirror) -> Result<Vec<u8>, AllocError>
    ensures { IfOk result (λ text. text.items ≡ heading.now ++ 10 ∷ outline_text seen_line mirror.now) }
{
    let mut text = Vec::from_slice(alloc, heading.as_bytes())?;
    text.push(b'\n')?;
    write_outline(alloc, mirror, &mut text)?;
    Ok(text)
}

/// Appends `k TEXT` for a reply, or `- TEXT` where it has no id.
fn write_reply_line(alloc: Global, reply: &Kept, text: &mut Vec<u8>) -> Result<(), AllocError>
    ensures { OnOk result (text.new.items ≡ text.old.items ++ told_line (reply_shown reply.now)) }
{
    match reply.id {
        Some(id) => text.extend_from_slice(id.to_string(alloc)?.as_bytes())?,
        None => text.push(b'-')?,
    }
    text.push(b' ')?;
    text.extend_from_slice(reply.text.as_str().as_bytes())?;
    text.push(b'\n')?;
    Ok(())
}

fn replies_under(alloc: Global, heading: &str, replies: &[Kept]) -> Result<Vec<u8>, AllocError>
    ensures { IfOk result (λ text. text.items ≡ heading.now ++ 10 ∷ told_lines (map reply_shown replies.now)) }
{
    let mut text = Vec::from_slice(alloc, heading.as_bytes())?;
    text.push(b'\n')?;
    for reply in replies {
        write_reply_line(alloc, reply, &mut text)?;
    }
    Ok(text)
}

/// Writes a heading and the replies.
pub fn print_replies<K: Sink>(
    alloc: Global,
    heading: &str,
    replies: &[Kept],
    out: &mut K,
) -> Result<(), Stop>
    ensures ok { OnOk result (Appends (K.taken out.old) (K.taken out.new)
        (heading.now ++ 10 ∷ told_lines (map reply_shown replies.now))) }
    ensures err { OnErr result (WrotePart (K.taken out.old) (K.taken out.new)
        (heading.now ++ 10 ∷ told_lines (map reply_shown replies.now))) }
    ensures never { GoesWell result }
    ensures cause { StopRose (two_counts (K.faults out.old) (K.faults out.new) 0 0) result }
{
    let text = replies_under(alloc, heading, replies)?;
    match write_all(out, &text) {
        Ok(()) => Ok(()),
        Err(OutErr::Failed) => Err(Stop::WriteFault),
        Err(OutErr::Memory) => Err(Stop::Memory),
    }
}

/// Writes the outline of the page itself.
pub fn print_page<K: Sink>(alloc: Global, page: &Page, out: &mut K) -> Result<(), Stop>
    ensures ok { OnOk result (Appends (K.taken out.old) (K.taken out.new)
        (codes "# page" ++ 10 ∷ outline_text page_line (alone page.now.tree))) }
    ensures err { OnErr result (WrotePart (K.taken out.old) (K.taken out.new)
        (codes "# page" ++ 10 ∷ outline_text page_line (alone page.now.tree))) }
    ensures never { GoesWell result }
    ensures cause { StopRose (two_counts (K.faults out.old) (K.faults out.new) 0 0) result }
{
    let text = page_text(alloc, page)?;
    match write_all(out, &text) {
        Ok(()) => Ok(()),
        Err(OutErr::Failed) => Err(Stop::WriteFault),
        Err(OutErr::Memory) => Err(Stop::Memory),
    }
}

/// Writes a heading and the sheets that the front end knows.
pub fn print_sheets<P: Panel, K: Sink>(
    alloc: Global,
    heading: &str,
    front: &Front<P>,
    out: &mut K,
) -> Result<(), Stop>
    ensures ok { OnOk result (Appends (K.taken out.old) (K.taken out.new)
        (heading.now ++ 10 ∷ known_lines front.now.value.sheets)) }
    ensures err { OnErr result (WrotePart (K.taken out.old) (K.taken out.new)
        (heading.now ++ 10 ∷ known_lines front.now.value.sheets)) }
    ensures never { GoesWell result }
    ensures cause { StopRose (two_counts (K.faults out.old) (K.faults out.new) 0 0) result }
{
    let text = sheets_text(alloc, heading, front)?;
    match write_all(out, &text) {
        Ok(()) => Ok(()),
        Err(OutErr::Failed) => Err(Stop::WriteFault),
        Err(OutErr::Memory) => Err(Stop::Memory),
    }
}

/// Writes a heading and the pauses.
pub fn print_pauses<K: Sink>(
    alloc: Global,
    heading: &str,
    pauses: &[SeenPause],
    out: &mut K,
) -> Result<(), Stop>
    ensures ok { OnOk result (Appends (K.taken out.old) (K.taken out.new)
        (heading.now ++ 10 ∷ seen_pause_lines pauses.now)) }
    ensures err { OnErr result (WrotePart (K.taken out.old) (K.taken out.new)
        (heading.now ++ 10 ∷ seen_pause_lines pauses.now)) }
    ensures never { GoesWell result }
    ensures cause { StopRose (two_counts (K.faults out.old) (K.faults out.new) 0 0) result }
{
    let text = pauses_text(alloc, heading, pauses)?;
    match write_all(out, &text) {
        Ok(()) => Ok(()),
        Err(OutErr::Failed) => Err(Stop::WriteFault),
        Err(OutErr::Memory) => Err(Stop::Memory),
    }
}

/// Writes what the panels show that stand open. The front end is not dead.
pub fn print_panels<P: Panel, K: Sink>(
    alloc: Global,
    front: &Front<P>,
    out: &mut K,
) -> Result<(), Stop>
    ensures ok { front.now.dead ≡ false → OnOk result (Appends (K.taken out.old) (K.taken out.new)
        (codes "# panels" ++ 10 ∷ panels_text front.now.panels front.now.value.tree)) }
    ensures err { front.now.dead ≡ false → OnErr result (WrotePart (K.taken out.old) (K.taken out.new)
        (codes "# panels" ++ 10 ∷ panels_text front.now.panels front.now.value.tree)) }
    ensures some { OnOk result (PrintedSome (K.taken out.old) (K.taken out.new)) }
    ensures never { GoesWell result }
    ensures cause { StopRose (two_counts (K.faults out.old) (K.faults out.new) 0 0) result }
{
    let text = panels_text(alloc, front)?;
    match write_all(out, &text) {
        Ok(()) => Ok(()),
        Err(OutErr::Failed) => Err(Stop::WriteFault),
        Err(OutErr::Memory) => Err(Stop::Memory),
    }
}

/// Writes the matched styles that the reply to the ask told, under a heading that ends in `behind`.
fn print_styles<K: Sink>(
    alloc: Global,
    ask: u64,
    behind: &str,
    matched: &Matched,
    out: &mut K,
) -> Result<(), Stop>
    ensures ok { OnOk result (Appends (K.taken out.old) (K.taken out.new) (styles_headed behind.now ask matched.now)) }
    ensures err { OnErr result (WrotePart (K.taken out.old) (K.taken out.new) (styles_headed behind.now ask matched.now)) }
    ensures never { GoesWell result }
    ensures cause { StopRose (two_counts (K.faults out.old) (K.faults out.new) 0 0) result }
{
    let text = styles_text(alloc, ask, behind, matched)?;
    match write_all(out, &text) {
        Ok(()) => Ok(()),
        Err(OutErr::Failed) => Err(Stop::WriteFault),
        Err(OutErr::Memory) => Err(Stop::Memory),
    }
}

/// The same for the line of that number, which is refused where no reply told them.
pub fn print_matched<K: Sink>(
    alloc: Global,
    number: u64,
    ask: u64,
    behind: &str,
    matched: Option<&Matched>,
    out: &mut K,
) -> Result<(), Stop>
    ensures took { RunTook result (K.taken out.old) (K.taken out.new)
        (styles_shown_headed behind.now ask (option_map (λ m. m.now) matched.entry)) }
    ensures tells { RunTells result (numbered_or number (styles_missing (is_some (option_map (λ m. m.now) matched.entry))) None) }
    ensures some { OnOk result (PrintedSome (K.taken out.old) (K.taken out.new)) }
    ensures never { GoesWell result }
    ensures cause { RunRose (two_counts (K.faults out.old) (K.faults out.new) 0 0) result }
{
    match matched {
        Some(matched) => print_styles(alloc, ask, behind, matched, out),
        None => Err(Stop::Line {
            number,
            fault: LineFault::NoStyles,
        }),
    }
}

/// Writes why the act of the line of that number is refused, where it is.
pub fn print_fault<K: Sink>(
    alloc: Global,
    number: u64,
    fault: Option<ActFault>,
    out: &mut K,
) -> Result<(), Stop>
    ensures ok { OnOk result (Appends (K.taken out.old) (K.taken out.new) (act_text number fault)) }
    ensures err { OnErr result (WrotePart (K.taken out.old) (K.taken out.new) (act_text number fault)) }
    ensures never { GoesWell result }
    ensures cause { StopRose (two_counts (K.faults out.old) (K.faults out.new) 0 0) result }
{
    match fault {
        Some(fault) => print_refusal(alloc, number, fault, out),
        None => Ok(()),
    }
}

fn print_refusal<K: Sink>(
    alloc: Global,
    number: u64,
    fault: ActFault,
    out: &mut K,
) -> Result<(), Stop>
    ensures ok { OnOk result (Appends (K.taken out.old) (K.taken out.new) (refused_line number fault)) }
    ensures err { OnErr result (WrotePart (K.taken out.old) (K.taken out.new) (refused_line number fault)) }
    ensures never { GoesWell result }
    ensures cause { StopRose (two_counts (K.faults out.old) (K.faults out.new) 0 0) result }
{
    let text = refusal_text(alloc, number, fault)?;
    match write_all(out, &text) {
        Ok(()) => Ok(()),
        Err(OutErr::Failed) => Err(Stop::WriteFault),
        Err(OutErr::Memory) => Err(Stop::Memory),
    }
}

fn refusal_text(alloc: Global, number: u64, fault: ActFault) -> Result<Vec<u8>, AllocError>
    ensures { IfOk result (λ text. text.items ≡ refused_line number fault) }
{
    let mut text = Vec::from_slice(alloc, b"line ")?;
    text.extend_from_slice(number.to_string(alloc)?.as_bytes())?;
    text.extend_from_slice(b": act refused: ")?;
    text.extend_from_slice(fault_word(fault).as_bytes())?;
    text.push(b'\n')?;
    Ok(text)
}

/// The name of a fault, as a refused act prints it.
fn fault_word(fault: ActFault) -> &'static str
    ensures { result.now ≡ act_fault_name fault }
{
    match fault {
        ActFault::Edit(fault) => edit_word(fault),
        ActFault::Sheet(fault) => sheet_word(fault),
    }
}

/// The name of a fault of a change of the sheets.
fn sheet_word(fault: SheetFault) -> &'static str
    ensures { result.now ≡ sheet_fault_name fault }
{
    match fault {
        SheetFault::NoSheet => "NoSheet",
        SheetFault::NotMutable => "NotMutable",
        SheetFault::BadRange => "BadRange",
        SheetFault::BadText => "BadText",
        SheetFault::BadSelector => "BadSelector",
        SheetFault::BadPlace => "BadPlace",
        SheetFault::TooBig => "TooBig",
    }
}

/// The name of a fault of an edit of the nodes.
fn edit_word(fault: EditFault) -> &'static str
    ensures { result.now ≡ edit_fault_name fault }
{
    match fault {
        EditFault::NoNode => "NoNode",
        EditFault::NotElement => "NotElement",
        EditFault::NotText => "NotText",
        EditFault::IsDocument => "IsDocument",
        EditFault::NotChild => "NotChild",
        EditFault::Inside => "Inside",
        EditFault::TooDeep => "TooDeep",
        EditFault::TooMany => "TooMany",
        EditFault::BadName => "BadName",
        EditFault::NoAttr => "NoAttr",
        EditFault::NotContainer => "NotContainer",
    }
}
