// Messages as they are sent.
ghost use Rattle.std.specs.Prelude.{◌≡◌, ◌++◌, cond, [], ◌∷◌, map, OnOk};
ghost use Rattle.cdp_messages.specs.Events.{sheet_changed};
ghost use Rattle.client_views.specs.Moves.{replied, frames_of_moves};
ghost use Rattle.cdp_messages.specs.Replies.{event, message_frames};
ghost use Rattle.sheet_reader.specs.Books.{IsEntry};
ghost use Rattle.css_agent.specs.Told.{added_message, changed_message};
ghost use Rattle.css_agent.specs.Asks.{answer_move};

use crate::headers::told_header;
use cdp_messages::{Event, Refused, ReplyBody, Why, write_event, write_refused, write_reply};
use sheet_reader::{SheetBook, SheetEntry};
use std::alloc::{AllocError, Global};
use style_edits::Splice;

fn tell_sheet(alloc: Global, entry: &SheetEntry, out: &mut Vec<u8>) -> Result<(), AllocError>
    requires { IsEntry entry.now }
    ensures { OnOk result (out.new.items ≡ out.old.items ++ message_frames (added_message entry.now ∷ [])) }
{
    let header = told_header(entry);
    write_event(alloc, &Event::StyleSheetAdded { header }, out)?;
    Ok(())
}

fn tell_sheets(alloc: Global, book: &SheetBook, out: &mut Vec<u8>) -> Result<(), AllocError>
    ensures { OnOk result (out.new.items ≡ out.old.items ++ message_frames (map added_message book.now)) }
{
    for i in 0..book.len() {
        tell_sheet(alloc, book.at(i), out)?;
    }
    Ok(())
}

/// Appends a `CSS.styleSheetAdded` for each sheet of the book, in order, where the domain comes on.
pub(crate) fn tell_sheets_if(
    alloc: Global,
    comes: bool,
    book: &SheetBook,
    out: &mut Vec<u8>,
) -> Result<(), AllocError>
    ensures { OnOk result (out.new.items ≡ out.old.items ++ message_frames (cond comes (map added_message book.now) [])) }
{
    if comes {
        tell_sheets(alloc, book, out)?;
    }
    Ok(())
}

/// Appends the reply, or the error reply.
pub(crate) fn answer(
    alloc: Global,
    id: u64,
    outcome: Result<ReplyBody, Why>,
    out: &mut Vec<u8>,
) -> Result<(), AllocError>
    ensures { OnOk result (out.new.items ≡ out.old.items ++ frames_of_moves (answer_move id outcome ∷ [])) }
{
    match outcome {
        Ok(body) => tell_result(alloc, id, body, out),
        Err(why) => write_refused(alloc, &Refused { id: Some(id), why }, out),
    }
}

fn tell_change(alloc: Global, sheet: u64, out: &mut Vec<u8>) -> Result<(), AllocError>
    ensures { OnOk result (out.new.items ≡ out.old.items ++ message_frames (event (sheet_changed sheet) ∷ [])) }
{
    write_event(alloc, &Event::StyleSheetChanged { sheet }, out)?;
    Ok(())
}

/// Appends a `CSS.styleSheetChanged` for each splice.
fn tell_changes(alloc: Global, backs: &[Splice], out: &mut Vec<u8>) -> Result<(), AllocError>
    ensures { OnOk result (out.new.items ≡ out.old.items ++ message_frames (map changed_message backs.now)) }
{
    for back in backs {
        tell_change(alloc, back.sheet, out)?;
    }
    Ok(())
}

/// Appends the reply.
fn tell_result(alloc: Global, id: u64, body: ReplyBody, out: &mut Vec<u8>) -> Result<(), AllocError>
    ensures { OnOk result (out.new.items ≡ out.old.items ++ frames_of_moves (replied id body ∷ [])) }
{
    write_reply(alloc, id, &body, out)
}

/// Appends a `CSS.styleSheetChanged` for each splice, and the reply.
pub(crate) fn tell_edit(
    alloc: Global,
    id: u64,
    backs: &[Splice],
    body: ReplyBody,
    out: &mut Vec<u8>,
) -> Result<(), AllocError>
    ensures { OnOk result (out.new.items
        ≡ (out.old.items ++ message_frames (map changed_message backs.now)) ++ frames_of_moves (replied id body ∷ [])) }
{
    tell_changes(alloc, backs, out)?;
    tell_result(alloc, id, body, out)
}
