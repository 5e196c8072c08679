// The other client of the page: what it is told while a frame of the first is served, or a script changes the page.
ghost use Rattle.std.specs.Prelude.{◌≡◌, ◌++◌, [], OnOk};
ghost use Rattle.cdp_messages.specs.Events.{news_of};
ghost use Rattle.back_end.specs.Guests.{IsTold, changed_frames, sheet_news, HearsSplices, LeavesPage, ComesToPage};

use crate::seat::Seat;
use cdp_messages::Event;
use css_agent::CssAgent;
use sheet_reader::SheetBook;
use std::alloc::AllocError;
use style_edits::Splice;

/// The seat of the other client, and what it is told, as frames.
#[derive(Drop)]
pub(crate) struct Guest {
    pub(crate) seat: Seat,
    pub(crate) out: Vec<u8>,
}

/// The guest, if there is one, is told nothing of a change of the page; but what it kept of its edits is gone.
pub(crate) fn cross_guest(guest: &mut Option<Guest>)
    ensures { IsTold guest.old guest.new (λ g. []) }
{
    match guest {
        Some(guest) => guest.seat.history.cross(),
        None => {}
    }
}

/// The guest, if there is one, is told of an event of a sheet while its CSS is on, and what it kept of its edits is gone.
pub(crate) fn tell_guest(guest: &mut Option<Guest>, event: &Event) -> Result<(), AllocError>
    ensures { OnOk result (IsTold guest.old guest.new (sheet_news (news_of event.now))) }
{
    match guest {
        Some(guest) => {
            guest.seat.desk.css.tell(event, &mut guest.out)?;
            guest.seat.history.cross();
            Ok(())
        }
        None => Ok(()),
    }
}

/// Tells splices that were made, each by the splice that leads back, while CSS is on.
fn tell_splices(css: &CssAgent, backs: &[Splice], out: &mut Vec<u8>) -> Result<(), AllocError>
    ensures { OnOk result (out.new.items ≡ out.old.items ++ changed_frames css.now backs.now) }
{
    for i in 0..backs.len() {
        let back = &backs[i];
        let event = Event::StyleSheetChanged { sheet: back.sheet };
        css.tell(&event, out)?;
    }
    Ok(())
}

/// The guest, if there is one, is told of splices that another client made, each by the splice that leads back. Where there are some,
/// what it kept of its edits is gone.
pub(crate) fn tell_guest_splices(
    guest: &mut Option<Guest>,
    backs: &[Splice],
) -> Result<(), AllocError>
    ensures { OnOk result (HearsSplices guest.old guest.new backs.now) }
{
    if backs.is_empty() {
        return Ok(());
    }
    match guest {
        Some(guest) => {
            tell_splices(&guest.seat.desk.css, backs, &mut guest.out)?;
            guest.seat.history.cross();
            Ok(())
        }
        None => Ok(()),
    }
}

/// The page goes: the guest, if there is one, is told, and knows nothing any more.
pub(crate) fn leave_guest(guest: &mut Option<Guest>, book: &SheetBook) -> Result<(), AllocError>
    ensures { OnOk result (LeavesPage guest.old guest.new book.now) }
{
    match guest {
        Some(guest) => {
            guest.seat.desk.leave(book, &mut guest.out)?;
            guest.seat.history.clear();
            Ok(())
        }
        None => Ok(()),
    }
}

/// Another page has come: the guest, if there is one, is told of its sheets.
pub(crate) fn welcome_guest(guest: &mut Option<Guest>, book: &SheetBook) -> Result<(), AllocError>
    ensures { OnOk result (ComesToPage guest.old guest.new book.now) }
{
    match guest {
        Some(guest) => guest.seat.desk.tell_come(book, &mut guest.out),
        None => Ok(()),
    }
}
