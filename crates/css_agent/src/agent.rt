ghost use Rattle.std.specs.Prelude.{◌≡◌, ◌++◌, [], ◌∷◌, false, Ok, Err, IfOk, OnOk, OnErr};
ghost use Rattle.client_views.specs.Moves.{frames_of_moves};
ghost use Rattle.cdp_messages.specs.Events.{news_of};
ghost use Rattle.style_edits.specs.Edits.{IfFault};
ghost use Rattle.css_agent.specs.Told.{turn_messages, event_messages};
ghost use Rattle.cdp_messages.specs.Replies.{message_frames};
ghost use Rattle.css_agent.specs.Asks.{NodeIsThere, styled_page, css_outcome, answer_move};
ghost use Rattle.css_agent.specs.Edits.{css_edited, edit_splices, edit_moves};

use crate::edit_outcomes::{Done, css_edited};
use crate::frames::{answer, tell_edit, tell_sheets_if};
use crate::outcomes::css_outcome;
use cdp_messages::{CssAsk, CssEdit, Event, write_event};
use media_rules::Medium;
use page_tree::Page;
use sheet_reader::SheetBook;
use std::alloc::{AllocError, Global};
use std::marker::Model;
use style_edits::{SheetErr, Splice};

/// Serves the commands of the domain CSS. It knows whether the domain is on; contracts see that alone.
#[derive(Drop)]
pub struct CssAgent {
    alloc: Global,
    on: bool,
}

impl Model for CssAgent {
    ghost use Rattle.std.specs.Prelude.{Bool};

    ghost Value = { Bool };

    ghost view = { λ a. a.on };
}

impl CssAgent {
    /// The domain is off. Takes no memory.
    pub fn new(alloc: Global) -> CssAgent
        ensures { result ≡ false }
    {
        CssAgent { alloc, on: false }
    }

    /// Whether the domain is on.
    pub fn is_on(&self) -> bool
        ensures { result ≡ self.now }
    {
        self.on
    }

    /// Turns the domain on or off. Where it was off and comes on, appends a `CSS.styleSheetAdded` for each sheet of the book, in
    /// order. After want of memory it is as it was, and nothing is said of `out`.
    pub fn switch(
        &mut self,
        on: bool,
        book: &SheetBook,
        out: &mut Vec<u8>,
    ) -> Result<(), AllocError>
        ensures on { OnOk result (self.new ≡ on) }
        ensures sent { OnOk result (out.new.items ≡ out.old.items ++ message_frames (turn_messages self.old on book.now)) }
        ensures unchanged { OnErr result (self.new ≡ self.old) }
    {
        let comes = on && !self.on;
        tell_sheets_if(self.alloc, comes, book, out)?;
        self.on = on;
        Ok(())
    }

    /// Appends the event where the domain is on, and nothing where it is off.
    pub fn tell(&self, event: &Event, out: &mut Vec<u8>) -> Result<(), AllocError>
        ensures sent { OnOk result (out.new.items ≡ out.old.items ++ message_frames (event_messages self.now (news_of event.now))) }
        ensures unsent { OnErr result (out.new.items ≡ out.old.items) }
    {
        if !self.on {
            return Ok(());
        }
        write_event(self.alloc, event, out)
    }

    /// Appends what answers the command, which has that id: the reply, or the error reply where it is refused. Where the command
    /// names a node, `node` is its serial. Rules count where every media rule around them holds of the medium.
    pub fn ask(
        &self,
        page: &Page,
        book: &SheetBook,
        node: u64,
        id: u64,
        ask: &CssAsk,
        out: &mut Vec<u8>,
        medium: &Medium,
    ) -> Result<(), AllocError>
        requires { NodeIsThere node page.now.tree ask.now }
        ensures { OnOk result (out.new.items
            ≡ out.old.items ++ frames_of_moves
            (answer_move id (css_outcome (styled_page page.now.tree book.now medium.now) node ask.now) ∷ [])) }
    {
        let outcome = css_outcome(self.alloc, page, book, node, ask, medium)?;
        answer(self.alloc, id, outcome, out)
    }

    /// Carries the edit out, and appends what tells of it: a `CSS.styleSheetChanged` for each splice, and the reply to the command
    /// with that id. Answers the splices that lead back, in the order of the edits. A fault changes nothing and appends nothing:
    /// the caller writes the refusal. After want of memory nothing is said of the book and of `out`.
    pub fn edit(
        &self,
        book: &mut SheetBook,
        id: u64,
        edit: &CssEdit,
        out: &mut Vec<u8>,
    ) -> Result<Vec<Splice>, SheetErr>
        ensures done { IfOk result (λ backs. edit_splices (css_edited book.old edit.now) ≡ Ok (book.new, backs.items)) }
        ensures sent { OnOk result (out.new.items ≡ out.old.items ++ frames_of_moves (edit_moves id book.old edit.now)) }
        ensures fault { IfFault result (λ f. css_edited book.old edit.now ≡ Err f) }
        ensures unchanged { IfFault result (λ f. book.new ≡ book.old) }
        ensures unsent { IfFault result (λ f. out.new.items ≡ out.old.items) }
    {
        let done = match css_edited(self.alloc, book, edit) {
            Ok(done) => done,
            Err(stop) => return Err(stop),
        };
        let Done { backs, body } = done;
        tell_edit(self.alloc, id, backs.as_slice(), body, out)?;
        Ok(backs)
    }
}
