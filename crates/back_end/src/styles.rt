// The commands of the domain CSS.
ghost use Rattle.std.specs.Prelude.{◌≡◌, ◌++◌, IfOk, IsSome, OnOk, true};
ghost use Rattle.std.specs.FinMap as map;
ghost use Rattle.node_tree.specs.Nodes.{alone};
ghost use Rattle.page_tree.specs.Pages.{find_in};
ghost use Rattle.shown_pages.specs.ShownPages.{shown_page};
ghost use Rattle.client_views.specs.Moves.{frames_of_moves};
ghost use Rattle.cdp_messages.specs.declared.css_ask.CssAsk.TheVariants.{GetMatchedStyles};
ghost use Rattle.dom_agent.specs.Keepers.{binding_keeper};
ghost use Rattle.dom_agent.specs.Requests.{known_node};
ghost use Rattle.back_end.specs.States.{State};
ghost use Rattle.cdp_messages.specs.declared.command.Command.TheVariants as commands;
ghost use Rattle.back_end.specs.Steps.{command_step, css_step, element_serial};
ghost use Rattle.back_end.specs.Seats.{DeskStandsFor};

use crate::desk::Desk;
use crate::side::PageSide;
use cdp_messages::{CssAsk, ReplyBody, Why, write_reply};
use page_tree::Page;
use shown_pages::{ShownNode, shown_law};
use std::alloc::AllocError;

impl Desk {
    /// `CSS.enable`: each sheet comes, where CSS was off.
    pub(crate) fn enable_css(
        &mut self,
        side: &PageSide,
        id: u64,
        out: &mut Vec<u8>,
    ) -> Result<(), AllocError>
        requires on { self.old.is_on ≡ true }
        ensures stands { (state : State) → DeskStandsFor self.old side.now state
            → OnOk result (DeskStandsFor self.new side.now (command_step id commands.CssEnable state).state) }
        ensures sent { (state : State) → DeskStandsFor self.old side.now state
            → OnOk result (out.new.items ≡ out.old.items ++ frames_of_moves (command_step id commands.CssEnable state).moves) }
    {
        self.css.switch(true, side.book(), out)?;
        write_reply(self.alloc, id, &ReplyBody::Nothing, out)
    }

    /// `CSS.disable`
    pub(crate) fn disable_css(
        &mut self,
        side: &PageSide,
        id: u64,
        out: &mut Vec<u8>,
    ) -> Result<(), AllocError>
        requires on { self.old.is_on ≡ true }
        requires css { self.old.css ≡ true }
        ensures stands { (state : State) → DeskStandsFor self.old side.now state
            → OnOk result (DeskStandsFor self.new side.now (command_step id commands.CssDisable state).state) }
        ensures sent { (state : State) → DeskStandsFor self.old side.now state
            → OnOk result (out.new.items ≡ out.old.items ++ frames_of_moves (command_step id commands.CssDisable state).moves) }
    {
        write_reply(self.alloc, id, &ReplyBody::Nothing, out)?;
        self.css.switch(false, side.book(), out)
    }

    /// The serial of the known node that has the id, where it is an element. A known node is one that is shown.
    fn element_named(&self, page: &Page, node: u64) -> Result<u64, Why>
        ensures value { result ≡ element_serial
            (known_node (binding_keeper (alone (shown_page self.now.agent.mode page.now).tree))
            (shown_page self.now.agent.mode page.now).tree
            self.now.agent (map.get self.now.agent.serials node)) }
        ensures there { IfOk result (λ serial. IsSome (find_in serial page.now.tree)) }
    {
        let Some(serial) = self.agent.serial_of(node) else {
            return Err(Why::UnknownNode);
        };
        page.valid();
        shown_law();
        let Some(found) = ShownNode::find(page, serial, self.agent.mode()) else {
            return Err(Why::UnknownNode);
        };
        if !found.kind().is_element() {
            return Err(Why::NotElement);
        }
        Ok(serial)
    }

    /// `CSS.getMatchedStylesForNode`, while CSS is on.
    fn answer_matched(
        &self,
        side: &PageSide,
        id: u64,
        node: u64,
        out: &mut Vec<u8>,
    ) -> Result<(), AllocError>
        ensures { (state : State) → DeskStandsFor self.now side.now state
            → OnOk result (out.new.items ≡ out.old.items ++ frames_of_moves (css_step id (GetMatchedStyles node) state).moves) }
    {
        let ask = CssAsk::GetMatchedStyles { node };
        match self.element_named(side.page(), node) {
            Ok(serial) => self.css.ask(
                side.page(),
                side.book(),
                serial,
                id,
                &ask,
                out,
                side.medium(),
            ),
            Err(why) => self.refuse(id, why, out),
        }
    }

    /// What the CSS agent is asked, while CSS is on.
    fn ask_styles(
        &self,
        side: &PageSide,
        id: u64,
        ask: &CssAsk,
        out: &mut Vec<u8>,
    ) -> Result<(), AllocError>
        ensures { (state : State) → DeskStandsFor self.now side.now state
            → OnOk result (out.new.items ≡ out.old.items ++ frames_of_moves (css_step id ask.now state).moves) }
    {
        match ask {
            CssAsk::GetMatchedStyles { node } => self.answer_matched(side, id, *node, out),
            CssAsk::GetStyleSheetText { .. } | CssAsk::CollectClassNames { .. } => {
                self.css
                    .ask(side.page(), side.book(), 0, id, ask, out, side.medium())
            }
        }
    }

    /// What the CSS agent is asked.
    pub(crate) fn answer_styles(
        &mut self,
        side: &PageSide,
        id: u64,
        ask: &CssAsk,
        out: &mut Vec<u8>,
    ) -> Result<(), AllocError>
        requires on { self.old.is_on ≡ true }
        requires css { self.old.css ≡ true }
        ensures stands { (state : State) → DeskStandsFor self.old side.now state
            → OnOk result (DeskStandsFor self.new side.now (command_step id (commands.AskCss ask.now) state).state) }
        ensures sent { (state : State) → DeskStandsFor self.old side.now state
            → OnOk result (out.new.items ≡ out.old.items ++ frames_of_moves (command_step id (commands.AskCss ask.now) state).moves) }
    {
        self.ask_styles(side, id, ask, out)
    }
}
