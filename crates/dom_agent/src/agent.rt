ghost use Rattle.std.specs.Prelude.{◌≤◌, ◌+◌, ◌≡◌, [], ◌∷◌, ◌++◌, ◌<◌, pos, true, Some, None, unwrap_or, IsSome, OnOk, IfOk};
ghost use Rattle.std.specs.FinMap as map;
ghost use Rattle.node_tree.specs.Numbers.{drawn_before_call, drawn_before_nodes, drawn_by_push};
ghost use Rattle.node_tree.specs.Nodes.{alone};
ghost use Rattle.page_tree.specs.Pages.{find_in};
ghost use Rattle.page_tree.specs.Edits.{after, back_tree};
ghost use Rattle.page_tree.specs.EditFaults.{first_fault, IsReady, RefusesEdit};
ghost use Rattle.node_binding.specs.Openings.{IsDepth, levels_of};
ghost use Rattle.shown_pages.specs.ShownPages.{shown_page};
ghost use Rattle.shown_pages.specs.ShownEdits.{shown_edit};
ghost use Rattle.node_binding.specs.Bindings.{empty_from, in_mode, KnowsNothing, cleared, id_in, opened_in};
ghost use Rattle.cdp_messages.specs.DomAsks.{fits_ask};
ghost use Rattle.cdp_messages.specs.declared.dom_ask.DomAsk.TheVariants.{GetDocument, RequestChildNodes, PushByPath, PushBySerials};
ghost use Rattle.cdp_messages.specs.declared.dom_ask.DomAsk.TheVariants.{QuerySelector, QuerySelectorAll, GetAttributes, DescribeNode};
ghost use Rattle.client_views.specs.Moves.{replied, failed, frames_of_moves};
ghost use Rattle.dom_agent.specs.Keepers.{binding_keeper};
ghost use Rattle.dom_agent.specs.Queries.{query_seen};
ghost use Rattle.dom_agent.specs.Requests.{state_after, answer, named_serial, frames_told};
ghost use Rattle.dom_agent.specs.InCode.{node_pushed, nodes_pushed, with_node, with_nodes, node_known, first_of, all_of};
ghost use Rattle.dom_agent.specs.InCode.{agent_outcome};
ghost use Rattle.dom_agent.specs.Laws.{binding_outcome};
ghost use Rattle.dom_agent.specs.Edits.{OnFault};
ghost use Rattle.dom_agent.specs.ModeEdits.{shown_binding_edited};
ghost use Rattle.dom_agent.specs.Foresight.{IsForeseen, HasCome, kept_after, frames_after};

use crate::described::tell_described;
use crate::foresight::{Foreseen, foresee, tell_foreseen};
use crate::openings::request_node;
use crate::paths::node_at_path;
use crate::pushes::{open_above, push_all};
use crate::queries::{Query, QueryErr, read_query};
use crate::serving::{open_all, open_document};
use cdp_messages::{DomAsk, Numbers, Refused, ReplyBody, Why, write_refused, write_reply};
use node_binding::{Binding, capped, levels_of};
use page_tree::{EditErr, Page, TreeEdit};
use select_match::{all_matches, first_match};
use shown_pages::{Mode, ShownNode};
use std::alloc::{AllocError, Global};
use std::marker::Model;

/// Serves the DOM commands that edit nothing. It has the binding of its session.
#[derive(Drop)]
pub struct DomAgent {
    alloc: Global,
    binding: Binding,
}

impl Model for DomAgent {
    ghost use Rattle.node_binding.specs.Bindings.{BindingValue, coded_bound};

    ghost Value = { BindingValue };

    ghost coded = { coded_bound };

    ghost view = { λ a. a.binding };
}

impl DomAgent {
    /// Nothing is known, the first id is 1, and the mode is `All`. Takes no memory.
    pub fn new(alloc: Global) -> DomAgent
        ensures { result ≡ empty_from 1 }
    {
        DomAgent {
            alloc,
            binding: Binding::new(alloc),
        }
    }

    /// What the client is shown of the page.
    pub fn mode(&self) -> Mode
        ensures { result ≡ self.now.mode }
    {
        self.binding.mode()
    }

    /// Another mode, while nothing is known. Writes nothing.
    pub fn set_mode(&mut self, mode: Mode)
        requires { KnowsNothing self.old }
        ensures { self.new ≡ in_mode mode self.old }
    {
        self.binding.set_mode(mode);
    }

    /// Carries the command out, and appends the frames that answer it to `out`, with the id of the command's frame: the reply last,
    /// but for a document's, behind which events tell what lies deeper than one message tells. What the command's own row of
    /// refusals names is answered by an error reply, and changes nothing.
    pub fn ask(
        &mut self,
        page: &Page,
        id: u64,
        ask: &DomAsk,
        out: &mut Vec<u8>,
    ) -> Result<(), AllocError>
        requires ask { fits_ask ask.now ≡ true }
        requires room { self.old.next < drawn_before_call }
        requires few { (state_after self.old
            (binding_outcome (shown_page self.old.mode page.now) page.now.tree ask.now self.old)).next < drawn_before_nodes }
        ensures known { OnOk result
            (self.new ≡ state_after self.old (binding_outcome (shown_page self.old.mode page.now) page.now.tree ask.now self.old)) }
        ensures sent { OnOk result
            (out.new.items ≡ out.old.items
            ++ answer id (binding_outcome (shown_page self.old.mode page.now) page.now.tree ask.now self.old)) }
    {
        match ask {
            DomAsk::GetDocument { depth, pierce: _ } => { self.get_document(page, id, *depth, out) }
            DomAsk::RequestChildNodes {
                node,
                depth,
                pierce: _,
            } => self.request_child_nodes(page, id, *node, *depth, out),
            DomAsk::PushByPath { path } => self.push_by_path(page, id, path.as_str(), out),
            DomAsk::PushBySerials { serials } => {
                self.push_by_serials(page, id, serials.as_slice(), out)
            }
            DomAsk::QuerySelector { node, selector } => {
                self.query_selector(page, id, *node, selector.as_str(), out)
            }
            DomAsk::QuerySelectorAll { node, selector } => {
                self.query_selector_all(page, id, *node, selector.as_str(), out)
            }
            DomAsk::GetAttributes { node } => self.get_attributes(page, id, *node, out),
            DomAsk::DescribeNode {
                node,
                serial,
                depth,
                pierce: _,
            } => self.describe_node(page, id, *node, *serial, *depth, out),
        }
    }

    fn get_document(
        &mut self,
        page: &Page,
        id: u64,
        depth: Option<i64>,
        out: &mut Vec<u8>,
    ) -> Result<(), AllocError>
        requires depth { IsDepth (unwrap_or depth (pos 1)) }
        requires room { self.old.next < drawn_before_call }
        ensures known { OnOk result
            (self.new ≡ state_after self.old (agent_outcome page.now (GetDocument depth None) self.old)) }
        ensures sent { OnOk result
            (out.new.items ≡ out.old.items
            ++ answer id (agent_outcome page.now (GetDocument depth None) self.old)) }
    {
        open_document(
            self.alloc,
            &mut self.binding,
            page,
            levels_asked(depth),
            id,
            out,
        )
    }

    /// The known node that has the id.
    fn node_of<'a>(&self, page: &'a Page, id: u64) -> Option<ShownNode<'a>>
        ensures { result
            ≡ node_known (shown_page self.now.mode page.now).tree self.now (map.get self.now.serials id) }
    {
        let serial = self.serial_of(id)?;
        ShownNode::find(page, serial, self.mode())
    }

    fn request_child_nodes(
        &mut self,
        page: &Page,
        id: u64,
        node: u64,
        depth: Option<i64>,
        out: &mut Vec<u8>,
    ) -> Result<(), AllocError>
        requires depth { IsDepth (unwrap_or depth (pos 1)) }
        requires room { self.old.next < drawn_before_call }
        ensures known { OnOk result
            (self.new
            ≡ state_after self.old (agent_outcome page.now (RequestChildNodes node depth None) self.old)) }
        ensures sent { OnOk result
            (out.new.items ≡ out.old.items
            ++ answer id (agent_outcome page.now (RequestChildNodes node depth None) self.old)) }
    {
        page.valid();
        let Some(found) = self.node_of(page, node) else {
            return refuse(self.alloc, id, Why::UnknownNode, out);
        };
        let levels = levels_asked(depth);
        let mut openings = Vec::new(self.alloc);
        request_node(&self.binding, &found, levels, &mut openings)?;
        open_all(self.alloc, &mut self.binding, &openings, out)?;
        reply(self.alloc, id, ReplyBody::Nothing, out)?;
        Ok(())
    }

    fn push_by_path(
        &mut self,
        page: &Page,
        id: u64,
        path: &str,
        out: &mut Vec<u8>,
    ) -> Result<(), AllocError>
        requires room { self.old.next < drawn_before_call }
        ensures known { OnOk result
            (self.new ≡ state_after self.old (agent_outcome page.now (PushByPath path.now) self.old)) }
        ensures sent { OnOk result
            (out.new.items ≡ out.old.items ++ answer id (agent_outcome page.now (PushByPath path.now) self.old)) }
    {
        if !self.binding.is_opened(page.document()) {
            return refuse(self.alloc, id, Why::NotPushed, out);
        }
        let document = ShownNode::document(page, self.mode());
        let Some(found) = node_at_path(&document, path) else {
            return refuse(self.alloc, id, Why::NoPath, out);
        };
        self.answer_pushed(page, id, found.serial(), out)
    }

    /// Pushes a node, and replies with its id.
    fn answer_pushed(
        &mut self,
        page: &Page,
        id: u64,
        serial: u64,
        out: &mut Vec<u8>,
    ) -> Result<(), AllocError>
        requires room { self.old.next < drawn_before_call }
        ensures known { OnOk result (self.new
            ≡ (node_pushed (shown_page self.old.mode page.now).tree serial self.old).state) }
        ensures sent { OnOk result (out.new.items ≡ out.old.items
            ++ answer id (with_node (shown_page self.old.mode page.now).tree serial
            (node_pushed (shown_page self.old.mode page.now).tree serial self.old))) }
    {
        let mode = self.mode();
        open_above(self.alloc, &mut self.binding, page, mode, serial, out)?;
        let node = self.binding.id_of(serial).unwrap_or(0);
        reply(self.alloc, id, ReplyBody::NodeId(node), out)?;
        Ok(())
    }

    /// What `DOM.pushNodesByBackendIdsToFrontend` comes to, of a list that may be lent.
    pub fn push_by_serials(
        &mut self,
        page: &Page,
        id: u64,
        serials: &[u64],
        out: &mut Vec<u8>,
    ) -> Result<(), AllocError>
        requires few { (state_after self.old (agent_outcome page.now (PushBySerials serials.now) self.old)).next < drawn_before_nodes }
        ensures known { OnOk result
            (self.new ≡ state_after self.old (agent_outcome page.now (PushBySerials serials.now) self.old)) }
        ensures sent { OnOk result
            (out.new.items ≡ out.old.items
            ++ answer id (agent_outcome page.now (PushBySerials serials.now) self.old)) }
    {
        if !self.has_document(page) {
            return refuse(self.alloc, id, Why::NotPushed, out);
        }
        self.answer_all_pushed(page, id, serials, out)
    }

    /// Pushes nodes in turn, and replies with their ids.
    fn answer_all_pushed(
        &mut self,
        page: &Page,
        id: u64,
        serials: &[u64],
        out: &mut Vec<u8>,
    ) -> Result<(), AllocError>
        requires few { (nodes_pushed (shown_page self.old.mode page.now).tree serials.now self.old).progress.state.next <
            drawn_before_nodes }
        ensures known { OnOk result (self.new
            ≡ (nodes_pushed (shown_page self.old.mode page.now).tree serials.now self.old).progress.state) }
        ensures sent { OnOk result (out.new.items ≡ out.old.items
            ++ answer id (with_nodes (shown_page self.old.mode page.now).tree
            (nodes_pushed (shown_page self.old.mode page.now).tree serials.now self.old))) }
    {
        let mode = self.mode();
        let ids = push_all(self.alloc, &mut self.binding, page, mode, serials, out)?;
        reply(self.alloc, id, ReplyBody::NodeIds(Numbers::new(ids)), out)?;
        Ok(())
    }

    fn query_selector(
        &mut self,
        page: &Page,
        id: u64,
        node: u64,
        selector: &str,
        out: &mut Vec<u8>,
    ) -> Result<(), AllocError>
        requires room { self.old.next < drawn_before_call }
        ensures known { OnOk result
            (self.new ≡ state_after self.old (agent_outcome page.now (QuerySelector node selector.now) self.old)) }
        ensures sent { OnOk result
            (out.new.items ≡ out.old.items ++ answer id (agent_outcome page.now (QuerySelector node selector.now) self.old)) }
    {
        let found = self.node_of(page, node);
        match read_query(self.alloc, found, selector) {
            Ok(query) => self.answer_first(page, id, &query, out),
            Err(QueryErr::Refused(why)) => refuse(self.alloc, id, why, out),
            Err(QueryErr::Memory) => Err(AllocError),
        }
    }

    /// Pushes the first element that matches, if there is one.
    fn answer_first(
        &mut self,
        page: &Page,
        id: u64,
        query: &Query,
        out: &mut Vec<u8>,
    ) -> Result<(), AllocError>
        requires shown { IsSome (find_in query.now.root (shown_page self.old.mode page.now).tree) }
        requires room { self.old.next < drawn_before_call }
        ensures known { OnOk result (self.new ≡ state_after self.old
            (first_of (shown_page self.old.mode page.now).tree page.now.tree (query_seen query.now) self.old)) }
        ensures sent { OnOk result (out.new.items ≡ out.old.items ++ answer id
            (first_of (shown_page self.old.mode page.now).tree page.now.tree (query_seen query.now) self.old)) }
    {
        page.valid();
        match first_match(self.alloc, &query.selectors, page, query.root) {
            Some(serial) => self.answer_pushed(page, id, serial, out),
            None => reply(self.alloc, id, ReplyBody::NodeId(0), out),
        }
    }

    fn query_selector_all(
        &mut self,
        page: &Page,
        id: u64,
        node: u64,
        selector: &str,
        out: &mut Vec<u8>,
    ) -> Result<(), AllocError>
        requires few { (state_after self.old (agent_outcome page.now (QuerySelectorAll node selector.now) self.old)).next <
            drawn_before_nodes }
        ensures known { OnOk result
            (self.new ≡ state_after self.old (agent_outcome page.now (QuerySelectorAll node selector.now) self.old)) }
        ensures sent { OnOk result
            (out.new.items ≡ out.old.items ++ answer id (agent_outcome page.now (QuerySelectorAll node selector.now) self.old)) }
    {
        let found = self.node_of(page, node);
        match read_query(self.alloc, found, selector) {
            Ok(query) => self.answer_all(page, id, &query, out),
            Err(QueryErr::Refused(why)) => refuse(self.alloc, id, why, out),
            Err(QueryErr::Memory) => Err(AllocError),
        }
    }

    /// Pushes all elements that match, in document order.
    fn answer_all(
        &mut self,
        page: &Page,
        id: u64,
        query: &Query,
        out: &mut Vec<u8>,
    ) -> Result<(), AllocError>
        requires shown { IsSome (find_in query.now.root (shown_page self.old.mode page.now).tree) }
        requires few { (state_after self.old
            (all_of (shown_page self.old.mode page.now).tree page.now.tree (query_seen query.now) self.old)).next < drawn_before_nodes }
        ensures known { OnOk result (self.new ≡ state_after self.old
            (all_of (shown_page self.old.mode page.now).tree page.now.tree (query_seen query.now) self.old)) }
        ensures sent { OnOk result (out.new.items ≡ out.old.items ++ answer id
            (all_of (shown_page self.old.mode page.now).tree page.now.tree (query_seen query.now) self.old)) }
    {
        page.valid();
        let serials = all_matches(self.alloc, &query.selectors, page, query.root)?;
        self.answer_all_pushed(page, id, serials.as_slice(), out)
    }

    fn get_attributes(
        &self,
        page: &Page,
        id: u64,
        node: u64,
        out: &mut Vec<u8>,
    ) -> Result<(), AllocError>
        ensures known { self.now ≡ state_after self.now (agent_outcome page.now (GetAttributes node) self.now) }
        ensures sent { OnOk result
            (out.new.items ≡ out.old.items ++ answer id (agent_outcome page.now (GetAttributes node) self.now)) }
    {
        let Some(found) = self.node_of(page, node) else {
            return refuse(self.alloc, id, Why::UnknownNode, out);
        };
        if !found.kind().is_element() {
            return refuse(self.alloc, id, Why::NotElement, out);
        }
        let attributes = found.attributes().try_clone(self.alloc)?;
        reply(self.alloc, id, ReplyBody::Attributes(attributes), out)
    }

    /// The node that an id names, or else a serial.
    fn named_node<'a>(
        &self,
        page: &'a Page,
        id: Option<u64>,
        serial: Option<u64>,
    ) -> Option<ShownNode<'a>>
        ensures { result ≡ node_known (shown_page self.now.mode page.now).tree self.now
            (named_serial (binding_keeper (alone (shown_page self.now.mode page.now).tree)) self.now id serial) }
    {
        match id {
            Some(id) => self.node_of(page, id),
            None => ShownNode::find(page, serial?, self.mode()),
        }
    }

    fn describe_node(
        &self,
        page: &Page,
        id: u64,
        node: Option<u64>,
        serial: Option<u64>,
        depth: Option<i64>,
        out: &mut Vec<u8>,
    ) -> Result<(), AllocError>
        requires depth { IsDepth (unwrap_or depth (pos 1)) }
        ensures known { self.now ≡ state_after self.now (agent_outcome page.now (DescribeNode node serial depth None) self.now) }
        ensures sent { OnOk result
            (out.new.items ≡ out.old.items ++ answer id (agent_outcome page.now (DescribeNode node serial depth None) self.now)) }
    {
        let Some(found) = self.named_node(page, node, serial) else {
            return refuse(self.alloc, id, Why::UnknownNode, out);
        };
        tell_described(self.alloc, &found, capped(levels_asked(depth)), id, out)
    }

    /// Opens each ancestor of the shown node that is not opened yet, from the top down, by one level; appends a frame for each.
    /// Gives the id of the node.
    pub fn push(&mut self, page: &Page, serial: u64, out: &mut Vec<u8>) -> Result<u64, AllocError>
        requires shown { IsSome (find_in serial (shown_page self.old.mode page.now).tree) }
        requires room { self.old.next < drawn_before_call }
        ensures few { OnOk result (self.new.next ≤ self.old.next + drawn_by_push) }
        ensures id { IfOk result (λ id. id ≡ id_in self.new serial) }
        ensures known { OnOk result
            (self.new ≡ (node_pushed (shown_page self.old.mode page.now).tree serial self.old).state) }
        ensures sent { OnOk result
            (out.new.items ≡ out.old.items
            ++ frames_told (node_pushed (shown_page self.old.mode page.now).tree serial self.old).shown) }
    {
        let mode = self.mode();
        open_above(self.alloc, &mut self.binding, page, mode, serial, out)?;
        Ok(self.binding.id_of(serial).unwrap_or(0))
    }

    /// Makes the edit of the page, and appends the events that tell it to the client, who is shown what its mode shows; answers
    /// the edit that leads back. A fault changes nothing.
    pub fn edit(
        &mut self,
        page: &mut Page,
        edit: TreeEdit,
        out: &mut Vec<u8>,
    ) -> Result<TreeEdit, EditErr>
        requires ready { IsReady page.old.next edit page.old.tree }
        requires room { self.old.next < drawn_before_call }
        ensures fault { RefusesEdit result (first_fault edit page.old.tree) }
        ensures page { OnOk result (page.new ≡ after edit page.old) }
        ensures back { IfOk result (λ back. back ≡ back_tree edit page.old.tree) }
        ensures agent { OnOk result (self.new ≡ (shown_binding_edited self.old.mode edit page.old self.old).state) }
        ensures sent { OnOk result
            (out.new.items ≡ out.old.items
            ++ frames_of_moves (shown_binding_edited self.old.mode edit page.old self.old).moves) }
        ensures page_kept { OnFault result (page.new ≡ page.old) }
        ensures agent_kept { OnFault result (self.new ≡ self.old) }
        ensures unsent { OnFault result (out.new.items ≡ out.old.items) }
    {
        page.valid();
        if let Some(fault) = page.fault(&edit) {
            return Err(EditErr::Fault(fault));
        }
        let foreseen = self.foresee(page, &edit)?;
        let back = page.apply(edit)?;
        self.tell(page, foreseen, out)?;
        Ok(back)
    }

    /// What an edit that the page takes will be for the client, by the page before it. Where a shown node goes, its ids and those
    /// below it are forgotten here, while the page still has them. Comes before the one edit that all agents of a page share.
    pub(crate) fn foresee(&mut self, page: &Page, edit: &TreeEdit) -> Result<Foreseen, AllocError>
        requires fits { first_fault edit.now page.now.tree ≡ None }
        requires ready { IsReady page.now.next edit.now page.now.tree }
        ensures { IfOk result (λ f. IsForeseen f (shown_edit self.old.mode edit.now page.now.tree)
            (shown_page self.old.mode page.now) self.old self.new) }
    {
        foresee(self.alloc, &mut self.binding, page, edit)
    }

    /// Tells what was foreseen, by the page after the edit. A shown node that came below an opened parent becomes known.
    pub(crate) fn tell(
        &mut self,
        page: &Page,
        foreseen: Foreseen,
        out: &mut Vec<u8>,
    ) -> Result<(), AllocError>
        requires came { HasCome foreseen (shown_page self.old.mode page.now).tree }
        requires room { self.old.next < drawn_before_nodes }
        ensures known { OnOk result
            (self.new ≡ kept_after foreseen (shown_page self.old.mode page.now).tree self.old) }
        ensures sent { OnOk result
            (out.new.items ≡ out.old.items ++ frames_after foreseen (shown_page self.old.mode page.now).tree self.old) }
    {
        tell_foreseen(self.alloc, &mut self.binding, page, foreseen, out)
    }

    /// Whether the document is opened.
    pub fn has_document(&self, page: &Page) -> bool
        ensures { result ≡ opened_in self.now page.now.tree.row.serial }
    {
        self.binding.is_opened(page.document())
    }

    /// The known node that has the id.
    pub fn serial_of(&self, id: u64) -> Option<u64>
        ensures { result ≡ map.get self.now.serials id }
    {
        self.binding.serial_of(id)
    }

    /// The id that the next node gets that becomes known.
    pub fn next_id(&self) -> u64
        ensures { result ≡ self.now.next }
    {
        self.binding.next_id()
    }

    /// Nothing is known from now on, and the ids so far are dead. Writes nothing.
    pub fn reset(&mut self)
        ensures { self.new ≡ cleared self.old }
    {
        self.binding.reset();
    }
}

/// The levels that a depth asks for; absent it counts as 1.
fn levels_asked(depth: Option<i64>) -> Option<u64>
    requires { IsDepth (unwrap_or depth (pos 1)) }
    ensures { result ≡ levels_of (unwrap_or depth (pos 1)) }
{
    levels_of(depth.unwrap_or(1))
}

/// Appends the reply, whose result tells no document.
fn reply(alloc: Global, id: u64, body: ReplyBody, out: &mut Vec<u8>) -> Result<(), AllocError>
    ensures { OnOk result
        (out.new.items ≡ out.old.items ++ frames_of_moves (replied id body ∷ [])) }
{
    write_reply(alloc, id, &body, out)
}

fn refuse(alloc: Global, id: u64, why: Why, out: &mut Vec<u8>) -> Result<(), AllocError>
    ensures { OnOk result
        (out.new.items ≡ out.old.items ++ frames_of_moves (failed (record { id = Some id; why = why }) ∷ [])) }
{
    write_refused(alloc, &Refused { id: Some(id), why }, out)?;
    Ok(())
}
