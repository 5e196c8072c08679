ghost use Rattle.std.specs.Prelude.{◌≡◌, ◌+◌, [], ◌∷◌, ◌++◌, Some, None, Ok, true, false, IfSome, OnOk, IfOk, OnErr};
ghost use Rattle.node_tree.specs.Numbers.{number_limit};
ghost use Rattle.serde_json.specs.View.{view};
ghost use Rattle.std.specs.List.{list_all};
ghost use Rattle.node_tree.specs.Nodes.{none};
ghost use Rattle.dom_objects.specs.NodeData.{fits_tree};
ghost use Rattle.client_views.specs.Moves.{paused_nodes, target_nodes};
ghost use Rattle.cdp_messages.specs.Events.{news_of, fits_news};
ghost use Rattle.front_mirror.specs.Known.{known_value, Takes};
ghost use Rattle.front_mirror.specs.Front.{first_value, reply_frame, reply_kept, method_waiting, fetched_sheet, sheets_fetched, replied};
ghost use Rattle.front_mirror.specs.Front.{refused, told, with_root, with_effect, with_reply, with_fault, with_change, with_pause};
ghost use Rattle.front_mirror.specs.Front.{with_matched, with_added, with_sheet, told_sheets, with_news, take_frame, is_shown, halted};
ghost use Rattle.front_mirror.specs.Front.{root_fault};
ghost use Rattle.front_mirror.specs.Sheets.{told_sheet, has_sheet, marked_old, without_sheet};
ghost use Rattle.front_mirror.specs.Edits.{edit_told, fits_edit, fits_effect};

use crate::asks::{fetched_sheet, method_of, take_ask};
use crate::edits::{NodeChange, edit_fault};
use crate::faults::{FrameErr, FrontKind};
use crate::mirror::Mirror;
use crate::panels::Change;
use crate::pauses::{SeenPause, seen_pause};
use crate::replies::{Ask, Kept, MatchedReply};
use crate::roots::root_fault;
use crate::sheets::{KnownSheets, new_sheet};
use cdp_messages::{
    Down, DownErr, Event, Header, PauseData, ReplyBody, read_down, read_matched, read_result,
    read_root,
};
use client_views::Effect;
use css_objects::Matched;
use dom_objects::NodeTree;
use node_tree::Text;
use serde_json::Value;
use std::alloc::{AllocError, Global};
use std::collections::VecDeque;

// What follows the id of a reply with a document.
const DOCUMENT: &str = ",\"result\":{\"root\":";

// What follows the id of a reply with matched styles.
const MATCHED: &str = ",\"result\":{\"inherited\":";

/// Whether a text begins as a reply with such a result does, so that no other text is tried as one.
fn begins_reply(text: &str, body: &str) -> bool {
    match text.strip_prefix("{\"id\":") {
        Some(rest) => rest
            .trim_start_matches(|c: char| c.is_ascii_digit())
            .starts_with(body),
        None => false,
    }
}

/// What the messages that came have made known, and what still waits.
#[derive(Drop)]
pub(crate) struct Known {
    alloc: Global,
    pub(crate) mirror: Mirror,
    pub(crate) sheets: KnownSheets,
    pub(crate) asks: VecDeque<Ask>,
    pub(crate) replies: Vec<Kept>,
    pub(crate) pauses: Vec<SeenPause>,
    pub(crate) matched: Vec<MatchedReply>,
    pub(crate) taken: u64,
}

impl Known {
    pub(crate) fn new(alloc: Global) -> Known
        ensures { known_value result ≡ first_value [] }
    {
        Known {
            alloc,
            mirror: Mirror::new(alloc),
            sheets: KnownSheets::new(alloc),
            asks: VecDeque::new(alloc),
            replies: Vec::new(alloc),
            pauses: Vec::new(alloc),
            matched: Vec::new(alloc),
            taken: 0,
        }
    }

    /// Takes one frame, without its zero byte.
    pub(crate) fn take_frame(&mut self, frame: Vec<u8>) -> Result<Option<Change>, FrameErr>
        ensures { Takes (known_value self.old) (known_value self.new) result (take_frame (known_value self.old) frame.items) }
    {
        let Ok(text) = String::from_utf8(frame) else {
            return Err(FrameErr::Refused(FrontKind::NotMessage));
        };
        self.take_text(Text::new(text))
    }

    /// A document is read without values in between, where its text is as it is written.
    fn take_text(&mut self, frame: Text) -> Result<Option<Change>, FrameErr>
        ensures { Takes (known_value self.old) (known_value self.new) result (take_frame (known_value self.old) frame) }
    {
        match self.document_in(frame.as_str()) {
            Some((id, root)) => self.take_root(id, root, frame),
            None => self.take_other(frame),
        }
    }

    /// So are matched styles; all else is read as a value.
    fn take_other(&mut self, frame: Text) -> Result<Option<Change>, FrameErr>
        ensures { Takes (known_value self.old) (known_value self.new) result (take_frame (known_value self.old) frame) }
    {
        match self.matched_in(frame.as_str()) {
            Some((id, matched)) => self.take_matched(id, matched, frame),
            None => self.take_value(frame),
        }
    }

    fn take_matched(
        &mut self,
        id: u64,
        matched: Matched,
        frame: Text,
    ) -> Result<Option<Change>, FrameErr>
        ensures { Takes (known_value self.old) (known_value self.new) result
            (Ok (replied (with_matched (known_value self.old) (record { ask = id; matched = matched } ∷ []))
            (reply_frame id frame) true (known_value self.old).tree)) }
    {
        self.keep_matched(id, matched, frame)?;
        Ok(None)
    }

    /// The matched styles that a text brings, and the id of the ask that waits for them.
    fn matched_in(&self, text: &str) -> Option<(u64, Matched)>
        ensures { IfSome result (λ p. take_frame (known_value self.now) text.now
            ≡ Ok (replied (with_matched (known_value self.now) (record { ask = p.0; matched = p.1 } ∷ []))
            (reply_frame p.0 text.now) true (known_value self.now).tree)) }
    {
        if !begins_reply(text, MATCHED) {
            return None;
        }
        let (id, matched) = read_matched(self.alloc, text).ok()?;
        let method = method_of(&self.asks, id)?;
        if method == "CSS.getMatchedStylesForNode" {
            Some((id, matched))
        } else {
            None
        }
    }

    /// The document that a text brings, and the id of the ask that waits for it.
    fn document_in(&self, text: &str) -> Option<(u64, NodeTree)>
        ensures taken { IfSome result (λ p. take_frame (known_value self.now) text.now
            ≡ with_root (known_value self.now) (reply_frame p.0 text.now) p.1 (root_fault p.1)) }
        ensures fits { IfSome result (λ p. fits_tree true p.1 ≡ true) }
    {
        if !begins_reply(text, DOCUMENT) {
            return None;
        }
        let (id, root) = read_root(self.alloc, text).ok()?;
        let method = method_of(&self.asks, id)?;
        if method == "DOM.getDocument" {
            Some((id, root))
        } else {
            None
        }
    }

    fn take_value(&mut self, frame: Text) -> Result<Option<Change>, FrameErr>
        ensures { Takes (known_value self.old) (known_value self.new) result (take_frame (known_value self.old) frame) }
    {
        match read_down(self.alloc, frame.as_str().as_bytes()) {
            Ok(Down::Reply { id, result }) => self.take_reply(id, &result, frame),
            Ok(Down::Fault { id: Some(id), .. }) => self.take_fault(id, frame),
            Ok(Down::Fault { id: None, .. }) => self.take_refusal(frame),
            Ok(Down::Event(event)) => self.take_event(event),
            Err(DownErr::NotMessage) => Err(FrameErr::Refused(FrontKind::NotMessage)),
            Err(DownErr::Memory) => Err(FrameErr::Memory),
        }
    }

    fn take_reply(
        &mut self,
        id: u64,
        value: &Value,
        frame: Text,
    ) -> Result<Option<Change>, FrameErr>
        ensures { Takes (known_value self.old) (known_value self.new) result
            (with_reply (known_value self.old) (reply_frame id frame) (view value.now) (method_waiting id (known_value self.old).asks)) }
    {
        let Some(method) = method_of(&self.asks, id) else {
            return Err(FrameErr::Refused(FrontKind::NotMessage));
        };
        match read_result(self.alloc, method, value) {
            Ok(body) => match body {
                ReplyBody::Matched(matched) => {
                    self.keep_matched(id, matched, frame)?;
                    Ok(None)
                }
                body => {
                    let effect = Effect::of_reply(method, body);
                    self.take_effect(id, effect, frame)
                }
            },
            Err(DownErr::NotMessage) => Err(FrameErr::Refused(FrontKind::NotMessage)),
            Err(DownErr::Memory) => Err(FrameErr::Memory),
        }
    }

    /// Keeps a reply to the ask of that id, which then waits no longer, and the matched styles that it tells.
    fn keep_matched(&mut self, id: u64, matched: Matched, frame: Text) -> Result<(), AllocError>
        ensures { OnOk result (known_value self.new ≡ replied
            (with_matched (known_value self.old) (record { ask = id; matched = matched } ∷ []))
            (reply_frame id frame) true (known_value self.old).tree) }
    {
        self.matched.push(MatchedReply { ask: id, matched })?;
        self.keep_reply(id, frame, true)
    }

    fn take_effect(
        &mut self,
        id: u64,
        effect: Effect,
        frame: Text,
    ) -> Result<Option<Change>, FrameErr>
        requires { fits_effect effect ≡ true }
        ensures { Takes (known_value self.old) (known_value self.new) result
            (with_effect (known_value self.old) (reply_frame id frame) effect) }
    {
        match effect {
            Effect::Document(root) => self.take_root(id, root, frame),
            Effect::AllOff => self.take_end(id, frame),
            Effect::SheetsOff => self.take_sheets_end(id, frame),
            Effect::SheetText(text) => self.take_sheet_text(id, text, frame),
            Effect::NothingElse => {
                self.keep_reply(id, frame, true)?;
                Ok(None)
            }
        }
    }

    /// The text of a sheet, which stays known where it was fetched.
    fn take_sheet_text(
        &mut self,
        id: u64,
        text: Text,
        frame: Text,
    ) -> Result<Option<Change>, FrameErr>
        ensures { Takes (known_value self.old) (known_value self.new) result
            (Ok (record (replied (known_value self.old) (reply_frame id frame) true (known_value self.old).tree) {
              sheets = sheets_fetched (fetched_sheet id (known_value self.old).asks) text (known_value self.old).sheets;
            })) }
    {
        let fetched = fetched_sheet(&self.asks, id);
        self.keep_reply(id, frame, true)?;
        if let Some(number) = fetched {
            self.sheets.keep_text(number, text);
        }
        Ok(None)
    }

    /// Neither nodes nor sheets are told any more.
    fn take_end(&mut self, id: u64, frame: Text) -> Result<Option<Change>, FrameErr>
        ensures { Takes (known_value self.old) (known_value self.new) result
            (Ok (record (replied (known_value self.old) (reply_frame id frame) true none) { sheets = [] })) }
    {
        self.keep_reply(id, frame, true)?;
        self.mirror = Mirror::new(self.alloc);
        self.sheets = KnownSheets::new(self.alloc);
        Ok(Some(Change::Cleared))
    }

    /// No sheets are told any more.
    fn take_sheets_end(&mut self, id: u64, frame: Text) -> Result<Option<Change>, FrameErr>
        ensures { Takes (known_value self.old) (known_value self.new) result
            (Ok (record (replied (known_value self.old) (reply_frame id frame) true (known_value self.old).tree) { sheets = [] })) }
    {
        self.keep_reply(id, frame, true)?;
        self.sheets = KnownSheets::new(self.alloc);
        Ok(None)
    }

    fn take_sheet(&mut self, header: Header) -> Result<Option<Change>, FrameErr>
        ensures { Takes (known_value self.old) (known_value self.new) result (with_added (known_value self.old) header) }
    {
        if self.sheets.has(header.sheet) {
            return Err(FrameErr::Refused(FrontKind::IdTaken));
        }
        self.keep_sheet(header)?;
        Ok(None)
    }

    /// Keeps a new sheet, and counts the message.
    fn keep_sheet(&mut self, header: Header) -> Result<(), AllocError>
        requires { has_sheet header.sheet (known_value self.old).sheets ≡ false }
        ensures { OnOk result (known_value self.new ≡ told_sheets (known_value self.old)
            ((known_value self.old).sheets ++ told_sheet header ∷ [])) }
    {
        let taken = self.next_place()?;
        self.sheets.put(new_sheet(header))?;
        self.taken = taken;
        Ok(())
    }

    fn take_rewrite(&mut self, number: u64) -> Result<Option<Change>, FrameErr>
        ensures { Takes (known_value self.old) (known_value self.new) result
            (with_sheet (known_value self.old) number (marked_old number (known_value self.old).sheets)) }
    {
        if !self.sheets.has(number) {
            return Err(FrameErr::Refused(FrontKind::UnknownSheet));
        }
        self.taken = self.next_place()?;
        self.sheets.mark_old(number);
        Ok(None)
    }

    fn take_removal(&mut self, number: u64) -> Result<Option<Change>, FrameErr>
        ensures { Takes (known_value self.old) (known_value self.new) result
            (with_sheet (known_value self.old) number (without_sheet number (known_value self.old).sheets)) }
    {
        if !self.sheets.has(number) {
            return Err(FrameErr::Refused(FrontKind::UnknownSheet));
        }
        self.taken = self.next_place()?;
        self.sheets.remove(number);
        Ok(None)
    }

    fn take_root(
        &mut self,
        id: u64,
        root: NodeTree,
        frame: Text,
    ) -> Result<Option<Change>, FrameErr>
        requires { fits_tree true root ≡ true }
        ensures { Takes (known_value self.old) (known_value self.new) result
            (with_root (known_value self.old) (reply_frame id frame) root (root_fault root)) }
    {
        if let Some(kind) = root_fault(self.alloc, &root)? {
            return Err(FrameErr::Refused(kind));
        }
        let mirror = Mirror::of_root(self.alloc, root)?;
        self.keep_reply(id, frame, true)?;
        self.mirror = mirror;
        Ok(Some(Change::Document))
    }

    fn take_fault(&mut self, id: u64, frame: Text) -> Result<Option<Change>, FrameErr>
        ensures { Takes (known_value self.old) (known_value self.new) result
            (with_fault (known_value self.old) (reply_frame id frame) (method_waiting id (known_value self.old).asks)) }
    {
        if method_of(&self.asks, id).is_none() {
            return Err(FrameErr::Refused(FrontKind::NotMessage));
        }
        self.keep_reply(id, frame, false)?;
        Ok(None)
    }

    fn take_refusal(&mut self, frame: Text) -> Result<Option<Change>, FrameErr>
        ensures { Takes (known_value self.old) (known_value self.new) result (Ok (refused (known_value self.old) frame)) }
    {
        self.keep(None, None, frame, false)?;
        Ok(None)
    }

    fn take_event(&mut self, event: Event) -> Result<Option<Change>, FrameErr>
        requires { fits_news (news_of event) ≡ true }
        ensures { Takes (known_value self.old) (known_value self.new) result (with_news (known_value self.old) (news_of event)) }
    {
        match event {
            Event::SetChildNodes { parent, nodes } => self.take_edit(
                parent,
                NodeChange::Show(nodes),
            ),
            Event::ChildNodeInserted {
                parent,
                previous,
                node,
            } => self.take_edit(parent, NodeChange::Insert { previous, node }),
            Event::ChildNodeRemoved { parent, node } => {
                self.take_edit(parent, NodeChange::Remove(node))
            }
            Event::ChildNodeCountUpdated { node, count } => {
                self.take_edit(node, NodeChange::Count(count))
            }
            Event::AttributeModified { node, name, value } => {
                self.take_edit(node, NodeChange::SetAttribute { name, value })
            }
            Event::AttributeRemoved { node, name } => {
                self.take_edit(node, NodeChange::DropAttribute(name))
            }
            Event::CharacterDataModified { node, text } => {
                self.take_edit(node, NodeChange::SetValue(text))
            }
            Event::DocumentUpdated => self.take_update(),
            Event::Paused(why) => self.take_pause(why),
            Event::StyleSheetAdded { header } => self.take_sheet(header),
            Event::StyleSheetChanged { sheet } => self.take_rewrite(sheet),
            Event::StyleSheetRemoved { sheet } => self.take_removal(sheet),
        }
    }

    fn take_edit(&mut self, id: u64, edit: NodeChange) -> Result<Option<Change>, FrameErr>
        requires { fits_edit edit ≡ true }
        ensures { Takes (known_value self.old) (known_value self.new) result
            (with_change (known_value self.old) (edit_told id edit)) }
    {
        self.mirror.valid();
        if let Some(kind) = edit_fault(self.alloc, &self.mirror, id, &edit)? {
            return Err(FrameErr::Refused(kind));
        }
        let taken = self.next_place()?;
        let told = edit.told(id, &self.mirror);
        self.mirror.change(self.alloc, id, edit)?;
        self.taken = taken;
        Ok(Some(told))
    }

    fn take_pause(&mut self, why: PauseData) -> Result<Option<Change>, FrameErr>
        ensures { Takes (known_value self.old) (known_value self.new) result (with_pause (known_value self.old) why) }
    {
        if !self.knows_paused(why) {
            return Err(FrameErr::Refused(FrontKind::UnknownNode));
        }
        self.keep_pause(why)?;
        Ok(None)
    }

    /// Keeps a pause, and counts the message.
    fn keep_pause(&mut self, why: PauseData) -> Result<(), AllocError>
        ensures { OnOk result (known_value self.new ≡ halted (known_value self.old) why) }
    {
        let taken = self.next_place()?;
        self.pauses.push(seen_pause(why))?;
        self.taken = taken;
        Ok(())
    }

    /// Whether the target of a pause is shown; 0 names none.
    fn knows_target(&self, target: u64) -> bool
        ensures { result ≡ list_all (is_shown (known_value self.now).tree) (target_nodes target) }
    {
        target == 0 || self.mirror.has_id(target)
    }

    /// Whether the nodes that a pause names are shown.
    fn knows_paused(&self, why: PauseData) -> bool
        ensures { result ≡ list_all (is_shown (known_value self.now).tree) (paused_nodes why) }
    {
        match why {
            PauseData::Subtree { node, target, .. } => self.mirror.has_id(node)
                && self.knows_target(target),
            PauseData::Attribute { node } | PauseData::Removed { node } => self.mirror.has_id(node),
        }
    }

    fn take_update(&mut self) -> Result<Option<Change>, FrameErr>
        ensures { Takes (known_value self.old) (known_value self.new) result (Ok (told (known_value self.old) none)) }
    {
        self.taken = self.next_place()?;
        self.mirror = Mirror::new(self.alloc);
        Ok(Some(Change::Cleared))
    }

    /// Keeps a reply to the ask of that id, which then waits no longer. A reply to a fetch is not kept.
    fn keep_reply(&mut self, id: u64, frame: Text, good: bool) -> Result<(), AllocError>
        ensures { OnOk result (known_value self.new
            ≡ replied (known_value self.old) (reply_frame id frame) good (known_value self.old).tree) }
    {
        match take_ask(&mut self.asks, id) {
            Some(Ask { sheet: Some(_), .. }) => self.count(),
            Some(
                Ask {
                    method,
                    sheet: None,
                    ..
                },
            ) => self.keep(Some(id), Some(method), frame, good),
            None => self.keep(Some(id), None, frame, good),
        }
    }

    /// The place of the message that comes next. There is no memory for it only where the count of those that were taken stands at its
    /// last value.
    pub(crate) fn next_place(&self) -> Result<u64, AllocError>
        ensures next { IfOk result (λ place. place ≡ (known_value self.now).taken + 1) }
        ensures last { OnErr result ((known_value self.now).taken + 1 ≡ number_limit) }
    {
        self.taken.checked_add(1).ok_or(AllocError)
    }

    /// Counts the message.
    fn count(&mut self) -> Result<(), AllocError>
        ensures { OnOk result (known_value self.new ≡ record (known_value self.old) { taken = (known_value self.old).taken + 1 }) }
    {
        self.taken = self.next_place()?;
        Ok(())
    }

    /// Keeps a reply, and counts the message.
    fn keep(
        &mut self,
        id: Option<u64>,
        method: Option<Text>,
        text: Text,
        good: bool,
    ) -> Result<(), AllocError>
        ensures { OnOk result (known_value self.new ≡ record (known_value self.old) {
          replies = (known_value self.old).replies ++ reply_kept id method text good ∷ [];
          taken = (known_value self.old).taken + 1;
        }) }
    {
        let taken = self.next_place()?;
        let reply = Kept {
            id,
            method,
            text,
            good,
        };
        self.replies.push(reply)?;
        self.taken = taken;
        Ok(())
    }
}
