// Reading what the back end tells unasked.
ghost use Rattle.std.specs.Prelude.{◌≡◌, codes, option_map, if◌then◌else◌, Some, None};
ghost use Rattle.serde_json.specs.Find.{as_bool};
ghost use Rattle.serde_json.specs.View.{view, items_view};
ghost use Rattle.cdp_json.specs.Kinds.{only_text};
ghost use Rattle.cdp_json.specs.Left.{left};
ghost use Rattle.cdp_json.specs.Rows.{left_with, need, may};
ghost use Rattle.css_objects.specs.Sheets.{header_kind, sheet_kind};
ghost use Rattle.dom_objects.specs.Answers.{GivesMessage};
ghost use Rattle.cdp_messages.specs.declared.event_names.EventName.TheVariants as event_name;
ghost use Rattle.cdp_messages.specs.Events.{news_of, node_id, attribute_name, watch, pause_by, pause_kind, sheet_id_kind};
ghost use Rattle.dom_objects.specs.NodeKinds.{bare_kind};
ghost use Rattle.cdp_messages.specs.Events.{envelope, envelope_seen, children_fields, children_seen, inserted_fields, inserted_seen};
ghost use Rattle.cdp_messages.specs.Events.{news_by, news_from, news_in, no_call_frames};
ghost use Rattle.css_objects.specs.Styles.{has_none};

use crate::command::watch_named;
use crate::down::{Event, PauseData};
use crate::event_names::EventName;
use cdp_json::{Cursor, flag_of};
use css_objects::{Header, header_of, sheet_of};
use dom_objects::{DownErr, Manner, NodeTree, tree_of, trees_of};
use node_tree::{Text, WatchKind, is_attribute_name};
use serde_json::Value;
use std::alloc::Global;

// The method and the parameters of an event.
fn envelope_of(value: &Value) -> Option<(&str, &Value)>
    ensures { option_map envelope_seen result ≡ envelope.reads (view value.now) }
{
    let mut fields = Cursor::new(value.as_object()?);
    let method = fields.need_text("method")?;
    let params = fields.need("params")?;
    if !fields.is_done() {
        return None;
    }
    Some((method, params))
}

// The id of a node that is known.
fn node_id_field(fields: &mut Cursor<'_>, name: &str) -> Option<u64>
    ensures { option_map (left_with (left fields.new)) result
        ≡ need node_id.reads name.now (left fields.old) }
{
    let id = fields.need_whole(name)?;
    if id > 0 { Some(id) } else { None }
}

// An attribute's name.
fn name_field<'a>(fields: &mut Cursor<'a>) -> Option<&'a str>
    ensures { option_map (λ s. left_with (left fields.new) s.now) result
        ≡ need attribute_name.reads (codes "name") (left fields.old) }
{
    let name = fields.need_text("name")?;
    if is_attribute_name(name) {
        Some(name)
    } else {
        None
    }
}

fn modified_of(alloc: Global, params: &Value) -> Result<Event, DownErr>
    ensures { GivesMessage news_of result (news_by event_name.AttributeModified (view params.now)) }
{
    let object = params.as_object().ok_or(DownErr::NotMessage)?;
    let mut fields = Cursor::new(object);
    let name = name_field(&mut fields).ok_or(DownErr::NotMessage)?;
    let node = node_id_field(&mut fields, "nodeId").ok_or(DownErr::NotMessage)?;
    let value = fields.need_text("value").ok_or(DownErr::NotMessage)?;
    if !fields.is_done() {
        return Err(DownErr::NotMessage);
    }
    let name = Text::copied(alloc, name)?;
    let value = Text::copied(alloc, value)?;
    Ok(Event::AttributeModified { node, name, value })
}

fn dropped_of(alloc: Global, params: &Value) -> Result<Event, DownErr>
    ensures { GivesMessage news_of result (news_by event_name.AttributeRemoved (view params.now)) }
{
    let object = params.as_object().ok_or(DownErr::NotMessage)?;
    let mut fields = Cursor::new(object);
    let name = name_field(&mut fields).ok_or(DownErr::NotMessage)?;
    let node = node_id_field(&mut fields, "nodeId").ok_or(DownErr::NotMessage)?;
    if !fields.is_done() {
        return Err(DownErr::NotMessage);
    }
    let name = Text::copied(alloc, name)?;
    Ok(Event::AttributeRemoved { node, name })
}

fn data_of(alloc: Global, params: &Value) -> Result<Event, DownErr>
    ensures { GivesMessage news_of result (news_by event_name.CharacterDataModified (view params.now)) }
{
    let object = params.as_object().ok_or(DownErr::NotMessage)?;
    let mut fields = Cursor::new(object);
    let text = fields
        .need_text("characterData")
        .ok_or(DownErr::NotMessage)?;
    let node = node_id_field(&mut fields, "nodeId").ok_or(DownErr::NotMessage)?;
    if !fields.is_done() {
        return Err(DownErr::NotMessage);
    }
    let text = Text::copied(alloc, text)?;
    Ok(Event::CharacterDataModified { node, text })
}

fn count_of(params: &Value) -> Result<Event, DownErr>
    ensures { GivesMessage news_of result (news_by event_name.ChildNodeCountUpdated (view params.now)) }
{
    let object = params.as_object().ok_or(DownErr::NotMessage)?;
    let mut fields = Cursor::new(object);
    let count = fields
        .need_whole("childNodeCount")
        .ok_or(DownErr::NotMessage)?;
    let node = node_id_field(&mut fields, "nodeId").ok_or(DownErr::NotMessage)?;
    if !fields.is_done() {
        return Err(DownErr::NotMessage);
    }
    Ok(Event::ChildNodeCountUpdated { node, count })
}

fn removed_of(params: &Value) -> Result<Event, DownErr>
    ensures { GivesMessage news_of result (news_by event_name.ChildNodeRemoved (view params.now)) }
{
    let object = params.as_object().ok_or(DownErr::NotMessage)?;
    let mut fields = Cursor::new(object);
    let node = node_id_field(&mut fields, "nodeId").ok_or(DownErr::NotMessage)?;
    let parent = node_id_field(&mut fields, "parentNodeId").ok_or(DownErr::NotMessage)?;
    if !fields.is_done() {
        return Err(DownErr::NotMessage);
    }
    Ok(Event::ChildNodeRemoved { parent, node })
}

// The nodes, as JSON, and the id of their parent.
fn children_fields(params: &Value) -> Option<(&[Value], u64)>
    ensures { option_map children_seen result ≡ children_fields.reads (view params.now) }
{
    let mut fields = Cursor::new(params.as_object()?);
    let nodes = fields.need_list("nodes")?;
    let parent = node_id_field(&mut fields, "parentId")?;
    if !fields.is_done() {
        return None;
    }
    Some((nodes, parent))
}

fn children_of(alloc: Global, params: &Value) -> Result<Event, DownErr>
    ensures { GivesMessage news_of result (news_by event_name.SetChildNodes (view params.now)) }
{
    let Some((values, parent)) = children_fields(params) else {
        return Err(DownErr::NotMessage);
    };
    match trees_of(alloc, values, Manner::Pushed) {
        Ok(nodes) => Ok(Event::SetChildNodes { parent, nodes }),
        Err(error) => Err(error),
    }
}

// The node, as JSON, and the ids of its parent and of the sibling before it.
fn inserted_fields(params: &Value) -> Option<(&Value, (u64, u64))>
    ensures { option_map inserted_seen result ≡ inserted_fields.reads (view params.now) }
{
    let mut fields = Cursor::new(params.as_object()?);
    let node = fields.need("node")?;
    let parent = node_id_field(&mut fields, "parentNodeId")?;
    let previous = fields.need_whole("previousNodeId")?;
    if !fields.is_done() {
        return None;
    }
    Some((node, (parent, previous)))
}

// A node none of whose children are shown.
fn bare_of(alloc: Global, value: &Value) -> Result<NodeTree, DownErr>
    ensures { GivesMessage (λ tree. tree) result (bare_kind.reads (view value.now)) }
{
    match tree_of(alloc, value, Manner::Pushed, false) {
        Ok(tree) => if tree.children.is_some() {
            Err(DownErr::NotMessage)
        } else {
            Ok(tree)
        },
        Err(error) => Err(error),
    }
}

fn inserted_of(alloc: Global, params: &Value) -> Result<Event, DownErr>
    ensures { GivesMessage news_of result (news_by event_name.ChildNodeInserted (view params.now)) }
{
    let Some((value, (parent, previous))) = inserted_fields(params) else {
        return Err(DownErr::NotMessage);
    };
    match bare_of(alloc, value) {
        Ok(node) => Ok(Event::ChildNodeInserted {
            parent,
            previous,
            node,
        }),
        Err(error) => Err(error),
    }
}

fn updated_of(params: &Value) -> Result<Event, DownErr>
    ensures { GivesMessage news_of result (news_by event_name.DocumentUpdated (view params.now)) }
{
    let object = params.as_object().ok_or(DownErr::NotMessage)?;
    let fields = Cursor::new(object);
    if !fields.is_done() {
        return Err(DownErr::NotMessage);
    }
    Ok(Event::DocumentUpdated)
}

fn header_field(fields: &mut Cursor<'_>) -> Option<Header>
    ensures { option_map (left_with (left fields.new)) result
        ≡ need header_kind.reads (codes "header") (left fields.old) }
{
    let value = fields.need("header")?;
    header_of(value)
}

fn sheet_field(fields: &mut Cursor<'_>) -> Option<u64>
    ensures { option_map (left_with (left fields.new)) result
        ≡ need sheet_kind.reads (codes "styleSheetId") (left fields.old) }
{
    let value = fields.need("styleSheetId")?;
    sheet_of(value)
}

fn added_of(params: &Value) -> Result<Event, DownErr>
    ensures { GivesMessage news_of result (news_by event_name.StyleSheetAdded (view params.now)) }
{
    let object = params.as_object().ok_or(DownErr::NotMessage)?;
    let mut fields = Cursor::new(object);
    let header = header_field(&mut fields).ok_or(DownErr::NotMessage)?;
    if !fields.is_done() {
        return Err(DownErr::NotMessage);
    }
    Ok(Event::StyleSheetAdded { header })
}

// The one parameter of the events that name a sheet.
fn named_sheet(params: &Value) -> Option<u64>
    ensures { option_map (λ sheet. (sheet, tt)) result ≡ sheet_id_kind.reads (view params.now) }
{
    let mut fields = Cursor::new(params.as_object()?);
    let sheet = sheet_field(&mut fields)?;
    if !fields.is_done() {
        return None;
    }
    Some(sheet)
}

fn changed_of(params: &Value) -> Result<Event, DownErr>
    ensures { GivesMessage news_of result (news_by event_name.StyleSheetChanged (view params.now)) }
{
    match named_sheet(params) {
        Some(sheet) => Ok(Event::StyleSheetChanged { sheet }),
        None => Err(DownErr::NotMessage),
    }
}

fn sheet_removed_of(params: &Value) -> Result<Event, DownErr>
    ensures { GivesMessage news_of result (news_by event_name.StyleSheetRemoved (view params.now)) }
{
    match named_sheet(params) {
        Some(sheet) => Ok(Event::StyleSheetRemoved { sheet }),
        None => Err(DownErr::NotMessage),
    }
}

// An outer `None` says that the field is there and of another kind, here and below.
fn flag_if_any(fields: &mut Cursor<'_>, name: &str) -> Option<Option<bool>>
    ensures { option_map (left_with (left fields.new)) result
        ≡ may as_bool name.now (left fields.old) }
{
    match fields.may(name) {
        Some(value) => match flag_of(value) {
            Some(flag) => Some(Some(flag)),
            None => None,
        },
        None => Some(None),
    }
}

fn watch_field(fields: &mut Cursor<'_>) -> Option<WatchKind>
    ensures { option_map (left_with (left fields.new)) result
        ≡ need watch.reads (codes "type") (left fields.old) }
{
    let word = fields.need_text("type")?;
    watch_named(word)
}

// A target is there for a subtree alone, and so is whether it was put in.
fn pause_by(
    kind: WatchKind,
    insertion: Option<bool>,
    target: Option<u64>,
    node: u64,
) -> Option<PauseData>
    ensures { result ≡ pause_by kind insertion target node }
{
    match (kind, insertion, target) {
        (WatchKind::Subtree, Some(insertion), Some(target)) => Some(PauseData::Subtree {
            node,
            target,
            insertion,
        }),
        (WatchKind::Attribute, None, None) => Some(PauseData::Attribute { node }),
        (WatchKind::Removed, None, None) => Some(PauseData::Removed { node }),
        _ => None,
    }
}

fn pause_of(value: &Value) -> Option<PauseData>
    ensures { result ≡ pause_kind.reads (view value.now) }
{
    let mut fields = Cursor::new(value.as_object()?);
    let insertion = flag_if_any(&mut fields, "insertion")?;
    let node = node_id_field(&mut fields, "nodeId")?;
    let target = fields.may_whole("targetNodeId")?;
    let kind = watch_field(&mut fields)?;
    if !fields.is_done() {
        return None;
    }
    pause_by(kind, insertion, target, node)
}

fn pause_field(fields: &mut Cursor<'_>) -> Option<PauseData>
    ensures { option_map (left_with (left fields.new)) result
        ≡ need pause_kind.reads (codes "data") (left fields.old) }
{
    let value = fields.need("data")?;
    pause_of(value)
}

fn has_none(items: &[Value]) -> bool
    ensures { result ≡ has_none (items_view items.now) }
{
    match items {
        [] => true,
        _ => false,
    }
}

fn empty_list_field(fields: &mut Cursor<'_>) -> bool
    ensures { option_map (left_with (left fields.new)) (if result then Some tt else None)
        ≡ need no_call_frames.reads (codes "callFrames") (left fields.old) }
{
    match fields.need_list("callFrames") {
        Some(items) => has_none(items),
        None => false,
    }
}

fn reason_field(fields: &mut Cursor<'_>) -> bool
    ensures { option_map (left_with (left fields.new)) (if result then Some tt else None)
        ≡ need (only_text (codes "DOM")).reads (codes "reason") (left fields.old) }
{
    match fields.need_text("reason") {
        Some(reason) => reason == "DOM",
        None => false,
    }
}

fn paused_of(params: &Value) -> Result<Event, DownErr>
    ensures { GivesMessage news_of result (news_by event_name.Paused (view params.now)) }
{
    let object = params.as_object().ok_or(DownErr::NotMessage)?;
    let mut fields = Cursor::new(object);
    if !empty_list_field(&mut fields) {
        return Err(DownErr::NotMessage);
    }
    let pause = pause_field(&mut fields).ok_or(DownErr::NotMessage)?;
    if !reason_field(&mut fields) {
        return Err(DownErr::NotMessage);
    }
    if !fields.is_done() {
        return Err(DownErr::NotMessage);
    }
    Ok(Event::Paused(pause))
}

fn event_by(alloc: Global, name: EventName, params: &Value) -> Result<Event, DownErr>
    ensures { GivesMessage news_of result (news_by name (view params.now)) }
{
    match name {
        EventName::AttributeModified => modified_of(alloc, params),
        EventName::AttributeRemoved => dropped_of(alloc, params),
        EventName::CharacterDataModified => data_of(alloc, params),
        EventName::ChildNodeCountUpdated => count_of(params),
        EventName::ChildNodeInserted => inserted_of(alloc, params),
        EventName::ChildNodeRemoved => removed_of(params),
        EventName::SetChildNodes => children_of(alloc, params),
        EventName::DocumentUpdated => updated_of(params),
        EventName::StyleSheetAdded => added_of(params),
        EventName::StyleSheetChanged => changed_of(params),
        EventName::StyleSheetRemoved => sheet_removed_of(params),
        EventName::Paused => paused_of(params),
    }
}

fn named_event(alloc: Global, method: &str, params: &Value) -> Result<Event, DownErr>
    ensures { GivesMessage news_of result (news_from method.now (view params.now)) }
{
    match EventName::named(method) {
        Some(name) => event_by(alloc, name, params),
        None => Err(DownErr::NotMessage),
    }
}

pub(crate) fn event_of(alloc: Global, value: &Value) -> Result<Event, DownErr>
    ensures { GivesMessage news_of result (news_in (view value.now)) }
{
    match envelope_of(value) {
        Some((method, params)) => named_event(alloc, method, params),
        None => Err(DownErr::NotMessage),
    }
}
