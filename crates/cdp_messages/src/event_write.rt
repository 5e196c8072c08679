// Writing what the back end tells unasked.
ghost use Rattle.std.specs.Prelude.{◌≡◌, ◌++◌, Some, None, IfOk, OnOk, OnErr, IsUtf8};
ghost use Rattle.serde_json.specs.Data.{Data};
ghost use Rattle.serde_json.specs.View.{view};
ghost use Rattle.pipe_frames.specs.Frames.{framed};
ghost use Rattle.node_tree.specs.declared.watches.WatchKind.TheVariants.{Subtree};
ghost use Rattle.cdp_messages.specs.Events.{news_of, event_name, envelope};
ghost use Rattle.cdp_messages.specs.Events.{modified_kind, dropped_kind, data_kind};
ghost use Rattle.cdp_messages.specs.Events.{count_kind, removed_kind, added_kind, sheet_id_kind, news_data};
ghost use Rattle.cdp_messages.specs.Events.{pause_form, pause_kind, paused_kind};
ghost use Rattle.cdp_messages.specs.Replies.{event_text};
ghost use Rattle.cdp_messages.specs.Forms.{event_said};

use crate::down::{Event, PauseData};
use crate::event_names::EventName;
use crate::node_message::NodeMessage;
use crate::tree_messages::{append_tree, append_trees};
use crate::write::append;
use cdp_json::ObjectBuilder;
use css_objects::{Header, header_value, sheet_value};
use dom_objects::NodeTree;
use node_tree::{Text, WatchKind};
use serde_json::{Map, Value};
use std::alloc::{AllocError, Global};

fn modified_value(alloc: Global, node: u64, name: &Text, value: &Text) -> Result<Value, AllocError>
    ensures { IfOk result (λ v. view v ≡ modified_kind.spell (name.now, (node, (value.now, tt)))) }
{
    ObjectBuilder::new(alloc)
        .with_text("name", name.as_str())?
        .with_value("nodeId", Value::from(node))?
        .with_text("value", value.as_str())?
        .build()
}

fn dropped_value(alloc: Global, node: u64, name: &Text) -> Result<Value, AllocError>
    ensures { IfOk result (λ v. view v ≡ dropped_kind.spell (name.now, (node, tt))) }
{
    ObjectBuilder::new(alloc)
        .with_text("name", name.as_str())?
        .with_value("nodeId", Value::from(node))?
        .build()
}

fn data_value(alloc: Global, node: u64, text: &Text) -> Result<Value, AllocError>
    ensures { IfOk result (λ v. view v ≡ data_kind.spell (text.now, (node, tt))) }
{
    ObjectBuilder::new(alloc)
        .with_text("characterData", text.as_str())?
        .with_value("nodeId", Value::from(node))?
        .build()
}

fn count_value(alloc: Global, node: u64, count: u64) -> Result<Value, AllocError>
    ensures { IfOk result (λ v. view v ≡ count_kind.spell (count, (node, tt))) }
{
    ObjectBuilder::new(alloc)
        .with_value("childNodeCount", Value::from(count))?
        .with_value("nodeId", Value::from(node))?
        .build()
}

fn removed_value(alloc: Global, parent: u64, node: u64) -> Result<Value, AllocError>
    ensures { IfOk result (λ v. view v ≡ removed_kind.spell (node, (parent, tt))) }
{
    ObjectBuilder::new(alloc)
        .with_value("nodeId", Value::from(node))?
        .with_value("parentNodeId", Value::from(parent))?
        .build()
}

fn added_value(alloc: Global, header: Header) -> Result<Value, AllocError>
    ensures { IfOk result (λ v. view v ≡ added_kind.spell (header, tt)) }
{
    ObjectBuilder::new(alloc)
        .with_value("header", header_value(alloc, header)?)?
        .build()
}

fn sheet_id_value(alloc: Global, sheet: u64) -> Result<Value, AllocError>
    ensures { IfOk result (λ v. view v ≡ sheet_id_kind.spell (sheet, tt)) }
{
    ObjectBuilder::new(alloc)
        .with_value("styleSheetId", sheet_value(alloc, sheet)?)?
        .build()
}

// The data of a pause that names its node alone.
fn node_pause_value(alloc: Global, node: u64, watch: WatchKind) -> Result<Value, AllocError>
    ensures { IfOk result (λ v. view v ≡ pause_form.spell (None, (node, (None, (watch, tt))))) }
{
    ObjectBuilder::new(alloc)
        .with_value("nodeId", Value::from(node))?
        .with_text("type", watch.as_str())?
        .build()
}

// The data of a pause at an edit below its node.
fn subtree_pause_value(
    alloc: Global,
    node: u64,
    target: u64,
    insertion: bool,
) -> Result<Value, AllocError>
    ensures { IfOk result (λ v. view v
        ≡ pause_form.spell (Some insertion, (node, (Some target, (Subtree, tt))))) }
{
    ObjectBuilder::new(alloc)
        .with_value("insertion", Value::Bool(insertion))?
        .with_value("nodeId", Value::from(node))?
        .with_value("targetNodeId", Value::from(target))?
        .with_text("type", WatchKind::Subtree.as_str())?
        .build()
}

fn pause_value(alloc: Global, pause: PauseData) -> Result<Value, AllocError>
    ensures { IfOk result (λ v. view v ≡ pause_kind.spell pause) }
{
    match pause {
        PauseData::Subtree {
            node,
            target,
            insertion,
        } => subtree_pause_value(alloc, node, target, insertion),
        PauseData::Attribute { node } => node_pause_value(alloc, node, WatchKind::Attribute),
        PauseData::Removed { node } => node_pause_value(alloc, node, WatchKind::Removed),
    }
}

fn paused_value(alloc: Global, pause: PauseData) -> Result<Value, AllocError>
    ensures { IfOk result (λ v. view v ≡ paused_kind.spell (tt, (pause, (tt, tt)))) }
{
    ObjectBuilder::new(alloc)
        .with_value("callFrames", Value::Array(Vec::new(alloc)))?
        .with_value("data", pause_value(alloc, pause)?)?
        .with_text("reason", "DOM")?
        .build()
}

// An event of that method with these parameters.
fn envelope_value(alloc: Global, name: EventName, params: Value) -> Result<Value, AllocError>
    ensures { IfOk result (λ v. view v ≡ envelope.spell (event_name name, (view params, tt))) }
{
    ObjectBuilder::new(alloc)
        .with_text("method", name.as_str())?
        .with_value("params", params)?
        .build()
}

// An event as it is to be written.
#[derive(Drop)]
pub(crate) enum EventForm<'a> {
    Plain(Value),
    Inserted {
        parent: u64,
        previous: u64,
        node: &'a NodeTree,
    },
    Children {
        parent: u64,
        nodes: &'a Vec<NodeTree>,
    },
}

// An event of that method with these parameters, where they could be made.
fn plain_form<'a>(
    alloc: Global,
    name: EventName,
    params: Result<Value, AllocError>,
) -> Result<EventForm<'a>, AllocError>
    ensures { (d : Data) → IfOk params (λ v. view v ≡ d)
        → IfOk result (λ form. event_said form ≡ envelope.spell (event_name name, (d, tt))) }
{
    let value = envelope_value(alloc, name, params?)?;
    Ok(EventForm::Plain(value))
}

fn event_form(alloc: Global, event: &Event) -> Result<EventForm<'_>, AllocError>
    ensures { IfOk result (λ form. event_said form ≡ news_data (news_of event.now)) }
{
    match event {
        Event::AttributeModified { node, name, value } => plain_form(
            alloc,
            EventName::AttributeModified,
            modified_value(alloc, *node, name, value),
        ),
        Event::AttributeRemoved { node, name } => plain_form(
            alloc,
            EventName::AttributeRemoved,
            dropped_value(alloc, *node, name),
        ),
        Event::CharacterDataModified { node, text } => plain_form(
            alloc,
            EventName::CharacterDataModified,
            data_value(alloc, *node, text),
        ),
        Event::ChildNodeCountUpdated { node, count } => plain_form(
            alloc,
            EventName::ChildNodeCountUpdated,
            count_value(alloc, *node, *count),
        ),
        Event::ChildNodeInserted {
            parent,
            previous,
            node,
        } => Ok(EventForm::Inserted {
            parent: *parent,
            previous: *previous,
            node,
        }),
        Event::ChildNodeRemoved { parent, node } => plain_form(
            alloc,
            EventName::ChildNodeRemoved,
            removed_value(alloc, *parent, *node),
        ),
        Event::SetChildNodes { parent, nodes } => Ok(EventForm::Children {
            parent: *parent,
            nodes,
        }),
        Event::DocumentUpdated => plain_form(
            alloc,
            EventName::DocumentUpdated,
            Ok(Value::Object(Map::new(alloc))),
        ),
        Event::StyleSheetAdded { header } => plain_form(
            alloc,
            EventName::StyleSheetAdded,
            added_value(alloc, *header),
        ),
        Event::StyleSheetChanged { sheet } => plain_form(
            alloc,
            EventName::StyleSheetChanged,
            sheet_id_value(alloc, *sheet),
        ),
        Event::StyleSheetRemoved { sheet } => plain_form(
            alloc,
            EventName::StyleSheetRemoved,
            sheet_id_value(alloc, *sheet),
        ),
        Event::Paused(pause) => {
            plain_form(alloc, EventName::Paused, paused_value(alloc, *pause))
        }
    }
}

/// Appends an event as one frame, with its zero byte.
pub fn write_event(alloc: Global, event: &Event, out: &mut Vec<u8>) -> Result<(), AllocError>
    ensures ok { OnOk result (out.new.items ≡ out.old.items ++ framed (event_text (news_of event.now))) }
    ensures utf8 { OnOk result (IsUtf8 (event_text (news_of event.now))) }
    ensures err { OnErr result (out.new.items ≡ out.old.items) }
{
    let form = match event_form(alloc, event) {
        Ok(form) => form,
        Err(error) => return Err(error),
    };
    match form {
        EventForm::Plain(value) => append(alloc, &value, out),
        EventForm::Inserted {
            parent,
            previous,
            node,
        } => append_tree(alloc, NodeMessage::Inserted { parent, previous }, node, out),
        EventForm::Children { parent, nodes } => {
            append_trees(alloc, NodeMessage::Children { parent }, nodes, out)
        }
    }
}
