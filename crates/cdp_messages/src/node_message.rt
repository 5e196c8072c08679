// Messages that tell nodes: what stands before the nodes and behind them.
ghost use Rattle.std.specs.Prelude.{◌≡◌, ◌++◌, OnOk};
ghost use Rattle.cdp_messages.specs.Events.{event_name};
ghost use Rattle.cdp_messages.specs.NodeWrites.{reply_opening, event_opening, opening_tokens, fields_behind, closing_tokens};

use crate::event_names::EventName;
use dom_objects::NodeWriter;
use std::alloc::AllocError;

/// A message that tells nodes, but for the nodes.
#[derive(Clone, Copy)]
pub enum NodeMessage {
    /// The reply to the `DOM.getDocument` of that id, which tells the document.
    Root { id: u64 },
    /// The reply to the `DOM.describeNode` of that id, which tells one node.
    Node { id: u64 },
    /// `DOM.setChildNodes`, which tells the children of the node of the id `parent`.
    Children { parent: u64 },
    /// `DOM.childNodeInserted`, which tells a child of `parent` that came behind its child `previous`, or first where that
    /// is 0.
    Inserted { parent: u64, previous: u64 },
}

impl NodeMessage {
    /// The opening: all that stands before the nodes.
    pub fn open(self, out: &mut NodeWriter) -> Result<(), AllocError>
        ensures ok { OnOk result (out.new.tokens ≡ out.old.tokens ++ opening_tokens self) }
        ensures before { out.new.before ≡ out.old.before }
    {
        write_opening(out, self)
    }

    /// The closing: all that stands behind the nodes.
    pub fn close(self, out: &mut NodeWriter) -> Result<(), AllocError>
        ensures ok { OnOk result (out.new.tokens ≡ out.old.tokens ++ closing_tokens self) }
        ensures before { out.new.before ≡ out.old.before }
    {
        write_closing(out, self)
    }
}

// A reply up to the one member of its result.
fn write_reply_opening(out: &mut NodeWriter, id: u64, name: &str) -> Result<(), AllocError>
    ensures ok { OnOk result (out.new.tokens ≡ out.old.tokens ++ reply_opening id name.now) }
    ensures before { out.new.before ≡ out.old.before }
{
    out.begin_object()?;
    out.whole_field("id", id)?;
    out.key("result")?;
    out.begin_object()?;
    out.key(name)?;
    Ok(())
}

// An event up to the first of its parameters, which is the nodes.
fn write_event_opening(out: &mut NodeWriter, event: EventName, name: &str) -> Result<(), AllocError>
    ensures ok { OnOk result (out.new.tokens ≡ out.old.tokens ++ event_opening (event_name event) name.now) }
    ensures before { out.new.before ≡ out.old.before }
{
    out.begin_object()?;
    out.text_field("method", event.as_str())?;
    out.key("params")?;
    out.begin_object()?;
    out.key(name)?;
    Ok(())
}

// All that stands before the nodes.
fn write_opening(out: &mut NodeWriter, message: NodeMessage) -> Result<(), AllocError>
    ensures ok { OnOk result (out.new.tokens ≡ out.old.tokens ++ opening_tokens message) }
    ensures before { out.new.before ≡ out.old.before }
{
    match message {
        NodeMessage::Root { id } => write_reply_opening(out, id, "root"),
        NodeMessage::Node { id } => write_reply_opening(out, id, "node"),
        NodeMessage::Children { parent: _ } => {
            write_event_opening(out, EventName::SetChildNodes, "nodes")
        }
        NodeMessage::Inserted {
            parent: _,
            previous: _,
        } => write_event_opening(out, EventName::ChildNodeInserted, "node"),
    }
}

// What stands behind the nodes among the parameters of an event; a reply has nothing there.
fn write_fields_behind(out: &mut NodeWriter, message: NodeMessage) -> Result<(), AllocError>
    ensures ok { OnOk result (out.new.tokens ≡ out.old.tokens ++ fields_behind message) }
    ensures before { out.new.before ≡ out.old.before }
{
    match message {
        NodeMessage::Root { id: _ } | NodeMessage::Node { id: _ } => Ok(()),
        NodeMessage::Children { parent } => out.whole_field("parentId", parent),
        NodeMessage::Inserted { parent, previous } => {
            out.whole_field("parentNodeId", parent)?;
            out.whole_field("previousNodeId", previous)
        }
    }
}

// All that stands behind the nodes.
fn write_closing(out: &mut NodeWriter, message: NodeMessage) -> Result<(), AllocError>
    ensures ok { OnOk result (out.new.tokens ≡ out.old.tokens ++ closing_tokens message) }
    ensures before { out.new.before ≡ out.old.before }
{
    write_fields_behind(out, message)?;
    out.end_object()?;
    out.end_object()?;
    Ok(())
}
