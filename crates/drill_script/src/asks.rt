// The lines of a drill, each as a value.
ghost use Rattle.std.specs.Prelude.{◌≡◌, Some, None, IfOk};
ghost use Rattle.serde_json.specs.View.{view};
ghost use Rattle.replay_script.specs.Forms.{ask};
ghost use Rattle.replay_script.specs.Seen.{seen};
ghost use Rattle.drill_script.specs.DrillLines.{asks_document, asks_styles, asks_watch, sets_class, asks_title, asks_matched, puts_text};

use crate::digits::numbered;
use cdp_json::ObjectBuilder;
use node_tree::{Attributes, Kind, Text};
use page_forms::Act;
use page_tree::NodeForm;
use replay_script::{Ask, Line};
use serde_json::Value;
use std::alloc::{AllocError, Global};

/// The serial of the body, which is its node id as well.
const BODY: u64 = 3;

// An ask of that method with these parameters.
fn ask(alloc: Global, method: &str, params: Value) -> Result<Line, AllocError>
    ensures { IfOk result (λ line. seen line
        ≡ ask (record { method = method.now; params = Some (view params); session = None })) }
{
    Ok(Line::Ask(Ask {
        method: Text::copied(alloc, method)?,
        params: Some(params),
        session: None,
    }))
}

/// The whole document is asked for.
pub(crate) fn document_ask(alloc: Global) -> Result<Line, AllocError>
    ensures { IfOk result (λ line. seen line ≡ asks_document) }
{
    let params = ObjectBuilder::new(alloc)
        .with_value("depth", Value::from(-1i64))?
        .build()?;
    ask(alloc, "DOM.getDocument", params)
}

/// Styles are turned on.
pub(crate) fn styles_ask(alloc: Global) -> Result<Line, AllocError>
    ensures { IfOk result (λ line. seen line ≡ asks_styles) }
{
    let params = ObjectBuilder::new(alloc).build()?;
    ask(alloc, "CSS.enable", params)
}

/// Changes below the body are watched.
pub(crate) fn watch_ask(alloc: Global) -> Result<Line, AllocError>
    ensures { IfOk result (λ line. seen line ≡ asks_watch) }
{
    let params = ObjectBuilder::new(alloc)
        .with_value("nodeId", Value::from(BODY))?
        .with_text("type", "subtree-modified")?
        .build()?;
    ask(alloc, "DOMDebugger.setDOMBreakpoint", params)
}

/// The script gives the node of that serial the class of a digit.
pub(crate) fn class_act(alloc: Global, node: u64, digit: u64) -> Result<Line, AllocError>
    ensures { IfOk result (λ line. seen line ≡ sets_class node digit) }
{
    let name = Text::copied(alloc, "class")?;
    let value = Text::new(numbered(alloc, "k", digit)?);
    Ok(Line::Act(Act::SetAttr { node, name, value }))
}

/// The client gives the node of that id a title with a digit.
pub(crate) fn title_ask(alloc: Global, node: u64, digit: u64) -> Result<Line, AllocError>
    ensures { IfOk result (λ line. seen line ≡ asks_title node digit) }
{
    let value = numbered(alloc, "t", digit)?;
    let params = ObjectBuilder::new(alloc)
        .with_text("name", "title")?
        .with_value("nodeId", Value::from(node))?
        .with_text("value", value.as_str())?
        .build()?;
    ask(alloc, "DOM.setAttributeValue", params)
}

/// The matched styles of the node of that id are asked for.
pub(crate) fn matched_ask(alloc: Global, node: u64) -> Result<Line, AllocError>
    ensures { IfOk result (λ line. seen line ≡ asks_matched node) }
{
    let params = ObjectBuilder::new(alloc)
        .with_value("nodeId", Value::from(node))?
        .build()?;
    ask(alloc, "CSS.getMatchedStylesForNode", params)
}

/// The script puts a text last into the body.
pub(crate) fn text_act(alloc: Global) -> Result<Line, AllocError>
    ensures { IfOk result (λ line. seen line ≡ puts_text) }
{
    let form = NodeForm {
        kind: Kind::Text,
        name: Text::empty(alloc),
        value: Text::copied(alloc, "x")?,
        attributes: Attributes::new(alloc),
        children: Vec::new(alloc),
    };
    Ok(Line::Act(Act::Insert {
        parent: BODY,
        before: 0,
        form,
    }))
}
