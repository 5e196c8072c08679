// The commands, each read by the method that it has.
ghost use Rattle.std.specs.Prelude.{◌≡◌, Some};
ghost use Rattle.serde_json.specs.Find.{as_object};
ghost use Rattle.serde_json.specs.View.{view, members_view};
ghost use Rattle.cdp_messages.specs.declared.method.Method.TheVariants as method;
ghost use Rattle.cdp_messages.specs.Parameters.{command_by};
ghost use Rattle.cdp_messages.specs.Answers.{Commands};

use crate::command::{Command, CommandErr, Param, Why};
use crate::css_ask::CssAsk;
use crate::css_edit::CssEdit;
use crate::dom_ask::DomAsk;
use crate::dom_edit::DomEdit;
use crate::kept::Json;
use crate::method::Method;
use crate::parameters::{
    depth_or_none, edits, flag_or_none, place, text, watch, whitespace_or_none, whole,
    whole_or_none, wholes,
};
use crate::search_ask::SearchAsk;
use serde_json::{Map, Value};
use std::alloc::Global;

fn dom_enable(params: &Map<String, Value>) -> Result<Command, Why>
    ensures { result ≡ command_by method.DomEnable (members_view params.now.entries) }
{
    let include_whitespace = whitespace_or_none(params, Param::IncludeWhitespace)?;
    Ok(Command::DomEnable { include_whitespace })
}

fn get_document(params: &Map<String, Value>) -> Result<Command, Why>
    ensures { result ≡ command_by method.GetDocument (members_view params.now.entries) }
{
    let depth = depth_or_none(params, Param::Depth)?;
    let pierce = flag_or_none(params, Param::Pierce)?;
    Ok(Command::AskDom(DomAsk::GetDocument { depth, pierce }))
}

fn request_child_nodes(params: &Map<String, Value>) -> Result<Command, Why>
    ensures { result ≡ command_by method.RequestChildNodes (members_view params.now.entries) }
{
    let node = whole(params, Param::NodeId)?;
    let depth = depth_or_none(params, Param::Depth)?;
    let pierce = flag_or_none(params, Param::Pierce)?;
    Ok(Command::AskDom(DomAsk::RequestChildNodes {
        node,
        depth,
        pierce,
    }))
}

fn push_by_path(alloc: Global, params: &Map<String, Value>) -> Result<Command, CommandErr>
    ensures { Commands result (command_by method.PushByPath (members_view params.now.entries)) }
{
    let path = text(alloc, params, Param::Path)?;
    Ok(Command::AskDom(DomAsk::PushByPath { path }))
}

fn push_by_serials(alloc: Global, params: &Map<String, Value>) -> Result<Command, CommandErr>
    ensures { Commands result (command_by method.PushBySerials (members_view params.now.entries)) }
{
    let serials = wholes(alloc, params, Param::BackendNodeIds)?;
    Ok(Command::AskDom(DomAsk::PushBySerials { serials }))
}

fn query_selector(alloc: Global, params: &Map<String, Value>) -> Result<Command, CommandErr>
    ensures { Commands result (command_by method.QuerySelector (members_view params.now.entries)) }
{
    let node = whole(params, Param::NodeId)?;
    let selector = text(alloc, params, Param::Selector)?;
    Ok(Command::AskDom(DomAsk::QuerySelector { node, selector }))
}

fn query_selector_all(alloc: Global, params: &Map<String, Value>) -> Result<Command, CommandErr>
    ensures { Commands result (command_by method.QuerySelectorAll (members_view params.now.entries)) }
{
    let node = whole(params, Param::NodeId)?;
    let selector = text(alloc, params, Param::Selector)?;
    Ok(Command::AskDom(DomAsk::QuerySelectorAll { node, selector }))
}

fn get_attributes(params: &Map<String, Value>) -> Result<Command, Why>
    ensures { result ≡ command_by method.GetAttributes (members_view params.now.entries) }
{
    let node = whole(params, Param::NodeId)?;
    Ok(Command::AskDom(DomAsk::GetAttributes { node }))
}

fn describe_node(params: &Map<String, Value>) -> Result<Command, Why>
    ensures { result ≡ command_by method.DescribeNode (members_view params.now.entries) }
{
    let node = whole_or_none(params, Param::NodeId)?;
    let serial = whole_or_none(params, Param::BackendNodeId)?;
    if node.is_none() && serial.is_none() {
        return Err(Why::BadParam(Param::NodeId));
    }
    let depth = depth_or_none(params, Param::Depth)?;
    let pierce = flag_or_none(params, Param::Pierce)?;
    Ok(Command::AskDom(DomAsk::DescribeNode {
        node,
        serial,
        depth,
        pierce,
    }))
}

fn set_attribute_value(alloc: Global, params: &Map<String, Value>) -> Result<Command, CommandErr>
    ensures { Commands result (command_by method.SetAttributeValue (members_view params.now.entries)) }
{
    let node = whole(params, Param::NodeId)?;
    let name = text(alloc, params, Param::Name)?;
    let value = text(alloc, params, Param::Value)?;
    Ok(Command::EditDom(DomEdit::SetAttributeValue { node, name, value }))
}

fn remove_attribute(alloc: Global, params: &Map<String, Value>) -> Result<Command, CommandErr>
    ensures { Commands result (command_by method.RemoveAttribute (members_view params.now.entries)) }
{
    let node = whole(params, Param::NodeId)?;
    let name = text(alloc, params, Param::Name)?;
    Ok(Command::EditDom(DomEdit::RemoveAttribute { node, name }))
}

fn set_node_value(alloc: Global, params: &Map<String, Value>) -> Result<Command, CommandErr>
    ensures { Commands result (command_by method.SetNodeValue (members_view params.now.entries)) }
{
    let node = whole(params, Param::NodeId)?;
    let value = text(alloc, params, Param::Value)?;
    Ok(Command::EditDom(DomEdit::SetNodeValue { node, value }))
}

fn remove_node(params: &Map<String, Value>) -> Result<Command, Why>
    ensures { result ≡ command_by method.RemoveNode (members_view params.now.entries) }
{
    let node = whole(params, Param::NodeId)?;
    Ok(Command::EditDom(DomEdit::RemoveNode { node }))
}

fn move_to(params: &Map<String, Value>) -> Result<Command, Why>
    ensures { result ≡ command_by method.MoveTo (members_view params.now.entries) }
{
    let node = whole(params, Param::NodeId)?;
    let target = whole(params, Param::TargetNodeId)?;
    let before = whole_or_none(params, Param::InsertBeforeNodeId)?;
    Ok(Command::EditDom(DomEdit::MoveTo {
        node,
        target,
        before,
    }))
}

fn copy_to(params: &Map<String, Value>) -> Result<Command, Why>
    ensures { result ≡ command_by method.CopyTo (members_view params.now.entries) }
{
    let node = whole(params, Param::NodeId)?;
    let target = whole(params, Param::TargetNodeId)?;
    let before = whole_or_none(params, Param::InsertBeforeNodeId)?;
    Ok(Command::EditDom(DomEdit::CopyTo {
        node,
        target,
        before,
    }))
}

fn get_matched_styles(params: &Map<String, Value>) -> Result<Command, Why>
    ensures { result ≡ command_by method.GetMatchedStyles (members_view params.now.entries) }
{
    let node = whole(params, Param::NodeId)?;
    Ok(Command::AskCss(CssAsk::GetMatchedStyles { node }))
}

fn get_style_sheet_text(alloc: Global, params: &Map<String, Value>) -> Result<Command, CommandErr>
    ensures { Commands result (command_by method.GetStyleSheetText (members_view params.now.entries)) }
{
    let sheet = text(alloc, params, Param::StyleSheetId)?;
    Ok(Command::AskCss(CssAsk::GetStyleSheetText { sheet }))
}

fn collect_class_names(alloc: Global, params: &Map<String, Value>) -> Result<Command, CommandErr>
    ensures { Commands result (command_by method.CollectClassNames (members_view params.now.entries)) }
{
    let sheet = text(alloc, params, Param::StyleSheetId)?;
    Ok(Command::AskCss(CssAsk::CollectClassNames { sheet }))
}

fn set_style_texts(alloc: Global, params: &Map<String, Value>) -> Result<Command, CommandErr>
    ensures { Commands result (command_by method.SetStyleTexts (members_view params.now.entries)) }
{
    let edits = edits(alloc, params, Param::Edits)?;
    Ok(Command::EditCss(CssEdit::SetStyleTexts { edits }))
}

fn set_rule_selector(alloc: Global, params: &Map<String, Value>) -> Result<Command, CommandErr>
    ensures { Commands result (command_by method.SetRuleSelector (members_view params.now.entries)) }
{
    let sheet = text(alloc, params, Param::StyleSheetId)?;
    let range = place(params, Param::Range)?;
    let selector = text(alloc, params, Param::Selector)?;
    Ok(Command::EditCss(CssEdit::SetRuleSelector {
        sheet,
        range,
        selector,
    }))
}

fn set_style_sheet_text(alloc: Global, params: &Map<String, Value>) -> Result<Command, CommandErr>
    ensures { Commands result (command_by method.SetStyleSheetText (members_view params.now.entries)) }
{
    let sheet = text(alloc, params, Param::StyleSheetId)?;
    let text = text(alloc, params, Param::Text)?;
    Ok(Command::EditCss(CssEdit::SetStyleSheetText { sheet, text }))
}

fn add_rule(alloc: Global, params: &Map<String, Value>) -> Result<Command, CommandErr>
    ensures { Commands result (command_by method.AddRule (members_view params.now.entries)) }
{
    let sheet = text(alloc, params, Param::StyleSheetId)?;
    let rule_text = text(alloc, params, Param::RuleText)?;
    let location = place(params, Param::Location)?;
    Ok(Command::EditCss(CssEdit::AddRule {
        sheet,
        rule_text,
        location,
    }))
}

fn set_media_text(alloc: Global, params: &Map<String, Value>) -> Result<Command, CommandErr>
    ensures { Commands result (command_by method.SetMediaText (members_view params.now.entries)) }
{
    let sheet = text(alloc, params, Param::StyleSheetId)?;
    let range = place(params, Param::Range)?;
    let text = text(alloc, params, Param::Text)?;
    Ok(Command::EditCss(CssEdit::SetMediaText { sheet, range, text }))
}

fn perform_search(alloc: Global, params: &Map<String, Value>) -> Result<Command, CommandErr>
    ensures { Commands result (command_by method.PerformSearch (members_view params.now.entries)) }
{
    let query = text(alloc, params, Param::Query)?;
    let shadow = flag_or_none(params, Param::IncludeUserAgentShadowDom)?;
    Ok(Command::AskSearch(SearchAsk::PerformSearch { query, shadow }))
}

fn get_search_results(alloc: Global, params: &Map<String, Value>) -> Result<Command, CommandErr>
    ensures { Commands result (command_by method.GetSearchResults (members_view params.now.entries)) }
{
    let search = text(alloc, params, Param::SearchId)?;
    let from = whole(params, Param::FromIndex)?;
    let to = whole(params, Param::ToIndex)?;
    Ok(Command::AskSearch(SearchAsk::GetSearchResults { search, from, to }))
}

fn discard_search_results(alloc: Global, params: &Map<String, Value>) -> Result<Command, CommandErr>
    ensures { Commands result (command_by method.DiscardSearchResults (members_view params.now.entries)) }
{
    let search = text(alloc, params, Param::SearchId)?;
    Ok(Command::AskSearch(SearchAsk::DiscardSearchResults { search }))
}

fn set_breakpoint(params: &Map<String, Value>) -> Result<Command, Why>
    ensures { result ≡ command_by method.SetBreakpoint (members_view params.now.entries) }
{
    let node = whole(params, Param::NodeId)?;
    let kind = watch(params, Param::Type)?;
    Ok(Command::SetBreakpoint { node, kind })
}

fn remove_breakpoint(params: &Map<String, Value>) -> Result<Command, Why>
    ensures { result ≡ command_by method.RemoveBreakpoint (members_view params.now.entries) }
{
    let node = whole(params, Param::NodeId)?;
    let kind = watch(params, Param::Type)?;
    Ok(Command::RemoveBreakpoint { node, kind })
}

// A command that takes no memory.
fn small(command: Result<Command, Why>) -> Result<Command, CommandErr>
    ensures { Commands result command }
{
    match command {
        Ok(command) => Ok(command),
        Err(why) => Err(CommandErr::Refused(why)),
    }
}

// The command of that method, whose parameters are an object with these members.
pub(crate) fn command_by(
    alloc: Global,
    method: Method,
    params: &Value,
    members: &Map<String, Value>,
) -> Result<Command, CommandErr>
    requires { as_object (view params.now) ≡ Some (members_view members.now.entries) }
    ensures { Commands result (command_by method (members_view members.now.entries)) }
{
    match method {
        Method::DomEnable => small(dom_enable(members)),
        Method::DomDisable => Ok(Command::DomDisable),
        Method::GetDocument => small(get_document(members)),
        Method::RequestChildNodes => small(request_child_nodes(members)),
        Method::PushByPath => push_by_path(alloc, members),
        Method::PushBySerials => push_by_serials(alloc, members),
        Method::QuerySelector => query_selector(alloc, members),
        Method::QuerySelectorAll => query_selector_all(alloc, members),
        Method::GetAttributes => small(get_attributes(members)),
        Method::DescribeNode => small(describe_node(members)),
        Method::SetAttributeValue => set_attribute_value(alloc, members),
        Method::RemoveAttribute => remove_attribute(alloc, members),
        Method::SetNodeValue => set_node_value(alloc, members),
        Method::RemoveNode => small(remove_node(members)),
        Method::MoveTo => small(move_to(members)),
        Method::CopyTo => small(copy_to(members)),
        Method::MarkUndoableState => Ok(Command::MarkUndoableState),
        Method::Undo => Ok(Command::Undo),
        Method::Redo => Ok(Command::Redo),
        Method::CssEnable => Ok(Command::CssEnable),
        Method::CssDisable => Ok(Command::CssDisable),
        Method::GetMatchedStyles => small(get_matched_styles(members)),
        Method::GetStyleSheetText => get_style_sheet_text(alloc, members),
        Method::CollectClassNames => collect_class_names(alloc, members),
        Method::SetStyleTexts => set_style_texts(alloc, members),
        Method::SetRuleSelector => set_rule_selector(alloc, members),
        Method::SetStyleSheetText => set_style_sheet_text(alloc, members),
        Method::AddRule => add_rule(alloc, members),
        Method::SetMediaText => set_media_text(alloc, members),
        Method::PerformSearch => perform_search(alloc, members),
        Method::GetSearchResults => get_search_results(alloc, members),
        Method::DiscardSearchResults => discard_search_results(alloc, members),
        Method::SetBreakpoint => small(set_breakpoint(members)),
        Method::RemoveBreakpoint => small(remove_breakpoint(members)),
        Method::ReplayLoad => {
            let params = Json::copied(params)?;
            Ok(Command::ReplayLoad { params })
        }
        Method::ReplayAct => {
            let params = Json::copied(params)?;
            Ok(Command::ReplayAct { params })
        }
    }
}
