// Writing frames.
ghost use Rattle.std.specs.Prelude.{◌≡◌, ◌++◌, IsTrue, IfOk, OnOk, OnErr, option_map, false, string_bytes, IsUtf8};
ghost use Rattle.serde_json.specs.View.{view};
ghost use Rattle.serde_json.specs.Written.{compact_text, has_float};
ghost use Rattle.cdp_messages.specs.Refusals.{param_name, code_of, said_first, said_of_param, refusal_words};
ghost use Rattle.cdp_messages.specs.Asked.{command_value, command_text, is_whole_where_there};
ghost use Rattle.cdp_messages.specs.Replies.{error_kind, fault, message_data, refused_text};
ghost use Rattle.pipe_frames.specs.Frames.{framed};

use crate::command::{Param, Refused, Why};
use cdp_json::ObjectBuilder;
use serde_json::Value;
use std::alloc::{AllocError, Global};

// Appends the text of a value and a zero byte.
pub(crate) fn append(alloc: Global, value: &Value, out: &mut Vec<u8>) -> Result<(), AllocError>
    requires { has_float (view value.now) ≡ false }
    ensures ok { OnOk result (out.new.items ≡ out.old.items ++ framed (compact_text (view value.now))) }
    ensures utf8 { OnOk result (IsUtf8 (compact_text (view value.now))) }
    ensures err { OnErr result (out.new.items ≡ out.old.items) }
{
    let mut text = value.to_vec(alloc)?;
    text.push(0)?;
    out.extend_from_slice(text.as_slice())
}

// A copy of the value, where there is one.
fn copied(value: Option<&Value>) -> Result<Option<Value>, AllocError>
    ensures { IfOk result (λ copy. option_map view copy ≡ option_map (λ v. view v.now) value.entry) }
{
    match value {
        Some(value) => Ok(Some(value.clone()?)),
        None => Ok(None),
    }
}

fn command_value(
    alloc: Global,
    id: u64,
    method: &str,
    params: Option<&Value>,
    session: Option<&Value>,
) -> Result<Value, AllocError>
    ensures { IfOk result (λ v. view v ≡ command_value id method.now
        (option_map (λ p. view p.now) params.entry) (option_map (λ s. view s.now) session.entry)) }
{
    ObjectBuilder::new(alloc)
        .with_value("id", Value::from(id))?
        .with_text("method", method)?
        .with("params", copied(params)?)?
        .with("sessionId", copied(session)?)?
        .build()
}

/// Appends a command as one frame, with its zero byte. No number in `params` and `session` has a point or an exponent.
pub fn write_command(
    alloc: Global,
    id: u64,
    method: &str,
    params: Option<&Value>,
    session: Option<&Value>,
    out: &mut Vec<u8>,
) -> Result<(), AllocError>
    requires params { IsTrue (is_whole_where_there (option_map (λ p. view p.now) params)) }
    requires session { IsTrue (is_whole_where_there (option_map (λ s. view s.now) session)) }
    ensures ok { OnOk result (out.new.items ≡ out.old.items ++ framed (command_text id method.now
        (option_map (λ p. view p.now) params.entry) (option_map (λ s. view s.now) session.entry))) }
    ensures err { OnErr result (out.new.items ≡ out.old.items) }
{
    let value = command_value(alloc, id, method, params, session)?;
    append(alloc, &value, out)
}

pub(crate) fn param_name(param: Param) -> &'static str
    ensures { result.now ≡ param_name param }
{
    match param {
        Param::BackendNodeId => "backendNodeId",
        Param::BackendNodeIds => "backendNodeIds",
        Param::Depth => "depth",
        Param::Edits => "edits",
        Param::Flatten => "flatten",
        Param::FromIndex => "fromIndex",
        Param::IncludeUserAgentShadowDom => "includeUserAgentShadowDOM",
        Param::IncludeWhitespace => "includeWhitespace",
        Param::InsertBeforeNodeId => "insertBeforeNodeId",
        Param::Location => "location",
        Param::Name => "name",
        Param::NodeId => "nodeId",
        Param::Params => "params",
        Param::Path => "path",
        Param::Pierce => "pierce",
        Param::Query => "query",
        Param::Range => "range",
        Param::RuleText => "ruleText",
        Param::SearchId => "searchId",
        Param::Selector => "selector",
        Param::SessionId => "sessionId",
        Param::StyleSheetId => "styleSheetId",
        Param::TargetId => "targetId",
        Param::TargetNodeId => "targetNodeId",
        Param::Text => "text",
        Param::ToIndex => "toIndex",
        Param::Type => "type",
        Param::Value => "value",
    }
}

fn code_of(why: Why) -> i64
    ensures { result ≡ code_of why }
{
    match why {
        Why::NotJson => -32700,
        Why::NoId => -32600,
        Why::BadRequest => -32600,
        Why::NoSession => -32001,
        Why::NoMethod => -32601,
        Why::BadParam(_) => -32602,
        Why::DomOff
        | Why::CssOff
        | Why::UnknownNode
        | Why::NotPushed
        | Why::NoPath
        | Why::BadQuery
        | Why::NoSearch
        | Why::BadSearchRange
        | Why::NoTarget
        | Why::SessionTaken
        | Why::NoTargetSession
        | Why::Crossed
        | Why::NoNode
        | Why::NotElement
        | Why::NotText
        | Why::IsDocument
        | Why::NotChild
        | Why::Inside
        | Why::TooDeep
        | Why::TooMany
        | Why::BadName
        | Why::NoAttr
        | Why::NotContainer
        | Why::NoSheet
        | Why::NotMutable
        | Why::BadRange
        | Why::BadText
        | Why::BadSelector
        | Why::BadPlace
        | Why::TooBig => -32000,
    }
}

fn said_first(why: Why) -> &'static str
    ensures { result.now ≡ said_first why }
{
    match why {
        Why::NotJson => "not JSON",
        Why::NoId => "no usable id",
        Why::BadRequest => "bad request",
        Why::NoSession => "unknown session",
        Why::NoMethod => "unknown method",
        Why::BadParam(_) => "bad parameter: ",
        Why::DomOff => "DOM is off",
        Why::CssOff => "CSS is off",
        Why::UnknownNode => "unknown node",
        Why::NotPushed => "document not pushed",
        Why::NoPath => "no such path",
        Why::BadQuery => "bad selector",
        Why::NoSearch => "no such search",
        Why::BadSearchRange => "bad search range",
        Why::NoTarget => "no such target",
        Why::SessionTaken => "session is taken",
        Why::NoTargetSession => "no such session",
        Why::Crossed => "Crossed",
        Why::NoNode => "NoNode",
        Why::NotElement => "NotElement",
        Why::NotText => "NotText",
        Why::IsDocument => "IsDocument",
        Why::NotChild => "NotChild",
        Why::Inside => "Inside",
        Why::TooDeep => "TooDeep",
        Why::TooMany => "TooMany",
        Why::BadName => "BadName",
        Why::NoAttr => "NoAttr",
        Why::NotContainer => "NotContainer",
        Why::NoSheet => "NoSheet",
        Why::NotMutable => "NotMutable",
        Why::BadRange => "BadRange",
        Why::BadText => "BadText",
        Why::BadSelector => "BadSelector",
        Why::BadPlace => "BadPlace",
        Why::TooBig => "TooBig",
    }
}

fn said_of_param(why: Why) -> &'static str
    ensures { result.now ≡ said_of_param why }
{
    match why {
        Why::BadParam(param) => param_name(param),
        Why::NotJson
        | Why::NoId
        | Why::BadRequest
        | Why::NoSession
        | Why::NoMethod
        | Why::DomOff
        | Why::CssOff
        | Why::UnknownNode
        | Why::NotPushed
        | Why::NoPath
        | Why::BadQuery
        | Why::NoSearch
        | Why::BadSearchRange
        | Why::NoTarget
        | Why::SessionTaken
        | Why::NoTargetSession
        | Why::Crossed
        | Why::NoNode
        | Why::NotElement
        | Why::NotText
        | Why::IsDocument
        | Why::NotChild
        | Why::Inside
        | Why::TooDeep
        | Why::TooMany
        | Why::BadName
        | Why::NoAttr
        | Why::NotContainer
        | Why::NoSheet
        | Why::NotMutable
        | Why::BadRange
        | Why::BadText
        | Why::BadSelector
        | Why::BadPlace
        | Why::TooBig => "",
    }
}

fn text_of(alloc: Global, why: Why) -> Result<String, AllocError>
    ensures { IfOk result (λ text. string_bytes text ≡ refusal_words why) }
{
    let mut text = String::from_str(alloc, said_first(why))?;
    text.push_str(said_of_param(why))?;
    Ok(text)
}

fn error_value(alloc: Global, code: i64, text: String) -> Result<Value, AllocError>
    ensures { IfOk result (λ v. view v ≡ error_kind.spell (code, (string_bytes text, tt))) }
{
    ObjectBuilder::new(alloc)
        .with_value("code", Value::from(code))?
        .with_value("message", Value::String(text))?
        .build()
}

fn fault_value(alloc: Global, id: Option<u64>, code: i64, text: String) -> Result<Value, AllocError>
    ensures { IfOk result (λ v. view v ≡ message_data (fault id code (string_bytes text))) }
{
    let number = match id {
        Some(id) => Some(Value::from(id)),
        None => None,
    };
    ObjectBuilder::new(alloc)
        .with_value("error", error_value(alloc, code, text)?)?
        .with("id", number)?
        .build()
}

/// Appends a refusal as one frame, with its zero byte.
pub fn write_refused(alloc: Global, refused: &Refused, out: &mut Vec<u8>) -> Result<(), AllocError>
    ensures ok { OnOk result (out.new.items ≡ out.old.items ++ framed (refused_text refused.now)) }
    ensures utf8 { OnOk result (IsUtf8 (refused_text refused.now)) }
    ensures err { OnErr result (out.new.items ≡ out.old.items) }
{
    let text = text_of(alloc, refused.why)?;
    let value = fault_value(alloc, refused.id, code_of(refused.why), text)?;
    append(alloc, &value, out)
}
