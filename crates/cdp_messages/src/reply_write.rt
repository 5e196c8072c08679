// Writing replies.
ghost use Rattle.std.specs.Prelude.{◌≡◌, ◌++◌, IfOk, OnOk, OnErr, IsUtf8, false};
ghost use Rattle.serde_json.specs.Data.{Data};
ghost use Rattle.serde_json.specs.View.{view};
ghost use Rattle.serde_json.specs.Written.{compact_text, has_float};
ghost use Rattle.dom_objects.specs.NodeObject.{attribute_list};
ghost use Rattle.cdp_messages.specs.Results.{id_kind, ids_kind, attributes_kind, search_result_kind, body_data};
ghost use Rattle.cdp_messages.specs.Replies.{reply, message_data, reply_text};
ghost use Rattle.pipe_frames.specs.Frames.{framed};
ghost use Rattle.cdp_messages.specs.Forms.{body_said};

use crate::down::ReplyBody;
use crate::matched_reply::append_matched;
use crate::node_message::NodeMessage;
use crate::numbers::Numbers;
use crate::search_ids::search_value;
use crate::tree_messages::append_tree;
use crate::write::append;
use cdp_json::{ObjectBuilder, whole_list};
use css_objects::{
    Matched, class_names_value, new_media_value, new_rule_value, new_selectors_value,
    sheet_text_value, styles_value,
};
use dom_objects::NodeTree;
use node_tree::Attributes;
use serde_json::{Map, Value};
use std::alloc::{AllocError, Global};

// Names and values in turn.
fn attributes_value(alloc: Global, attributes: &Attributes) -> Result<Value, AllocError>
    ensures { IfOk result (λ v. view v ≡ attribute_list.spell attributes.now) }
{
    let mut list = Vec::new(alloc);
    for pair in attributes.iter() {
        list.push(Value::try_from_str(alloc, pair.0.as_str())?)?;
        list.push(Value::try_from_str(alloc, pair.1.as_str())?)?;
    }
    Ok(Value::Array(list))
}

fn ids_value(alloc: Global, ids: &Numbers) -> Result<Value, AllocError>
    ensures { IfOk result (λ v. view v ≡ ids_kind.spell (ids.now, tt)) }
{
    ObjectBuilder::new(alloc)
        .with_value("nodeIds", whole_list(alloc, ids.as_slice())?)?
        .build()
}

fn attributes_body(alloc: Global, attributes: &Attributes) -> Result<Value, AllocError>
    ensures { IfOk result (λ v. view v ≡ attributes_kind.spell (attributes.now, tt)) }
{
    ObjectBuilder::new(alloc)
        .with_value("attributes", attributes_value(alloc, attributes)?)?
        .build()
}

fn search_body(alloc: Global, search: u64, count: u64) -> Result<Value, AllocError>
    ensures { IfOk result (λ v. view v ≡ search_result_kind.spell (count, (search, tt))) }
{
    ObjectBuilder::new(alloc)
        .with_value("resultCount", Value::from(count))?
        .with_value("searchId", search_value(alloc, search)?)?
        .build()
}

fn id_value(alloc: Global, id: u64) -> Result<Value, AllocError>
    ensures { IfOk result (λ v. view v ≡ id_kind.spell (id, tt)) }
{
    ObjectBuilder::new(alloc)
        .with_value("nodeId", Value::from(id))?
        .build()
}

// A result as it is to be written.
#[derive(Drop)]
pub(crate) enum BodyForm<'a> {
    Plain(Value),
    Root(&'a NodeTree),
    Node(&'a NodeTree),
    Matched(&'a Matched),
}

// A result of this value, where it could be made.
fn plain_body<'a>(value: Result<Value, AllocError>) -> Result<BodyForm<'a>, AllocError>
    ensures { (d : Data) → IfOk value (λ v. view v ≡ d) → IfOk result (λ form. body_said form ≡ d) }
{
    Ok(BodyForm::Plain(value?))
}

fn body_form(alloc: Global, body: &ReplyBody) -> Result<BodyForm<'_>, AllocError>
    ensures { IfOk result (λ form. body_said form ≡ body_data body.now) }
{
    match body {
        ReplyBody::Nothing => Ok(BodyForm::Plain(Value::Object(Map::new(alloc)))),
        ReplyBody::Root(tree) => Ok(BodyForm::Root(tree)),
        ReplyBody::Node(tree) => Ok(BodyForm::Node(tree)),
        ReplyBody::NodeId(id) => plain_body(id_value(alloc, *id)),
        ReplyBody::NodeIds(ids) => plain_body(ids_value(alloc, ids)),
        ReplyBody::Attributes(attributes) => plain_body(attributes_body(alloc, attributes)),
        ReplyBody::Search { search, count } => plain_body(search_body(alloc, *search, *count)),
        ReplyBody::ClassNames(names) => plain_body(class_names_value(alloc, names.as_slice())),
        ReplyBody::SheetText(text) => plain_body(sheet_text_value(alloc, text)),
        ReplyBody::Styles(styles) => plain_body(styles_value(alloc, styles.as_slice())),
        ReplyBody::Selectors(selectors) => plain_body(new_selectors_value(alloc, selectors)),
        ReplyBody::Rule(rule) => plain_body(new_rule_value(alloc, rule)),
        ReplyBody::Media(media) => plain_body(new_media_value(alloc, media)),
        ReplyBody::Matched(matched) => Ok(BodyForm::Matched(matched)),
    }
}

fn reply_value(alloc: Global, id: u64, body: Value) -> Result<Value, AllocError>
    ensures { IfOk result (λ v. view v ≡ message_data (reply id (view body))) }
{
    ObjectBuilder::new(alloc)
        .with_value("id", Value::from(id))?
        .with_value("result", body)?
        .build()
}

/// Appends a reply with this result as one frame, with its zero byte. No number in the result has a point or an exponent.
pub fn append_reply(
    alloc: Global,
    id: u64,
    body: Value,
    out: &mut Vec<u8>,
) -> Result<(), AllocError>
    requires { has_float (message_data (reply id (view body))) ≡ false }
    ensures ok { OnOk result (out.new.items ≡ out.old.items
        ++ framed (compact_text (message_data (reply id (view body))))) }
    ensures utf8 { OnOk result (IsUtf8 (compact_text (message_data (reply id (view body))))) }
    ensures err { OnErr result (out.new.items ≡ out.old.items) }
{
    let value = reply_value(alloc, id, body)?;
    append(alloc, &value, out)
}

/// Appends a reply as one frame, with its zero byte.
pub fn write_reply(
    alloc: Global,
    id: u64,
    body: &ReplyBody,
    out: &mut Vec<u8>,
) -> Result<(), AllocError>
    ensures ok { OnOk result (out.new.items ≡ out.old.items ++ framed (reply_text id body.now)) }
    ensures utf8 { OnOk result (IsUtf8 (reply_text id body.now)) }
    ensures err { OnErr result (out.new.items ≡ out.old.items) }
{
    let form = match body_form(alloc, body) {
        Ok(form) => form,
        Err(error) => return Err(error),
    };
    match form {
        BodyForm::Plain(value) => append_reply(alloc, id, value, out),
        BodyForm::Root(tree) => append_tree(alloc, NodeMessage::Root { id }, tree, out),
        BodyForm::Node(tree) => append_tree(alloc, NodeMessage::Node { id }, tree, out),
        BodyForm::Matched(matched) => append_matched(alloc, id, matched, out),
    }
}
