// Reading the results of replies.
ghost use Rattle.std.specs.Prelude.{◌≡◌, codes};
ghost use Rattle.serde_json.specs.Data.{array};
ghost use Rattle.serde_json.specs.View.{view, items_view};
ghost use Rattle.cdp_json.specs.Left.{left};
ghost use Rattle.cdp_json.specs.Kinds.{list_of, refined, whole};
ghost use Rattle.cdp_json.specs.Rows.{left_with, need};
ghost use Rattle.dom_objects.specs.Answers.{GivesMessage};
ghost use Rattle.cdp_messages.specs.declared.method.ResultForm.TheVariants as form;
ghost use Rattle.dom_objects.specs.NodeObject.{attribute_list};
ghost use Rattle.cdp_messages.specs.Results.{are_attributes, result_by};
ghost use Rattle.cdp_messages.specs.SearchIds.{search_kind};
ghost use Rattle.cdp_messages.specs.Replies.{result_of};

use crate::down::ReplyBody;
use crate::method::{Method, ResultForm};
use crate::numbers::Numbers;
use crate::search_ids::search_of;
use cdp_json::{Cursor, wholes_of};
use css_objects::{
    class_names_of, matched_of, new_media_of, new_rule_of, new_selectors_of, sheet_text_of,
    styles_of,
};
use dom_objects::{DownErr, Manner, are_attribute_names, attributes_of, is_ascending, tree_of};
use node_tree::Attributes;
use serde_json::Value;
use std::alloc::Global;

// Any object is the empty result.
fn nothing_of(value: &Value) -> Result<ReplyBody, DownErr>
    ensures { GivesMessage (λ body. body) result (result_by form.Nothing (view value.now)) }
{
    if value.is_object() {
        Ok(ReplyBody::Nothing)
    } else {
        Err(DownErr::NotMessage)
    }
}

fn root_of(alloc: Global, value: &Value) -> Result<ReplyBody, DownErr>
    ensures { GivesMessage (λ body. body) result (result_by form.Root (view value.now)) }
{
    let object = value.as_object().ok_or(DownErr::NotMessage)?;
    let mut fields = Cursor::new(object);
    let root = fields.need("root").ok_or(DownErr::NotMessage)?;
    if !fields.is_done() {
        return Err(DownErr::NotMessage);
    }
    match tree_of(alloc, root, Manner::Pushed, true) {
        Ok(tree) => Ok(ReplyBody::Root(tree)),
        Err(error) => Err(error),
    }
}

fn node_of(alloc: Global, value: &Value) -> Result<ReplyBody, DownErr>
    ensures { GivesMessage (λ body. body) result (result_by form.Node (view value.now)) }
{
    let object = value.as_object().ok_or(DownErr::NotMessage)?;
    let mut fields = Cursor::new(object);
    let node = fields.need("node").ok_or(DownErr::NotMessage)?;
    if !fields.is_done() {
        return Err(DownErr::NotMessage);
    }
    match tree_of(alloc, node, Manner::Described, true) {
        Ok(tree) => Ok(ReplyBody::Node(tree)),
        Err(error) => Err(error),
    }
}

fn id_of(value: &Value) -> Result<ReplyBody, DownErr>
    ensures { GivesMessage (λ body. body) result (result_by form.NodeId (view value.now)) }
{
    let object = value.as_object().ok_or(DownErr::NotMessage)?;
    let mut fields = Cursor::new(object);
    let id = fields.need_whole("nodeId").ok_or(DownErr::NotMessage)?;
    if !fields.is_done() {
        return Err(DownErr::NotMessage);
    }
    Ok(ReplyBody::NodeId(id))
}

fn wholes_field(alloc: Global, fields: &mut Cursor<'_>, name: &str) -> Result<Numbers, DownErr>
    ensures { GivesMessage (left_with (left fields.new)) result
        (need (list_of whole).reads name.now (left fields.old)) }
{
    match fields.need_list(name) {
        Some(values) => match wholes_of(alloc, values)? {
            Some(list) => Ok(Numbers::new(list)),
            None => Err(DownErr::NotMessage),
        },
        None => Err(DownErr::NotMessage),
    }
}

fn ids_of(alloc: Global, value: &Value) -> Result<ReplyBody, DownErr>
    ensures { GivesMessage (λ body. body) result (result_by form.NodeIds (view value.now)) }
{
    let object = value.as_object().ok_or(DownErr::NotMessage)?;
    let mut fields = Cursor::new(object);
    let ids = wholes_field(alloc, &mut fields, "nodeIds")?;
    if !fields.is_done() {
        return Err(DownErr::NotMessage);
    }
    Ok(ReplyBody::NodeIds(ids))
}

// The names have their forms, are distinct and ascend by bytes.
fn are_attributes(attributes: &Attributes) -> bool
    ensures { result ≡ are_attributes attributes.now }
{
    is_ascending(attributes.iter()) && are_attribute_names(attributes.iter())
}

// Names and values in turn, in the order of the names.
fn ordered_attributes(alloc: Global, values: &[Value]) -> Result<Attributes, DownErr>
    ensures { GivesMessage (λ pairs. pairs) result
        ((refined attribute_list are_attributes).reads (array (items_view values.now))) }
{
    match attributes_of(alloc, values) {
        Ok(pairs) => if are_attributes(&pairs) {
            Ok(pairs)
        } else {
            Err(DownErr::NotMessage)
        },
        Err(error) => Err(error),
    }
}

fn attributes_field(alloc: Global, fields: &mut Cursor<'_>) -> Result<Attributes, DownErr>
    ensures { GivesMessage (left_with (left fields.new)) result
        (need (refined attribute_list are_attributes).reads (codes "attributes") (left fields.old)) }
{
    match fields.need_list("attributes") {
        Some(values) => ordered_attributes(alloc, values),
        None => Err(DownErr::NotMessage),
    }
}

fn attributes_result(alloc: Global, value: &Value) -> Result<ReplyBody, DownErr>
    ensures { GivesMessage (λ body. body) result (result_by form.Attributes (view value.now)) }
{
    let object = value.as_object().ok_or(DownErr::NotMessage)?;
    let mut fields = Cursor::new(object);
    let attributes = attributes_field(alloc, &mut fields)?;
    if !fields.is_done() {
        return Err(DownErr::NotMessage);
    }
    Ok(ReplyBody::Attributes(attributes))
}

fn search_field(fields: &mut Cursor<'_>) -> Result<u64, DownErr>
    ensures { GivesMessage (left_with (left fields.new)) result
        (need search_kind.reads (codes "searchId") (left fields.old)) }
{
    match fields.need("searchId") {
        Some(value) => search_of(value).ok_or(DownErr::NotMessage),
        None => Err(DownErr::NotMessage),
    }
}

fn search_result(value: &Value) -> Result<ReplyBody, DownErr>
    ensures { GivesMessage (λ body. body) result (result_by form.Search (view value.now)) }
{
    let object = value.as_object().ok_or(DownErr::NotMessage)?;
    let mut fields = Cursor::new(object);
    let count = fields.need_whole("resultCount").ok_or(DownErr::NotMessage)?;
    let search = search_field(&mut fields)?;
    if !fields.is_done() {
        return Err(DownErr::NotMessage);
    }
    Ok(ReplyBody::Search { search, count })
}

fn class_names_result(alloc: Global, value: &Value) -> Result<ReplyBody, DownErr>
    ensures { GivesMessage (λ body. body) result (result_by form.ClassNames (view value.now)) }
{
    match class_names_of(alloc, value)? {
        Some(names) => Ok(ReplyBody::ClassNames(names)),
        None => Err(DownErr::NotMessage),
    }
}

fn sheet_text_result(alloc: Global, value: &Value) -> Result<ReplyBody, DownErr>
    ensures { GivesMessage (λ body. body) result (result_by form.SheetText (view value.now)) }
{
    match sheet_text_of(alloc, value)? {
        Some(text) => Ok(ReplyBody::SheetText(text)),
        None => Err(DownErr::NotMessage),
    }
}

fn styles_result(alloc: Global, value: &Value) -> Result<ReplyBody, DownErr>
    ensures { GivesMessage (λ body. body) result (result_by form.Styles (view value.now)) }
{
    match styles_of(alloc, value)? {
        Some(styles) => Ok(ReplyBody::Styles(styles)),
        None => Err(DownErr::NotMessage),
    }
}

fn selectors_result(alloc: Global, value: &Value) -> Result<ReplyBody, DownErr>
    ensures { GivesMessage (λ body. body) result (result_by form.Selectors (view value.now)) }
{
    match new_selectors_of(alloc, value)? {
        Some(selectors) => Ok(ReplyBody::Selectors(selectors)),
        None => Err(DownErr::NotMessage),
    }
}

fn rule_result(alloc: Global, value: &Value) -> Result<ReplyBody, DownErr>
    ensures { GivesMessage (λ body. body) result (result_by form.Rule (view value.now)) }
{
    match new_rule_of(alloc, value)? {
        Some(rule) => Ok(ReplyBody::Rule(rule)),
        None => Err(DownErr::NotMessage),
    }
}

fn media_result(alloc: Global, value: &Value) -> Result<ReplyBody, DownErr>
    ensures { GivesMessage (λ body. body) result (result_by form.Media (view value.now)) }
{
    match new_media_of(alloc, value)? {
        Some(media) => Ok(ReplyBody::Media(media)),
        None => Err(DownErr::NotMessage),
    }
}

fn matched_result(alloc: Global, value: &Value) -> Result<ReplyBody, DownErr>
    ensures { GivesMessage (λ body. body) result (result_by form.Matched (view value.now)) }
{
    match matched_of(alloc, value)? {
        Some(matched) => Ok(ReplyBody::Matched(matched)),
        None => Err(DownErr::NotMessage),
    }
}

fn result_by(alloc: Global, form: ResultForm, value: &Value) -> Result<ReplyBody, DownErr>
    ensures { GivesMessage (λ body. body) result (result_by form (view value.now)) }
{
    match form {
        ResultForm::Nothing => nothing_of(value),
        ResultForm::Root => root_of(alloc, value),
        ResultForm::Node => node_of(alloc, value),
        ResultForm::NodeId => id_of(value),
        ResultForm::NodeIds => ids_of(alloc, value),
        ResultForm::Attributes => attributes_result(alloc, value),
        ResultForm::Search => search_result(value),
        ResultForm::ClassNames => class_names_result(alloc, value),
        ResultForm::SheetText => sheet_text_result(alloc, value),
        ResultForm::Styles => styles_result(alloc, value),
        ResultForm::Selectors => selectors_result(alloc, value),
        ResultForm::Rule => rule_result(alloc, value),
        ResultForm::Media => media_result(alloc, value),
        ResultForm::Matched => matched_result(alloc, value),
    }
}

/// Reads the result of a reply to a command of that method. No result is one of a method that is not known.
pub fn read_result(alloc: Global, method: &str, value: &Value) -> Result<ReplyBody, DownErr>
    ensures { GivesMessage (λ body. body) result (result_of method.now (view value.now)) }
{
    match Method::named(method) {
        Some(method) => result_by(alloc, method.result_form(), value),
        None => Err(DownErr::NotMessage),
    }
}
