// The parameters of commands, each looked up by its name.
ghost use Rattle.std.specs.Prelude.{◌≡◌, IfOk, option_and_then};
ghost use Rattle.serde_json.specs.Find.{as_bool, as_str};
ghost use Rattle.serde_json.specs.View.{view, items_view, members_view};
ghost use Rattle.cdp_json.specs.Fields.{field_of};
ghost use Rattle.cdp_json.specs.Kinds.{as_whole, as_depth, list_of, whole, read_items};
ghost use Rattle.cdp_json.specs.Lookups.{optional, required, ok_value};
ghost use Rattle.cdp_messages.specs.declared.command.Why.TheVariants.{BadParam};
ghost use Rattle.cdp_messages.specs.Refusals.{param_name};
ghost use Rattle.cdp_messages.specs.Events.{watch};
ghost use Rattle.cdp_messages.specs.Whitespace.{whitespace};
ghost use Rattle.cdp_messages.specs.Parameters.{place_fields, place_from, range_parameter, text_edit};
ghost use Rattle.cdp_messages.specs.Answers.{Commands};

use crate::command::{CommandErr, Param, WhitespaceWord, Why, watch_named, whitespace_named};
use crate::edits::{TextEdit, TextEdits};
use crate::numbers::Numbers;
use crate::write::param_name;
use cdp_json::{
    Field, depth_field, flag_field, int_field, list_field, object_field, text_field, wholes_of,
};
use css_objects::SourceRange;
use node_tree::{Text, WatchKind};
use serde_json::{Map, Value};
use std::alloc::{AllocError, Global};

// A parameter that may be absent.
fn optional<T: Drop>(param: Param, field: Field<T>) -> Result<Option<T>, Why>
    ensures { result ≡ optional (BadParam param) field }
{
    match field {
        Field::Missing => Ok(None),
        Field::WrongKind => Err(Why::BadParam(param)),
        Field::Is(found) => Ok(Some(found)),
    }
}

// A parameter that is there.
fn required<T: Drop>(param: Param, field: Field<T>) -> Result<T, Why>
    ensures { result ≡ required (BadParam param) field }
{
    match field {
        Field::Missing | Field::WrongKind => Err(Why::BadParam(param)),
        Field::Is(found) => Ok(found),
    }
}

pub(crate) fn whole(params: &Map<String, Value>, param: Param) -> Result<u64, Why>
    ensures { result ≡ required (BadParam param) (field_of as_whole (param_name param)
        (members_view params.now.entries)) }
{
    required(param, int_field(params, param_name(param)))
}

pub(crate) fn whole_or_none(params: &Map<String, Value>, param: Param) -> Result<Option<u64>, Why>
    ensures { result ≡ optional (BadParam param) (field_of as_whole (param_name param)
        (members_view params.now.entries)) }
{
    optional(param, int_field(params, param_name(param)))
}

pub(crate) fn depth_or_none(params: &Map<String, Value>, param: Param) -> Result<Option<i64>, Why>
    ensures { result ≡ optional (BadParam param) (field_of as_depth (param_name param)
        (members_view params.now.entries)) }
{
    optional(param, depth_field(params, param_name(param)))
}

pub(crate) fn flag_or_none(params: &Map<String, Value>, param: Param) -> Result<Option<bool>, Why>
    ensures { result ≡ optional (BadParam param) (field_of as_bool (param_name param)
        (members_view params.now.entries)) }
{
    optional(param, flag_field(params, param_name(param)))
}

pub(crate) fn text(
    alloc: Global,
    params: &Map<String, Value>,
    param: Param,
) -> Result<Text, CommandErr>
    ensures { Commands result (required (BadParam param) (field_of as_str (param_name param)
        (members_view params.now.entries))) }
{
    match text_field(params, param_name(param)) {
        Field::Is(found) => {
            let copy = Text::copied(alloc, found)?;
            Ok(copy)
        }
        Field::Missing | Field::WrongKind => Err(CommandErr::Refused(Why::BadParam(param))),
    }
}

fn wholes_field(
    alloc: Global,
    params: &Map<String, Value>,
    name: &str,
) -> Result<Field<Numbers>, AllocError>
    ensures { IfOk result (λ field. field
        ≡ field_of (list_of whole).reads name.now (members_view params.now.entries)) }
{
    match list_field(params, name) {
        Field::Is(values) => match wholes_of(alloc, values)? {
            Some(list) => Ok(Field::Is(Numbers::new(list))),
            None => Ok(Field::WrongKind),
        },
        Field::Missing => Ok(Field::Missing),
        Field::WrongKind => Ok(Field::WrongKind),
    }
}

// A parameter that takes memory, which was read.
fn required_of<T: Drop>(param: Param, field: Field<T>) -> Result<T, CommandErr>
    ensures { Commands result (required (BadParam param) field) }
{
    match required(param, field) {
        Ok(found) => Ok(found),
        Err(why) => Err(CommandErr::Refused(why)),
    }
}

pub(crate) fn wholes(
    alloc: Global,
    params: &Map<String, Value>,
    param: Param,
) -> Result<Numbers, CommandErr>
    ensures { Commands result (required (BadParam param) (field_of (list_of whole).reads (param_name param)
        (members_view params.now.entries))) }
{
    let field = wholes_field(alloc, params, param_name(param))?;
    required_of(param, field)
}

fn watch_field(params: &Map<String, Value>, name: &str) -> Field<WatchKind>
    ensures { result ≡ field_of watch.reads name.now (members_view params.now.entries) }
{
    match text_field(params, name) {
        Field::Is(word) => match watch_named(word) {
            Some(found) => Field::Is(found),
            None => Field::WrongKind,
        },
        Field::Missing => Field::Missing,
        Field::WrongKind => Field::WrongKind,
    }
}

pub(crate) fn watch(params: &Map<String, Value>, param: Param) -> Result<WatchKind, Why>
    ensures { result ≡ required (BadParam param) (field_of watch.reads (param_name param)
        (members_view params.now.entries)) }
{
    required(param, watch_field(params, param_name(param)))
}

fn whitespace_field(params: &Map<String, Value>, name: &str) -> Field<WhitespaceWord>
    ensures { result ≡ field_of whitespace.reads name.now (members_view params.now.entries) }
{
    match text_field(params, name) {
        Field::Is(word) => match whitespace_named(word) {
            Some(found) => Field::Is(found),
            None => Field::WrongKind,
        },
        Field::Missing => Field::Missing,
        Field::WrongKind => Field::WrongKind,
    }
}

pub(crate) fn whitespace_or_none(
    params: &Map<String, Value>,
    param: Param,
) -> Result<Option<WhitespaceWord>, Why>
    ensures { result ≡ optional (BadParam param) (field_of whitespace.reads (param_name param)
        (members_view params.now.entries)) }
{
    optional(param, whitespace_field(params, param_name(param)))
}

fn place_in(members: &Map<String, Value>) -> Option<SourceRange>
    ensures { result ≡ option_and_then place_from (ok_value (place_fields.gets
        (members_view members.now.entries))) }
{
    let Field::Is(start_line) = int_field(members, "startLine") else {
        return None;
    };
    let Field::Is(start_column) = int_field(members, "startColumn") else {
        return None;
    };
    let Field::Is(end_line) = int_field(members, "endLine") else {
        return None;
    };
    let Field::Is(end_column) = int_field(members, "endColumn") else {
        return None;
    };
    Some(SourceRange {
        start_line,
        start_column,
        end_line,
        end_column,
    })
}

fn place_field(params: &Map<String, Value>, name: &str) -> Field<SourceRange>
    ensures { result ≡ field_of range_parameter.reads name.now (members_view params.now.entries) }
{
    match object_field(params, name) {
        Field::Is(members) => match place_in(members) {
            Some(found) => Field::Is(found),
            None => Field::WrongKind,
        },
        Field::Missing => Field::Missing,
        Field::WrongKind => Field::WrongKind,
    }
}

pub(crate) fn place(params: &Map<String, Value>, param: Param) -> Result<SourceRange, Why>
    ensures { result ≡ required (BadParam param) (field_of range_parameter.reads (param_name param)
        (members_view params.now.entries)) }
{
    required(param, place_field(params, param_name(param)))
}

fn edit_of(alloc: Global, value: &Value) -> Result<Option<TextEdit>, AllocError>
    ensures { IfOk result (λ edit. edit ≡ text_edit.reads (view value.now)) }
{
    let Some(members) = value.as_object() else {
        return Ok(None);
    };
    let Field::Is(sheet) = text_field(members, param_name(Param::StyleSheetId)) else {
        return Ok(None);
    };
    let Field::Is(range) = place_field(members, param_name(Param::Range)) else {
        return Ok(None);
    };
    let Field::Is(text) = text_field(members, param_name(Param::Text)) else {
        return Ok(None);
    };
    let sheet = Text::copied(alloc, sheet)?;
    let text = Text::copied(alloc, text)?;
    Ok(Some(TextEdit { sheet, range, text }))
}

fn edits_of(alloc: Global, values: &[Value]) -> Result<Option<TextEdits>, AllocError>
    ensures { IfOk result (λ edits. edits ≡ read_items text_edit.reads (items_view values.now)) }
{
    let mut edits = Vec::new(alloc);
    for value in values {
        let Some(edit) = edit_of(alloc, value)? else {
            return Ok(None);
        };
        edits.push(edit)?;
    }
    Ok(Some(TextEdits::new(edits)))
}

fn edits_field(
    alloc: Global,
    params: &Map<String, Value>,
    name: &str,
) -> Result<Field<TextEdits>, AllocError>
    ensures { IfOk result (λ field. field
        ≡ field_of (list_of text_edit).reads name.now (members_view params.now.entries)) }
{
    match list_field(params, name) {
        Field::Is(values) => match edits_of(alloc, values)? {
            Some(edits) => Ok(Field::Is(edits)),
            None => Ok(Field::WrongKind),
        },
        Field::Missing => Ok(Field::Missing),
        Field::WrongKind => Ok(Field::WrongKind),
    }
}

pub(crate) fn edits(
    alloc: Global,
    params: &Map<String, Value>,
    param: Param,
) -> Result<TextEdits, CommandErr>
    ensures { Commands result (required (BadParam param) (field_of (list_of text_edit).reads (param_name param)
        (members_view params.now.entries))) }
{
    let field = edits_field(alloc, params, param_name(param))?;
    required_of(param, field)
}
