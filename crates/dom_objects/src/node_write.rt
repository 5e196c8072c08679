// A node's object as the tokens of its text, with no JSON values in between.
ghost use Rattle.std.specs.Prelude.{◌≡◌, ◌++◌, [], bytes_eq, OnOk, nat_lt, codes, option_map, string_bytes, Some};
ghost use Rattle.std.specs.Str.{str_to_ascii_uppercase};
ghost use Rattle.cdp_json.specs.Kinds.{whole, text};
ghost use Rattle.node_tree.specs.Labels.{is_element, holds};
ghost use Rattle.dom_objects.specs.NodeObject.{attribute_list, type_number, name_shown, local_name_of, only_if};
ghost use Rattle.dom_objects.specs.Tokens.{data_tokens, field_tokens, head_tokens, tail_tokens};
ghost use Rattle.dom_objects.specs.NodeRows.{told_by};

use crate::node_row::NodeRow;
use cdp_json::{write_text_field, write_whole_field};
use json::Writer;
use node_tree::{Attributes, Kind};
use std::alloc::{AllocError, Global};

// The number of a node's type (DOM, section 4.4).
fn type_number(kind: Kind) -> u64
    ensures { result ≡ type_number kind }
{
    match kind {
        Kind::Element => 1,
        Kind::Text => 3,
        Kind::Comment => 8,
        Kind::Document => 9,
        Kind::Doctype => 10,
    }
}

// Puts what is shown as the name of a node of that kind and name in the place of what `held` has.
fn put_name(held: &mut String, kind: Kind, name: &str) -> Result<(), AllocError>
    ensures { OnOk result (string_bytes held.new ≡ name_shown kind name.now) }
{
    held.clear();
    match kind {
        Kind::Document => held.push_str("#document"),
        Kind::Element => push_upper_case(held, name),
        Kind::Text => held.push_str("#text"),
        Kind::Comment => held.push_str("#comment"),
        Kind::Doctype => held.push_str(name),
    }
}

// Puts a name in ASCII upper case.
fn push_upper_case(held: &mut String, name: &str) -> Result<(), AllocError>
    requires { string_bytes held.old ≡ [] }
    ensures { OnOk result (string_bytes held.new ≡ str_to_ascii_uppercase name.now) }
{
    held.push_str(name)?;
    held.make_ascii_uppercase();
    Ok(())
}

// Whether a text is a name in ASCII upper case.
fn is_upper_case(text: &str, name: &str) -> bool
    ensures { result ≡ bytes_eq text.now (str_to_ascii_uppercase name.now) }
{
    let text = text.as_bytes();
    let name = name.as_bytes();
    if text.len() != name.len() {
        return false;
    }
    let mut at = 0;
    while at < text.len() {
        if text[at] != name[at].to_ascii_uppercase() {
            return false;
        }
        at += 1;
    }
    true
}

// Whether a text is what is shown as the name of a node of that kind and name.
pub(crate) fn shows_name(kind: Kind, name: &str, text: &str) -> bool
    ensures { result ≡ bytes_eq text.now (name_shown kind name.now) }
{
    match kind {
        Kind::Document => text == "#document",
        Kind::Element => is_upper_case(text, name),
        Kind::Text => text == "#text",
        Kind::Comment => text == "#comment",
        Kind::Doctype => text == name,
    }
}

// The local name of a node of that kind and name.
pub(crate) fn local_name(kind: Kind, name: &str) -> &str
    ensures { result.now ≡ local_name_of kind name.now }
{
    if kind.is_element() { name } else { "" }
}

// Names and values in turn.
fn write_attributes(out: &mut Writer, attributes: &Attributes) -> Result<(), AllocError>
    ensures ok { OnOk result (out.new.tokens ≡ out.old.tokens
        ++ data_tokens (attribute_list.spell attributes.now)) }
    ensures before { out.new.before ≡ out.old.before }
{
    out.begin_array()?;
    for pair in attributes.iter() {
        out.string(pair.0.as_str())?;
        out.string(pair.1.as_str())?;
    }
    out.end_array()?;
    Ok(())
}

fn attributes_field(out: &mut Writer, kind: Kind, attributes: &Attributes) -> Result<(), AllocError>
    ensures ok { OnOk result (out.new.tokens ≡ out.old.tokens ++ field_tokens (codes "attributes")
        (option_map attribute_list.spell (only_if (is_element kind) attributes.now))) }
    ensures before { out.new.before ≡ out.old.before }
{
    if kind.is_element() {
        out.key("attributes")?;
        write_attributes(out, attributes)
    } else {
        Ok(())
    }
}

fn count_field(out: &mut Writer, kind: Kind, count: u64) -> Result<(), AllocError>
    ensures ok { OnOk result (out.new.tokens ≡ out.old.tokens ++ field_tokens (codes "childNodeCount")
        (option_map whole.spell (only_if (holds kind) count))) }
    ensures before { out.new.before ≡ out.old.before }
{
    if kind.is_container() {
        write_whole_field(out, "childNodeCount", count)
    } else {
        Ok(())
    }
}

fn parent_field(out: &mut Writer, parent: u64) -> Result<(), AllocError>
    ensures ok { OnOk result (out.new.tokens ≡ out.old.tokens ++ field_tokens (codes "parentId")
        (option_map whole.spell (only_if (nat_lt 0 parent) parent))) }
    ensures before { out.new.before ≡ out.old.before }
{
    if parent > 0 {
        write_whole_field(out, "parentId", parent)
    } else {
        Ok(())
    }
}

// The name that is shown of a node; `held` is room for it.
fn name_field(out: &mut Writer, held: &mut String, kind: Kind, name: &str) -> Result<(), AllocError>
    ensures ok { OnOk result (out.new.tokens ≡ out.old.tokens ++ field_tokens (codes "nodeName")
        (Some (text.spell (name_shown kind name.now)))) }
    ensures before { out.new.before ≡ out.old.before }
{
    put_name(held, kind, name)?;
    write_text_field(out, "nodeName", held.as_str())
}

/// A node's object, up to its children.
pub(crate) fn write_head(out: &mut Writer, row: &NodeRow) -> Result<(), AllocError>
    ensures ok { OnOk result (out.new.tokens ≡ out.old.tokens ++ head_tokens (told_by row.now)) }
    ensures before { out.new.before ≡ out.old.before }
{
    out.begin_object()?;
    attributes_field(out, row.kind, row.attributes)?;
    write_whole_field(out, "backendNodeId", row.serial)?;
    count_field(out, row.kind, row.count)?;
    Ok(())
}

/// A node's object, behind its children; `held` is room for a name.
pub(crate) fn write_tail(
    out: &mut Writer,
    held: &mut String,
    row: &NodeRow,
) -> Result<(), AllocError>
    ensures ok { OnOk result (out.new.tokens ≡ out.old.tokens ++ tail_tokens (told_by row.now)) }
    ensures before { out.new.before ≡ out.old.before }
{
    write_text_field(out, "localName", local_name(row.kind, row.name))?;
    write_whole_field(out, "nodeId", row.id)?;
    name_field(out, held, row.kind, row.name)?;
    write_whole_field(out, "nodeType", type_number(row.kind))?;
    write_text_field(out, "nodeValue", row.value)?;
    parent_field(out, row.parent)?;
    out.end_object()?;
    Ok(())
}
