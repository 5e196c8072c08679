// A node out of the tokens that are written for one, in one pass. Any other text is left to `serde_json`.
ghost use Rattle.std.specs.Prelude.{◌≡◌, ◌≤◌, ◌++◌, ◌∷◌, ◌&&◌, [], codes, None, Some, option_map, true, IfOk};
ghost use Rattle.json.specs.Token.{end_object, key};
ghost use Rattle.serde_json.specs.Data.{array};
ghost use Rattle.cdp_json.specs.Kinds.{whole, text, is_counted, holds_of_some};
ghost use Rattle.node_tree.specs.Nodes.{nodes_of, alone, height, width};
ghost use Rattle.dom_objects.specs.Told.{shown_children};
ghost use Rattle.dom_objects.specs.NodeObject.{attribute_list, node_type, node_fields};
ghost use Rattle.dom_objects.specs.NodeData.{tree_data, tree_items, fits_tree, fits_nodes};
ghost use Rattle.dom_objects.specs.Tokens.{data_tokens, field_tokens};
ghost use Rattle.dom_objects.specs.Raw.{object_over, object_behind, names_tokens, behind_tokens, next_name, items_shown};

use crate::node_read::{Behind, Names, NodeParts, kind_of_type};
use crate::node_rules::Manner;
use crate::takes::{
    take_begin_array, take_begin_object, take_copied, take_end_object, take_key, take_text,
    take_text_field, take_whole, take_whole_field,
};
use crate::tree::NodeTree;
use cdp_json::{ScanErr, is_counted};
use node_tree::{Attributes, Kind, Text};
use short_json::UsualReader;
use std::alloc::Global;

// The most children for which there is room before the first is read: their number is what the other end says.
const MOST_ROOM: u64 = 256;

// The attributes: names and values in turn.
fn take_attributes(alloc: Global, reader: &mut UsualReader<'_>) -> Result<Attributes, ScanErr>
    ensures { IfOk result (λ pairs. reader.old ≡ data_tokens (attribute_list.spell pairs) ++ reader.new) }
{
    take_begin_array(reader)?;
    let mut pairs = Attributes::new(alloc);
    'pairs: while !reader.take_end_array() {
        let name = take_copied(alloc, reader)?;
        let value = take_copied(alloc, reader)?;
        pairs.push(name, value)?;
    }
    Ok(pairs)
}

// The attributes, if any, and the name of the field behind them.
fn attributes_ahead(
    alloc: Global,
    reader: &mut UsualReader<'_>,
) -> Result<Option<Attributes>, ScanErr>
    ensures { IfOk result (λ pairs. reader.old ≡ field_tokens (codes "attributes")
        (option_map attribute_list.spell pairs) ++ (key (codes "backendNodeId") ∷ reader.new)) }
{
    if reader.take_name("attributes") {
        let pairs = take_attributes(alloc, reader)?;
        take_key(reader, "backendNodeId")?;
        Ok(Some(pairs))
    } else {
        take_key(reader, "backendNodeId")?;
        Ok(None)
    }
}

// The name of the field that is next: whether it shows children. Else it is the one behind them.
fn shows_children(reader: &mut UsualReader<'_>) -> Result<bool, ScanErr>
    ensures { IfOk result (λ shown. reader.old ≡ key (next_name shown) ∷ reader.new) }
{
    if reader.take_name("children") {
        return Ok(true);
    }
    take_key(reader, "localName")?;
    Ok(false)
}

// The number of children, if any, and whether the field behind it shows them.
fn count_ahead(reader: &mut UsualReader<'_>) -> Result<(Option<u64>, bool), ScanErr>
    ensures { IfOk result (λ p. reader.old ≡ field_tokens (codes "childNodeCount")
        (option_map whole.spell p.0) ++ (key (next_name p.1) ∷ reader.new)) }
{
    if reader.take_name("childNodeCount") {
        let count = take_whole(reader)?;
        let shown = shows_children(reader)?;
        Ok((Some(count), shown))
    } else {
        let shown = shows_children(reader)?;
        Ok((None, shown))
    }
}

// The id of the parent, if any, and the end of the object.
fn parent_ahead(reader: &mut UsualReader<'_>) -> Result<Option<u64>, ScanErr>
    ensures { IfOk result (λ parent. reader.old ≡ field_tokens (codes "parentId")
        (option_map whole.spell parent) ++ (end_object ∷ reader.new)) }
{
    if reader.take_name("parentId") {
        let parent = take_whole(reader)?;
        take_end_object(reader)?;
        Ok(Some(parent))
    } else {
        take_end_object(reader)?;
        Ok(None)
    }
}

// The kind, by the number of its type.
fn kind_field(reader: &mut UsualReader<'_>) -> Result<Kind, ScanErr>
    ensures { IfOk result (λ kind. reader.old ≡ field_tokens (codes "nodeType") (Some (node_type.spell kind)) ++ reader.new) }
{
    let number = take_whole_field(reader, "nodeType")?;
    kind_of_type(number).ok_or(ScanErr::OtherForm)
}

// The fields from `localName` to `nodeType`.
fn take_names<'a>(reader: &mut UsualReader<'a>) -> Result<Names<'a>, ScanErr>
    ensures { IfOk result (λ n. key (codes "localName") ∷ reader.old ≡ names_tokens n ++ reader.new) }
{
    let local_name = take_text(reader)?;
    let id = take_whole_field(reader, "nodeId")?;
    let name = take_text_field(reader, "nodeName")?;
    let kind = kind_field(reader)?;
    Ok(Names {
        local_name,
        id,
        name,
        kind,
    })
}

// The value, with the name of its field.
fn take_value(alloc: Global, reader: &mut UsualReader<'_>) -> Result<Text, ScanErr>
    ensures { IfOk result (λ value. reader.old ≡ field_tokens (codes "nodeValue") (Some (text.spell value)) ++ reader.new) }
{
    take_key(reader, "nodeValue")?;
    take_copied(alloc, reader)
}

// All fields from `localName` on.
fn behind_of<'a>(names: &Names<'a>, value: &'a str, parent: Option<u64>) -> Behind<'a>
    ensures { behind_tokens result ≡ names_tokens names.now
        ++ (field_tokens (codes "nodeValue") (Some (text.spell value.now))
        ++ (field_tokens (codes "parentId") (option_map whole.spell parent) ++ end_object ∷ [])) }
{
    Behind {
        local_name: names.local_name,
        id: names.id,
        name: names.name,
        kind: names.kind,
        value,
        parent,
    }
}

// The fields of a node, but for its children.
fn parts_of<'a>(
    attributes: Option<Attributes>,
    serial: u64,
    count: Option<u64>,
    behind: &Behind<'a>,
) -> NodeParts<'a>
    ensures { object_over result None ≡ object_behind attributes serial count behind.now }
{
    NodeParts {
        attributes,
        serial,
        count,
        local_name: behind.local_name,
        id: behind.id,
        name: behind.name,
        kind: behind.kind,
        value: behind.value,
        parent: behind.parent,
    }
}

// How many children are shown, if any are.
fn count_of(children: &Option<Vec<NodeTree>>) -> Option<u64>
    ensures { result ≡ option_map (λ trees. width (nodes_of trees.items)) children.now }
{
    match children {
        Some(trees) => Some(trees.len() as u64),
        None => None,
    }
}

// Whether a number that is there is below 2^53.
fn is_counted_where_there(number: Option<u64>) -> bool
    ensures { result ≡ holds_of_some is_counted number }
{
    match number {
        Some(number) => is_counted(number),
        None => true,
    }
}

// Each number is below 2^53.
fn are_counted(parts: &NodeParts<'_>) -> bool
    ensures { result ≡ (is_counted parts.now.serial && is_counted parts.now.id
        && holds_of_some is_counted parts.now.count && holds_of_some is_counted parts.now.parent) }
{
    is_counted(parts.serial)
        && is_counted(parts.id)
        && is_counted_where_there(parts.count)
        && is_counted_where_there(parts.parent)
}

// The node with these fields and these children, where it is one that is told.
fn node_with(
    alloc: Global,
    parts: NodeParts<'_>,
    children: Option<Vec<NodeTree>>,
    top: bool,
) -> Result<NodeTree, ScanErr>
    requires { fits_nodes (shown_children children) ≡ true }
    ensures written { IfOk result (λ tree. tree_data tree
        ≡ node_fields.spell (object_over parts.entry (items_shown children))) }
    ensures fits { IfOk result (λ tree. fits_tree top tree ≡ true) }
    ensures children { IfOk result (λ tree. tree.children ≡ shown_children children) }
{
    if !are_counted(&parts) {
        return Err(ScanErr::OtherForm);
    }
    if !parts.tells(Manner::Pushed, top, count_of(&children)) {
        return Err(ScanErr::OtherForm);
    }
    let tree = parts.finished(alloc, children)?;
    Ok(tree)
}

// For how many children room is made before the first is read.
fn room_for(count: Option<u64>) -> usize
    ensures { result ≤ 256 }
{
    count.unwrap_or(0).min(MOST_ROOM) as usize
}

/// A node with at most so many levels, at the top or below it.
#[cycle(scan_node)]
pub fn scan_node(
    alloc: Global,
    reader: &mut UsualReader<'_>,
    levels: u64,
    top: bool,
) -> Result<NodeTree, ScanErr>
    ensures read { IfOk result (λ tree. reader.old ≡ data_tokens (tree_data tree) ++ reader.new) }
    ensures fits { IfOk result (λ tree. fits_tree top tree ≡ true) }
    ensures shallow { IfOk result (λ tree. height (alone tree) ≤ levels) }
{
    if levels == 0 {
        return Err(ScanErr::OtherForm);
    }
    take_begin_object(reader)?;
    let attributes = attributes_ahead(alloc, reader)?;
    let serial = take_whole(reader)?;
    let ahead = count_ahead(reader)?;
    let room = room_for(ahead.0);
    let children = children_ahead(alloc, reader, levels - 1, ahead.1, room)?;
    let names = take_names(reader)?;
    let value = take_value(alloc, reader)?;
    let parent = parent_ahead(reader)?;
    let behind = behind_of(&names, value.as_str(), parent);
    let parts = parts_of(attributes, serial, ahead.0, &behind);
    let tree = node_with(alloc, parts, children, top)?;
    Ok(tree)
}

// The children, if they are shown, and the name of the field behind them.
#[cycle(scan_node)]
fn children_ahead(
    alloc: Global,
    reader: &mut UsualReader<'_>,
    levels: u64,
    shown: bool,
    room: usize,
) -> Result<Option<Vec<NodeTree>>, ScanErr>
    ensures read { IfOk result (λ children. key (next_name shown) ∷ reader.old
        ≡ field_tokens (codes "children") (option_map array (items_shown children))
        ++ (key (codes "localName") ∷ reader.new)) }
    ensures fits { IfOk result (λ children. fits_nodes (shown_children children) ≡ true) }
    ensures shallow { IfOk result (λ children. height (shown_children children) ≤ levels) }
{
    if shown {
        let trees = scan_nodes(alloc, reader, levels, room)?;
        take_key(reader, "localName")?;
        Ok(Some(trees))
    } else {
        Ok(None)
    }
}

// Nodes below the top, each with at most so many levels.
#[cycle(scan_node)]
fn scan_nodes(
    alloc: Global,
    reader: &mut UsualReader<'_>,
    levels: u64,
    room: usize,
) -> Result<Vec<NodeTree>, ScanErr>
    ensures read { IfOk result (λ trees. reader.old
        ≡ data_tokens (array (tree_items (nodes_of trees.items))) ++ reader.new) }
    ensures fits { IfOk result (λ trees. fits_nodes (nodes_of trees.items) ≡ true) }
    ensures shallow { IfOk result (λ trees. height (nodes_of trees.items) ≤ levels) }
{
    take_begin_array(reader)?;
    let mut trees = Vec::with_capacity(alloc, room)?;
    'trees: while !reader.take_end_array() {
        let tree = scan_node(alloc, reader, levels, false)?;
        trees.push(tree)?;
    }
    Ok(trees)
}
