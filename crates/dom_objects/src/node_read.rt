// A tree of nodes out of a JSON value.
ghost use Rattle.std.specs.Prelude.{◌≡◌, [], codes, option_map, unwrap_or, IfOk};
ghost use Rattle.serde_json.specs.Events.{items_len};
ghost use Rattle.serde_json.specs.Data.{array};
ghost use Rattle.serde_json.specs.View.{view, items_view};
ghost use Rattle.cdp_json.specs.Left.{left};
ghost use Rattle.cdp_json.specs.Rows.{left_with, need, may};
ghost use Rattle.node_tree.specs.Nodes.{nodes_of};
ghost use Rattle.dom_objects.specs.Answers.{GivesMessage};
ghost use Rattle.dom_objects.specs.NodeData.{tree_told, trees_of};
ghost use Rattle.dom_objects.specs.NodeObject.{attribute_list, kind_of_type, node_type, node_fields, last_row, later_row};
ghost use Rattle.dom_objects.specs.Raw.{last_fields};

use crate::down_err::DownErr;
use crate::node_rules::{Manner, fits_hold, is_formed_label, is_named_label};
use crate::node_write::{local_name, shows_name};
use crate::tree::NodeTree;
use cdp_json::{Cursor, text_of};
use node_tree::{Attributes, Kind, Pairs, Text};
use serde_json::Value;
use std::alloc::{AllocError, Global};

// The fields of a node's object, but for its children.
#[derive(Drop)]
pub(crate) struct NodeParts<'a> {
    pub(crate) attributes: Option<Attributes>,
    pub(crate) serial: u64,
    pub(crate) count: Option<u64>,
    pub(crate) local_name: &'a str,
    pub(crate) id: u64,
    pub(crate) name: &'a str,
    pub(crate) kind: Kind,
    pub(crate) value: &'a str,
    pub(crate) parent: Option<u64>,
}

// What stands in a node's object from `localName` on.
#[derive(Clone, Copy)]
pub(crate) struct Behind<'a> {
    pub(crate) local_name: &'a str,
    pub(crate) id: u64,
    pub(crate) name: &'a str,
    pub(crate) kind: Kind,
    pub(crate) value: &'a str,
    pub(crate) parent: Option<u64>,
}

// What stands in a node's object from `localName` to `nodeType`.
#[derive(Clone, Copy)]
pub(crate) struct Names<'a> {
    pub(crate) local_name: &'a str,
    pub(crate) id: u64,
    pub(crate) name: &'a str,
    pub(crate) kind: Kind,
}

// The fields of a node's object.
#[derive(Drop)]
pub(crate) struct RawNode<'a> {
    parts: NodeParts<'a>,
    children: Option<&'a [Value]>,
}

/// Attributes out of names and values in turn; `NotMessage` comes exactly where these are not that.
pub fn attributes_of(alloc: Global, values: &[Value]) -> Result<Attributes, DownErr>
    ensures { GivesMessage (λ pairs. pairs) result (attribute_list.reads (array (items_view values.now))) }
{
    let mut pairs = Attributes::new(alloc);
    let mut rest = values;
    while let [name, value, later @ ..] = rest {
        let name = text_of(name).ok_or(DownErr::NotMessage)?;
        let value = text_of(value).ok_or(DownErr::NotMessage)?;
        pairs.push(Text::copied(alloc, name)?, Text::copied(alloc, value)?)?;
        rest = later;
    }
    if rest.is_empty() {
        Ok(pairs)
    } else {
        Err(DownErr::NotMessage)
    }
}

fn or_none(alloc: Global, attributes: Option<Attributes>) -> Attributes
    ensures { result ≡ unwrap_or attributes [] }
{
    match attributes {
        Some(attributes) => attributes,
        None => Attributes::new(alloc),
    }
}

pub(crate) fn kind_of_type(number: u64) -> Option<Kind>
    ensures { result ≡ kind_of_type number }
{
    match number {
        1 => Some(Kind::Element),
        3 => Some(Kind::Text),
        8 => Some(Kind::Comment),
        9 => Some(Kind::Document),
        10 => Some(Kind::Doctype),
        _ => None,
    }
}

fn kind_field(fields: &mut Cursor<'_>) -> Option<Kind>
    ensures { option_map (left_with (left fields.new)) result
        ≡ need node_type.reads (codes "nodeType") (left fields.old) }
{
    let number = fields.need_whole("nodeType")?;
    kind_of_type(number)
}

fn attributes_field(alloc: Global, fields: &mut Cursor<'_>) -> Result<Option<Attributes>, DownErr>
    ensures { GivesMessage (left_with (left fields.new)) result
        (may attribute_list.reads (codes "attributes") (left fields.old)) }
{
    match fields.may_list("attributes") {
        None => Err(DownErr::NotMessage),
        Some(None) => Ok(None),
        Some(Some(values)) => match attributes_of(alloc, values) {
            Ok(pairs) => Ok(Some(pairs)),
            Err(error) => Err(error),
        },
    }
}

// The last fields, and no other behind them.
fn last_of<'a>(fields: &mut Cursor<'a>) -> Option<Behind<'a>>
    ensures { option_map last_fields result ≡ last_row.gets (left fields.old) }
{
    let local_name = fields.need_text("localName")?;
    let id = fields.need_whole("nodeId")?;
    let name = fields.need_text("nodeName")?;
    let kind = kind_field(fields)?;
    let value = fields.need_text("nodeValue")?;
    let parent = fields.may_whole("parentId")?;
    if !fields.is_done() {
        return None;
    }
    Some(Behind {
        local_name,
        id,
        name,
        kind,
        value,
        parent,
    })
}

impl<'a> RawNode<'a> {
    ghost use Rattle.dom_objects.specs.NodeObject.{of_fields};
    ghost use Rattle.dom_objects.specs.Raw.{object_in};

    // Exactly these fields, in their forms.
    fn read(alloc: Global, value: &'a Value) -> Result<RawNode<'a>, DownErr>
        ensures { GivesMessage object_in result (node_fields.reads (view value.now)) }
    {
        let object = value.as_object().ok_or(DownErr::NotMessage)?;
        let mut fields = Cursor::new(object);
        let attributes = attributes_field(alloc, &mut fields)?;
        RawNode::with(attributes, &mut fields).ok_or(DownErr::NotMessage)
    }

    // The node with these attributes, whose later fields come next.
    fn with(attributes: Option<Attributes>, fields: &mut Cursor<'a>) -> Option<RawNode<'a>>
        ensures { option_map object_in result
            ≡ option_map (λ f. of_fields (attributes, f)) (later_row.gets (left fields.old)) }
    {
        let serial = fields.need_whole("backendNodeId")?;
        let count = fields.may_whole("childNodeCount")?;
        let children = fields.may_list("children")?;
        let behind = last_of(fields)?;
        let parts = NodeParts {
            attributes,
            serial,
            count,
            local_name: behind.local_name,
            id: behind.id,
            name: behind.name,
            kind: behind.kind,
            value: behind.value,
            parent: behind.parent,
        };
        Some(RawNode { parts, children })
    }
}

impl<'a> NodeParts<'a> {
    ghost use Rattle.std.specs.Prelude.{◌&&◌, is_some, None};
    ghost use Rattle.dom_objects.specs.NodeObject.{name_in, label_in, agrees, fits_place, fits_described, fits_told};
    ghost use Rattle.dom_objects.specs.Raw.{object_over, told_over, tree_over};

    // The name of the node that is told.
    fn label_name(&self) -> &'a str
        ensures { result.now ≡ name_in self.now.kind self.now.local_name.now self.now.name.now }
    {
        match self.kind {
            Kind::Element => self.local_name,
            Kind::Doctype => self.name,
            Kind::Document | Kind::Text | Kind::Comment => "",
        }
    }

    fn pairs(&self) -> Pairs<'_>
        ensures { result ≡ unwrap_or self.now.attributes [] }
    {
        match &self.attributes {
            Some(attributes) => attributes.iter(),
            None => Pairs::none(),
        }
    }

    // Whether the fields say the same as the row that they tell.
    fn agrees(&self) -> bool
        ensures { result ≡ agrees (object_over self.now None) }
    {
        let same_parts = self.attributes.is_some() == self.kind.is_element()
            && self.count.is_some() == self.kind.is_container();
        let same_local_name = self.local_name == local_name(self.kind, self.label_name());
        let named = shows_name(self.kind, self.label_name(), self.name);
        let parent = match self.parent {
            Some(parent) => parent > 0,
            None => true,
        };
        same_parts && same_local_name && named && parent
    }

    // Whether the node may stand here, at the top of a document or below it.
    fn fits_place(&self, top: bool, shown: Option<u64>) -> bool
        ensures { result ≡ fits_place top (unwrap_or shown 0) (told_over self.now (is_some shown)) }
    {
        let count = self.count.unwrap_or(0);
        let parent = self.parent.unwrap_or(0);
        self.id > 0
            && self.serial > 0
            && is_formed_label(self.kind, self.label_name(), self.value, self.pairs())
            && is_named_label(self.kind, self.label_name(), self.pairs())
            && self.kind.is_document() == top
            && (parent == 0) == top
            && fits_hold(shown, self.kind.is_container(), count)
    }

    // Whether a node that is described alone may stand here.
    fn fits_described(&self, top: bool, shown: Option<u64>) -> bool
        ensures { result ≡ fits_described top (unwrap_or shown 0) (told_over self.now (is_some shown)) }
    {
        let count = self.count.unwrap_or(0);
        let parent = self.parent.unwrap_or(0);
        self.id == 0
            && self.serial > 0
            && is_formed_label(self.kind, self.label_name(), self.value, self.pairs())
            && is_named_label(self.kind, self.label_name(), self.pairs())
            && (top || !self.kind.is_document())
            && parent == 0
            && fits_hold(shown, self.kind.is_container(), count)
    }

    fn fits_told(&self, manner: Manner, top: bool, shown: Option<u64>) -> bool
        ensures { result ≡ fits_told manner top (unwrap_or shown 0) (told_over self.now (is_some shown)) }
    {
        match manner {
            Manner::Pushed => self.fits_place(top, shown),
            Manner::Described => self.fits_described(top, shown),
        }
    }

    // Whether the fields tell a node, with that many children shown.
    pub(crate) fn tells(&self, manner: Manner, top: bool, shown: Option<u64>) -> bool
        ensures { result ≡ (agrees (object_over self.now None)
            && fits_told manner top (unwrap_or shown 0) (told_over self.now (is_some shown))) }
    {
        self.agrees() && self.fits_told(manner, top, shown)
    }

    // The node with these children.
    pub(crate) fn finished(
        self,
        alloc: Global,
        children: Option<Vec<NodeTree>>,
    ) -> Result<NodeTree, AllocError>
        ensures { IfOk result (λ tree. tree ≡ tree_over self.entry children) }
    {
        let name = Text::copied(alloc, self.label_name())?;
        let value = Text::copied(alloc, self.value)?;
        Ok(NodeTree {
            id: self.id,
            serial: self.serial,
            parent: self.parent.unwrap_or(0),
            kind: self.kind,
            name,
            value,
            attributes: or_none(alloc, self.attributes),
            count: self.count.unwrap_or(0),
            children,
        })
    }
}

impl<'a> RawNode<'a> {
    ghost use Rattle.dom_objects.specs.NodeObject.{tells};
    ghost use Rattle.dom_objects.specs.Raw.{object_in, tree_over};

    fn tells(&self, manner: Manner, top: bool) -> bool
        ensures { result ≡ tells manner top (object_in self.now) }
    {
        self.parts.tells(manner, top, count_of(self.children))
    }

    // The node with these children.
    fn finished(
        self,
        alloc: Global,
        children: Option<Vec<NodeTree>>,
    ) -> Result<NodeTree, AllocError>
        ensures { IfOk result (λ tree. tree ≡ tree_over self.entry.parts children) }
    {
        self.parts.finished(alloc, children)
    }
}

// How many there are.
fn count_of(children: Option<&[Value]>) -> Option<u64>
    ensures { result ≡ option_map (λ xs. items_len (items_view xs.now)) children.entry }
{
    match children {
        Some(children) => Some(children.len() as u64),
        None => None,
    }
}

/// Reads a node with all that is shown below it; `top` says whether it stands at the top of what is told.
#[cycle(tree_of)]
pub fn tree_of(alloc: Global, value: &Value, manner: Manner, top: bool) -> Result<NodeTree, DownErr>
    ensures { GivesMessage (λ tree. tree) result (tree_told manner top (view value.now)) }
{
    let raw = match RawNode::read(alloc, value) {
        Ok(raw) => raw,
        Err(error) => return Err(error),
    };
    if !raw.tells(manner, top) {
        return Err(DownErr::NotMessage);
    }
    match raw.children {
        Some(values) => match trees_of(alloc, values, manner) {
            Ok(trees) => {
                let tree = raw.finished(alloc, Some(trees))?;
                Ok(tree)
            }
            Err(error) => Err(error),
        },
        None => {
            let tree = raw.finished(alloc, None)?;
            Ok(tree)
        }
    }
}

/// Reads nodes side by side, none of which stands at the top.
#[cycle(tree_of)]
pub fn trees_of(alloc: Global, values: &[Value], manner: Manner) -> Result<Vec<NodeTree>, DownErr>
    ensures { GivesMessage (λ trees. nodes_of trees.items) result
        (trees_of manner (items_view values.now)) }
{
    let mut trees = Vec::with_capacity(alloc, values.len())?;
    for value in values {
        let tree = tree_of(alloc, value, manner, false)?;
        trees.push(tree)?;
    }
    Ok(trees)
}
