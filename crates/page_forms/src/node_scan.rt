// Nodes out of the tokens that usually spell them, in one pass and with no value in between.
ghost use Rattle.std.specs.Prelude.{◌≡◌, ◌+◌, ℕ, Bool, List, [], ◌∷◌, Some, IfOk};
ghost use Rattle.json.specs.Token.{key, end_object};
ghost use Rattle.node_tree.specs.Nodes.{nodes_of};
ghost use Rattle.node_tree.specs.declared.Kind.TheVariants.{Doctype};
ghost use Rattle.page_tree.specs.Loads.{labelled, node_spelled};
ghost use Rattle.page_forms.specs.Spelt.{ReadsAs, SpellsItems, SpellsField};
ghost use Rattle.page_forms.specs.NodeForms.{leaf, text_field, text_data, element_tokens, next_token, pairs_form, attributes_form};
ghost use Rattle.page_forms.specs.NodeForms.{attribute_field, node_form, nodes_form, child_field};

use cdp_json::{
    ScanErr, take_any_key, take_begin_array, take_begin_object, take_end_object, take_text,
};
use json::{Reader, Token};
use page_tree::{Attributes, Kind, NodeForm, Text, order_pairs};
use std::alloc::{AllocError, Global};

// The names and values of attributes, behind the bracket that begins their list.
fn scan_pairs(alloc: Global, reader: &mut Reader<'_>) -> Result<Vec<(Text, Text)>, ScanErr>
    ensures { IfOk result (λ pairs. SpellsItems pairs_form reader.old pairs.items reader.new) }
{
    let mut pairs = Vec::with_capacity(alloc, 1)?;
    'pairs: while !reader.take_end_array() {
        let name = take_text(reader)?;
        let value = take_text(reader)?;
        pairs.push((Text::copied(alloc, name)?, Text::copied(alloc, value)?))?;
    }
    Ok(pairs)
}

// The attributes of a list, behind its bracket.
fn scan_attributes(alloc: Global, reader: &mut Reader<'_>) -> Result<Attributes, ScanErr>
    ensures { IfOk result (λ attributes. SpellsItems attributes_form reader.old attributes reader.new) }
{
    let pairs = scan_pairs(alloc, reader)?;
    match order_pairs(alloc, pairs)? {
        Some(attributes) => Ok(attributes),
        None => Err(ScanErr::OtherForm),
    }
}

/// What comes next in the object of an element, behind its name.
#[derive(Clone, Copy)]
pub(crate) enum Next {
    Attributes,
    Children,
    End,
}

fn field_named(name: &str) -> Result<Next, ScanErr>
    ensures { IfOk result (λ next. key name.now ≡ next_token next) }
{
    match name {
        "a" => Ok(Next::Attributes),
        "c" => Ok(Next::Children),
        _ => Err(ScanErr::OtherForm),
    }
}

/// What comes next there, taken.
pub(crate) fn take_next(reader: &mut Reader<'_>) -> Result<Next, ScanErr>
    ensures { IfOk result (λ next. reader.old ≡ next_token next ∷ reader.new) }
{
    match reader.next() {
        Some(Token::Key(name)) => field_named(name),
        Some(Token::EndObject) => Ok(Next::End),
        _ => Err(ScanErr::OtherForm),
    }
}

/// The attributes, where they are what comes next, and what comes behind them.
pub(crate) fn attributes_at(
    alloc: Global,
    reader: &mut Reader<'_>,
    next: Next,
) -> Result<(Attributes, Next), ScanErr>
    ensures { IfOk result (λ p. SpellsField attribute_field
        (next_token next ∷ reader.old) p.0 (next_token p.1 ∷ reader.new)) }
{
    match next {
        Next::Attributes => {
            take_begin_array(reader)?;
            let attributes = scan_attributes(alloc, reader)?;
            let behind = take_next(reader)?;
            Ok((attributes, behind))
        }
        Next::Children | Next::End => Ok((Attributes::new(alloc), next)),
    }
}

/// The kind of the nodes whose text has this name.
pub(crate) fn kind_of_field(name: &str) -> Result<Kind, ScanErr>
    ensures { IfOk result (λ kind. text_field kind ≡ Some name.now) }
{
    match name {
        "e" => Ok(Kind::Element),
        "t" => Ok(Kind::Text),
        "k" => Ok(Kind::Comment),
        "d" => Ok(Kind::Doctype),
        _ => Err(ScanErr::OtherForm),
    }
}

// A text or a comment.
fn value_form(alloc: Global, kind: Kind, value: &str) -> Result<NodeForm, AllocError>
    ensures { IfOk result (λ form. form ≡ leaf (labelled kind [] value.now [])) }
{
    Ok(NodeForm {
        kind,
        name: Text::empty(alloc),
        value: Text::copied(alloc, value)?,
        attributes: Attributes::new(alloc),
        children: Vec::new(alloc),
    })
}

fn doctype_form(alloc: Global, name: &str) -> Result<NodeForm, AllocError>
    ensures { IfOk result (λ form. form ≡ leaf (labelled Doctype name.now [] [])) }
{
    Ok(NodeForm {
        kind: Kind::Doctype,
        name: Text::copied(alloc, name)?,
        value: Text::empty(alloc),
        attributes: Attributes::new(alloc),
        children: Vec::new(alloc),
    })
}

/// The node that has nothing but this text. A doctype stands at the top alone.
#[inline(always)]
pub(crate) fn leaf_of(alloc: Global, kind: Kind, text: &str, top: bool) -> Result<NodeForm, ScanErr>
    ensures { IfOk result (λ form. (name : List ℕ) → text_field kind ≡ Some name
        → node_spelled top (text_data name text.now) ≡ Some form) }
{
    match kind {
        Kind::Text | Kind::Comment => {
            let form = value_form(alloc, kind, text)?;
            Ok(form)
        }
        Kind::Doctype => {
            if !top {
                return Err(ScanErr::OtherForm);
            }
            let form = doctype_form(alloc, text)?;
            Ok(form)
        }
        Kind::Document | Kind::Element => Err(ScanErr::OtherForm),
    }
}

// A node with at most so many levels. `top` says that it stands right below the document.
#[cycle(scan_node)]
fn scan_node(
    alloc: Global,
    reader: &mut Reader<'_>,
    levels: u64,
    top: bool,
) -> Result<NodeForm, ScanErr>
    ensures { IfOk result (λ form. ReadsAs (node_form levels top) reader.old form reader.new) }
{
    if levels == 0 {
        return Err(ScanErr::OtherForm);
    }
    take_begin_object(reader)?;
    let name = take_any_key(reader)?;
    let text = take_text(reader)?;
    let kind = kind_of_field(name)?;
    if kind == Kind::Element {
        let form = scan_element(alloc, reader, levels - 1, text)?;
        Ok(form)
    } else {
        take_end_object(reader)?;
        let form = leaf_of(alloc, kind, text, top)?;
        Ok(form)
    }
}

// What an element has behind its name, up to the end of its object: its attributes and its children, which have at most so many
// levels.
#[cycle(scan_node)]
fn scan_element(
    alloc: Global,
    reader: &mut Reader<'_>,
    levels: u64,
    name: &str,
) -> Result<NodeForm, ScanErr>
    ensures { IfOk result (λ form. (top : Bool)
        → ReadsAs (node_form (levels + 1) top) (element_tokens name.now reader.old) form reader.new) }
{
    let first = take_next(reader)?;
    let (attributes, next) = attributes_at(alloc, reader, first)?;
    let children = children_at(alloc, reader, levels, next)?;
    Ok(NodeForm {
        kind: Kind::Element,
        name: Text::copied(alloc, name)?,
        value: Text::empty(alloc),
        attributes,
        children,
    })
}

// The children, where they are what comes next, and the end of the element's object.
#[cycle(scan_node)]
fn children_at(
    alloc: Global,
    reader: &mut Reader<'_>,
    levels: u64,
    next: Next,
) -> Result<Vec<NodeForm>, ScanErr>
    ensures { IfOk result (λ children. SpellsField (child_field levels)
        (next_token next ∷ reader.old) (nodes_of children.items) (end_object ∷ reader.new)) }
{
    match next {
        Next::Attributes => Err(ScanErr::OtherForm),
        Next::Children => {
            take_begin_array(reader)?;
            let children = scan_nodes(alloc, reader, levels, false)?;
            take_end_object(reader)?;
            Ok(children)
        }
        Next::End => Ok(Vec::new(alloc)),
    }
}

/// The nodes of a list, behind the bracket that begins it, each with at most so many levels.
#[cycle(scan_node)]
pub(crate) fn scan_nodes(
    alloc: Global,
    reader: &mut Reader<'_>,
    levels: u64,
    top: bool,
) -> Result<Vec<NodeForm>, ScanErr>
    ensures { IfOk result (λ nodes. SpellsItems (nodes_form levels top)
        reader.old (nodes_of nodes.items) reader.new) }
{
    let mut nodes = Vec::with_capacity(alloc, 1)?;
    'nodes: while !reader.take_end_array() {
        let node = scan_node(alloc, reader, levels, top)?;
        nodes.push(node)?;
    }
    Ok(nodes)
}
