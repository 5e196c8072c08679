// The nodes of a flat page out of the tokens that usually spell its rows, with no value and no list of rows in between.
ghost use Rattle.std.specs.Prelude.{◌≡◌, ◌<◌, ◌∷◌, ◌++◌, suc, decimal, true, Some, IfOk, IfSome, OnOk};
ghost use Rattle.json.specs.Token.{end_object};
ghost use Rattle.cdp_json.specs.Kinds.{is_counted};
ghost use Rattle.node_tree.specs.Nodes.{nodes_of, alone};
ghost use Rattle.page_forms.specs.Spelt.{SpellsItems, SpellsField};
ghost use Rattle.page_forms.specs.NodeForms.{attribute_field};
ghost use Rattle.page_forms.specs.RowForms.{row_start, place, SpellsBelow, flat_form};

use crate::node_scan::{Next, attributes_at, kind_of_field, leaf_of, take_next};
use cdp_json::{
    ScanErr, is_counted, take_any_key, take_begin_object, take_end_object, take_key, take_text,
};
use json::{Reader, Token};
use node_tree::MAX_LEVEL;
use page_tree::{Attributes, Kind, NodeForm, Text};
use std::alloc::Global;

// A number of more digits is not read here: no page has so many rows.
const MOST: u64 = 1_000_000_000;

// Where the reading of rows stands, behind the number of the next row's parent.
#[derive(Clone, Copy)]
struct Ahead {
    // The number of the next row's parent; none behind the last row and its bracket.
    up: Option<u64>,
    // The number of the last row before it.
    last: u64,
}

// The digits behind the first ones, which are this number.
fn number_on(first: u64, digits: &[u8]) -> Option<u64>
    requires { (0 < first) × (first < 10) }
    ensures { IfSome result (λ n. decimal n ≡ decimal first ++ digits.now) }
{
    let mut number = first;
    let mut rest = digits;
    'digits: while let Some((digit, others)) = rest.split_first() {
        if !digit.is_ascii_digit() || number > MOST {
            return None;
        }
        number = number * 10 + (*digit - b'0') as u64;
        rest = others;
    }
    Some(number)
}

// A number that is spelled as it is written.
fn number_in(text: &str) -> Option<u64>
    ensures { IfSome result (λ n. text.now ≡ decimal n) }
{
    let (first, others) = text.as_bytes().split_first()?;
    if !first.is_ascii_digit() {
        return None;
    }
    let digit = (*first - b'0') as u64;
    if digit > 0 {
        number_on(digit, others)
    } else if others.is_empty() {
        Some(0)
    } else {
        None
    }
}

// The beginning of the next row, up to the number of its parent, or the bracket behind the last one.
fn begin_row(reader: &mut Reader<'_>) -> Result<Option<u64>, ScanErr>
    ensures { IfOk result (λ up. reader.old ≡ row_start up reader.new) }
{
    if reader.take_end_array() {
        return Ok(None);
    }
    take_begin_object(reader)?;
    take_key(reader, "up")?;
    let Some(Token::Number(text)) = reader.next() else {
        return Err(ScanErr::OtherForm);
    };
    match number_in(text) {
        Some(up) => Ok(Some(up)),
        None => Err(ScanErr::OtherForm),
    }
}

// Goes on to the row behind the one that has been read.
fn pass_row(reader: &mut Reader<'_>, ahead: &mut Ahead) -> Result<(), ScanErr>
    ensures begun { OnOk result (reader.old ≡ row_start ahead.new.up reader.new) }
    ensures last { OnOk result (ahead.new.last ≡ suc ahead.old.last) }
{
    let Some(last) = ahead.last.checked_add(1) else {
        return Err(ScanErr::OtherForm);
    };
    let up = begin_row(reader)?;
    ahead.up = up;
    ahead.last = last;
    Ok(())
}

// The next row stands below that one.
fn is_below(ahead: Ahead, up: u64) -> bool
    ensures { result ≡ true → ahead.up ≡ Some up }
{
    match ahead.up {
        Some(found) => found == up,
        None => false,
    }
}

// The attributes, if there are any, and the end of the row's object.
fn attributes_alone(alloc: Global, reader: &mut Reader<'_>) -> Result<Attributes, ScanErr>
    ensures { IfOk result (λ attributes. SpellsField attribute_field
        reader.old attributes (end_object ∷ reader.new)) }
{
    let first = take_next(reader)?;
    let (attributes, next) = attributes_at(alloc, reader, first)?;
    match next {
        Next::Attributes | Next::Children => Err(ScanErr::OtherForm),
        Next::End => Ok(attributes),
    }
}

// The node of the next row, whose parent is the row `up`, with at most so many levels below it. What is below it waits on the pile.
#[cycle(scan_row)]
fn scan_row(
    alloc: Global,
    reader: &mut Reader<'_>,
    ahead: &mut Ahead,
    pile: &mut Vec<NodeForm>,
    up: u64,
    levels: u64,
) -> Result<NodeForm, ScanErr>
    requires { (ahead.old.up ≡ Some up) × (is_counted up ≡ true) }
    ensures spelt { IfOk result (λ form. SpellsBelow up
        (place ahead.old reader.old) (alone form) (place ahead.new reader.new)) }
    ensures pile { OnOk result (pile.new.items ≡ pile.old.items) }
{
    let name = take_any_key(reader)?;
    let text = take_text(reader)?;
    let kind = kind_of_field(name)?;
    if kind == Kind::Element {
        let attributes = attributes_alone(alloc, reader)?;
        pass_row(reader, ahead)?;
        let children = scan_children(alloc, reader, ahead, pile, levels)?;
        Ok(NodeForm {
            kind: Kind::Element,
            name: Text::copied(alloc, text)?,
            value: Text::empty(alloc),
            attributes,
            children,
        })
    } else {
        take_end_object(reader)?;
        let form = leaf_of(alloc, kind, text, up == 0)?;
        pass_row(reader, ahead)?;
        Ok(form)
    }
}

// The nodes below the last row, at most so many levels of them.
#[cycle(scan_row)]
fn scan_children(
    alloc: Global,
    reader: &mut Reader<'_>,
    ahead: &mut Ahead,
    pile: &mut Vec<NodeForm>,
    levels: u64,
) -> Result<Vec<NodeForm>, ScanErr>
    ensures spelt { IfOk result (λ nodes. SpellsBelow ahead.old.last
        (place ahead.old reader.old) (nodes_of nodes.items) (place ahead.new reader.new)) }
    ensures pile { OnOk result (pile.new.items ≡ pile.old.items) }
{
    let up = ahead.last;
    if !is_below(*ahead, up) {
        return Ok(Vec::new(alloc));
    }
    if levels == 0 || !is_counted(up) {
        return Err(ScanErr::OtherForm);
    }
    let nodes = scan_below(alloc, reader, ahead, pile, up, levels - 1)?;
    Ok(nodes)
}

// The nodes of the next rows whose parent is the row `up`, each with at most so many levels below it. They wait on the pile until all
// of them are there.
#[cycle(scan_row)]
fn scan_below(
    alloc: Global,
    reader: &mut Reader<'_>,
    ahead: &mut Ahead,
    pile: &mut Vec<NodeForm>,
    up: u64,
    levels: u64,
) -> Result<Vec<NodeForm>, ScanErr>
    requires { is_counted up ≡ true }
    ensures spelt { IfOk result (λ nodes. SpellsBelow up
        (place ahead.old reader.old) (nodes_of nodes.items) (place ahead.new reader.new)) }
    ensures pile { OnOk result (pile.new.items ≡ pile.old.items) }
{
    let from = pile.len();
    'rows: while is_below(*ahead, up) {
        let node = scan_row(alloc, reader, ahead, pile, up, levels)?;
        pile.push(node)?;
    }
    let nodes = pile.split_off(from)?;
    Ok(nodes)
}

/// The nodes of the rows of a list, behind the bracket that begins it. Rows that have a fault are answered by an error.
pub(crate) fn scan_flat(alloc: Global, reader: &mut Reader<'_>) -> Result<Vec<NodeForm>, ScanErr>
    ensures { IfOk result (λ nodes. SpellsItems flat_form reader.old (nodes_of nodes.items) reader.new) }
{
    let up = begin_row(reader)?;
    let mut ahead = Ahead { up, last: 0 };
    let mut pile = Vec::new(alloc);
    let nodes = scan_below(alloc, reader, &mut ahead, &mut pile, 0, MAX_LEVEL - 1)?;
    match ahead.up {
        Some(_) => Err(ScanErr::OtherForm),
        None => Ok(nodes),
    }
}
