// Rows of a flat page, as JSON spells them.
ghost use Rattle.std.specs.Prelude.{◌≡◌, map, option_map, IfOk};
ghost use Rattle.serde_json.specs.View.{view, items_view};
ghost use Rattle.serde_json.specs.Find.{as_array};
ghost use Rattle.std.specs.Option.{option_and_then};
ghost use Rattle.page_tree.specs.FlatRows.{up_at, text_beside, row_name, element_row, row_label, row_spelled, row_of, rows_of};

use crate::labels::{
    NodeLabel, attributes_at, doctype_label, element_of, property_count, text_at, times_of,
    value_label,
};
use node_tree::Kind;
use serde_json::Value;
use std::alloc::{AllocError, Global};

/// A row of a flat page: the number of its parent's row, counted from 1, or 0 for the document; and the node without children.
#[derive(Drop)]
pub(crate) struct Row {
    pub(crate) up: u64,
    pub(crate) label: NodeLabel,
}

fn up_at(v: &Value) -> Option<u64>
    ensures { result ≡ up_at (view v.now) }
{
    match v.get("up") {
        Some(value) => value.as_u64(),
        None => None,
    }
}

fn text_beside<'a>(v: &'a Value, key: &str) -> Option<&'a str>
    ensures { option_map (λ s. s.now) result ≡ text_beside key.now (view v.now) }
{
    if property_count(v) != 2 {
        return None;
    }
    text_at(v, key)
}

fn row_name(v: &Value) -> Option<&str>
    ensures { option_map (λ s. s.now) result ≡ row_name (view v.now) }
{
    if property_count(v) != 2 + times_of(v, "a") {
        return None;
    }
    text_at(v, "e")
}

fn element_row(alloc: Global, v: &Value) -> Result<Option<NodeLabel>, AllocError>
    ensures { IfOk result (λ label. label ≡ element_row (view v.now)) }
{
    let Some(name) = row_name(v) else {
        return Ok(None);
    };
    let Some(attributes) = attributes_at(alloc, v)? else {
        return Ok(None);
    };
    Ok(Some(element_of(alloc, name, attributes)?))
}

/// The label of a row, in any of the four forms.
fn row_label(alloc: Global, v: &Value) -> Result<Option<NodeLabel>, AllocError>
    ensures { IfOk result (λ label. label ≡ row_label (view v.now)) }
{
    if let Some(label) = element_row(alloc, v)? {
        return Ok(Some(label));
    }
    if let Some(text) = text_beside(v, "t") {
        return Ok(Some(value_label(alloc, Kind::Text, text)?));
    }
    if let Some(text) = text_beside(v, "k") {
        return Ok(Some(value_label(alloc, Kind::Comment, text)?));
    }
    match text_beside(v, "d") {
        Some(name) => Ok(Some(doctype_label(alloc, name)?)),
        None => Ok(None),
    }
}

fn read_row(alloc: Global, v: &Value) -> Result<Option<Row>, AllocError>
    ensures { IfOk result (λ row. option_map row_of row ≡ row_spelled (view v.now)) }
{
    let Some(up) = up_at(v) else {
        return Ok(None);
    };
    match row_label(alloc, v)? {
        Some(label) => Ok(Some(Row { up, label })),
        None => Ok(None),
    }
}

fn rows_in(alloc: Global, values: &[Value]) -> Result<Option<Vec<Row>>, AllocError>
    ensures { IfOk result (λ rows. option_map (λ v. map row_of v.items) rows ≡ rows_of (items_view values.now)) }
{
    let mut rows = Vec::new(alloc);
    for v in values {
        let Some(row) = read_row(alloc, v)? else {
            return Ok(None);
        };
        rows.push(row)?;
    }
    Ok(Some(rows))
}

/// The rows that a list spells; none where the value is no list, or one of its values spells no row.
pub(crate) fn read_rows(alloc: Global, v: &Value) -> Result<Option<Vec<Row>>, AllocError>
    ensures { IfOk result (λ rows. option_map (λ v. map row_of v.items) rows
        ≡ option_and_then rows_of (as_array (view v.now))) }
{
    match v.as_array() {
        Some(values) => rows_in(alloc, values.as_slice()),
        None => Ok(None),
    }
}
