// The selectors of a rule.
ghost use Rattle.std.specs.Prelude.{◌≡◌, codes, option_map, IfOk};
ghost use Rattle.serde_json.specs.View.{view, items_view};
ghost use Rattle.cdp_json.specs.Left.{left};
ghost use Rattle.cdp_json.specs.Kinds.{list_of, read_items};
ghost use Rattle.cdp_json.specs.Rows.{left_with, need};
ghost use Rattle.css_objects.specs.Selectors.{weight_kind, selector_kind, selectors_kind};

use crate::listed::Listed;
use crate::ranges::{SourceRange, range_field, range_value};
use cdp_json::{Cursor, ObjectBuilder};
use node_tree::Text;
use serde_json::Value;
use std::alloc::{AllocError, Global};

/// How specific a selector is (Selectors 4, section 17; `CSS.Specificity`).
#[derive(Clone, Copy, Drop)]
pub struct Weight {
    pub a: u64,
    pub b: u64,
    pub c: u64,
}

/// One selector of a rule (`CSS.Value`).
#[derive(Drop)]
pub struct SelectorValue {
    pub range: SourceRange,
    pub weight: Weight,
    pub text: Text,
}

/// The selectors of a rule, and its whole prelude as text (`CSS.SelectorList`).
#[derive(Drop)]
pub struct RuleSelectors {
    pub selectors: Listed<SelectorValue>,
    pub text: Text,
}

fn weight_of(value: &Value) -> Option<Weight>
    ensures { result ≡ weight_kind.reads (view value.now) }
{
    let mut fields = Cursor::new(value.as_object()?);
    let a = fields.need_whole("a")?;
    let b = fields.need_whole("b")?;
    let c = fields.need_whole("c")?;
    if !fields.is_done() {
        return None;
    }
    Some(Weight { a, b, c })
}

fn weight_field(fields: &mut Cursor<'_>) -> Option<Weight>
    ensures { option_map (left_with (left fields.new)) result
        ≡ need weight_kind.reads (codes "specificity") (left fields.old) }
{
    let value = fields.need("specificity")?;
    weight_of(value)
}

fn weight_value(alloc: Global, weight: Weight) -> Result<Value, AllocError>
    ensures { IfOk result (λ v. view v ≡ weight_kind.spell weight) }
{
    ObjectBuilder::new(alloc)
        .with_value("a", Value::from(weight.a))?
        .with_value("b", Value::from(weight.b))?
        .with_value("c", Value::from(weight.c))?
        .build()
}

/// `None` where the value is no selector.
pub fn selector_of(alloc: Global, value: &Value) -> Result<Option<SelectorValue>, AllocError>
    ensures { IfOk result (λ o. o ≡ selector_kind.reads (view value.now)) }
{
    let Some(members) = value.as_object() else {
        return Ok(None);
    };
    let mut fields = Cursor::new(members);
    let Some(range) = range_field(&mut fields) else {
        return Ok(None);
    };
    let Some(weight) = weight_field(&mut fields) else {
        return Ok(None);
    };
    let Some(text) = fields.need_text("text") else {
        return Ok(None);
    };
    if !fields.is_done() {
        return Ok(None);
    }
    let text = Text::copied(alloc, text)?;
    Ok(Some(SelectorValue {
        range,
        weight,
        text,
    }))
}

/// The selector as JSON.
pub fn selector_value(alloc: Global, selector: &SelectorValue) -> Result<Value, AllocError>
    ensures { IfOk result (λ v. view v ≡ selector_kind.spell selector.now) }
{
    ObjectBuilder::new(alloc)
        .with_value("range", range_value(alloc, selector.range)?)?
        .with_value("specificity", weight_value(alloc, selector.weight)?)?
        .with_text("text", selector.text.as_str())?
        .build()
}

fn selector_items(alloc: Global, items: &[Value]) -> Result<Option<Vec<SelectorValue>>, AllocError>
    ensures { IfOk result (λ o. option_map (λ v. v.items) o
        ≡ read_items selector_kind.reads (items_view items.now)) }
{
    let mut selectors = Vec::new(alloc);
    for item in items {
        let Some(selector) = selector_of(alloc, item)? else {
            return Ok(None);
        };
        selectors.push(selector)?;
    }
    Ok(Some(selectors))
}

fn selector_list(alloc: Global, selectors: &[SelectorValue]) -> Result<Value, AllocError>
    ensures { IfOk result (λ v. view v ≡ (list_of selector_kind).spell selectors.now) }
{
    let mut items = Vec::new(alloc);
    for selector in selectors {
        items.push(selector_value(alloc, selector)?)?;
    }
    Ok(Value::Array(items))
}

fn selector_items_field(
    alloc: Global,
    fields: &mut Cursor<'_>,
) -> Result<Option<Listed<SelectorValue>>, AllocError>
    ensures { IfOk result (λ o. option_map (left_with (left fields.new)) o
        ≡ need (list_of selector_kind).reads (codes "selectors") (left fields.old)) }
{
    let Some(items) = fields.need_list("selectors") else {
        return Ok(None);
    };
    match selector_items(alloc, items)? {
        Some(selectors) => Ok(Some(Listed::new(selectors))),
        None => Ok(None),
    }
}

/// `None` where the value is no list of selectors.
pub fn selectors_of(alloc: Global, value: &Value) -> Result<Option<RuleSelectors>, AllocError>
    ensures { IfOk result (λ o. o ≡ selectors_kind.reads (view value.now)) }
{
    let Some(members) = value.as_object() else {
        return Ok(None);
    };
    let mut fields = Cursor::new(members);
    let Some(selectors) = selector_items_field(alloc, &mut fields)? else {
        return Ok(None);
    };
    let Some(text) = fields.need_text("text") else {
        return Ok(None);
    };
    if !fields.is_done() {
        return Ok(None);
    }
    let text = Text::copied(alloc, text)?;
    Ok(Some(RuleSelectors { selectors, text }))
}

/// The list of selectors as JSON.
pub fn selectors_value(alloc: Global, selectors: &RuleSelectors) -> Result<Value, AllocError>
    ensures { IfOk result (λ v. view v ≡ selectors_kind.spell selectors.now) }
{
    ObjectBuilder::new(alloc)
        .with_value(
            "selectors",
            selector_list(alloc, selectors.selectors.as_slice())?,
        )?
        .with_text("text", selectors.text.as_str())?
        .build()
}
