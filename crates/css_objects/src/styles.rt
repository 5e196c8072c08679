// Styles and their properties.
ghost use Rattle.std.specs.Prelude.{◌≡◌, codes, option_map, IfOk};
ghost use Rattle.std.specs.List.{list_all};
ghost use Rattle.serde_json.specs.View.{view, items_view};
ghost use Rattle.cdp_json.specs.Left.{left};
ghost use Rattle.cdp_json.specs.Kinds.{list_of, read_items, only_true};
ghost use Rattle.cdp_json.specs.Rows.{left_with, need, unit_if};
ghost use Rattle.css_objects.specs.Styles.{property_kind, has_none, empty_list, style_kind, is_ranged, is_rangeless, is_inline};
ghost use Rattle.css_objects.specs.Styles.{is_in_sheet, inline_kind, rule_style_kind};

use crate::listed::Listed;
use crate::ranges::{SourceRange, range_if_any, range_if_any_value};
use crate::sheets::{sheet_if_any, sheet_if_any_value};
use cdp_json::{Cursor, ObjectBuilder, list_of};
use node_tree::Text;
use serde_json::Value;
use std::alloc::{AllocError, Global};

/// A declaration (`CSS.CSSProperty`).
#[derive(Drop)]
pub struct StyleProperty {
    pub name: Text,
    pub value: Text,
    pub important: bool,
    /// The text of the whole declaration.
    pub text: Text,
    /// Where it stands in its sheet; `None` in a `style` attribute.
    pub range: Option<SourceRange>,
}

/// The declarations of a rule or of a `style` attribute (`CSS.CSSStyle`).
#[derive(Drop)]
pub struct Style {
    pub properties: Listed<StyleProperty>,
    /// The text of the body.
    pub text: Text,
    /// Where the body stands in its sheet; `None` for a `style` attribute.
    pub range: Option<SourceRange>,
    /// The sheet's number; `None` for a `style` attribute.
    pub sheet: Option<u64>,
}

/// `None` where the value is no property.
pub fn property_of(alloc: Global, value: &Value) -> Result<Option<StyleProperty>, AllocError>
    ensures { IfOk result (λ o. o ≡ property_kind.reads (view value.now)) }
{
    let Some(members) = value.as_object() else {
        return Ok(None);
    };
    let mut fields = Cursor::new(members);
    let Some(important) = fields.may_true("important") else {
        return Ok(None);
    };
    let Some(name) = fields.need_text("name") else {
        return Ok(None);
    };
    let Some(range) = range_if_any(&mut fields) else {
        return Ok(None);
    };
    let Some(text) = fields.need_text("text") else {
        return Ok(None);
    };
    let Some(value) = fields.need_text("value") else {
        return Ok(None);
    };
    if !fields.is_done() {
        return Ok(None);
    }
    Ok(Some(StyleProperty {
        name: Text::copied(alloc, name)?,
        value: Text::copied(alloc, value)?,
        important,
        text: Text::copied(alloc, text)?,
        range,
    }))
}

fn true_if(holds: bool) -> Option<Value>
    ensures { option_map view result ≡ option_map only_true.spell (unit_if holds) }
{
    if holds { Some(Value::Bool(true)) } else { None }
}

/// The property as JSON.
pub fn property_value(alloc: Global, property: &StyleProperty) -> Result<Value, AllocError>
    ensures { IfOk result (λ v. view v ≡ property_kind.spell property.now) }
{
    ObjectBuilder::new(alloc)
        .with("important", true_if(property.important))?
        .with_text("name", property.name.as_str())?
        .with("range", range_if_any_value(alloc, property.range)?)?
        .with_text("text", property.text.as_str())?
        .with_text("value", property.value.as_str())?
        .build()
}

fn property_items(alloc: Global, items: &[Value]) -> Result<Option<Vec<StyleProperty>>, AllocError>
    ensures { IfOk result (λ o. option_map (λ v. v.items) o
        ≡ read_items property_kind.reads (items_view items.now)) }
{
    let mut properties = Vec::new(alloc);
    for item in items {
        let Some(property) = property_of(alloc, item)? else {
            return Ok(None);
        };
        properties.push(property)?;
    }
    Ok(Some(properties))
}

fn property_list(alloc: Global, properties: &[StyleProperty]) -> Result<Value, AllocError>
    ensures { IfOk result (λ v. view v ≡ (list_of property_kind).spell properties.now) }
{
    let mut items = Vec::new(alloc);
    for property in properties {
        items.push(property_value(alloc, property)?)?;
    }
    Ok(Value::Array(items))
}

fn properties_field(
    alloc: Global,
    fields: &mut Cursor<'_>,
) -> Result<Option<Listed<StyleProperty>>, AllocError>
    ensures { IfOk result (λ o. option_map (left_with (left fields.new)) o
        ≡ need (list_of property_kind).reads (codes "cssProperties") (left fields.old)) }
{
    let Some(items) = fields.need_list("cssProperties") else {
        return Ok(None);
    };
    match property_items(alloc, items)? {
        Some(properties) => Ok(Some(Listed::new(properties))),
        None => Ok(None),
    }
}

fn has_none(items: &[Value]) -> bool
    ensures { result ≡ has_none (items_view items.now) }
{
    match items {
        [] => true,
        [_, ..] => false,
    }
}

fn empty_of(value: &Value) -> Option<()>
    ensures { result ≡ empty_list.reads (view value.now) }
{
    let items = list_of(value)?;
    if has_none(items) { Some(()) } else { None }
}

fn shorthands_field(fields: &mut Cursor<'_>) -> Option<()>
    ensures { option_map (left_with (left fields.new)) result
        ≡ need empty_list.reads (codes "shorthandEntries") (left fields.old) }
{
    let value = fields.need("shorthandEntries")?;
    empty_of(value)
}

// A style of either form.
fn any_style_of(alloc: Global, value: &Value) -> Result<Option<Style>, AllocError>
    ensures { IfOk result (λ o. o ≡ style_kind.reads (view value.now)) }
{
    let Some(members) = value.as_object() else {
        return Ok(None);
    };
    let mut fields = Cursor::new(members);
    let Some(properties) = properties_field(alloc, &mut fields)? else {
        return Ok(None);
    };
    let Some(text) = fields.need_text("cssText") else {
        return Ok(None);
    };
    let Some(range) = range_if_any(&mut fields) else {
        return Ok(None);
    };
    let Some(()) = shorthands_field(&mut fields) else {
        return Ok(None);
    };
    let Some(sheet) = sheet_if_any(&mut fields) else {
        return Ok(None);
    };
    if !fields.is_done() {
        return Ok(None);
    }
    let text = Text::copied(alloc, text)?;
    Ok(Some(Style {
        properties,
        text,
        range,
        sheet,
    }))
}

fn are_ranged(properties: &[StyleProperty]) -> bool
    ensures { result ≡ list_all is_ranged properties.now }
{
    properties.iter().all(|property| property.range.is_some())
}

fn are_rangeless(properties: &[StyleProperty]) -> bool
    ensures { result ≡ list_all is_rangeless properties.now }
{
    properties.iter().all(|property| property.range.is_none())
}

impl Style {
    /// Whether it is of the form of a `style` attribute: with no place in a sheet, nor has a property one.
    pub fn is_inline(&self) -> bool
        ensures { result ≡ is_inline self.now }
    {
        let properties = are_rangeless(self.properties.as_slice());
        self.range.is_none() && self.sheet.is_none() && properties
    }

    /// Whether it is of the form of a rule's: with its place in a sheet, as each property has one.
    pub fn is_in_sheet(&self) -> bool
        ensures { result ≡ is_in_sheet self.now }
    {
        let properties = are_ranged(self.properties.as_slice());
        self.range.is_some() && self.sheet.is_some() && properties
    }
}

/// `None` where the value is no style of a `style` attribute.
pub fn inline_style_of(alloc: Global, value: &Value) -> Result<Option<Style>, AllocError>
    ensures { IfOk result (λ o. o ≡ inline_kind.reads (view value.now)) }
{
    match any_style_of(alloc, value)? {
        Some(style) => if style.is_inline() {
            Ok(Some(style))
        } else {
            Ok(None)
        },
        None => Ok(None),
    }
}

/// `None` where the value is no style of a rule.
pub fn rule_style_of(alloc: Global, value: &Value) -> Result<Option<Style>, AllocError>
    ensures { IfOk result (λ o. o ≡ rule_style_kind.reads (view value.now)) }
{
    match any_style_of(alloc, value)? {
        Some(style) => if style.is_in_sheet() {
            Ok(Some(style))
        } else {
            Ok(None)
        },
        None => Ok(None),
    }
}

/// The style as JSON, of either form.
pub fn style_value(alloc: Global, style: &Style) -> Result<Value, AllocError>
    ensures { IfOk result (λ v. view v ≡ style_kind.spell style.now) }
{
    ObjectBuilder::new(alloc)
        .with_value(
            "cssProperties",
            property_list(alloc, style.properties.as_slice())?,
        )?
        .with_text("cssText", style.text.as_str())?
        .with("range", range_if_any_value(alloc, style.range)?)?
        .with_value("shorthandEntries", Value::Array(Vec::new(alloc)))?
        .with("styleSheetId", sheet_if_any_value(alloc, style.sheet)?)?
        .build()
}
