// The results of the methods of the CSS domain, each an object with one field; that of matched styles stands in `rules`.
ghost use Rattle.std.specs.Prelude.{◌≡◌, IfOk, option_map};
ghost use Rattle.serde_json.specs.Data.{object as object_of_members, no_members, member};
ghost use Rattle.serde_json.specs.Find.{as_str};
ghost use Rattle.serde_json.specs.View.{view, items_view};
ghost use Rattle.cdp_json.specs.Kinds.{text, list_of, read_items};
ghost use Rattle.css_objects.specs.Styles.{rule_style_kind};
ghost use Rattle.css_objects.specs.Made.{sole_field};
ghost use Rattle.css_objects.specs.Results.{sheet_text_result, class_names_result, styles_result, selectors_result, rule_result};
ghost use Rattle.css_objects.specs.Results.{media_result};

use crate::listed::Listed;
use crate::media::{Media, media_of, media_value};
use crate::rules::{Rule, rule_of, rule_value};
use crate::selectors::{RuleSelectors, selectors_of, selectors_value};
use crate::styles::{Style, rule_style_of, style_value};
use cdp_json::{Cursor, ObjectBuilder, list_of, text_of};
use node_tree::Text;
use serde_json::Value;
use std::alloc::{AllocError, Global};

// The value of the object's one field, if it has this name.
fn sole_field<'a>(value: &'a Value, name: &str) -> Option<&'a Value>
    ensures { option_map (λ v. view v.now) result ≡ sole_field name.now (view value.now) }
{
    let mut fields = Cursor::new(value.as_object()?);
    let value = fields.need(name)?;
    if fields.is_done() { Some(value) } else { None }
}

// An object with one member.
fn object_with(alloc: Global, name: &str, value: Value) -> Result<Value, AllocError>
    ensures { IfOk result (λ v. view v ≡ object_of_members (member name.now (view value) no_members)) }
{
    ObjectBuilder::new(alloc).with_value(name, value)?.build()
}

fn style_items(alloc: Global, items: &[Value]) -> Result<Option<Vec<Style>>, AllocError>
    ensures { IfOk result (λ o. option_map (λ v. v.items) o
        ≡ read_items rule_style_kind.reads (items_view items.now)) }
{
    let mut styles = Vec::new(alloc);
    for item in items {
        let Some(style) = rule_style_of(alloc, item)? else {
            return Ok(None);
        };
        styles.push(style)?;
    }
    Ok(Some(styles))
}

fn style_list(alloc: Global, styles: &[Style]) -> Result<Value, AllocError>
    ensures { IfOk result (λ v. view v ≡ (list_of rule_style_kind).spell styles.now) }
{
    let mut items = Vec::new(alloc);
    for style in styles {
        items.push(style_value(alloc, style)?)?;
    }
    Ok(Value::Array(items))
}

// A text of its own.
fn text_in(alloc: Global, value: &Value) -> Result<Option<Text>, AllocError>
    ensures { IfOk result (λ o. o ≡ as_str (view value.now)) }
{
    match text_of(value) {
        Some(text) => Ok(Some(Text::copied(alloc, text)?)),
        None => Ok(None),
    }
}

fn name_items(alloc: Global, items: &[Value]) -> Result<Option<Vec<Text>>, AllocError>
    ensures { IfOk result (λ o. option_map (λ v. v.items) o ≡ read_items text.reads (items_view items.now)) }
{
    let mut names = Vec::new(alloc);
    for item in items {
        let Some(name) = text_in(alloc, item)? else {
            return Ok(None);
        };
        names.push(name)?;
    }
    Ok(Some(names))
}

fn name_list(alloc: Global, names: &[Text]) -> Result<Value, AllocError>
    ensures { IfOk result (λ v. view v ≡ (list_of text).spell names.now) }
{
    let mut items = Vec::new(alloc);
    for name in names {
        items.push(Value::try_from_str(alloc, name.as_str())?)?;
    }
    Ok(Value::Array(items))
}

/// The text of a sheet. `None`, here and below, where the value is not the result.
pub fn sheet_text_of(alloc: Global, value: &Value) -> Result<Option<Text>, AllocError>
    ensures { IfOk result (λ o. o ≡ sheet_text_result.reads (view value.now)) }
{
    let Some(text) = sole_field(value, "text") else {
        return Ok(None);
    };
    text_in(alloc, text)
}

/// The result of `CSS.getStyleSheetText`.
pub fn sheet_text_value(alloc: Global, text: &Text) -> Result<Value, AllocError>
    ensures { IfOk result (λ v. view v ≡ sheet_text_result.spell text.now) }
{
    let text = Value::try_from_str(alloc, text.as_str())?;
    object_with(alloc, "text", text)
}

/// The names of classes.
pub fn class_names_of(alloc: Global, value: &Value) -> Result<Option<Listed<Text>>, AllocError>
    ensures { IfOk result (λ o. o ≡ class_names_result.reads (view value.now)) }
{
    let Some(names) = sole_field(value, "classNames") else {
        return Ok(None);
    };
    let Some(items) = list_of(names) else {
        return Ok(None);
    };
    match name_items(alloc, items)? {
        Some(names) => Ok(Some(Listed::new(names))),
        None => Ok(None),
    }
}

/// The result of `CSS.collectClassNames`.
pub fn class_names_value(alloc: Global, names: &[Text]) -> Result<Value, AllocError>
    ensures { IfOk result (λ v. view v ≡ class_names_result.spell names.now) }
{
    let list = name_list(alloc, names)?;
    object_with(alloc, "classNames", list)
}

/// The styles of rules.
pub fn styles_of(alloc: Global, value: &Value) -> Result<Option<Listed<Style>>, AllocError>
    ensures { IfOk result (λ o. o ≡ styles_result.reads (view value.now)) }
{
    let Some(styles) = sole_field(value, "styles") else {
        return Ok(None);
    };
    let Some(items) = list_of(styles) else {
        return Ok(None);
    };
    match style_items(alloc, items)? {
        Some(styles) => Ok(Some(Listed::new(styles))),
        None => Ok(None),
    }
}

/// The result of `CSS.setStyleTexts`.
pub fn styles_value(alloc: Global, styles: &[Style]) -> Result<Value, AllocError>
    ensures { IfOk result (λ v. view v ≡ styles_result.spell styles.now) }
{
    let list = style_list(alloc, styles)?;
    object_with(alloc, "styles", list)
}

/// The new selectors of a rule.
pub fn new_selectors_of(alloc: Global, value: &Value) -> Result<Option<RuleSelectors>, AllocError>
    ensures { IfOk result (λ o. o ≡ selectors_result.reads (view value.now)) }
{
    let Some(selectors) = sole_field(value, "selectorList") else {
        return Ok(None);
    };
    selectors_of(alloc, selectors)
}

/// The result of `CSS.setRuleSelector`.
pub fn new_selectors_value(alloc: Global, selectors: &RuleSelectors) -> Result<Value, AllocError>
    ensures { IfOk result (λ v. view v ≡ selectors_result.spell selectors.now) }
{
    let value = selectors_value(alloc, selectors)?;
    object_with(alloc, "selectorList", value)
}

/// The new rule of a sheet.
pub fn new_rule_of(alloc: Global, value: &Value) -> Result<Option<Rule>, AllocError>
    ensures { IfOk result (λ o. o ≡ rule_result.reads (view value.now)) }
{
    let Some(rule) = sole_field(value, "rule") else {
        return Ok(None);
    };
    rule_of(alloc, rule)
}

/// The result of `CSS.addRule`.
pub fn new_rule_value(alloc: Global, rule: &Rule) -> Result<Value, AllocError>
    ensures { IfOk result (λ v. view v ≡ rule_result.spell rule.now) }
{
    let value = rule_value(alloc, rule)?;
    object_with(alloc, "rule", value)
}

/// The media rule with its new prelude.
pub fn new_media_of(alloc: Global, value: &Value) -> Result<Option<Media>, AllocError>
    ensures { IfOk result (λ o. o ≡ media_result.reads (view value.now)) }
{
    let Some(media) = sole_field(value, "media") else {
        return Ok(None);
    };
    media_of(alloc, media)
}

/// The result of `CSS.setMediaText`.
pub fn new_media_value(alloc: Global, media: &Media) -> Result<Value, AllocError>
    ensures { IfOk result (λ v. view v ≡ media_result.spell media.now) }
{
    let value = media_value(alloc, media)?;
    object_with(alloc, "media", value)
}
