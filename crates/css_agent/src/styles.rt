// Declarations as messages tell them, in a sheet and in a `style` attribute.
ghost use Rattle.std.specs.Prelude.{◌≡◌, All, map, IfOk};
ghost use Rattle.selectors.specs.Ranges.{IsRangeOf};
ghost use Rattle.sheet_reader.specs.Forms.{rule_seen};
ghost use Rattle.sheet_reader.specs.Usable.{IsPropertyOf, IsRuleOf};
ghost use Rattle.css_agent.specs.Texts.{told_part};
ghost use Rattle.css_agent.specs.RuleObjects.{property_with, sheet_property, inline_property, inline_style, rule_style};

use crate::rulers::{Ruler, range_between};
use css_objects::{Listed, SourceRange, Style, StyleProperty};
use css_tokens::Range;
use node_tree::Text;
use sheet_reader::{Property, StyleRule, read_style};
use std::alloc::{AllocError, Global};

/// What stands there.
pub(crate) fn told_part(alloc: Global, text: &str, range: Range) -> Result<Text, AllocError>
    requires { IsRangeOf text.now range }
    ensures { IfOk result (λ part. part ≡ told_part text.now range) }
{
    Text::copied(alloc, &text[range.start..range.end])
}

fn property_with(
    alloc: Global,
    range: Option<SourceRange>,
    text: &str,
    property: &Property,
) -> Result<StyleProperty, AllocError>
    requires { IsPropertyOf text.now property.now }
    ensures { IfOk result (λ p. p ≡ property_with range text.now property.now) }
{
    Ok(StyleProperty {
        name: property.name.try_clone()?,
        value: told_part(alloc, text, property.value)?,
        important: property.important,
        text: told_part(alloc, text, property.whole)?,
        range,
    })
}

fn inline_properties(
    alloc: Global,
    text: &str,
    properties: &[Property],
) -> Result<Vec<StyleProperty>, AllocError>
    requires { All (IsPropertyOf text.now) properties.now }
    ensures { IfOk result (λ v. v.items ≡ map (inline_property text.now) properties.now) }
{
    let mut told = Vec::new(alloc);
    for property in properties {
        told.push(property_with(alloc, None, text, property)?)?;
    }
    Ok(told)
}

/// The style that a `style` attribute with this value gives.
pub(crate) fn inline_style(alloc: Global, text: &str) -> Result<Style, AllocError>
    ensures { IfOk result (λ s. s ≡ inline_style text.now) }
{
    let properties = read_style(alloc, text)?;
    let told = inline_properties(alloc, text, properties.as_slice())?;
    Ok(Style {
        properties: Listed::new(told),
        text: Text::copied(alloc, text)?,
        range: None,
        sheet: None,
    })
}

fn sheet_property(
    alloc: Global,
    ruler: &mut Ruler<'_>,
    property: &Property,
) -> Result<StyleProperty, AllocError>
    requires { IsPropertyOf ruler.old property.now }
    ensures value { IfOk result (λ p. p ≡ sheet_property ruler.old property.now) }
    ensures same { ruler.new ≡ ruler.old }
{
    let range = ruler.range_of(property.whole);
    property_with(alloc, Some(range), ruler.text(), property)
}

fn sheet_properties(
    alloc: Global,
    ruler: &mut Ruler<'_>,
    properties: &[Property],
) -> Result<Vec<StyleProperty>, AllocError>
    requires { All (IsPropertyOf ruler.old) properties.now }
    ensures value { IfOk result (λ v. v.items ≡ map (sheet_property ruler.old) properties.now) }
    ensures same { ruler.new ≡ ruler.old }
{
    let mut told = Vec::new(alloc);
    for property in properties {
        told.push(sheet_property(alloc, ruler, property)?)?;
    }
    Ok(told)
}

/// The style of a rule of the sheet with that number.
pub(crate) fn rule_style(
    alloc: Global,
    ruler: &mut Ruler<'_>,
    sheet: u64,
    rule: &StyleRule,
) -> Result<Style, AllocError>
    requires { IsRuleOf ruler.old (rule_seen rule.now) }
    ensures value { IfOk result (λ s. s ≡ rule_style sheet ruler.old (rule_seen rule.now)) }
    ensures same { ruler.new ≡ ruler.old }
{
    let start = ruler.at(rule.body.start);
    let properties = sheet_properties(alloc, ruler, rule.properties.as_slice())?;
    let end = ruler.at(rule.body.end);
    Ok(Style {
        properties: Listed::new(properties),
        text: told_part(alloc, ruler.text(), rule.body)?,
        range: Some(range_between(start, end)),
        sheet: Some(sheet),
    })
}
