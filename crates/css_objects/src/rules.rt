// Rules, rules that match an element, and all that gives an element its style.
ghost use Rattle.std.specs.Prelude.{◌≡◌, codes, option_map, IfOk};
ghost use Rattle.serde_json.specs.View.{view, items_view};
ghost use Rattle.cdp_json.specs.Left.{left};
ghost use Rattle.cdp_json.specs.Kinds.{list_of, read_items};
ghost use Rattle.cdp_json.specs.Rows.{left_with, need, may};
ghost use Rattle.css_objects.specs.Media.{some_media_kind, written_media, media_written};
ghost use Rattle.css_objects.specs.Selectors.{selectors_kind};
ghost use Rattle.css_objects.specs.Styles.{inline_kind, rule_style_kind};
ghost use Rattle.css_objects.specs.Rules.{rule_kind, ascend, places_kind, match_kind, inherited_kind, matched_kind};

use crate::listed::Listed;
use crate::media::{Media, some_media_of, some_media_value};
use crate::selectors::{RuleSelectors, selectors_of, selectors_value};
use crate::sheets::{origin_field, origin_value, sheet_field, sheet_value};
use crate::styles::{Style, inline_style_of, rule_style_of, style_value};
use cdp_json::{Cursor, ObjectBuilder, wholes_of};
use node_tree::Origin;
use serde_json::Value;
use std::alloc::{AllocError, Global};

/// A style rule of a sheet (`CSS.CSSRule`).
#[derive(Drop)]
pub struct Rule {
    pub origin: Origin,
    pub selectors: RuleSelectors,
    pub style: Style,
    /// The sheet's number.
    pub sheet: u64,
    /// The media rules around it, the innermost first.
    pub media: Listed<Media>,
}

/// A rule that matches an element (`CSS.RuleMatch`).
#[derive(Drop)]
pub struct RuleMatch {
    /// The places, from 0, of the selectors that match; they ascend.
    pub matching: Listed<u64>,
    pub rule: Rule,
}

/// What an ancestor of an element has (`CSS.InheritedStyleEntry`).
#[derive(Drop)]
pub struct Inherited {
    /// Its `style` attribute, where it has one.
    pub inline: Option<Style>,
    pub rules: Listed<RuleMatch>,
}

/// What gives an element its style: the result of `CSS.getMatchedStylesForNode`.
#[derive(Drop)]
pub struct Matched {
    /// The element's `style` attribute, where it has one.
    pub inline: Option<Style>,
    pub rules: Listed<RuleMatch>,
    /// For each ancestor that is an element, from the parent upwards.
    pub inherited: Listed<Inherited>,
}

fn selectors_field(
    alloc: Global,
    fields: &mut Cursor<'_>,
) -> Result<Option<RuleSelectors>, AllocError>
    ensures { IfOk result (λ o. option_map (left_with (left fields.new)) o
        ≡ need selectors_kind.reads (codes "selectorList") (left fields.old)) }
{
    let Some(value) = fields.need("selectorList") else {
        return Ok(None);
    };
    selectors_of(alloc, value)
}

fn style_field(alloc: Global, fields: &mut Cursor<'_>) -> Result<Option<Style>, AllocError>
    ensures { IfOk result (λ o. option_map (left_with (left fields.new)) o
        ≡ need rule_style_kind.reads (codes "style") (left fields.old)) }
{
    let Some(value) = fields.need("style") else {
        return Ok(None);
    };
    rule_style_of(alloc, value)
}

// An outer `None` says that the field is there and no list of media rules with one at least.
fn media_if_any(
    alloc: Global,
    fields: &mut Cursor<'_>,
) -> Result<Option<Option<Listed<Media>>>, AllocError>
    ensures { IfOk result (λ o. option_map (left_with (left fields.new)) o
        ≡ may some_media_kind.reads (codes "media") (left fields.old)) }
{
    match fields.may("media") {
        Some(value) => match some_media_of(alloc, value)? {
            Some(media) => Ok(Some(Some(media))),
            None => Ok(None),
        },
        None => Ok(Some(None)),
    }
}

// None, where the list is absent.
fn media_written(alloc: Global, media: Option<Listed<Media>>) -> Listed<Media>
    ensures { result ≡ media_written media }
{
    match media {
        Some(media) => media,
        None => Listed::new(Vec::new(alloc)),
    }
}

fn media_if_any_value(alloc: Global, media: &Listed<Media>) -> Result<Option<Value>, AllocError>
    ensures { IfOk result (λ o. option_map view o ≡ option_map some_media_kind.spell (written_media media.now)) }
{
    if media.len() == 0 {
        return Ok(None);
    }
    match some_media_value(alloc, media.as_slice()) {
        Ok(value) => Ok(Some(value)),
        Err(error) => Err(error),
    }
}

/// `None` where the value is no rule.
pub fn rule_of(alloc: Global, value: &Value) -> Result<Option<Rule>, AllocError>
    ensures { IfOk result (λ o. o ≡ rule_kind.reads (view value.now)) }
{
    let Some(members) = value.as_object() else {
        return Ok(None);
    };
    let mut fields = Cursor::new(members);
    let Some(media) = media_if_any(alloc, &mut fields)? else {
        return Ok(None);
    };
    let Some(origin) = origin_field(&mut fields) else {
        return Ok(None);
    };
    let Some(selectors) = selectors_field(alloc, &mut fields)? else {
        return Ok(None);
    };
    let Some(style) = style_field(alloc, &mut fields)? else {
        return Ok(None);
    };
    let Some(sheet) = sheet_field(&mut fields) else {
        return Ok(None);
    };
    if !fields.is_done() {
        return Ok(None);
    }
    Ok(Some(Rule {
        origin,
        selectors,
        style,
        sheet,
        media: media_written(alloc, media),
    }))
}

/// The rule as JSON.
pub fn rule_value(alloc: Global, rule: &Rule) -> Result<Value, AllocError>
    ensures { IfOk result (λ v. view v ≡ rule_kind.spell rule.now) }
{
    ObjectBuilder::new(alloc)
        .with("media", media_if_any_value(alloc, &rule.media)?)?
        .with_value("origin", origin_value(alloc, rule.origin)?)?
        .with_value("selectorList", selectors_value(alloc, &rule.selectors)?)?
        .with_value("style", style_value(alloc, &rule.style)?)?
        .with_value("styleSheetId", sheet_value(alloc, rule.sheet)?)?
        .build()
}

pub(crate) fn ascend(numbers: &[u64]) -> bool
    ensures { result ≡ ascend numbers.now }
{
    let mut last = None;
    for number in numbers {
        if let Some(earlier) = last {
            if earlier >= *number {
                return false;
            }
        }
        last = Some(*number);
    }
    true
}

fn places_field(alloc: Global, fields: &mut Cursor<'_>) -> Result<Option<Listed<u64>>, AllocError>
    ensures { IfOk result (λ o. option_map (left_with (left fields.new)) o
        ≡ need places_kind.reads (codes "matchingSelectors") (left fields.old)) }
{
    let Some(items) = fields.need_list("matchingSelectors") else {
        return Ok(None);
    };
    let Some(places) = wholes_of(alloc, items)? else {
        return Ok(None);
    };
    if ascend(places.as_slice()) {
        Ok(Some(Listed::new(places)))
    } else {
        Ok(None)
    }
}

fn rule_field(alloc: Global, fields: &mut Cursor<'_>) -> Result<Option<Rule>, AllocError>
    ensures { IfOk result (λ o. option_map (left_with (left fields.new)) o
        ≡ need rule_kind.reads (codes "rule") (left fields.old)) }
{
    let Some(value) = fields.need("rule") else {
        return Ok(None);
    };
    rule_of(alloc, value)
}

/// `None` where the value is no match.
pub fn match_of(alloc: Global, value: &Value) -> Result<Option<RuleMatch>, AllocError>
    ensures { IfOk result (λ o. o ≡ match_kind.reads (view value.now)) }
{
    let Some(members) = value.as_object() else {
        return Ok(None);
    };
    let mut fields = Cursor::new(members);
    let Some(matching) = places_field(alloc, &mut fields)? else {
        return Ok(None);
    };
    let Some(rule) = rule_field(alloc, &mut fields)? else {
        return Ok(None);
    };
    if !fields.is_done() {
        return Ok(None);
    }
    Ok(Some(RuleMatch { matching, rule }))
}

fn match_items(alloc: Global, items: &[Value]) -> Result<Option<Vec<RuleMatch>>, AllocError>
    ensures { IfOk result (λ o. option_map (λ v. v.items) o
        ≡ read_items match_kind.reads (items_view items.now)) }
{
    let mut matches = Vec::new(alloc);
    for item in items {
        let Some(found) = match_of(alloc, item)? else {
            return Ok(None);
        };
        matches.push(found)?;
    }
    Ok(Some(matches))
}

fn matches_field(
    alloc: Global,
    fields: &mut Cursor<'_>,
) -> Result<Option<Listed<RuleMatch>>, AllocError>
    ensures { IfOk result (λ o. option_map (left_with (left fields.new)) o
        ≡ need (list_of match_kind).reads (codes "matchedCSSRules") (left fields.old)) }
{
    let Some(items) = fields.need_list("matchedCSSRules") else {
        return Ok(None);
    };
    match match_items(alloc, items)? {
        Some(matches) => Ok(Some(Listed::new(matches))),
        None => Ok(None),
    }
}

// An outer `None` says that the field is there and no style of a `style` attribute.
fn inline_if_any(
    alloc: Global,
    fields: &mut Cursor<'_>,
) -> Result<Option<Option<Style>>, AllocError>
    ensures { IfOk result (λ o. option_map (left_with (left fields.new)) o
        ≡ may inline_kind.reads (codes "inlineStyle") (left fields.old)) }
{
    match fields.may("inlineStyle") {
        Some(value) => match inline_style_of(alloc, value)? {
            Some(style) => Ok(Some(Some(style))),
            None => Ok(None),
        },
        None => Ok(Some(None)),
    }
}

/// `None` where the value is no entry of inherited styles.
pub fn inherited_of(alloc: Global, value: &Value) -> Result<Option<Inherited>, AllocError>
    ensures { IfOk result (λ o. o ≡ inherited_kind.reads (view value.now)) }
{
    let Some(members) = value.as_object() else {
        return Ok(None);
    };
    let mut fields = Cursor::new(members);
    let Some(inline) = inline_if_any(alloc, &mut fields)? else {
        return Ok(None);
    };
    let Some(rules) = matches_field(alloc, &mut fields)? else {
        return Ok(None);
    };
    if !fields.is_done() {
        return Ok(None);
    }
    Ok(Some(Inherited { inline, rules }))
}

fn inherited_items(alloc: Global, items: &[Value]) -> Result<Option<Vec<Inherited>>, AllocError>
    ensures { IfOk result (λ o. option_map (λ v. v.items) o
        ≡ read_items inherited_kind.reads (items_view items.now)) }
{
    let mut entries = Vec::new(alloc);
    for item in items {
        let Some(entry) = inherited_of(alloc, item)? else {
            return Ok(None);
        };
        entries.push(entry)?;
    }
    Ok(Some(entries))
}

fn inherited_field(
    alloc: Global,
    fields: &mut Cursor<'_>,
) -> Result<Option<Listed<Inherited>>, AllocError>
    ensures { IfOk result (λ o. option_map (left_with (left fields.new)) o
        ≡ need (list_of inherited_kind).reads (codes "inherited") (left fields.old)) }
{
    let Some(items) = fields.need_list("inherited") else {
        return Ok(None);
    };
    match inherited_items(alloc, items)? {
        Some(entries) => Ok(Some(Listed::new(entries))),
        None => Ok(None),
    }
}

/// `None` where the value is no result of `CSS.getMatchedStylesForNode`.
pub fn matched_of(alloc: Global, value: &Value) -> Result<Option<Matched>, AllocError>
    ensures { IfOk result (λ o. o ≡ matched_kind.reads (view value.now)) }
{
    let Some(members) = value.as_object() else {
        return Ok(None);
    };
    let mut fields = Cursor::new(members);
    let Some(inherited) = inherited_field(alloc, &mut fields)? else {
        return Ok(None);
    };
    let Some(inline) = inline_if_any(alloc, &mut fields)? else {
        return Ok(None);
    };
    let Some(rules) = matches_field(alloc, &mut fields)? else {
        return Ok(None);
    };
    if !fields.is_done() {
        return Ok(None);
    }
    Ok(Some(Matched {
        inline,
        rules,
        inherited,
    }))
}
