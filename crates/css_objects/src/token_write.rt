// The objects as the tokens of their text, with no JSON values in between.
ghost use Rattle.std.specs.Prelude.{◌≡◌, ◌++◌, codes, Some, OnOk, option_map};
ghost use Rattle.cdp_json.specs.Kinds.{whole, list_of, only_true};
ghost use Rattle.cdp_json.specs.Rows.{unit_if};
ghost use Rattle.cdp_json.specs.Tokens.{data_tokens, field_tokens};
ghost use Rattle.css_objects.specs.Ranges.{range_kind};
ghost use Rattle.css_objects.specs.Sheets.{sheet_kind, origin_kind};
ghost use Rattle.css_objects.specs.Media.{media_kind, some_media_kind, written_media};
ghost use Rattle.css_objects.specs.Selectors.{weight_kind, selector_kind, selectors_kind};
ghost use Rattle.css_objects.specs.Styles.{property_kind, empty_list, style_kind, inline_kind};
ghost use Rattle.css_objects.specs.Rules.{rule_kind, match_kind, inherited_kind, matched_kind};

use crate::listed::Listed;
use crate::media::Media;
use crate::ranges::SourceRange;
use crate::rules::{Inherited, Matched, Rule, RuleMatch};
use crate::selectors::{RuleSelectors, SelectorValue, Weight};
use crate::sheets::sheet_text;
use crate::styles::{Style, StyleProperty};
use cdp_json::{write_text_field, write_whole_field};
use json::Writer;
use node_tree::Origin;
use std::alloc::{AllocError, Global};

// ---- ranges and ids

fn write_range(out: &mut Writer, range: SourceRange) -> Result<(), AllocError>
    ensures ok { OnOk result (out.new.tokens ≡ out.old.tokens ++ data_tokens (range_kind.spell range)) }
    ensures before { out.new.before ≡ out.old.before }
{
    out.begin_object()?;
    write_whole_field(out, "endColumn", range.end_column)?;
    write_whole_field(out, "endLine", range.end_line)?;
    write_whole_field(out, "startColumn", range.start_column)?;
    write_whole_field(out, "startLine", range.start_line)?;
    out.end_object()?;
    Ok(())
}

fn write_range_field(out: &mut Writer, range: SourceRange) -> Result<(), AllocError>
    ensures ok { OnOk result (out.new.tokens ≡ out.old.tokens
        ++ field_tokens (codes "range") (Some (range_kind.spell range))) }
    ensures before { out.new.before ≡ out.old.before }
{
    out.key("range")?;
    write_range(out, range)
}

fn write_range_if_any(out: &mut Writer, range: Option<SourceRange>) -> Result<(), AllocError>
    ensures ok { OnOk result (out.new.tokens ≡ out.old.tokens
        ++ field_tokens (codes "range") (option_map range_kind.spell range)) }
    ensures before { out.new.before ≡ out.old.before }
{
    match range {
        Some(range) => write_range_field(out, range),
        None => Ok(()),
    }
}

fn write_sheet_field(alloc: Global, out: &mut Writer, sheet: u64) -> Result<(), AllocError>
    ensures ok { OnOk result (out.new.tokens ≡ out.old.tokens
        ++ field_tokens (codes "styleSheetId") (Some (sheet_kind.spell sheet))) }
    ensures before { out.new.before ≡ out.old.before }
{
    let id = sheet_text(alloc, sheet)?;
    write_text_field(out, "styleSheetId", id.as_str())
}

fn write_sheet_if_any(alloc: Global, out: &mut Writer, sheet: Option<u64>) -> Result<(), AllocError>
    ensures ok { OnOk result (out.new.tokens ≡ out.old.tokens
        ++ field_tokens (codes "styleSheetId") (option_map sheet_kind.spell sheet)) }
    ensures before { out.new.before ≡ out.old.before }
{
    match sheet {
        Some(sheet) => write_sheet_field(alloc, out, sheet),
        None => Ok(()),
    }
}

fn write_origin_field(out: &mut Writer, origin: Origin) -> Result<(), AllocError>
    ensures ok { OnOk result (out.new.tokens ≡ out.old.tokens
        ++ field_tokens (codes "origin") (Some (origin_kind.spell origin))) }
    ensures before { out.new.before ≡ out.old.before }
{
    write_text_field(out, "origin", origin.as_str())
}

// ---- selectors

fn write_weight(out: &mut Writer, weight: Weight) -> Result<(), AllocError>
    ensures ok { OnOk result (out.new.tokens ≡ out.old.tokens ++ data_tokens (weight_kind.spell weight)) }
    ensures before { out.new.before ≡ out.old.before }
{
    out.begin_object()?;
    write_whole_field(out, "a", weight.a)?;
    write_whole_field(out, "b", weight.b)?;
    write_whole_field(out, "c", weight.c)?;
    out.end_object()?;
    Ok(())
}

fn write_selector(out: &mut Writer, selector: &SelectorValue) -> Result<(), AllocError>
    ensures ok { OnOk result (out.new.tokens ≡ out.old.tokens ++ data_tokens (selector_kind.spell selector.now)) }
    ensures before { out.new.before ≡ out.old.before }
{
    out.begin_object()?;
    write_range_field(out, selector.range)?;
    out.key("specificity")?;
    write_weight(out, selector.weight)?;
    write_text_field(out, "text", selector.text.as_str())?;
    out.end_object()?;
    Ok(())
}

fn write_selector_list(out: &mut Writer, selectors: &[SelectorValue]) -> Result<(), AllocError>
    ensures ok { OnOk result (out.new.tokens ≡ out.old.tokens
        ++ data_tokens ((list_of selector_kind).spell selectors.now)) }
    ensures before { out.new.before ≡ out.old.before }
{
    out.begin_array()?;
    for selector in selectors {
        write_selector(out, selector)?;
    }
    out.end_array()?;
    Ok(())
}

fn write_selectors(out: &mut Writer, selectors: &RuleSelectors) -> Result<(), AllocError>
    ensures ok { OnOk result (out.new.tokens ≡ out.old.tokens ++ data_tokens (selectors_kind.spell selectors.now)) }
    ensures before { out.new.before ≡ out.old.before }
{
    out.begin_object()?;
    out.key("selectors")?;
    write_selector_list(out, selectors.selectors.as_slice())?;
    write_text_field(out, "text", selectors.text.as_str())?;
    out.end_object()?;
    Ok(())
}

// ---- styles

fn write_true_field(out: &mut Writer, name: &str) -> Result<(), AllocError>
    ensures ok { OnOk result (out.new.tokens ≡ out.old.tokens
        ++ field_tokens name.now (Some (only_true.spell tt))) }
    ensures before { out.new.before ≡ out.old.before }
{
    out.key(name)?;
    out.boolean(true)
}

fn write_important(out: &mut Writer, important: bool) -> Result<(), AllocError>
    ensures ok { OnOk result (out.new.tokens ≡ out.old.tokens
        ++ field_tokens (codes "important") (option_map only_true.spell (unit_if important))) }
    ensures before { out.new.before ≡ out.old.before }
{
    if important {
        write_true_field(out, "important")
    } else {
        Ok(())
    }
}

fn write_property(out: &mut Writer, property: &StyleProperty) -> Result<(), AllocError>
    ensures ok { OnOk result (out.new.tokens ≡ out.old.tokens ++ data_tokens (property_kind.spell property.now)) }
    ensures before { out.new.before ≡ out.old.before }
{
    out.begin_object()?;
    write_important(out, property.important)?;
    write_text_field(out, "name", property.name.as_str())?;
    write_range_if_any(out, property.range)?;
    write_text_field(out, "text", property.text.as_str())?;
    write_text_field(out, "value", property.value.as_str())?;
    out.end_object()?;
    Ok(())
}

fn write_property_list(out: &mut Writer, properties: &[StyleProperty]) -> Result<(), AllocError>
    ensures ok { OnOk result (out.new.tokens ≡ out.old.tokens
        ++ data_tokens ((list_of property_kind).spell properties.now)) }
    ensures before { out.new.before ≡ out.old.before }
{
    out.begin_array()?;
    for property in properties {
        write_property(out, property)?;
    }
    out.end_array()?;
    Ok(())
}

fn write_shorthands_field(out: &mut Writer) -> Result<(), AllocError>
    ensures ok { OnOk result (out.new.tokens ≡ out.old.tokens
        ++ field_tokens (codes "shorthandEntries") (Some (empty_list.spell tt))) }
    ensures before { out.new.before ≡ out.old.before }
{
    out.key("shorthandEntries")?;
    out.begin_array()?;
    out.end_array()
}

// A style of either form.
fn write_style(alloc: Global, out: &mut Writer, style: &Style) -> Result<(), AllocError>
    ensures ok { OnOk result (out.new.tokens ≡ out.old.tokens ++ data_tokens (style_kind.spell style.now)) }
    ensures before { out.new.before ≡ out.old.before }
{
    out.begin_object()?;
    out.key("cssProperties")?;
    write_property_list(out, style.properties.as_slice())?;
    write_text_field(out, "cssText", style.text.as_str())?;
    write_range_if_any(out, style.range)?;
    write_shorthands_field(out)?;
    write_sheet_if_any(alloc, out, style.sheet)?;
    out.end_object()?;
    Ok(())
}

// ---- media rules

fn write_media(alloc: Global, out: &mut Writer, media: &Media) -> Result<(), AllocError>
    ensures ok { OnOk result (out.new.tokens ≡ out.old.tokens ++ data_tokens (media_kind.spell media.now)) }
    ensures before { out.new.before ≡ out.old.before }
{
    out.begin_object()?;
    write_range_field(out, media.range)?;
    write_text_field(out, "source", "mediaRule")?;
    write_sheet_field(alloc, out, media.sheet)?;
    write_text_field(out, "text", media.text.as_str())?;
    out.end_object()?;
    Ok(())
}

fn write_media_list(alloc: Global, out: &mut Writer, list: &[Media]) -> Result<(), AllocError>
    ensures ok { OnOk result (out.new.tokens ≡ out.old.tokens
        ++ data_tokens ((list_of media_kind).spell list.now)) }
    ensures before { out.new.before ≡ out.old.before }
{
    out.begin_array()?;
    for media in list {
        write_media(alloc, out, media)?;
    }
    out.end_array()?;
    Ok(())
}

fn write_media_field(alloc: Global, out: &mut Writer, list: &[Media]) -> Result<(), AllocError>
    ensures ok { OnOk result (out.new.tokens ≡ out.old.tokens
        ++ field_tokens (codes "media") (Some (some_media_kind.spell list.now))) }
    ensures before { out.new.before ≡ out.old.before }
{
    out.key("media")?;
    write_media_list(alloc, out, list)
}

fn write_media_if_any(
    alloc: Global,
    out: &mut Writer,
    media: &Listed<Media>,
) -> Result<(), AllocError>
    ensures ok { OnOk result (out.new.tokens ≡ out.old.tokens
        ++ field_tokens (codes "media") (option_map some_media_kind.spell (written_media media.now))) }
    ensures before { out.new.before ≡ out.old.before }
{
    if media.len() == 0 {
        Ok(())
    } else {
        write_media_field(alloc, out, media.as_slice())
    }
}

// ---- rules

fn write_rule(alloc: Global, out: &mut Writer, rule: &Rule) -> Result<(), AllocError>
    ensures ok { OnOk result (out.new.tokens ≡ out.old.tokens ++ data_tokens (rule_kind.spell rule.now)) }
    ensures before { out.new.before ≡ out.old.before }
{
    out.begin_object()?;
    write_media_if_any(alloc, out, &rule.media)?;
    write_origin_field(out, rule.origin)?;
    out.key("selectorList")?;
    write_selectors(out, &rule.selectors)?;
    out.key("style")?;
    write_style(alloc, out, &rule.style)?;
    write_sheet_field(alloc, out, rule.sheet)?;
    out.end_object()?;
    Ok(())
}

fn write_place(out: &mut Writer, place: &u64) -> Result<(), AllocError>
    ensures ok { OnOk result (out.new.tokens ≡ out.old.tokens ++ data_tokens (whole.spell place.now)) }
    ensures before { out.new.before ≡ out.old.before }
{
    out.u64(*place)
}

fn write_places(out: &mut Writer, places: &[u64]) -> Result<(), AllocError>
    ensures ok { OnOk result (out.new.tokens ≡ out.old.tokens ++ data_tokens ((list_of whole).spell places.now)) }
    ensures before { out.new.before ≡ out.old.before }
{
    out.begin_array()?;
    for place in places {
        write_place(out, place)?;
    }
    out.end_array()?;
    Ok(())
}

fn write_match(alloc: Global, out: &mut Writer, found: &RuleMatch) -> Result<(), AllocError>
    ensures ok { OnOk result (out.new.tokens ≡ out.old.tokens ++ data_tokens (match_kind.spell found.now)) }
    ensures before { out.new.before ≡ out.old.before }
{
    out.begin_object()?;
    out.key("matchingSelectors")?;
    write_places(out, found.matching.as_slice())?;
    out.key("rule")?;
    write_rule(alloc, out, &found.rule)?;
    out.end_object()?;
    Ok(())
}

fn write_match_list(
    alloc: Global,
    out: &mut Writer,
    matches: &[RuleMatch],
) -> Result<(), AllocError>
    ensures ok { OnOk result (out.new.tokens ≡ out.old.tokens
        ++ data_tokens ((list_of match_kind).spell matches.now)) }
    ensures before { out.new.before ≡ out.old.before }
{
    out.begin_array()?;
    for found in matches {
        write_match(alloc, out, found)?;
    }
    out.end_array()?;
    Ok(())
}

// ---- what an element has, of its own and by its ancestors

fn write_inline_field(alloc: Global, out: &mut Writer, style: &Style) -> Result<(), AllocError>
    ensures ok { OnOk result (out.new.tokens ≡ out.old.tokens
        ++ field_tokens (codes "inlineStyle") (Some (inline_kind.spell style.now))) }
    ensures before { out.new.before ≡ out.old.before }
{
    out.key("inlineStyle")?;
    write_style(alloc, out, style)
}

fn write_inline_if_any(
    alloc: Global,
    out: &mut Writer,
    style: &Option<Style>,
) -> Result<(), AllocError>
    ensures ok { OnOk result (out.new.tokens ≡ out.old.tokens
        ++ field_tokens (codes "inlineStyle") (option_map inline_kind.spell style.now)) }
    ensures before { out.new.before ≡ out.old.before }
{
    match style {
        Some(style) => write_inline_field(alloc, out, style),
        None => Ok(()),
    }
}

fn write_inherited(alloc: Global, out: &mut Writer, entry: &Inherited) -> Result<(), AllocError>
    ensures ok { OnOk result (out.new.tokens ≡ out.old.tokens ++ data_tokens (inherited_kind.spell entry.now)) }
    ensures before { out.new.before ≡ out.old.before }
{
    out.begin_object()?;
    write_inline_if_any(alloc, out, &entry.inline)?;
    out.key("matchedCSSRules")?;
    write_match_list(alloc, out, entry.rules.as_slice())?;
    out.end_object()?;
    Ok(())
}

fn write_inherited_list(
    alloc: Global,
    out: &mut Writer,
    entries: &[Inherited],
) -> Result<(), AllocError>
    ensures ok { OnOk result (out.new.tokens ≡ out.old.tokens
        ++ data_tokens ((list_of inherited_kind).spell entries.now)) }
    ensures before { out.new.before ≡ out.old.before }
{
    out.begin_array()?;
    for entry in entries {
        write_inherited(alloc, out, entry)?;
    }
    out.end_array()?;
    Ok(())
}

/// The matched styles, token by token. After an `Err` what was written is not whole.
pub fn write_matched(alloc: Global, out: &mut Writer, matched: &Matched) -> Result<(), AllocError>
    ensures ok { OnOk result (out.new.tokens ≡ out.old.tokens ++ data_tokens (matched_kind.spell matched.now)) }
    ensures before { out.new.before ≡ out.old.before }
{
    out.begin_object()?;
    out.key("inherited")?;
    write_inherited_list(alloc, out, matched.inherited.as_slice())?;
    write_inline_if_any(alloc, out, &matched.inline)?;
    out.key("matchedCSSRules")?;
    write_match_list(alloc, out, matched.rules.as_slice())?;
    out.end_object()?;
    Ok(())
}
