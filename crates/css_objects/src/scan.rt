// Matched styles out of the tokens that are written for them, in one pass. Any other text is left to `serde_json`.
ghost use Rattle.std.specs.Prelude.{◌≡◌, ◌++◌, ◌∷◌, codes, true, Some, IfOk, option_map};
ghost use Rattle.json.specs.Token.{key};
ghost use Rattle.cdp_json.specs.Kinds.{whole, text, list_of, only_text, only_true, holds_of_some};
ghost use Rattle.cdp_json.specs.Rows.{unit_if};
ghost use Rattle.cdp_json.specs.Tokens.{data_tokens, field_tokens};
ghost use Rattle.css_objects.specs.Ranges.{range_kind};
ghost use Rattle.css_objects.specs.Sheets.{sheet_kind, origin_kind};
ghost use Rattle.css_objects.specs.Media.{media_kind, some_media_kind, written_media};
ghost use Rattle.css_objects.specs.Selectors.{weight_kind, selector_kind, selectors_kind};
ghost use Rattle.css_objects.specs.Styles.{property_kind, empty_list, style_kind, inline_kind, rule_style_kind};
ghost use Rattle.css_objects.specs.Rules.{rule_kind, places_kind, match_kind, inherited_kind, matched_kind};

use crate::listed::Listed;
use crate::media::Media;
use crate::ranges::SourceRange;
use crate::rules::{Inherited, Matched, Rule, RuleMatch, ascend};
use crate::selectors::{RuleSelectors, SelectorValue, Weight};
use crate::sheets::{origin_in, sheet_in};
use crate::styles::{Style, StyleProperty};
use cdp_json::{
    ScanErr, is_counted, take_any_key, take_begin_array, take_begin_object, take_counted_field,
    take_end_object, take_key, take_text, take_text_field, take_whole,
};
use json::{Reader, Token};
use node_tree::{Origin, Text};
use std::alloc::Global;

// ---- texts, numbers, ranges and ids

fn scan_text(alloc: Global, reader: &mut Reader<'_>) -> Result<Text, ScanErr>
    ensures { IfOk result (λ t. reader.old ≡ data_tokens (text.spell t) ++ reader.new) }
{
    let said = take_text(reader)?;
    let copy = Text::copied(alloc, said)?;
    Ok(copy)
}

fn scan_text_field(alloc: Global, reader: &mut Reader<'_>, name: &str) -> Result<Text, ScanErr>
    ensures { IfOk result (λ t. reader.old ≡ field_tokens name.now (Some (text.spell t)) ++ reader.new) }
{
    take_key(reader, name)?;
    scan_text(alloc, reader)
}

fn scan_whole(reader: &mut Reader<'_>) -> Result<u64, ScanErr>
    ensures read { IfOk result (λ n. reader.old ≡ data_tokens (whole.spell n) ++ reader.new) }
    ensures fits { IfOk result (λ n. whole.fits n ≡ true) }
{
    let number = take_whole(reader)?;
    if is_counted(number) {
        Ok(number)
    } else {
        Err(ScanErr::OtherForm)
    }
}

fn scan_range(reader: &mut Reader<'_>) -> Result<SourceRange, ScanErr>
    ensures read { IfOk result (λ r. reader.old ≡ data_tokens (range_kind.spell r) ++ reader.new) }
    ensures fits { IfOk result (λ r. range_kind.fits r ≡ true) }
{
    take_begin_object(reader)?;
    let end_column = take_counted_field(reader, "endColumn")?;
    let end_line = take_counted_field(reader, "endLine")?;
    let start_column = take_counted_field(reader, "startColumn")?;
    let start_line = take_counted_field(reader, "startLine")?;
    take_end_object(reader)?;
    Ok(SourceRange {
        start_line,
        start_column,
        end_line,
        end_column,
    })
}

// A range, where one is meant to be there.
fn range_where(reader: &mut Reader<'_>, there: bool) -> Result<Option<SourceRange>, ScanErr>
    ensures read { IfOk result (λ o. reader.old
        ≡ field_tokens (codes "range") (option_map range_kind.spell o) ++ reader.new) }
    ensures fits { IfOk result (λ o. holds_of_some range_kind.fits o ≡ true) }
{
    if there {
        take_key(reader, "range")?;
        let range = scan_range(reader)?;
        Ok(Some(range))
    } else {
        Ok(None)
    }
}

fn scan_sheet(reader: &mut Reader<'_>) -> Result<u64, ScanErr>
    ensures read { IfOk result (λ n. reader.old ≡ data_tokens (sheet_kind.spell n) ++ reader.new) }
    ensures fits { IfOk result (λ n. sheet_kind.fits n ≡ true) }
{
    let said = take_text(reader)?;
    match sheet_in(said) {
        Some(sheet) => Ok(sheet),
        None => Err(ScanErr::OtherForm),
    }
}

// The id of a sheet, where one is meant to be there.
fn sheet_where(reader: &mut Reader<'_>, there: bool) -> Result<Option<u64>, ScanErr>
    ensures read { IfOk result (λ o. reader.old
        ≡ field_tokens (codes "styleSheetId") (option_map sheet_kind.spell o) ++ reader.new) }
    ensures fits { IfOk result (λ o. holds_of_some sheet_kind.fits o ≡ true) }
{
    if there {
        take_key(reader, "styleSheetId")?;
        let sheet = scan_sheet(reader)?;
        Ok(Some(sheet))
    } else {
        Ok(None)
    }
}

fn scan_origin(reader: &mut Reader<'_>) -> Result<Origin, ScanErr>
    ensures read { IfOk result (λ o. reader.old ≡ data_tokens (origin_kind.spell o) ++ reader.new) }
    ensures fits { IfOk result (λ o. origin_kind.fits o ≡ true) }
{
    let said = take_text(reader)?;
    match origin_in(said) {
        Some(origin) => Ok(origin),
        None => Err(ScanErr::OtherForm),
    }
}

// ---- selectors

fn scan_weight(reader: &mut Reader<'_>) -> Result<Weight, ScanErr>
    ensures read { IfOk result (λ w. reader.old ≡ data_tokens (weight_kind.spell w) ++ reader.new) }
    ensures fits { IfOk result (λ w. weight_kind.fits w ≡ true) }
{
    take_begin_object(reader)?;
    let a = take_counted_field(reader, "a")?;
    let b = take_counted_field(reader, "b")?;
    let c = take_counted_field(reader, "c")?;
    take_end_object(reader)?;
    Ok(Weight { a, b, c })
}

fn scan_selector(alloc: Global, reader: &mut Reader<'_>) -> Result<SelectorValue, ScanErr>
    ensures read { IfOk result (λ s. reader.old ≡ data_tokens (selector_kind.spell s) ++ reader.new) }
    ensures fits { IfOk result (λ s. selector_kind.fits s ≡ true) }
{
    take_begin_object(reader)?;
    take_key(reader, "range")?;
    let range = scan_range(reader)?;
    take_key(reader, "specificity")?;
    let weight = scan_weight(reader)?;
    let text = scan_text_field(alloc, reader, "text")?;
    take_end_object(reader)?;
    Ok(SelectorValue {
        range,
        weight,
        text,
    })
}

fn scan_selector_list(
    alloc: Global,
    reader: &mut Reader<'_>,
) -> Result<Listed<SelectorValue>, ScanErr>
    ensures read { IfOk result (λ l. reader.old ≡ data_tokens ((list_of selector_kind).spell l) ++ reader.new) }
    ensures fits { IfOk result (λ l. (list_of selector_kind).fits l ≡ true) }
{
    take_begin_array(reader)?;
    let mut list = Vec::new(alloc);
    'items: while !reader.take_end_array() {
        let item = scan_selector(alloc, reader)?;
        list.push(item)?;
    }
    let listed = Listed::new(list);
    Ok(listed)
}

fn scan_selectors(alloc: Global, reader: &mut Reader<'_>) -> Result<RuleSelectors, ScanErr>
    ensures read { IfOk result (λ s. reader.old ≡ data_tokens (selectors_kind.spell s) ++ reader.new) }
    ensures fits { IfOk result (λ s. selectors_kind.fits s ≡ true) }
{
    take_begin_object(reader)?;
    take_key(reader, "selectors")?;
    let selectors = scan_selector_list(alloc, reader)?;
    let text = scan_text_field(alloc, reader, "text")?;
    take_end_object(reader)?;
    Ok(RuleSelectors { selectors, text })
}

// ---- styles

// That the value is `true`.
fn take_true(reader: &mut Reader<'_>) -> Result<(), ScanErr>
    ensures { IfOk result (λ _. reader.old ≡ data_tokens (only_true.spell tt) ++ reader.new) }
{
    match reader.next() {
        Some(Token::Bool(true)) => Ok(()),
        _ => Err(ScanErr::OtherForm),
    }
}

// Whether it is important, and the key of the name.
fn important_ahead(reader: &mut Reader<'_>) -> Result<bool, ScanErr>
    ensures { IfOk result (λ b. reader.old ≡ field_tokens (codes "important")
        (option_map only_true.spell (unit_if b)) ++ (key (codes "name") ∷ reader.new)) }
{
    let name = take_any_key(reader)?;
    if name == "important" {
        take_true(reader)?;
        take_key(reader, "name")?;
        Ok(true)
    } else if name == "name" {
        Ok(false)
    } else {
        Err(ScanErr::OtherForm)
    }
}

// A property, of a sheet or of an attribute.
fn scan_property(
    alloc: Global,
    reader: &mut Reader<'_>,
    in_sheet: bool,
) -> Result<StyleProperty, ScanErr>
    ensures read { IfOk result (λ p. reader.old ≡ data_tokens (property_kind.spell p) ++ reader.new) }
    ensures fits { IfOk result (λ p. property_kind.fits p ≡ true) }
{
    take_begin_object(reader)?;
    let important = important_ahead(reader)?;
    let name = scan_text(alloc, reader)?;
    let range = range_where(reader, in_sheet)?;
    let text = scan_text_field(alloc, reader, "text")?;
    let value = scan_text_field(alloc, reader, "value")?;
    take_end_object(reader)?;
    Ok(StyleProperty {
        name,
        value,
        important,
        text,
        range,
    })
}

fn scan_property_list(
    alloc: Global,
    reader: &mut Reader<'_>,
    in_sheet: bool,
) -> Result<Listed<StyleProperty>, ScanErr>
    ensures read { IfOk result (λ l. reader.old ≡ data_tokens ((list_of property_kind).spell l) ++ reader.new) }
    ensures fits { IfOk result (λ l. (list_of property_kind).fits l ≡ true) }
{
    take_begin_array(reader)?;
    let mut list = Vec::new(alloc);
    'items: while !reader.take_end_array() {
        let item = scan_property(alloc, reader, in_sheet)?;
        list.push(item)?;
    }
    let listed = Listed::new(list);
    Ok(listed)
}

fn take_shorthands(reader: &mut Reader<'_>) -> Result<(), ScanErr>
    ensures { IfOk result (λ _. reader.old ≡ field_tokens (codes "shorthandEntries")
        (Some (empty_list.spell tt)) ++ reader.new) }
{
    take_key(reader, "shorthandEntries")?;
    take_begin_array(reader)?;
    if reader.take_end_array() {
        Ok(())
    } else {
        Err(ScanErr::OtherForm)
    }
}

// A style, of a sheet or of an attribute.
fn scan_style(alloc: Global, reader: &mut Reader<'_>, in_sheet: bool) -> Result<Style, ScanErr>
    ensures read { IfOk result (λ s. reader.old ≡ data_tokens (style_kind.spell s) ++ reader.new) }
    ensures fits { IfOk result (λ s. style_kind.fits s ≡ true) }
{
    take_begin_object(reader)?;
    take_key(reader, "cssProperties")?;
    let properties = scan_property_list(alloc, reader, in_sheet)?;
    let text = scan_text_field(alloc, reader, "cssText")?;
    let range = range_where(reader, in_sheet)?;
    take_shorthands(reader)?;
    let sheet = sheet_where(reader, in_sheet)?;
    take_end_object(reader)?;
    Ok(Style {
        properties,
        text,
        range,
        sheet,
    })
}

fn scan_rule_style(alloc: Global, reader: &mut Reader<'_>) -> Result<Style, ScanErr>
    ensures read { IfOk result (λ s. reader.old ≡ data_tokens (rule_style_kind.spell s) ++ reader.new) }
    ensures fits { IfOk result (λ s. rule_style_kind.fits s ≡ true) }
{
    let style = scan_style(alloc, reader, true)?;
    if style.is_in_sheet() {
        Ok(style)
    } else {
        Err(ScanErr::OtherForm)
    }
}

fn scan_inline_style(alloc: Global, reader: &mut Reader<'_>) -> Result<Style, ScanErr>
    ensures read { IfOk result (λ s. reader.old ≡ data_tokens (inline_kind.spell s) ++ reader.new) }
    ensures fits { IfOk result (λ s. inline_kind.fits s ≡ true) }
{
    let style = scan_style(alloc, reader, false)?;
    if style.is_inline() {
        Ok(style)
    } else {
        Err(ScanErr::OtherForm)
    }
}

// ---- media rules

fn take_source(reader: &mut Reader<'_>) -> Result<(), ScanErr>
    ensures { IfOk result (λ _. reader.old ≡ field_tokens (codes "source")
        (Some ((only_text (codes "mediaRule")).spell tt)) ++ reader.new) }
{
    let source = take_text_field(reader, "source")?;
    if source == "mediaRule" {
        Ok(())
    } else {
        Err(ScanErr::OtherForm)
    }
}

fn scan_media(alloc: Global, reader: &mut Reader<'_>) -> Result<Media, ScanErr>
    ensures read { IfOk result (λ m. reader.old ≡ data_tokens (media_kind.spell m) ++ reader.new) }
    ensures fits { IfOk result (λ m. media_kind.fits m ≡ true) }
{
    take_begin_object(reader)?;
    take_key(reader, "range")?;
    let range = scan_range(reader)?;
    take_source(reader)?;
    take_key(reader, "styleSheetId")?;
    let sheet = scan_sheet(reader)?;
    let text = scan_text_field(alloc, reader, "text")?;
    take_end_object(reader)?;
    Ok(Media { range, sheet, text })
}

fn scan_media_list(alloc: Global, reader: &mut Reader<'_>) -> Result<Listed<Media>, ScanErr>
    ensures read { IfOk result (λ l. reader.old ≡ data_tokens ((list_of media_kind).spell l) ++ reader.new) }
    ensures fits { IfOk result (λ l. (list_of media_kind).fits l ≡ true) }
{
    take_begin_array(reader)?;
    let mut list = Vec::new(alloc);
    'items: while !reader.take_end_array() {
        let item = scan_media(alloc, reader)?;
        list.push(item)?;
    }
    let listed = Listed::new(list);
    Ok(listed)
}

// Media rules, of which there is one at least.
fn scan_some_media(alloc: Global, reader: &mut Reader<'_>) -> Result<Listed<Media>, ScanErr>
    ensures read { IfOk result (λ l. reader.old
        ≡ data_tokens (some_media_kind.spell l) ++ reader.new) }
    ensures fits { IfOk result (λ l. some_media_kind.fits l ≡ true) }
{
    let media = scan_media_list(alloc, reader)?;
    if media.len() == 0 {
        Err(ScanErr::OtherForm)
    } else {
        Ok(media)
    }
}

// The media rules, if any, and the key of the origin.
fn media_ahead(alloc: Global, reader: &mut Reader<'_>) -> Result<Listed<Media>, ScanErr>
    ensures read { IfOk result (λ l. reader.old ≡ field_tokens (codes "media")
        (option_map some_media_kind.spell (written_media l)) ++ (key (codes "origin") ∷ reader.new)) }
    ensures fits { IfOk result (λ l. holds_of_some some_media_kind.fits (written_media l) ≡ true) }
{
    let name = take_any_key(reader)?;
    if name == "media" {
        let media = scan_some_media(alloc, reader)?;
        take_key(reader, "origin")?;
        Ok(media)
    } else if name == "origin" {
        Ok(Listed::new(Vec::new(alloc)))
    } else {
        Err(ScanErr::OtherForm)
    }
}

// ---- rules

fn scan_rule(alloc: Global, reader: &mut Reader<'_>) -> Result<Rule, ScanErr>
    ensures read { IfOk result (λ r. reader.old ≡ data_tokens (rule_kind.spell r) ++ reader.new) }
    ensures fits { IfOk result (λ r. rule_kind.fits r ≡ true) }
{
    take_begin_object(reader)?;
    let media = media_ahead(alloc, reader)?;
    let origin = scan_origin(reader)?;
    take_key(reader, "selectorList")?;
    let selectors = scan_selectors(alloc, reader)?;
    take_key(reader, "style")?;
    let style = scan_rule_style(alloc, reader)?;
    take_key(reader, "styleSheetId")?;
    let sheet = scan_sheet(reader)?;
    take_end_object(reader)?;
    Ok(Rule {
        origin,
        selectors,
        style,
        sheet,
        media,
    })
}

fn scan_wholes(alloc: Global, reader: &mut Reader<'_>) -> Result<Listed<u64>, ScanErr>
    ensures read { IfOk result (λ l. reader.old ≡ data_tokens ((list_of whole).spell l) ++ reader.new) }
    ensures fits { IfOk result (λ l. (list_of whole).fits l ≡ true) }
{
    take_begin_array(reader)?;
    let mut list = Vec::new(alloc);
    'items: while !reader.take_end_array() {
        let item = scan_whole(reader)?;
        list.push(item)?;
    }
    let listed = Listed::new(list);
    Ok(listed)
}

fn scan_places(alloc: Global, reader: &mut Reader<'_>) -> Result<Listed<u64>, ScanErr>
    ensures read { IfOk result (λ l. reader.old ≡ data_tokens (places_kind.spell l) ++ reader.new) }
    ensures fits { IfOk result (λ l. places_kind.fits l ≡ true) }
{
    let places = scan_wholes(alloc, reader)?;
    if ascend(places.as_slice()) {
        Ok(places)
    } else {
        Err(ScanErr::OtherForm)
    }
}

fn scan_match(alloc: Global, reader: &mut Reader<'_>) -> Result<RuleMatch, ScanErr>
    ensures read { IfOk result (λ m. reader.old ≡ data_tokens (match_kind.spell m) ++ reader.new) }
    ensures fits { IfOk result (λ m. match_kind.fits m ≡ true) }
{
    take_begin_object(reader)?;
    take_key(reader, "matchingSelectors")?;
    let matching = scan_places(alloc, reader)?;
    take_key(reader, "rule")?;
    let rule = scan_rule(alloc, reader)?;
    take_end_object(reader)?;
    Ok(RuleMatch { matching, rule })
}

fn scan_match_list(alloc: Global, reader: &mut Reader<'_>) -> Result<Listed<RuleMatch>, ScanErr>
    ensures read { IfOk result (λ l. reader.old ≡ data_tokens ((list_of match_kind).spell l) ++ reader.new) }
    ensures fits { IfOk result (λ l. (list_of match_kind).fits l ≡ true) }
{
    take_begin_array(reader)?;
    let mut list = Vec::new(alloc);
    'items: while !reader.take_end_array() {
        let item = scan_match(alloc, reader)?;
        list.push(item)?;
    }
    let listed = Listed::new(list);
    Ok(listed)
}

// ---- what an element has, of its own and by its ancestors

// The style of the attribute, if any, and the key of the rules.
fn inline_ahead(alloc: Global, reader: &mut Reader<'_>) -> Result<Option<Style>, ScanErr>
    ensures read { IfOk result (λ o. reader.old ≡ field_tokens (codes "inlineStyle")
        (option_map inline_kind.spell o) ++ (key (codes "matchedCSSRules") ∷ reader.new)) }
    ensures fits { IfOk result (λ o. holds_of_some inline_kind.fits o ≡ true) }
{
    let name = take_any_key(reader)?;
    if name == "inlineStyle" {
        let style = scan_inline_style(alloc, reader)?;
        take_key(reader, "matchedCSSRules")?;
        Ok(Some(style))
    } else if name == "matchedCSSRules" {
        Ok(None)
    } else {
        Err(ScanErr::OtherForm)
    }
}

fn scan_inherited(alloc: Global, reader: &mut Reader<'_>) -> Result<Inherited, ScanErr>
    ensures read { IfOk result (λ i. reader.old ≡ data_tokens (inherited_kind.spell i) ++ reader.new) }
    ensures fits { IfOk result (λ i. inherited_kind.fits i ≡ true) }
{
    take_begin_object(reader)?;
    let inline = inline_ahead(alloc, reader)?;
    let rules = scan_match_list(alloc, reader)?;
    take_end_object(reader)?;
    Ok(Inherited { inline, rules })
}

fn scan_inherited_list(alloc: Global, reader: &mut Reader<'_>) -> Result<Listed<Inherited>, ScanErr>
    ensures read { IfOk result (λ l. reader.old ≡ data_tokens ((list_of inherited_kind).spell l) ++ reader.new) }
    ensures fits { IfOk result (λ l. (list_of inherited_kind).fits l ≡ true) }
{
    take_begin_array(reader)?;
    let mut list = Vec::new(alloc);
    'items: while !reader.take_end_array() {
        let item = scan_inherited(alloc, reader)?;
        list.push(item)?;
    }
    let listed = Listed::new(list);
    Ok(listed)
}

/// The matched styles, where the tokens are those that `write_matched` writes for them. Other tokens, which may be matched styles
/// all the same, are answered by an error.
pub fn scan_matched(alloc: Global, reader: &mut Reader<'_>) -> Result<Matched, ScanErr>
    ensures read { IfOk result (λ m. reader.old ≡ data_tokens (matched_kind.spell m) ++ reader.new) }
    ensures fits { IfOk result (λ m. matched_kind.fits m ≡ true) }
{
    take_begin_object(reader)?;
    take_key(reader, "inherited")?;
    let inherited = scan_inherited_list(alloc, reader)?;
    let inline = inline_ahead(alloc, reader)?;
    let rules = scan_match_list(alloc, reader)?;
    take_end_object(reader)?;
    Ok(Matched {
        inline,
        rules,
        inherited,
    })
}
