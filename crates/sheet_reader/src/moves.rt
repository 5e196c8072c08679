//! Readings where the body of a rule becomes another text: no text is read, and no memory is taken.

ghost use Rattle.std.specs.Prelude.{◌≡◌, ◌<◌, ◌+◌, All, length, map, take, drop, slice_get, IfSome};
ghost use Rattle.node_tree.specs.Numbers.{number_limit};
ghost use Rattle.selectors.specs.Moves.{cut, moved_place, placed_range, CanPlace};
ghost use Rattle.sheet_reader.specs.Forms.{rule_seen};
ghost use Rattle.sheet_reader.specs.Moves.{placed_property, placed_media, placed_rule, rebodied, moved_rules, moved_sheet};
ghost use Rattle.sheet_reader.specs.Moves.{CanPlaceProperty, CanPlaceMedia, CanPlaceRule, CanPlaceHead, IsPropertyWithin, CanMoveBody};

use crate::lists::{Places, Properties, StyleRules};
use crate::sheet::{MediaRule, Property, Sheet, StyleRule};
use css_tokens::Range;
use selectors::{move_place, move_range};

/// The bytes from `start` up to `end` of a text make way for `size` others.
#[derive(Clone, Copy)]
pub(crate) struct Gap {
    pub start: usize,
    pub end: usize,
    pub size: usize,
}

/// Moves the ranges of declarations.
pub(crate) fn move_properties(properties: &mut [Property], gap: Gap)
    requires { All (CanPlaceProperty (cut gap.start gap.end gap.size)) properties.old }
    ensures { properties.new ≡ map (placed_property (moved_place (cut gap.start gap.end gap.size))) properties.old }
{
    for property in properties.iter_mut() {
        property.value = move_range(property.value, gap.start, gap.end, gap.size);
        property.whole = move_range(property.whole, gap.start, gap.end, gap.size);
    }
}

/// Puts the ranges of declarations `start` bytes further back.
pub(crate) fn raise_properties(properties: &mut [Property], start: usize, size: usize)
    requires within { All (IsPropertyWithin size) properties.old }
    requires fits { start + size < number_limit }
    ensures { properties.new ≡ map (placed_property (λ place. start + place)) properties.old }
{
    for property in properties.iter_mut() {
        property.value = raised(property.value, start);
        property.whole = raised(property.whole, start);
    }
}

pub(crate) fn raised(range: Range, start: usize) -> Range
    requires front { start + range.start < number_limit }
    requires back { start + range.end < number_limit }
    ensures { result ≡ placed_range (λ place. start + place) range }
{
    Range {
        start: start + range.start,
        end: start + range.end,
    }
}

pub(crate) fn move_places(places: &mut [usize], gap: Gap)
    requires { All (CanPlace (cut gap.start gap.end gap.size)) places.old }
    ensures { places.new ≡ map (moved_place (cut gap.start gap.end gap.size)) places.old }
{
    for place in places.iter_mut() {
        *place = move_place(*place, gap.start, gap.end, gap.size);
    }
}

/// Moves the preludes of media rules.
pub(crate) fn move_media(rules: &mut [MediaRule], gap: Gap)
    requires { All (CanPlaceMedia (cut gap.start gap.end gap.size)) rules.old }
    ensures { rules.new ≡ map (placed_media (moved_place (cut gap.start gap.end gap.size))) rules.old }
{
    for rule in rules.iter_mut() {
        rule.prelude = move_range(rule.prelude, gap.start, gap.end, gap.size);
    }
}

/// Moves all ranges of a rule.
pub(crate) fn move_rule(rule: &mut StyleRule, gap: Gap)
    requires { CanPlaceRule (cut gap.start gap.end gap.size) (rule_seen rule.old) }
    ensures { rule_seen rule.new ≡ placed_rule (moved_place (cut gap.start gap.end gap.size)) (rule_seen rule.old) }
{
    rule.prelude = move_range(rule.prelude, gap.start, gap.end, gap.size);
    rule.selectors.move_behind(gap.start, gap.end, gap.size);
    rule.body = move_range(rule.body, gap.start, gap.end, gap.size);
    rule.properties.move_behind(gap);
}

pub(crate) fn rebody(rule: &mut StyleRule, gap: Gap, properties: Properties)
    requires head { CanPlaceHead (cut gap.start gap.end gap.size) (rule_seen rule.old) }
    requires within { All (IsPropertyWithin gap.size) properties }
    requires fits { gap.start + gap.size < number_limit }
    ensures { rule_seen rule.new ≡ rebodied (cut gap.start gap.end gap.size) properties (rule_seen rule.old) }
{
    rule.prelude = move_range(rule.prelude, gap.start, gap.end, gap.size);
    rule.selectors.move_behind(gap.start, gap.end, gap.size);
    rule.body = Range {
        start: gap.start,
        end: gap.start + gap.size,
    };
    rule.properties = properties.raised(gap.start, gap.size);
}

pub(crate) fn move_rules(rules: &mut [StyleRule], gap: Gap)
    requires { All (CanPlaceRule (cut gap.start gap.end gap.size)) (map rule_seen rules.old) }
    ensures { map rule_seen rules.new ≡ map (placed_rule (moved_place (cut gap.start gap.end gap.size))) (map rule_seen rules.old) }
{
    for rule in rules.iter_mut() {
        move_rule(rule, gap);
    }
}

/// All rules with their places moved, and this one with its new body.
fn move_around(rules: &mut [StyleRule], own: usize, gap: Gap, properties: Properties)
    requires there { own < length rules.old }
    requires before { All (CanPlaceRule (cut gap.start gap.end gap.size)) (take own (map rule_seen rules.old)) }
    requires head { IfSome (slice_get (map rule_seen rules.old) own) (CanPlaceHead (cut gap.start gap.end gap.size)) }
    requires behind { All (CanPlaceRule (cut gap.start gap.end gap.size)) (drop (own + 1) (map rule_seen rules.old)) }
    requires within { All (IsPropertyWithin gap.size) properties }
    requires fits { gap.start + gap.size < number_limit }
    ensures { map rule_seen rules.new ≡ moved_rules (cut gap.start gap.end gap.size) properties own (map rule_seen rules.old) }
{
    move_rules(&mut rules[..own], gap);
    rebody(&mut rules[own], gap, properties);
    move_rules(&mut rules[own + 1..], gap);
}

/// The reading of a sheet where the body of this rule is replaced by `size` bytes, which have these declarations. Their ranges
/// are places in the new body.
pub fn move_body(old: Sheet, rule: usize, properties: Vec<Property>, size: usize) -> Sheet
    requires whole { IfSome (slice_get old.rules rule) (CanMoveBody old rule properties.items size) }
    requires there { rule < length old.rules }
    ensures moved { result ≡ moved_sheet old rule properties.items size }
{
    let Sheet {
        mut rules,
        places,
        mut media,
    } = old;
    let digests = rules.take_digests();
    let mut rules = rules.into_vec();
    let mut places = places.into_vec();
    let body = rules[rule].body;
    let gap = Gap {
        start: body.start,
        end: body.end,
        size,
    };
    move_around(&mut rules, rule, gap, Properties::new(properties));
    move_places(&mut places, gap);
    media.move_behind(gap);
    Sheet {
        rules: StyleRules::with_digests(rules, digests),
        places: Places::new(places),
        media,
    }
}
