//! Rules and media rules behind a part of a sheet that was read anew: their places are moved, and so are the numbers of the media rules
//! around them.

ghost use Rattle.std.specs.Prelude.{◌≡◌, ◌<◌, ◌+◌, ◌≤◌, All, length, map, option_map, IfOk, IfSome};
ghost use Rattle.node_tree.specs.Numbers.{number_limit};
ghost use Rattle.selectors.specs.Moves.{cut, moved_place};
ghost use Rattle.sheet_reader.specs.Around.{IsBelow};
ghost use Rattle.sheet_reader.specs.Forms.{rule_seen};
ghost use Rattle.sheet_reader.specs.Joins.{behind_rule, behind_media};
ghost use Rattle.sheet_reader.specs.Moves.{IsWithin};
ghost use Rattle.sheet_reader.specs.Repairs.{moved_number, renumbered_rule, renumbered_media, CanNumber, CanRenumberRule, CanRenumberMedia};
ghost use Rattle.sheet_reader.specs.Repairs.{IsRuleWithin};

use crate::moves::{Gap, move_rule, raised};
use crate::repairs::Share;
use crate::sheet::{MediaRule, StyleRule};
use selectors::move_range;
use std::alloc::{AllocError, Global};

/// How what stands behind a part is moved: in the text, and among the media rules.
#[derive(Clone, Copy)]
pub(crate) struct Shift {
    pub gap: Gap,
    /// The part's share of the media rules, and how many it has now.
    pub share: Share,
    pub count: usize,
}

/// Where the numbers of the media rules of a text begin, and how many it has.
#[derive(Clone, Copy)]
pub(crate) struct Numbers {
    pub before: usize,
    pub count: usize,
}

/// The number of a media rule behind a part, if there is one.
fn moved_number(number: Option<usize>, share: Share, count: usize) -> Option<usize>
    requires { IfSome number (CanNumber share count) }
    ensures { result ≡ option_map (moved_number share count) number }
{
    match number {
        Some(number) => Some(number - share.to + (share.before + count)),
        None => None,
    }
}

/// The number of a media rule of a text that stands behind others, if there is one.
fn raised_number(number: Option<usize>, numbers: Numbers) -> Option<usize>
    requires below { IsBelow numbers.count number }
    requires fits { numbers.before + numbers.count < number_limit }
    ensures { result ≡ option_map (λ m. numbers.before + m) number }
{
    match number {
        Some(number) => Some(numbers.before + number),
        None => None,
    }
}

/// Moves a style rule that stands behind a part.
fn renumber_rule(rule: &mut StyleRule, shift: Shift)
    requires { CanRenumberRule (cut shift.gap.start shift.gap.end shift.gap.size) shift.share shift.count (rule_seen rule.old) }
    ensures { rule_seen rule.new
        ≡ renumbered_rule (moved_place (cut shift.gap.start shift.gap.end shift.gap.size)) (moved_number shift.share shift.count)
        (rule_seen rule.old) }
{
    move_rule(rule, shift.gap);
    rule.media = moved_number(rule.media, shift.share, shift.count);
}

/// Moves style rules that stand behind a part.
pub(crate) fn renumber_rules(rules: &mut [StyleRule], shift: Shift)
    requires { All (CanRenumberRule (cut shift.gap.start shift.gap.end shift.gap.size) shift.share shift.count) (map rule_seen rules.old) }
    ensures { map rule_seen rules.new
        ≡ map (renumbered_rule (moved_place (cut shift.gap.start shift.gap.end shift.gap.size)) (moved_number shift.share shift.count))
        (map rule_seen rules.old) }
{
    for rule in rules.iter_mut() {
        renumber_rule(rule, shift);
    }
}

/// A media rule that stands behind a part, moved.
fn renumbered_media(rule: MediaRule, shift: Shift) -> MediaRule
    requires { CanRenumberMedia (cut shift.gap.start shift.gap.end shift.gap.size) shift.share shift.count rule }
    ensures { result
        ≡ renumbered_media (moved_place (cut shift.gap.start shift.gap.end shift.gap.size)) (moved_number shift.share shift.count)
        rule }
{
    MediaRule {
        prelude: move_range(rule.prelude, shift.gap.start, shift.gap.end, shift.gap.size),
        inside: moved_number(rule.inside, shift.share, shift.count),
    }
}

/// Moves media rules that stand behind a part.
pub(crate) fn renumber_media(rules: &mut [MediaRule], shift: Shift)
    requires { All (CanRenumberMedia (cut shift.gap.start shift.gap.end shift.gap.size) shift.share shift.count) rules.old }
    ensures { rules.new
        ≡ map (renumbered_media (moved_place (cut shift.gap.start shift.gap.end shift.gap.size)) (moved_number shift.share shift.count))
        rules.old }
{
    for rule in rules.iter_mut() {
        *rule = renumbered_media(*rule, shift);
    }
}

/// A style rule of a text of this size, `start` bytes further back and behind other media rules.
fn raised_rule(rule: StyleRule, start: usize, size: usize, numbers: Numbers) -> StyleRule
    requires within { IsRuleWithin size (rule_seen rule) }
    requires fits { start + size < number_limit }
    requires below { IsBelow numbers.count rule.media }
    requires few { numbers.before + numbers.count < number_limit }
    ensures { rule_seen result ≡ behind_rule start numbers.before (rule_seen rule) }
{
    let StyleRule {
        prelude,
        selectors,
        body,
        properties,
        media,
    } = rule;
    StyleRule {
        prelude: raised(prelude, start),
        selectors: selectors.shift(0, start),
        body: raised(body, start),
        properties: properties.raised(start, size),
        media: raised_number(media, numbers),
    }
}

/// The style rules of a text of this size, `start` bytes further back and behind other media rules.
pub(crate) fn raised_rules(
    alloc: Global,
    rules: Vec<StyleRule>,
    start: usize,
    size: usize,
    numbers: Numbers,
) -> Result<Vec<StyleRule>, AllocError>
    requires within { All (IsRuleWithin size) (map rule_seen rules.items) }
    requires fits { start + size < number_limit }
    requires below { All (λ r. IsBelow numbers.count r.media) (map rule_seen rules.items) }
    requires few { numbers.before + numbers.count < number_limit }
    ensures { IfOk result (λ made. map rule_seen made.items ≡ map (behind_rule start numbers.before) (map rule_seen rules.items)) }
{
    let mut made = Vec::new(alloc);
    for rule in rules {
        made.push(raised_rule(rule, start, size, numbers))?;
    }
    Ok(made)
}

/// A media rule of a text of this size, `start` bytes further back and behind other media rules.
fn raised_media_rule(rule: MediaRule, start: usize, size: usize, numbers: Numbers) -> MediaRule
    requires within { IsWithin size rule.prelude }
    requires fits { start + size < number_limit }
    requires below { IsBelow numbers.count rule.inside }
    requires few { numbers.before + numbers.count < number_limit }
    ensures { result ≡ behind_media start numbers.before rule }
{
    MediaRule {
        prelude: raised(rule.prelude, start),
        inside: raised_number(rule.inside, numbers),
    }
}

/// The media rules of a text of this size, `start` bytes further back and behind other media rules.
pub(crate) fn raised_media(
    alloc: Global,
    rules: &[MediaRule],
    start: usize,
    size: usize,
    numbers: Numbers,
) -> Result<Vec<MediaRule>, AllocError>
    requires within { All (λ m. IsWithin size m.prelude) rules.now }
    requires fits { start + size < number_limit }
    requires below { All (λ m. IsBelow numbers.count m.inside) rules.now }
    requires few { numbers.before + numbers.count < number_limit }
    ensures { IfOk result (λ made. made.items ≡ map (behind_media start numbers.before) rules.now) }
{
    let mut made = Vec::new(alloc);
    for rule in rules {
        made.push(raised_media_rule(*rule, start, size, numbers))?;
    }
    Ok(made)
}
