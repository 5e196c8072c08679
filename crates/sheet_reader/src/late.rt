//! Style rules of which the last ones are moved later: edits of bodies in the order of the text move each rule once.

ghost use Rattle.std.specs.Prelude.{◌≡◌, ◌⊎◌, ◌<◌, ◌≤◌, ◌+◌, All, length, map, take, IfSome, IfNone, IsSomeAnd, slice_get};
ghost use Rattle.selectors.specs.Moves.{moved_place, placed_range, CanPlaceRange};
ghost use Rattle.sheet_reader.specs.Forms.{rule_seen};
ghost use Rattle.sheet_reader.specs.Late.{cut_at, late_rules, AreLate, CanRebody, HasOther};
ghost use Rattle.sheet_reader.specs.Moves.{moved_rules, IsPropertyWithin};
ghost use Rattle.sheet_reader.specs.Rereads.{HasBody};
ghost use Rattle.std.specs.Prelude.{true, false};

use crate::lists::{Properties, StyleRules};
use crate::moves::{Gap, move_rules, rebody};
use crate::sheet::StyleRule;
use css_tokens::Range;
use selectors::move_range;
use std::marker::Model;

/// The style rules of a sheet, which contracts see as they are when all are moved.
#[derive(Drop)]
pub(crate) struct LateRules {
    rules: Vec<StyleRule>,
    /// The numbers of what the first of them are filed under.
    digests: Vec<Option<u32>>,
    /// So many stand where they say; the others are to be moved by the gap.
    moved: usize,
    late: Gap,
}

impl Model for LateRules {
    ghost use Rattle.std.specs.Prelude.{ℕ, List, ◌≤◌, length, map};
    ghost use Rattle.sheet_reader.specs.Filings.{AreDigests};
    ghost use Rattle.sheet_reader.specs.Forms.{RuleForm, rule_seen};
    ghost use Rattle.sheet_reader.specs.Late.{cut_at, late_rules, AreLate};

    ghost Value = { List RuleForm };

    ghost view = { λ l. late_rules (cut_at l.late) l.moved (map rule_seen l.rules.items) };

    ghost invariant = { λ l. (l.moved ≤ length l.rules.items)
        × AreLate (cut_at l.late) l.moved (map rule_seen l.rules.items)
        × AreDigests l.digests.items (late_rules (cut_at l.late) l.moved (map rule_seen l.rules.items)) };
}

/// Moves the rules from number `moved` up to `to`.
fn settle(rules: &mut [StyleRule], moved: usize, to: usize, late: Gap)
    requires order { moved ≤ to }
    requires inside { to ≤ length rules.old }
    requires late { AreLate (cut_at late) moved (map rule_seen rules.old) }
    ensures same { late_rules (cut_at late) to (map rule_seen rules.new)
        ≡ late_rules (cut_at late) moved (map rule_seen rules.old) }
    ensures late { AreLate (cut_at late) to (map rule_seen rules.new) }
{
    move_rules(&mut rules[moved..to], late);
}

/// How many rules have to be moved before this one gets another body: up to itself, and all where it stands among those that are moved.
fn reach(own: usize, moved: usize, len: usize) -> usize
    requires there { own < len }
    requires inside { moved ≤ len }
    ensures { ((own < moved) × (result ≡ len)) ⊎ ((moved ≤ own) × (result ≡ own + 1)) }
{
    if own < moved { len } else { own + 1 }
}

/// Gives a rule another body, and answers how those behind it are moved.
fn rebody_late(
    rules: &mut [StyleRule],
    moved: usize,
    late: Gap,
    own: usize,
    gap: Gap,
    properties: Properties,
) -> Gap
    requires there { own < length rules.old }
    requires inside { moved ≤ length rules.old }
    requires late { AreLate (cut_at late) moved (map rule_seen rules.old) }
    requires can { CanRebody (cut_at gap) own (late_rules (cut_at late) moved (map rule_seen rules.old)) }
    requires within { All (IsPropertyWithin gap.size) properties }
    ensures rules { late_rules (cut_at result) (own + 1) (map rule_seen rules.new)
        ≡ moved_rules (cut_at gap) properties own (late_rules (cut_at late) moved (map rule_seen rules.old)) }
    ensures late { AreLate (cut_at result) (own + 1) (map rule_seen rules.new) }
{
    let from = rules[own].body.end;
    let to = reach(own, moved, rules.len());
    settle(rules, moved, to, late);
    rebody(&mut rules[own], gap, properties);
    Gap {
        start: 0,
        end: from,
        size: gap.start + gap.size,
    }
}

fn is_same(a: Range, b: Range) -> bool
    ensures yes { result ≡ true → a ≡ b }
    ensures no { result ≡ false → a ≡ b → ⊥ }
{
    a.start == b.start && a.end == b.end
}

/// The body of the rule with number `i`, when all are moved.
fn late_body(rule: &StyleRule, i: usize, moved: usize, late: Gap) -> Range
    requires { moved ≤ i → CanPlaceRange (cut_at late) (rule_seen rule.now).body }
    ensures front { i < moved → result ≡ (rule_seen rule.now).body }
    ensures rest { moved ≤ i → result ≡ placed_range (moved_place (cut_at late)) (rule_seen rule.now).body }
{
    if i < moved {
        return rule.body;
    }
    move_range(rule.body, late.start, late.end, late.size)
}

/// The number of the first rule that has its body there, when all are moved.
fn number_among(rules: &[StyleRule], moved: usize, late: Gap, body: Range) -> Option<usize>
    requires inside { moved ≤ length rules.now }
    requires late { AreLate (cut_at late) moved (map rule_seen rules.now) }
    ensures some { IfSome result (λ k. IsSomeAnd (slice_get (late_rules (cut_at late) moved (map rule_seen rules.now)) k) (HasBody body)) }
    ensures first { IfSome result (λ k. All (HasOther body) (take k (late_rules (cut_at late) moved (map rule_seen rules.now)))) }
    ensures none { IfNone result (All (HasOther body) (late_rules (cut_at late) moved (map rule_seen rules.now))) }
{
    for i in 0..rules.len() {
        if is_same(late_body(&rules[i], i, moved, late), body) {
            return Some(i);
        }
    }
    None
}

impl LateRules {
    /// The rules, in their order, all moved.
    pub(crate) fn new(mut rules: StyleRules) -> LateRules
        ensures { result ≡ rules }
    {
        let digests = rules.take_digests();
        let rules = rules.into_vec();
        let moved = rules.len();
        LateRules {
            rules,
            digests,
            moved,
            late: Gap {
                start: 0,
                end: 0,
                size: 0,
            },
        }
    }

    /// Moves the rules that are to be moved, and gives all back. Takes no memory.
    pub(crate) fn into_rules(self) -> StyleRules
        ensures { result ≡ self }
    {
        let LateRules {
            mut rules,
            digests,
            moved,
            late,
        } = self;
        let len = rules.len();
        settle(&mut rules, moved, len, late);
        StyleRules::with_digests(rules, digests)
    }

    /// The number of the rule that has its body there, from 0.
    pub(crate) fn number_of(&self, body: Range) -> Option<usize>
        ensures some { IfSome result (λ k. IsSomeAnd (slice_get self.now k) (HasBody body)) }
        ensures none { IfNone result (All (HasOther body) self.now) }
    {
        number_among(self.rules.as_slice(), self.moved, self.late, body)
    }

    /// Gives the rule with this number another body. Takes no memory.
    pub(crate) fn rebody(&mut self, own: usize, gap: Gap, properties: Properties)
        requires there { own < length self.old }
        requires can { CanRebody (cut_at gap) own self.old }
        requires within { All (IsPropertyWithin gap.size) properties }
        ensures { self.new ≡ moved_rules (cut_at gap) properties own self.old }
    {
        self.late = rebody_late(&mut self.rules, self.moved, self.late, own, gap, properties);
        self.moved = own + 1;
    }
}
