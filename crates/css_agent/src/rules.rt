// Style rules as messages tell them.
ghost use Rattle.std.specs.Prelude.{◌≡◌, All, length, map, IfOk};
ghost use Rattle.selectors.specs.Forms.{selector_seen};
ghost use Rattle.selectors.specs.Lists.{list_seen};
ghost use Rattle.selectors.specs.Ranges.{IsRangeOf};
ghost use Rattle.sheet_reader.specs.Around.{IsBelow};
ghost use Rattle.sheet_reader.specs.Books.{IsEntry};
ghost use Rattle.sheet_reader.specs.Forms.{rule_seen};
ghost use Rattle.sheet_reader.specs.Sheets.{sheet_of};
ghost use Rattle.sheet_reader.specs.Usable.{IsRuleOf};
ghost use Rattle.css_agent.specs.RuleObjects.{told_weight, told_selector, told_prelude, told_rule};

use crate::media_around::told_around;
use crate::rulers::Ruler;
use crate::styles::{rule_style, told_part};
use css_objects::{Listed, Rule, RuleSelectors, SelectorValue, Weight};
use selectors::{Selector, SelectorList, Spec, specificity};
use sheet_reader::{SheetEntry, StyleRule};
use std::alloc::{AllocError, Global};

fn told_weight(spec: Spec) -> Weight
    ensures { result ≡ told_weight spec }
{
    Weight {
        a: u64::from(spec.a),
        b: u64::from(spec.b),
        c: u64::from(spec.c),
    }
}

fn told_selector(
    alloc: Global,
    ruler: &mut Ruler<'_>,
    selector: &Selector,
) -> Result<SelectorValue, AllocError>
    requires { IsRangeOf ruler.old selector.now.range }
    ensures value { IfOk result (λ v. v ≡ told_selector ruler.old (selector_seen selector.now)) }
    ensures same { ruler.new ≡ ruler.old }
{
    let range = ruler.range_of(selector.range);
    let text = told_part(alloc, ruler.text(), selector.range)?;
    Ok(SelectorValue {
        range,
        weight: told_weight(specificity(selector)),
        text,
    })
}

fn told_selectors(
    alloc: Global,
    ruler: &mut Ruler<'_>,
    selectors: &SelectorList,
) -> Result<Vec<SelectorValue>, AllocError>
    requires { All (λ s. IsRangeOf ruler.old s.range) (list_seen selectors.now) }
    ensures value { IfOk result (λ v. v.items ≡ map (told_selector ruler.old) (list_seen selectors.now)) }
    ensures same { ruler.new ≡ ruler.old }
{
    let mut told = Vec::new(alloc);
    for i in 0..selectors.len() {
        told.push(told_selector(alloc, ruler, selectors.at(i))?)?;
    }
    Ok(told)
}

/// The selectors of a rule, and the text of its prelude.
pub(crate) fn told_prelude(
    alloc: Global,
    ruler: &mut Ruler<'_>,
    rule: &StyleRule,
) -> Result<RuleSelectors, AllocError>
    requires { IsRuleOf ruler.old (rule_seen rule.now) }
    ensures value { IfOk result (λ s. s ≡ told_prelude ruler.old (rule_seen rule.now)) }
    ensures same { ruler.new ≡ ruler.old }
{
    let selectors = told_selectors(alloc, ruler, &rule.selectors)?;
    let text = told_part(alloc, ruler.text(), rule.prelude)?;
    Ok(RuleSelectors {
        selectors: Listed::new(selectors),
        text,
    })
}

/// A style rule of a sheet, whose text the ruler measures.
pub(crate) fn told_rule(
    alloc: Global,
    ruler: &mut Ruler<'_>,
    entry: &SheetEntry,
    rule: &StyleRule,
) -> Result<Rule, AllocError>
    requires entry { IsEntry entry.now }
    requires text { ruler.old ≡ entry.now.text }
    requires rule { IsRuleOf entry.now.text (rule_seen rule.now) }
    requires around { IsBelow (length (sheet_of entry.now.text).media) rule.now.media }
    ensures value { IfOk result (λ r. r ≡ told_rule entry.now (rule_seen rule.now)) }
    ensures same { ruler.new ≡ ruler.old }
{
    let media = told_around(alloc, ruler, entry, rule.media)?;
    let selectors = told_prelude(alloc, ruler, rule)?;
    let style = rule_style(alloc, ruler, entry.id, rule)?;
    Ok(Rule {
        origin: entry.origin,
        selectors,
        style,
        sheet: entry.id,
        media: Listed::new(media),
    })
}
