// What gives an element its style.
ghost use Rattle.std.specs.Prelude.{◌≡◌, ◌++◌, map, cond, [], ◌∷◌, Some, option_map, option_to_list, slice_get, IfOk, IfSome, OnOk};
ghost use Rattle.std.specs.List.{filter_map};
ghost use Rattle.page_tree.specs.Zippers.{ancestors};
ghost use Rattle.select_match.specs.Elements.{is_element_node, elements};
ghost use Rattle.std.specs.Prelude.{length};
ghost use Rattle.sheet_reader.specs.Around.{IsBelow};
ghost use Rattle.sheet_reader.specs.Books.{IsEntry};
ghost use Rattle.sheet_reader.specs.Forms.{rule_seen};
ghost use Rattle.sheet_reader.specs.Sheets.{sheet_of};
ghost use Rattle.sheet_reader.specs.Usable.{IsRuleOf};
ghost use Rattle.css_agent.specs.RuleObjects.{inline_style};
ghost use Rattle.css_agent.specs.MatchedStyles.{told_inline, told_match, told_hit, told_matches, told_inherited, matched_styles};

use crate::rulers::Ruler;
use crate::rules::told_rule;
use crate::styles::inline_style;
use cascade_match::{Hit, matched_on};
use css_objects::{Inherited, Listed, Matched, RuleMatch, Style};
use media_rules::Medium;
use page_tree::{Kind, NodeRef};
use select_match::Subject;
use sheet_reader::{SheetBook, SheetEntry, StyleRule};
use std::alloc::{AllocError, Global};

/// The style of an element's `style` attribute, where it has one.
fn told_inline(alloc: Global, node: &NodeRef<'_>) -> Result<Option<Style>, AllocError>
    ensures { IfOk result (λ o. o ≡ told_inline node.now) }
{
    match node.attr("style") {
        Some(text) => match inline_style(alloc, text) {
            Ok(style) => Ok(Some(style)),
            Err(error) => Err(error),
        },
        None => Ok(None),
    }
}

fn places_of(alloc: Global, places: &[usize]) -> Result<Vec<u64>, AllocError>
    ensures { IfOk result (λ v. v.items ≡ places.now) }
{
    let mut told = Vec::new(alloc);
    for place in places {
        told.push(*place as u64)?;
    }
    Ok(told)
}

fn rule_among(rules: &[StyleRule], place: usize) -> Option<&StyleRule>
    ensures { option_map (λ r. r.now) result ≡ slice_get rules.now place }
{
    rules.get(place)
}

/// The style rule at a place of a sheet.
pub(crate) fn rule_at(entry: &SheetEntry, place: usize) -> Option<&StyleRule>
    requires { IsEntry entry.now }
    ensures rule { option_map (λ r. rule_seen r.now) result ≡ slice_get (sheet_of entry.now.text).rules place }
    ensures usable { IfSome result (λ r. IsRuleOf entry.now.text (rule_seen r.now)) }
    ensures around { IfSome result (λ r. IsBelow (length (sheet_of entry.now.text).media) r.now.media) }
{
    // Read for the proof alone: a text is UTF-8.
    let _text = entry.text.as_str();
    rule_among(entry.reading.rules.as_slice(), place)
}

fn told_match(
    alloc: Global,
    ruler: &mut Ruler<'_>,
    entry: &SheetEntry,
    hit: &Hit,
) -> Result<Option<RuleMatch>, AllocError>
    requires entry { IsEntry entry.now }
    requires text { ruler.old ≡ entry.now.text }
    ensures value { IfOk result (λ o. o ≡ option_map (told_match entry.now hit.now.matching)
        (slice_get (sheet_of entry.now.text).rules hit.now.rule)) }
    ensures same { ruler.new ≡ ruler.old }
{
    let Some(rule) = rule_at(entry, hit.rule) else {
        return Ok(None);
    };
    let matching = places_of(alloc, hit.matching.as_slice())?;
    let rule = told_rule(alloc, ruler, entry, rule)?;
    Ok(Some(RuleMatch {
        matching: Listed::new(matching),
        rule,
    }))
}

fn told_hit(alloc: Global, book: &SheetBook, hit: &Hit) -> Result<Option<RuleMatch>, AllocError>
    ensures { IfOk result (λ o. o ≡ told_hit book.now hit.now) }
{
    let Some(entry) = book.get(hit.sheet) else {
        return Ok(None);
    };
    let mut ruler = Ruler::new(&entry.text);
    told_match(alloc, &mut ruler, entry, hit)
}

fn push_some(found: &mut Vec<RuleMatch>, one: Option<RuleMatch>) -> Result<(), AllocError>
    ensures { OnOk result (found.new.items ≡ found.old.items ++ option_to_list one) }
{
    if let Some(one) = one {
        found.push(one)?;
    }
    Ok(())
}

fn matches_among(
    alloc: Global,
    book: &SheetBook,
    hits: &[Hit],
) -> Result<Vec<RuleMatch>, AllocError>
    ensures { IfOk result (λ v. v.items ≡ filter_map (told_hit book.now) hits.now) }
{
    let mut found = Vec::new(alloc);
    for hit in hits {
        push_some(&mut found, told_hit(alloc, book, hit)?)?;
    }
    Ok(found)
}

/// The rules that match an element.
fn told_matches(
    alloc: Global,
    book: &SheetBook,
    subject: &mut Subject<'_>,
    medium: &Medium,
) -> Result<Vec<RuleMatch>, AllocError>
    ensures value { IfOk result (λ v. v.items ≡ told_matches medium.now book.now subject.old) }
    ensures same { subject.new ≡ subject.old }
{
    let hits = matched_on(alloc, book, subject, medium)?;
    matches_among(alloc, book, hits.as_slice())
}

/// What an ancestor has.
fn told_inherited(
    alloc: Global,
    book: &SheetBook,
    node: NodeRef<'_>,
    medium: &Medium,
) -> Result<Inherited, AllocError>
    ensures { IfOk result (λ i. i ≡ told_inherited medium.now book.now node.entry) }
{
    let inline = told_inline(alloc, &node)?;
    let mut subject = Subject::new(alloc, node)?;
    let rules = told_matches(alloc, book, &mut subject, medium)?;
    Ok(Inherited {
        inline,
        rules: Listed::new(rules),
    })
}

fn add_ancestor(
    alloc: Global,
    book: &SheetBook,
    node: NodeRef<'_>,
    medium: &Medium,
    entries: &mut Vec<Inherited>,
) -> Result<(), AllocError>
    ensures { OnOk result (entries.new.items
        ≡ entries.old.items ++ cond (is_element_node node.entry) (told_inherited medium.now book.now node.entry ∷ []) []) }
{
    if node.kind() == Kind::Element {
        entries.push(told_inherited(alloc, book, node, medium)?)?;
    }
    Ok(())
}

/// What the ancestors have that are elements, from the parent upwards.
fn inherited_by(
    alloc: Global,
    book: &SheetBook,
    node: &NodeRef<'_>,
    medium: &Medium,
) -> Result<Vec<Inherited>, AllocError>
    ensures { IfOk result (λ v. v.items ≡ map (told_inherited medium.now book.now) (elements (ancestors node.now))) }
{
    let mut entries = Vec::new(alloc);
    let mut at = node.parent();
    while let Some(ancestor) = at {
        at = ancestor.parent();
        add_ancestor(alloc, book, ancestor, medium, &mut entries)?;
    }
    Ok(entries)
}

/// All that gives an element its style.
pub(crate) fn matched_styles(
    alloc: Global,
    book: &SheetBook,
    node: NodeRef<'_>,
    medium: &Medium,
) -> Result<Matched, AllocError>
    ensures { IfOk result (λ m. m ≡ matched_styles medium.now book.now node.entry) }
{
    let inherited = inherited_by(alloc, book, &node, medium)?;
    let own = told_inherited(alloc, book, node, medium)?;
    Ok(Matched {
        inline: own.inline,
        rules: own.rules,
        inherited: Listed::new(inherited),
    })
}
