//! The style rules that match an element, in the order in which they count.

ghost use Rattle.std.specs.Prelude.{◌≡◌, ◌<◌, ◌++◌, ◌∷◌, [], cond, map, IfOk, OnOk, IsSome};
ghost use Rattle.std.specs.Prelude.{option_to_list};
ghost use Rattle.page_tree.specs.Pages.{find_in};
ghost use Rattle.page_tree.specs.Zippers.{zipper_at};
ghost use Rattle.selectors.specs.Lists.{list_seen};
ghost use Rattle.sheet_reader.specs.Forms.{rule_seen};
ghost use Rattle.sheet_reader.specs.Sheets.{sheet_of};
ghost use Rattle.sheet_reader.specs.Books.{IsEntry};
ghost use Rattle.cascade_match.specs.ElementNames.{element_digests};
ghost use Rattle.cascade_match.specs.Precedence.{greater};
ghost use Rattle.cascade_match.specs.Judged.{judged_seen};
ghost use Rattle.cascade_match.specs.Matched.{places_matching, greatest, source_of, keyed_rule, entries_of_rules, all_entered, matched_of};

use crate::element_names::{element_digests, may_match};
use crate::hits::Hit;
use crate::keys::{Key, greater, key_of};
use crate::media_held::{held_at, media_held};
use media_rules::Medium;
use page_tree::Page;
use select_match::{Subject, matches_subject};
use selectors::{SelectorList, Spec, specificity};
use sheet_reader::{Places, SheetBook, SheetEntry, StyleRule};
use std::alloc::{AllocError, Global};
use std::collections::BTreeMap;

/// All style rules of the book of which some selector matches the node with that serial and every media rule around which holds of
/// the medium, in ascending order of origin, of the greatest specificity among their matching selectors, of the sheet's place, and
/// of the rule's place in the sheet. In time n log n in the number of these rules, once each media rule was judged and each rule
/// was tried.
pub fn matched(
    alloc: Global,
    page: &Page,
    book: &SheetBook,
    serial: u64,
    medium: &Medium,
) -> Result<Vec<Hit>, AllocError>
    requires { IsSome (find_in serial page.now.tree) }
    ensures { IfOk result (λ v. v.items ≡ matched_of medium.now book.now (zipper_at serial page.now.tree)) }
{
    let mut subject = Subject::new(alloc, page.node_ref(serial))?;
    matched_on(alloc, book, &mut subject, medium)
}

/// What `matched` answers, for an element that the caller has at hand.
pub fn matched_on(
    alloc: Global,
    book: &SheetBook,
    subject: &mut Subject<'_>,
    medium: &Medium,
) -> Result<Vec<Hit>, AllocError>
    ensures value { IfOk result (λ v. v.items ≡ matched_of medium.now book.now subject.old) }
    ensures same { subject.new ≡ subject.old }
{
    let digests = element_digests(alloc, subject.node())?;
    let names = digests.as_slice();
    let mut found = BTreeMap::new(alloc);
    for i in 0..book.len() {
        add_sheet(alloc, book.at(i), i, medium, names, subject, &mut found)?;
    }
    hits_of(alloc, found)
}

/// A sheet, its place in the book, which of its media rules hold, and the numbers of the names of the element.
#[derive(Clone, Copy)]
struct Judged<'a> {
    sheet: &'a SheetEntry,
    place: usize,
    held: &'a [bool],
    names: &'a [u32],
}

fn hits_of(alloc: Global, found: BTreeMap<Key, Hit>) -> Result<Vec<Hit>, AllocError>
    ensures { IfOk result (λ v. v.items ≡ map (λ e. e.1) found.entries) }
{
    let mut hits = Vec::new(alloc);
    for entry in found {
        hits.push(entry.1)?;
    }
    Ok(hits)
}

fn add_sheet(
    alloc: Global,
    entry: &SheetEntry,
    place: usize,
    medium: &Medium,
    names: &[u32],
    subject: &mut Subject<'_>,
    found: &mut BTreeMap<Key, Hit>,
) -> Result<(), AllocError>
    requires entry { IsEntry entry.now }
    requires names { names.now ≡ element_digests subject.old }
    ensures entries { OnOk result (found.new.entries ≡ all_entered found.old.entries
        (entries_of_rules (source_of medium.now place entry.now) 0 (sheet_of entry.now.text).rules subject.old)) }
    ensures same { subject.new ≡ subject.old }
{
    let held = media_held(alloc, entry, medium)?;
    let judged = Judged {
        sheet: entry,
        place,
        held: held.as_slice(),
        names,
    };
    add_rules(alloc, judged, subject, found)
}

/// Looks at those rules alone that may match by their numbers.
fn add_rules(
    alloc: Global,
    judged: Judged<'_>,
    subject: &mut Subject<'_>,
    found: &mut BTreeMap<Key, Hit>,
) -> Result<(), AllocError>
    requires { judged.names.now ≡ element_digests subject.old }
    ensures entries { OnOk result (found.new.entries
        ≡ all_entered found.old.entries (entries_of_rules (judged_seen judged.entry) 0 judged.entry.sheet.now.reading.rules subject.old)) }
    ensures same { subject.new ≡ subject.old }
{
    let rules = judged.sheet.reading.rules.as_slice();
    for i in 0..rules.len() {
        if !may_match(judged.sheet.reading.rules.digest_at(i), judged.names) {
            continue;
        }
        add_rule(alloc, judged, i, &rules[i], subject, found)?;
    }
    Ok(())
}

fn add_rule(
    alloc: Global,
    judged: Judged<'_>,
    i: usize,
    rule: &StyleRule,
    subject: &mut Subject<'_>,
    found: &mut BTreeMap<Key, Hit>,
) -> Result<(), AllocError>
    ensures entries { OnOk result (found.new.entries
        ≡ all_entered found.old.entries (option_to_list (keyed_rule (judged_seen judged.entry) i (rule_seen rule.now) subject.old))) }
    ensures same { subject.new ≡ subject.old }
{
    if !held_at(judged.held, rule.media) {
        return Ok(());
    }
    let matching = matching_places(alloc, &rule.selectors, subject)?;
    if matching.is_empty() {
        return Ok(());
    }
    let key = key_of(
        judged.sheet.origin,
        greatest_weight(&rule.selectors, subject),
        judged.place,
        i,
    );
    let hit = Hit {
        sheet: judged.sheet.id,
        rule: i,
        matching: Places::new(matching),
    };
    add_hit(key, hit, found)
}

fn add_hit(key: Key, hit: Hit, found: &mut BTreeMap<Key, Hit>) -> Result<(), AllocError>
    ensures { OnOk result (found.new.entries ≡ all_entered found.old.entries ((key, hit) ∷ [])) }
{
    match found.insert(key, hit) {
        Ok(_) => Ok(()),
        Err(_) => Err(AllocError),
    }
}

fn matching_places(
    alloc: Global,
    l: &SelectorList,
    subject: &mut Subject<'_>,
) -> Result<Vec<usize>, AllocError>
    ensures value { IfOk result (λ v. v.items ≡ places_matching (list_seen l.now) subject.old) }
    ensures same { subject.new ≡ subject.old }
{
    let mut places = Vec::new(alloc);
    for i in 0..l.len() {
        push_if(matches_subject(l.at(i), subject), i, &mut places)?;
    }
    Ok(places)
}

fn push_if(test: bool, place: usize, places: &mut Vec<usize>) -> Result<(), AllocError>
    ensures { OnOk result (places.new.items ≡ places.old.items ++ cond test (place ∷ []) []) }
{
    if test {
        places.push(place)?;
    }
    Ok(())
}

fn greater_if(test: bool, best: Spec, other: Spec) -> Spec
    ensures { result ≡ cond test (greater best other) best }
{
    if test { greater(best, other) } else { best }
}

/// The greatest specificity among the selectors that match.
fn greatest_weight(l: &SelectorList, subject: &mut Subject<'_>) -> Spec
    ensures value { result ≡ greatest (list_seen l.now) subject.old }
    ensures same { subject.new ≡ subject.old }
{
    let mut best = Spec { a: 0, b: 0, c: 0 };
    for i in 0..l.len() {
        let s = l.at(i);
        best = greater_if(matches_subject(s, subject), best, specificity(s));
    }
    best
}
