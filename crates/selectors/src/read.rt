//! Compounds, selectors and lists of them.

ghost use Rattle.std.specs.Prelude.{◌≡◌, ◌≤◌, ◌<◌, ◌++◌, ◌∷◌, [], List, map, IfOk, IsErrOf, length};
ghost use Rattle.selectors.specs.Forms.{GivesRead, SelectorForm, simple_seen, compound_seen, selector_seen};
ghost use Rattle.selectors.specs.Grammar.{IsSelectorList};
ghost use Rattle.selectors.specs.Lists.{list_seen};
ghost use Rattle.selectors.specs.Parts.{with_front};
ghost use Rattle.selectors.specs.Reading.{compound_item_seen, combinator_of, ends_compound, tests_at, joined_seen, compound_at, joint_at};
ghost use Rattle.selectors.specs.Reading.{joined_at, compounds_at, joined_of, selector_of, selector_list_of, selectors_of};

use crate::selector::{Compound, Joint, SelErr, Selector, SelectorList, Simple};
use crate::simple::{first_at, item_at};
use crate::values::next;
use crate::words::{WordKind, Words, all_words};
use node_tree::make_room;
use std::alloc::{AllocError, Global};

fn combinator_of(kind: WordKind) -> Option<Joint>
    ensures { result ≡ combinator_of kind }
{
    match kind {
        WordKind::Mark(b'>') => Some(Joint::Child),
        WordKind::Mark(b'+') => Some(Joint::Next),
        WordKind::Mark(b'~') => Some(Joint::Later),
        _ => None,
    }
}

/// No part of the same compound follows.
fn ends_compound(words: &Words) -> bool
    ensures { result ≡ ends_compound words.now }
{
    match words.peek() {
        Some(word) => word.spaced || combinator_of(word.kind).is_some(),
        None => true,
    }
}

/// Adds a part of a compound to its tests, and answers whether it is a pseudo-element.
fn push_item(tests: &mut Vec<Simple>, item: Option<Simple>) -> Result<bool, AllocError>
    ensures tests { IfOk result (λ _. map simple_seen tests.new.items ≡ map simple_seen tests.old.items ++ (compound_item_seen item).0) }
    ensures element { IfOk result (λ e. e ≡ (compound_item_seen item).1) }
{
    match item {
        Some(test) => {
            make_room(tests)?;
            tests.push(test)?;
            Ok(false)
        }
        None => Ok(true),
    }
}

fn push_compound(compounds: &mut Vec<Compound>, compound: Compound) -> Result<(), AllocError>
    ensures { IfOk result (λ _. map compound_seen compounds.new.items
        ≡ map compound_seen compounds.old.items ++ compound_seen compound ∷ []) }
{
    make_room(compounds)?;
    compounds.push(compound)?;
    Ok(())
}

fn push_selector(list: &mut Vec<Selector>, selector: Selector) -> Result<(), AllocError>
    ensures { IfOk result (λ _. map selector_seen list.new.items ≡ map selector_seen list.old.items ++ selector_seen selector ∷ []) }
{
    make_room(list)?;
    list.push(selector)?;
    Ok(())
}

/// Adds the other parts of a compound to its tests, and answers whether the last part is a pseudo-element.
fn tests_from(
    alloc: Global,
    words: &mut Words,
    tests: &mut Vec<Simple>,
    first: bool,
) -> Result<bool, SelErr>
    ensures reads { GivesRead (λ e. ((map simple_seen tests.new.items, e), words.new)) result
        (with_front (map simple_seen tests.old.items) (tests_at first words.old)) }
    ensures shorter { IfOk result (λ _. length words.new.words ≤ length words.old.words) }
{
    let mut element = first;
    'parts: while !ends_compound(words) {
        if element {
            return Err(SelErr::Invalid);
        }
        let item = item_at(alloc, words)?;
        element = push_item(tests, item)?;
    }
    Ok(element)
}

/// A compound, and whether it ends in a pseudo-element.
#[tactic(auto, unfolding(crate::specs::Reading::compound_at))]
fn compound_at(alloc: Global, words: &mut Words, joint: Joint) -> Result<(Compound, bool), SelErr>
    ensures reads { GivesRead (λ x. (joined_seen x, words.new)) result (compound_at joint words.old) }
    ensures shorter { IfOk result (λ _. length words.new.words < length words.old.words) }
{
    let mut tests = Vec::new(alloc);
    let first = first_at(alloc, words)?;
    let is_element = push_item(&mut tests, first)?;
    let element = tests_from(alloc, words, &mut tests, is_element)?;
    tests.shrink_to_fit();
    Ok((Compound { joint, tests }, element))
}

/// A combinator: a mark, or the white space before the next word.
#[tactic(auto, unfolding(crate::specs::Reading::joint_at))]
fn joint_at(words: &mut Words) -> Result<Joint, SelErr>
    ensures reads { GivesRead (λ j. (j, words.new)) result (joint_at words.old) }
    ensures shorter { IfOk result (λ _. length words.new.words ≤ length words.old.words) }
{
    let Some(word) = words.peek() else {
        return Err(SelErr::Invalid);
    };
    if let Some(joint) = combinator_of(word.kind) {
        next(words)?;
        return Ok(joint);
    }
    if word.spaced {
        Ok(Joint::Descendant)
    } else {
        Err(SelErr::Invalid)
    }
}

#[tactic(auto, unfolding(crate::specs::Reading::joined_at))]
fn joined_at(alloc: Global, words: &mut Words) -> Result<(Compound, bool), SelErr>
    ensures reads { GivesRead (λ x. (joined_seen x, words.new)) result (joined_at words.old) }
    ensures shorter { IfOk result (λ _. length words.new.words < length words.old.words) }
{
    let joint = joint_at(words)?;
    compound_at(alloc, words, joint)
}

/// Adds the other compounds of a selector, and answers whether the last one ends in a pseudo-element.
fn compounds_from(
    alloc: Global,
    words: &mut Words,
    compounds: &mut Vec<Compound>,
    first: bool,
) -> Result<bool, SelErr>
    ensures reads { GivesRead (λ e. ((map compound_seen compounds.new.items, e), words.new)) result
        (with_front (map compound_seen compounds.old.items) (compounds_at first words.old)) }
    ensures shorter { IfOk result (λ _. length words.new.words ≤ length words.old.words) }
{
    let mut element = first;
    'compounds: while !words.is_over() {
        if element {
            return Err(SelErr::Invalid);
        }
        let (compound, is_element) = joined_at(alloc, words)?;
        push_compound(compounds, compound)?;
        element = is_element;
    }
    Ok(element)
}

#[tactic(auto, unfolding(crate::specs::Reading::joined_of))]
fn joined_of(alloc: Global, words: &mut Words) -> Result<(Vec<Compound>, bool), SelErr>
    ensures { GivesRead (λ x. ((map compound_seen x.0.items, x.1), words.new)) result (joined_of words.old) }
{
    let mut compounds = Vec::new(alloc);
    let (first, is_element) = compound_at(alloc, words, Joint::Descendant)?;
    push_compound(&mut compounds, first)?;
    let element = compounds_from(alloc, words, &mut compounds, is_element)?;
    compounds.shrink_to_fit();
    Ok((compounds, element))
}

/// The selector that all of the words spell.
#[tactic(auto, unfolding(crate::specs::Reading::selector_of))]
fn selector_of(alloc: Global, words: &mut Words) -> Result<Selector, SelErr>
    ensures { GivesRead selector_seen result (selector_of words.old) }
{
    let Some(range) = words.range() else {
        return Err(SelErr::Invalid);
    };
    let (compounds, pseudo_element) = joined_of(alloc, words)?;
    Ok(Selector {
        compounds,
        pseudo_element,
        range,
    })
}

/// The list, which takes no more memory than its selectors need.
fn fitted(mut list: Vec<Selector>) -> SelectorList
    ensures { list_seen result ≡ map selector_seen list.items }
{
    list.shrink_to_fit();
    SelectorList { list }
}

/// The selector list that the words spell, which may be a part of a longer text's. Its ranges are places of that text.
pub fn read_list(alloc: Global, words: &mut Words) -> Result<SelectorList, SelErr>
    ensures exact { GivesRead list_seen result (selector_list_of words.old) }
{
    let mut list = Vec::new(alloc);
    'selectors: loop {
        let mut own = words.until_comma();
        let selector = selector_of(alloc, &mut own)?;
        push_selector(&mut list, selector)?;
        let Some(_comma) = words.next() else {
            return Ok(fitted(list));
        };
    }
}

/// The selector list that a text spells.
pub fn read_selectors(alloc: Global, text: &str) -> Result<SelectorList, SelErr>
    ensures exact { GivesRead list_seen result (selectors_of text.now) }
    ensures found { IfOk result (λ l. IsSelectorList text.now (list_seen l)) }
    ensures invalid { IsErrOf result SelErr.Invalid → (ss : List SelectorForm) → IsSelectorList text.now ss → ⊥ }
{
    let all = all_words(alloc, text)?;
    let mut words = Words::new(text, all.as_slice());
    read_list(alloc, &mut words)
}
