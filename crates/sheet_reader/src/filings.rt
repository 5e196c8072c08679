//! Numbers of what style rules are filed under: most rules that cannot match an element are told by them, with no look at the rule.

ghost use Rattle.std.specs.Prelude.{◌≡◌, map, option_map, reverse};
ghost use Rattle.std.specs.Option.{option_or};
ghost use Rattle.selectors.specs.Forms.{test_seen, simple_seen, compound_seen, selector_seen};
ghost use Rattle.selectors.specs.Lists.{list_seen};
ghost use Rattle.sheet_reader.specs.Filings.{test_filing, simple_filing, last_filing, first_filing, filing_digest, selector_digest};
ghost use Rattle.sheet_reader.specs.Filings.{kind_digit, with_digit, name_digest, agreed, list_digest};

use selectors::{Compound, Selector, SelectorList, Simple, Test};

/// What a simple selector asks for by a name.
#[derive(Clone, Copy)]
pub enum NameKind {
    Tag,
    Id,
    Class,
}

/// The base in which the bytes of a name are the digits of a number.
const DIGEST_BASE: u64 = 257;

/// The greatest prime number of 32 bits.
const DIGEST_LIMIT: u64 = 4_294_967_291;

fn kind_digit(kind: NameKind) -> u32
    ensures { result ≡ kind_digit kind }
{
    match kind {
        NameKind::Tag => 1,
        NameKind::Id => 2,
        NameKind::Class => 3,
    }
}

fn with_digit(number: u32, byte: u8) -> u32
    ensures { result ≡ with_digit number byte }
{
    let digit = u64::from(byte.to_ascii_lowercase());
    ((u64::from(number) * DIGEST_BASE + digit) % DIGEST_LIMIT) as u32
}

/// The number of a name of that kind, in any case of ASCII letters. Others may have the same.
pub fn name_digest(kind: NameKind, name: &[u8]) -> u32
    ensures { result ≡ name_digest kind name.now }
{
    let mut number = kind_digit(kind);
    for byte in name {
        number = with_digit(number, *byte);
    }
    number
}

fn test_digest(test: &Test) -> Option<u32>
    ensures { result ≡ option_map filing_digest (test_filing (test_seen test.now)) }
{
    match test {
        Test::Tag(name) => Some(name_digest(NameKind::Tag, name.as_str().as_bytes())),
        Test::Id(name) => Some(name_digest(NameKind::Id, name.as_str().as_bytes())),
        Test::Class(name) => Some(name_digest(NameKind::Class, name.as_str().as_bytes())),
        Test::Any
        | Test::Attr { .. }
        | Test::Root
        | Test::Empty
        | Test::Nth { .. }
        | Test::OnlyChild
        | Test::OnlyOfType
        | Test::Never => None,
    }
}

fn simple_digest(simple: &Simple) -> Option<u32>
    ensures { result ≡ option_map filing_digest (simple_filing (simple_seen simple.now)) }
{
    match simple {
        Simple::Is(test) => test_digest(test),
        Simple::Not(_) => None,
    }
}

/// The second, where there is one.
fn later(first: Option<u32>, second: Option<u32>) -> Option<u32>
    ensures { result ≡ option_or second first }
{
    match second {
        Some(_) => second,
        None => first,
    }
}

fn last_digest(tests: &[Simple]) -> Option<u32>
    ensures { result ≡ option_map filing_digest (last_filing (map simple_seen tests.now)) }
{
    let mut last = None;
    for simple in tests {
        last = later(last, simple_digest(simple));
    }
    last
}

fn compound_digest(compounds: &[Compound]) -> Option<u32>
    ensures { result ≡ option_map filing_digest (first_filing (reverse (map compound_seen compounds.now))) }
{
    match compounds.split_last() {
        Some((last, _)) => last_digest(last.tests.as_slice()),
        None => None,
    }
}

fn selector_digest(selector: &Selector) -> Option<u32>
    ensures { result ≡ selector_digest (selector_seen selector.now) }
{
    compound_digest(selector.compounds.as_slice())
}

fn agreed(first: Option<u32>, second: Option<u32>) -> Option<u32>
    ensures { result ≡ agreed first second }
{
    match (first, second) {
        (Some(number), Some(other)) => { if number == other { Some(number) } else { None } }
        _ => None,
    }
}

/// The number of what all selectors of the list are filed under, where they have one in common.
pub(crate) fn list_digest(selectors: &SelectorList) -> Option<u32>
    ensures { result ≡ list_digest (list_seen selectors.now) }
{
    if selectors.len() == 0 {
        return None;
    }
    let mut number = selector_digest(selectors.at(0));
    for i in 1..selectors.len() {
        number = agreed(number, selector_digest(selectors.at(i)));
    }
    number
}
