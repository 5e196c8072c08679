//! The order of the rules that match an element.

ghost use Rattle.std.specs.Prelude.{◌≡◌};
ghost use Rattle.cascade_match.specs.Precedence.{origin_rank, key_of, greater};

use selectors::Spec;
use sheet_reader::Origin;

/// Where a matched rule stands among the others: they are compared by these fields, one after the other.
#[derive(Clone, Copy, PartialEq, Eq, PartialOrd, Ord, Debug)]
pub struct Key {
    /// 0 for the browser's own sheets, and 1 for the page's.
    pub origin: u8,
    pub a: u32,
    pub b: u32,
    pub c: u32,
    /// The sheet's place in the book, from 0.
    pub sheet: usize,
    /// The rule's place in the sheet, from 0.
    pub rule: usize,
}

/// The browser's own sheets stand before the page's.
pub fn origin_rank(origin: Origin) -> u8
    ensures { result ≡ origin_rank origin }
{
    match origin {
        Origin::UserAgent => 0,
        Origin::Regular => 1,
    }
}

/// The key by which a rule stands in the cascade: `sheet` and `rule` are places, from 0.
pub fn key_of(origin: Origin, spec: Spec, sheet: usize, rule: usize) -> Key
    ensures { result ≡ key_of origin spec sheet rule }
{
    Key {
        origin: origin_rank(origin),
        a: spec.a,
        b: spec.b,
        c: spec.c,
        sheet,
        rule,
    }
}

/// The more specific of the two (Selectors 3, section 9).
pub fn greater(s: Spec, t: Spec) -> Spec
    ensures { result ≡ greater s t }
{
    let less = if s.a != t.a {
        s.a < t.a
    } else if s.b != t.b {
        s.b < t.b
    } else {
        s.c < t.c
    };
    if less { t } else { s }
}
