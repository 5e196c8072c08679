//! How specific a selector is (Selectors 3, section 9).

ghost use Rattle.std.specs.Prelude.{◌≡◌, ◌+◌, map};
ghost use Rattle.selectors.specs.Forms.{test_seen, simple_seen, compound_seen, selector_seen};
ghost use Rattle.selectors.specs.Weight.{ids, classes, types, test_of, in_tests, in_compounds, spec_of, specificity_of};

use crate::selector::{Compound, Selector, Simple, Test};

/// Compared by `a`, then by `b`, then by `c`. Each count stops at 2^32-1.
#[derive(Clone, Copy)]
pub struct Spec {
    /// Ids.
    pub a: u32,
    /// Classes, attribute selectors and pseudo-classes.
    pub b: u32,
    /// Types and pseudo-elements.
    pub c: u32,
}

fn test_weight(test: &Test) -> Spec
    ensures { result ≡ spec_of (ids (test_seen test.now)) (classes (test_seen test.now)) (types (test_seen test.now)) }
{
    match test {
        Test::Any => Spec { a: 0, b: 0, c: 0 },
        Test::Tag(_) => Spec { a: 0, b: 0, c: 1 },
        Test::Id(_) => Spec { a: 1, b: 0, c: 0 },
        _ => Spec { a: 0, b: 1, c: 0 },
    }
}

fn plus(left: Spec, right: Spec) -> Spec
    ensures { result ≡ spec_of (left.a + right.a) (left.b + right.b) (left.c + right.c) }
{
    Spec {
        a: left.a.saturating_add(right.a),
        b: left.b.saturating_add(right.b),
        c: left.c.saturating_add(right.c),
    }
}

fn simple_weight(simple: &Simple) -> Spec
    ensures { let t = test_of (simple_seen simple.now) in result ≡ spec_of (ids t) (classes t) (types t) }
{
    match simple {
        Simple::Is(test) | Simple::Not(test) => test_weight(test),
    }
}

fn tests_weight(tests: &[Simple]) -> Spec
    ensures { let ts = map simple_seen tests.now in result ≡ spec_of (in_tests ids ts) (in_tests classes ts) (in_tests types ts) }
{
    let mut total = Spec { a: 0, b: 0, c: 0 };
    for simple in tests {
        total = plus(total, simple_weight(simple));
    }
    total
}

fn compounds_weight(compounds: &[Compound]) -> Spec
    ensures { let cs = map compound_seen compounds.now in result
        ≡ spec_of (in_compounds ids cs) (in_compounds classes cs) (in_compounds types cs) }
{
    let mut total = Spec { a: 0, b: 0, c: 0 };
    for compound in compounds {
        total = plus(total, tests_weight(compound.tests.as_slice()));
    }
    total
}

/// How specific a selector is.
pub fn specificity(s: &Selector) -> Spec
    ensures { result ≡ specificity_of (selector_seen s.now) }
{
    let total = compounds_weight(s.compounds.as_slice());
    if s.pseudo_element {
        plus(total, Spec { a: 0, b: 0, c: 1 })
    } else {
        total
    }
}
