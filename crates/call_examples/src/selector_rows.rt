//! Rows of selectors: `list [TEXT]` tells the selectors that a text spells, and `weight [TEXT]` how specific each is.

use crate::row_parts::{Answer, text_or_empty};
use selectors::{Joint, SelErr, Selector, SelectorList, Simple, Test, read_selectors, specificity};
use serde_json::Value;
use std::alloc::{AllocError, Global};

/// What comes of a row.
pub(crate) fn told(
    alloc: Global,
    word: &str,
    args: &Value,
    answer: &mut Answer,
) -> Result<(), AllocError> {
    match read_selectors(alloc, text_or_empty(args, 0)) {
        Ok(list) => push_list(word, &list, answer),
        Err(SelErr::Invalid) => answer.push("invalid"),
        Err(SelErr::Memory) => return Err(AllocError),
    }
    Ok(())
}

/// What the word asks of each selector, one behind the other.
fn push_list(word: &str, list: &SelectorList, answer: &mut Answer) {
    for i in 0..list.len() {
        match word {
            "list" => push_selector(list.at(i), answer),
            "weight" => push_weight(list.at(i), answer),
            _ => answer.push("no such call"),
        }
    }
}

/// A test in a form like its spelling.
fn push_test(test: &Test, answer: &mut Answer) {
    match test {
        Test::Any => answer.push("*"),
        Test::Tag(name) => answer.push(name.as_str()),
        Test::Id(name) => push_marked("#", name.as_str(), answer),
        Test::Class(name) => push_marked(".", name.as_str(), answer),
        Test::Attr { .. } | Test::Nth { .. } => push_long_test(test, answer),
        Test::Root => answer.push(":root"),
        Test::Empty => answer.push(":empty"),
        Test::OnlyChild => answer.push(":only"),
        Test::OnlyOfType => answer.push(":only-type"),
        Test::Never => answer.push(":never"),
    }
}

/// A name behind a mark.
fn push_marked(mark: &str, name: &str, answer: &mut Answer) {
    answer.push(mark);
    answer.push(name);
}

/// A test of an attribute or of a place among the siblings.
fn push_long_test(test: &Test, answer: &mut Answer) {
    match test {
        Test::Attr { name, op, operand } => {
            push_marked("[", name.as_str(), answer);
            answer.push(" ");
            answer.push_debug(op);
            push_marked(" ", operand.as_str(), answer);
            answer.push("]");
        }
        Test::Nth { kind, step, offset } => {
            answer.push_debug(kind);
            answer.push("(");
            answer.push_shown(step);
            answer.push(",");
            answer.push_shown(offset);
            answer.push(")");
        }
        _ => {}
    }
}

/// A sign for each joint.
fn joint_text(joint: Joint) -> &'static str {
    match joint {
        Joint::Descendant => "_",
        Joint::Child => ">",
        Joint::Next => "+",
        Joint::Later => "~",
    }
}

/// Tests one behind the other, with `!` where one must not hold.
fn push_tests(tests: &[Simple], answer: &mut Answer) {
    for simple in tests {
        match simple {
            Simple::Is(test) => push_test(test, answer),
            Simple::Not(test) => {
                answer.push("!");
                push_test(test, answer);
            }
        }
    }
}

/// The compounds with the joint before each, `::` for a pseudo-element, and the range.
fn push_selector(selector: &Selector, answer: &mut Answer) {
    for compound in &selector.compounds {
        answer.push(joint_text(compound.joint));
        push_tests(compound.tests.as_slice(), answer);
    }
    if selector.pseudo_element {
        answer.push("::");
    }
    answer.push(" ");
    answer.push_range(selector.range.start, selector.range.end);
    answer.push(";");
}

/// The three numbers of a selector's specificity.
fn push_weight(selector: &Selector, answer: &mut Answer) {
    let weight = specificity(selector);
    answer.push("(");
    answer.push_number(weight.a as u64);
    answer.push(", ");
    answer.push_number(weight.b as u64);
    answer.push(", ");
    answer.push_number(weight.c as u64);
    answer.push(")");
}
