ghost use Rattle.std.specs.Prelude.{◌≡◌, ◌<◌, ◌≤◌, ◌==◌, ◌∷◌, length, cond, option_and_then, Option, Some, None, IfSome};
ghost use Rattle.std.specs.Prelude.{IsTrue, bytes_eq};
ghost use Rattle.std.specs.Option.{option_copied};
ghost use Rattle.std.specs.List.{list_all, position};
ghost use Rattle.std.specs.Str.{str_to_ascii_uppercase};
ghost use Rattle.dom_objects.specs.NodeObject.{node_name};
ghost use Rattle.dom_agent.specs.Paths.{parts_of, parts_after_comma, is_digit, leads_badly, is_index, number_in, step_of, steps_of};
ghost use Rattle.dom_agent.specs.Paths.{child_by, node_by, node_at_path};

use page_tree::Kind;
use shown_pages::ShownNode;

/// The node that a path leads to: an index, counted from 0, and a `nodeName` for each level, from the document's children
/// down, with commas between.
pub(crate) fn node_at_path<'a>(document: &ShownNode<'a>, path: &str) -> Option<ShownNode<'a>>
    ensures { result ≡ node_at_path path.now document.now }
{
    node_by(document, path.as_bytes())
}

/// The node that a path leads to from the children of that one.
fn node_by<'a>(above: &ShownNode<'a>, path: &[u8]) -> Option<ShownNode<'a>>
    ensures { result
        ≡ option_and_then (λ steps. node_by steps above.now.children) (steps_of (parts_of path.now)) }
{
    let (index, named) = first_part(path);
    let Some(named) = named else {
        return None;
    };
    let (name, rest) = first_part(named);
    let Some(child) = child_by(above, index, name) else {
        return None;
    };
    match rest {
        None => Some(child),
        Some(rest) => node_by(&child, rest),
    }
}

/// What stands before the first comma, and after it where there is one.
fn first_part(text: &[u8]) -> (&[u8], Option<&[u8]>)
    ensures parts { parts_of text.now ≡ result.0.now ∷ parts_after_comma (option_copied result.1) }
    ensures shorter { IfSome result.1 (λ rest. length rest.now < length text.now) }
{
    match comma_in(text) {
        None => (text, None),
        Some(end) => (&text[..end], Some(&text[end + 1..])),
    }
}

fn comma_in(text: &[u8]) -> Option<usize>
    ensures { result ≡ position (λ byte. byte == 44) text.now }
{
    text.iter().position(|byte| *byte == b',')
}

fn child_by<'a>(above: &ShownNode<'a>, index: &[u8], name: &[u8]) -> Option<ShownNode<'a>>
    ensures { result
        ≡ option_and_then (λ step. child_by step above.now.children) (step_of index.now name.now) }
{
    let place = index_in(index)?;
    let child = above.child_at(place)?;
    if !has_node_name(&child, name) {
        return None;
    }
    Some(child)
}

/// Decimal digits without a leading zero, at most 9.
fn index_in(text: &[u8]) -> Option<usize>
    ensures { result ≡ cond (is_index text.now) (Some (number_in text.now)) None }
{
    if !is_index(text) {
        return None;
    }
    Some(number_in(text))
}

fn is_index(text: &[u8]) -> bool
    ensures { result ≡ is_index text.now }
{
    let digits = are_digits(text);
    let badly = leads_badly(text);
    digits && !badly && text.len() <= 9
}

fn are_digits(text: &[u8]) -> bool
    ensures { result ≡ list_all is_digit text.now }
{
    text.iter().all(|byte| is_digit(*byte))
}

fn is_digit(byte: u8) -> bool
    ensures { result ≡ is_digit byte }
{
    byte >= b'0' && byte <= b'9'
}

fn leads_badly(text: &[u8]) -> bool
    ensures { result ≡ leads_badly text.now }
{
    match text {
        [] => true,
        [_] => false,
        [first, _, ..] => *first == b'0',
    }
}

fn number_in(digits: &[u8]) -> usize
    requires digits { IsTrue (list_all is_digit digits.now) }
    requires short { length digits.now ≤ 9 }
    ensures { result ≡ number_in digits.now }
{
    let mut number = 0;
    for digit in digits {
        number = number * 10 + (*digit - b'0') as usize;
    }
    number
}

/// Whether that is the node's `nodeName` (DOM, section 4.4); an element's is in upper case.
fn has_node_name(node: &ShownNode<'_>, name: &[u8]) -> bool
    ensures { result ≡ bytes_eq (node_name node.now.row.label) name.now }
{
    match node.kind() {
        Kind::Document => "#document".as_bytes() == name,
        Kind::Element => is_in_upper_case(node.name().as_bytes(), name),
        Kind::Text => "#text".as_bytes() == name,
        Kind::Comment => "#comment".as_bytes() == name,
        Kind::Doctype => node.name().as_bytes() == name,
    }
}

/// Whether `upper` is the text in ASCII upper case.
fn is_in_upper_case(text: &[u8], upper: &[u8]) -> bool
    ensures { result ≡ bytes_eq (str_to_ascii_uppercase text.now) upper.now }
{
    if text.len() != upper.len() {
        return false;
    }
    for i in 0..text.len() {
        if text[i].to_ascii_uppercase() != upper[i] {
            return false;
        }
    }
    true
}
