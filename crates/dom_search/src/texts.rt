//! The texts of a node, and whether a query is a part of one, but for the case of ASCII letters.

ghost use Rattle.std.specs.Prelude.{◌≡◌, ◌||◌, nat_eq};
ghost use Rattle.std.specs.List.{starts_with, list_any};
ghost use Rattle.dom_search.specs.Found.{lowered, has_lowered, pair_texts, has_text};

use page_tree::NodeRef;

/// The text begins with the part, which is in lower case.
fn begins_with(part: &[u8], text: &[u8]) -> bool
    ensures { result ≡ starts_with nat_eq (lowered text.now) part.now }
{
    if text.len() < part.len() {
        return false;
    }
    for i in 0..part.len() {
        if text[i].to_ascii_lowercase() != part[i] {
            return false;
        }
    }
    true
}

/// The part, which is in lower case, stands somewhere in the text.
fn has_lowered(part: &[u8], text: &[u8]) -> bool
    ensures { result ≡ has_lowered part.now text.now }
{
    for i in 0..text.len() {
        if begins_with(part, &text[i..]) {
            return true;
        }
    }
    part.is_empty()
}

fn has_either(part: &[u8], name: &str, value: &str) -> bool
    ensures { result ≡ (has_lowered part.now name.now || has_lowered part.now value.now) }
{
    has_lowered(part, name.as_bytes()) || has_lowered(part, value.as_bytes())
}

fn has_pair(part: &[u8], node: &NodeRef<'_>) -> bool
    ensures { result ≡ list_any (has_lowered part.now) (pair_texts node.now.branch.row.label.attributes) }
{
    for (name, value) in node.attrs() {
        if has_either(part, name.as_str(), value.as_str()) {
            return true;
        }
    }
    false
}

/// The part, which is in lower case, stands in one of the node's texts.
pub fn has_text(part: &[u8], node: &NodeRef<'_>) -> bool
    ensures { result ≡ has_text part.now node.now }
{
    has_lowered(part, node.name().as_bytes())
        || has_lowered(part, node.value().as_bytes())
        || has_pair(part, node)
}
