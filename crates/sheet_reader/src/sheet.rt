//! Sheets as they are read.

use crate::lists::{MediaRules, Places, Properties, StyleRules};
use css_tokens::Range;
use node_tree::Text;
use selectors::SelectorList;

/// A declaration (CSS Syntax 3, section 5.4.6).
#[derive(Drop)]
pub struct Property {
    /// The name's value, escapes read, in ASCII lower case unless it begins with `--`.
    pub name: Text,
    /// From the first to the last piece of the value that is neither white space nor comment, without `!important`. Empty,
    /// and right behind the colon, where a custom property has no value.
    pub value: Range,
    pub important: bool,
    /// From the name to the last such piece, `!important` included and the semicolon not.
    pub whole: Range,
}

/// A qualified rule whose prelude is a selector list.
#[derive(Drop)]
pub struct StyleRule {
    /// From the first to the last piece of the prelude that is neither white space nor comment.
    pub prelude: Range,
    /// Their ranges are places in the sheet's text.
    pub selectors: SelectorList,
    /// Between the braces, or up to the text's end.
    pub body: Range,
    pub properties: Properties,
    /// The innermost media rule around it, by its place among the media rules of the sheet.
    pub media: Option<usize>,
}

/// An at-rule named `media` with a block.
#[derive(Clone, Copy)]
pub struct MediaRule {
    /// From the first to the last piece of the prelude that is neither white space nor comment. Empty, and right behind the
    /// at-keyword, where there is none.
    pub prelude: Range,
    /// The innermost media rule around it, by its place among the media rules of the sheet.
    pub inside: Option<usize>,
}

/// What the text of a style sheet says.
#[derive(Drop)]
pub struct Sheet {
    pub rules: StyleRules,
    /// Where a rule may be added: 0, and the end of each whole part at top level, ascending.
    pub places: Places,
    pub media: MediaRules,
}
