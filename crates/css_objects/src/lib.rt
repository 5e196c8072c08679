//! The objects of the protocol's CSS domain, as typed values and as JSON: ranges, selectors, styles, rules, media rules and
//! headers of sheets, and the results that are made of them.
//!
//! Promise: each object is described once; a reader (`rule_of`, `header_of` and the like) gives exactly what a value spells,
//! none where it spells no such object, and a writer (`rule_value`, `header_value`) builds exactly its JSON.
//!
//! Way in: the types, `Listed` for each list in a public field, and a reader and a writer for each object and each result of a
//! CSS method; matched styles and what only they hold are written and scanned as tokens (`write_matched`, `scan_matched`).
//!
//! Law: `css_objects_law` (src/laws.rt, specs/Laws): what is read is spelled so and what is spelled is read, no value spells
//! two, the JSON is UTF-8 where the texts are, and how deep each object nests.
#![tactic(auto)]

mod laws;
mod listed;
mod media;
mod ranges;
mod results;
mod rules;
mod scan;
mod selectors;
mod sheets;
mod styles;
mod token_write;

pub use laws::css_objects_law;
pub use listed::Listed;
pub use media::{Media, media_of, media_value};
pub use node_tree::Origin;
pub use ranges::{SourceRange, range_of, range_value};
pub use results::{
    class_names_of, class_names_value, new_media_of, new_media_value, new_rule_of, new_rule_value,
    new_selectors_of, new_selectors_value, sheet_text_of, sheet_text_value, styles_of,
    styles_value,
};
pub use rules::{
    Inherited, Matched, Rule, RuleMatch, inherited_of, match_of, matched_of, rule_of, rule_value,
};
pub use scan::scan_matched;
pub use selectors::{
    RuleSelectors, SelectorValue, Weight, selector_of, selector_value, selectors_of,
    selectors_value,
};
pub use sheets::{
    Header, header_of, header_value, number_in, sheet_in, sheet_of, sheet_text, sheet_value,
};
pub use styles::{
    Style, StyleProperty, inline_style_of, property_of, property_value, rule_style_of, style_value,
};
pub use token_write::write_matched;
