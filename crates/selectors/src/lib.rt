//! Selector lists by Selectors Level 3, in a profile: which list a text spells, if it spells one, and how specific a selector
//! is. The matching of elements is not here.
//!
//! A text is read by its words, its pieces but white space and comments. Places are bytes from 0.
//!
//! Promise: `read_selectors` gives exactly the list that a text spells, and Invalid exactly where none does.
//!
//! Way in: `read_selectors` for a text, `read_list` for the words among some pieces (`words_among`), for crates that read
//! sheets; `specificity` of a selector; `value_of`, `lower_of` and `range_of` of words.
//!
//! Laws, in src/laws.rt: `grammar_law` (what is read is what a declarative grammar derives, both ways), `nth_law` (the same of
//! an+b alone) and `usable_law` (a list's selectors can be cut out of the text). The grammar stands in specs/Grammar,
//! specs/Parts and specs/NthGrammar.
#![tactic(auto)]

mod laws;
mod names;
mod nth;
mod read;
mod selector;
mod simple;
mod values;
mod weight;
mod words;

pub use laws::{grammar_law, nth_law, usable_law};
pub use read::{read_list, read_selectors};
pub use selector::{
    AttrOp, Compound, Joint, NthKind, SelErr, Selector, SelectorList, Simple, Test, move_place,
    move_range,
};
pub use values::{lower_of, value_of};
pub use weight::{Spec, specificity};
pub use words::{Word, WordKind, Words, all_words, range_of, words_among};
