//! The cascade (CSS Cascade 4, section 6, in a profile): which style rules match an element, in the order in which they count,
//! and which declaration of a name wins.
//!
//! Promise: `matched` is all pairs of a sheet and a style rule of which some selector matches, in the order of the key (origin,
//! specificity, the sheet's place, the rule's place), each with the places of its matching selectors; `winners` marks for each
//! declaration whether it wins.
//!
//! Way in: `matched` for an element of a page and a book of sheets, `winners` for the blocks of an element.
//!
//! Laws, in src/laws.rt: `order_law` (the keys ascend, so none stands twice), `standing_law` (what stands in the list is what
//! stands for the rules that apply), `places_law` (the same of matching selectors), `filing_law` (an element that a selector matches
//! has what the selector is filed under, so that most rules need no look) and `winner_law` (a winner is above each other declaration
//! of its name). The key stands in specs/Precedence, what a winner is in specs/Winning.
#![tactic(auto)]

mod blocks;
mod element_names;
mod hits;
mod keys;
mod laws;
mod matching;
mod media_held;
mod winning;

pub use blocks::{Block, Decl, Declarations};
pub use hits::Hit;
pub use laws::{filing_law, order_law, places_law, standing_law, winner_law};
pub use matching::{matched, matched_on};
pub use winning::winners;
