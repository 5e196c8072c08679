//! Which elements of a page a selector matches (Selectors 3, in the profile of the crate `selectors`).
//!
//! Promise: every call answers exactly what the definition of a match by cases on the selector says (specs/Matches), lists in
//! document order. How a match is sought is in no clause: below a node the selectors of a list are carried down in one walk
//! where that is quicker, and otherwise each is tried from right to left.
//!
//! Way in: `matches` and `list_matches_node` for one node, `first_match` and `all_matches` below a node; a `Subject` is a node
//! with what its simple selectors ask for computed once, for many selectors.
//!
//! Laws, in src/laws.rt: `nth_law` (an+b holds where the index is a*n+b for some whole n from 0), `not_law` and `operand_law`.
#![tactic(auto)]

mod chains;
mod elements;
mod families;
mod laws;
mod outcome;
mod places;
mod simple;
mod stepped;
mod steps;
mod subjects;
mod texts;
mod walks;

pub use chains::matches_node;
pub use laws::{not_law, nth_law, operand_law};
pub use subjects::{Subject, matches_subject};
pub use walks::{all_matches, first_match, list_matches_node, matches};
