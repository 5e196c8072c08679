//! Style sheets and declarations by CSS Syntax 3, section 5, in a profile: what a text says as a sheet and as a body, where it
//! says it, and a book of sheets that keeps texts and readings together.
//!
//! Every text has one reading. Places are bytes from 0, unless a name says otherwise.
//!
//! Promise: `read_sheet` and `read_style` give exactly that reading; `position` and `byte_at` are the lines and UTF-16 columns
//! of bytes; a `SheetBook` is the list of its entries, each with the reading of its text. `reread` gives the reading of a text of
//! which a part was replaced: where that is the body of a rule, no more than the new body is read, and else no more than what stands
//! between the ends of rules with blocks at top level around it. `plan_reread` takes the memory that it wants, `carry_out` and
//! `SheetBook::retell` take none.
//! An `OpenSheet` is a sheet whose rules get new bodies one after the other: its text is edited in place, and bodies in the order of the
//! text move each rule once. A `SheetText` is the text of a sheet: it finds bytes and positions near marks that it keeps.
//!
//! Way in: those, `reread` for a text of which a part was replaced, `sealed` for one that may stand between braces, and `lone_rule`
//! for one that is one rule.
//!
//! Laws, in src/laws.rt: `grammar_law` (parts and items are as CSS Syntax has them, and in no other way), `nesting_law`,
//! `position_law`, `usable_law` (every range can be cut out, and they stand in one another as they should), `moved_law` (after an
//! edit of a rule's body the reading is the old one with its places moved, as `move_body` makes it without reading) and `joined_law`
//! (what stands behind a `}` at top level is read as it is alone). Laws from the table of pieces up stand in `sheet_laws`.
#![tactic(auto)]

mod book;
mod brackets;
mod declarations;
mod ends;
mod filings;
mod frames;
mod late;
mod laws;
mod lists;
mod lone;
mod marks;
mod media;
mod moves;
mod opened;
mod parts;
mod place;
mod places;
mod renumber;
mod repairs;
mod rereads;
mod rules;
mod sealing;
mod sheet;
mod sheet_texts;

pub use book::{SheetBook, SheetEntry};
pub use declarations::read_style;
pub use filings::{NameKind, name_digest};
pub use laws::{
    around_law, grammar_law, joined_law, moved_law, nesting_law, position_law, usable_law,
};
pub use lists::{MediaRules, Places, Properties, StyleRules};
pub use lone::{LoneRule, lone_rule};
pub use marks::byte_at;
pub use moves::move_body;
pub use node_tree::Origin;
pub use opened::OpenSheet;
pub use place::Position;
pub use places::{position, position_from, units_at};
pub use repairs::{NewPart, Share};
pub use rereads::{NewBody, Rereading, carry_out, plan_reread, reread};
pub use rules::read_sheet;
pub use sealing::{sealed, sealed_prelude};
pub use sheet::{MediaRule, Property, Sheet, StyleRule};
pub use sheet_texts::SheetText;
