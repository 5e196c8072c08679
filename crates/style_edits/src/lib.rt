//! Edits of the texts of style sheets, each with the splices that lead back.
//!
//! A client names a part of a text by lines and columns from 0: a line ends at a line feed alone, and a column counts UTF-16
//! units. Splices name it by bytes. An edit is made whole or not at all.
//!
//! Promise: on Ok the book is exactly what the edit comes to, by ids, origins and texts alone, and the answer leads back; on a
//! fault it is the first by number of the first edit that has one, and the book is as before, as it is after want of memory.
//! A sealed text in the place of a rule's body is read alone, and after another edit what stands between the ends of rules with blocks at
//! top level around it; the sheet's reading is moved. Where a call edits the bodies of a sheet more than once, the sheet is
//! taken out of the book once, its text edited in place, and its rules moved once where the edits ascend.
//!
//! Way in: `set_styles`, `set_selector`, `set_text`, `add_rule` and `set_media`; `put_back` makes a splice; `add_sheet` and `drop_sheet`
//! for a script.
//!
//! Laws: `splice_law` and `edits_law` (src/laws.rt), splicing back, the last one first, gives the book before; `rules_law`, the style
//! rule that an edit made is there, but for an edit of a prelude. What each edit comes to stands in specs/Edits, splices in
//! specs/Splices.
#![tactic(auto)]

mod drafts;
mod edits;
mod faults;
mod laws;
mod lines;
mod media_edits;
mod rule_places;
mod sheets;
mod splice;
mod style_runs;

pub use edits::{StyleEdit, add_rule, set_selector, set_styles, set_styles_noting, set_text};
pub use faults::{SheetErr, SheetFault};
pub use laws::{edits_law, rules_law, splice_law};
pub use lines::LineRange;
pub use media_edits::{edited_media, set_media};
pub use rule_places::{RulePlace, edited_rule};
pub use sheets::{add_sheet, drop_sheet};
pub use splice::{Splice, put_back};
