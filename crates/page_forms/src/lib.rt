//! What a page that is loaded and a change that a script makes of it say, read from JSON: exactly their forms, and nothing else.
//!
//! Promise: `read_page` gives exactly the nodes and sheets of a page that may be held, or its first fault by number; `read_act`
//! exactly the act that a value spells, or that it spells none.
//!
//! Way in: those two for JSON values; `scan_page` for the tokens of a text: where it answers Ok they are those of JSON that is
//! read as this page, and it may decline any text, which is then read as a value. `Act::valid` and `PageForm::valid` tell a proof
//! that all texts are UTF-8.
//!
//! Law: `texts_law` (src/laws.rt), the texts of what is read are UTF-8. PAGE stands in specs/Pages and specs/Sheets, ACT in
//! specs/Acts and specs/SheetActs.
#![tactic(auto)]

mod acts;
mod laws;
mod mediums;
mod node_scan;
mod page_scan;
mod pages;
mod row_scan;
mod sheet_acts;
mod sheets;
mod valid_texts;

pub use acts::{Act, ActErr, read_act};
pub use cdp_json::ScanErr;
pub use laws::texts_law;
pub use mediums::usual_medium;
pub use page_scan::scan_page;
pub use pages::{PageForm, read_page};
pub use sheets::SheetForm;
