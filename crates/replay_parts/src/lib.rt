//! What runs of a script have in common, with one front end and with two: the ends of the link and their calls, why a run stops and what
//! each stop says, and what the shows of a script print.
//!
//! Promise: each call says what it sent or took, or wrote; a stop by a fault comes only where a count of faults rose.
//!
//! Way in: `Ends`, whose calls send and take over a link, `print_outline` .. `print_fault` over a sink, `Stop` for why a run ends early,
//! `Status` for how the program ended, with `status_line` and `exit_code`.
//!
//! Law: none of its own. What each answer says is one table (`says`, specs/Says); the clauses on answers stand in specs/Answers and
//! specs/Stops, one moment of a run in specs/Moments.
#![tactic(auto)]

mod ends;
mod moments;
mod page_lines;
mod panel_lines;
mod pause_lines;
mod sheet_lines;
mod show;
mod status;
mod stop;
mod style_lines;

pub use ends::Ends;
pub use moments::{Printed, Watched};
pub use page_lines::page_text;
pub use show::{
    print_fault, print_matched, print_outline, print_page, print_panels, print_pauses,
    print_replies, print_sheets,
};
pub use status::{Status, exit_code, status_line};
pub use stop::Stop;
