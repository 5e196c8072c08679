//! The script of a drill, made line by line from one number: a page of so many divs, and up to 1,000 changes, asks and deliveries.
//!
//! Promise: `Drill::start` makes exactly the page of the drill, which a page may hold, and what is left then are exactly the lines of
//! its script, of which `Drill::next_line` hands out one after the other, none of them kept.
//!
//! Way in: those two. `is_drill` says which numbers of divs there are.
//!
//! Laws: none in code. proofs/LineKindLaws has for crates above which lines there are (specs/LineKinds), how many, and that each may be
//! carried out. What is drawn stands in specs/Draws, the page in specs/Divs, DrillNodes and DrillPages, the lines in specs/DrillLines.
#![tactic(auto)]

mod asks;
mod course;
mod digits;
mod divs;
mod draws;
mod drill;
mod hanging;
mod nodes;
mod pages;
mod sheet;

pub use drill::{Drill, is_drill};
