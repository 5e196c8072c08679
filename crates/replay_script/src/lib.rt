//! The lines of a replay script, each read into its form or refused with its first fault.
//!
//! Promise: `read_line` gives exactly a line's form or its first fault in order, whether a load is read off its tokens or as a
//! JSON value.
//!
//! Way in: `Lines` for the lines of a text, `read_line` for each, `Line` for the forms; `has_long_line` for the limit;
//! `fault_name` for what a refused line is told with.
//!
//! A script with two front ends has two lines more, and lines that name the second front: `read_pair_line`, `PairLine`; their forms
//! and faults stand in specs/PairLines.
//!
//! Laws: `lines_law` (src/lines.rt, there is one way to cut a text into lines), `forms_law` and `script_law` (src/script.rt,
//! what each form keeps, and which line of a script is the first that is refused). Forms stand in specs/Forms, faults in
//! specs/Faults, the first refused line in specs/Script.
#![tactic(auto)]

mod faults;
mod forms;
mod line_kinds;
mod lines;
mod load_scan;
mod pair_lines;
mod raw_texts;
mod reads;
mod script;

pub use faults::{LineErr, LineFault, fault_name};
pub use forms::{Ask, Line};
pub use lines::{Lines, has_long_line, lines_law};
pub use pair_lines::{PairLine, pair_forms_law, read_pair_line};
pub use reads::read_line;
pub use script::{forms_law, script_law};
