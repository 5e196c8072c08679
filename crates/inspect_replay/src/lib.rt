//! The top call: the replay of a script, a back end and a front end over a link, and what the script's lines print. And the back
//! end alone, which serves one client, or two on one pipe; a replay with two front ends; and a drill, whose script is made from one
//! number.
//!
//! Promise: the clauses of `inspect` (src/program.rt), for every input and every source, sink and link that keep their traits'
//! contracts; over an honest link the sink takes exactly the report of the script.
//!
//! Way in: `inspect` with the program's words; `status_line` and `exit_code` of what it answers.
//!
//! Laws: `fits_law` of `inspect_world` and `pair_script_law` of `pair_world`, offered here. What each answer says is one table (`says`, of
//! `replay_parts`); the clauses over every link stand in specs/Followed, those of `serve` and `share` in specs/Serving, those of `pair` in
//! `pair_replay`, what a function of a run takes a run to in specs/Runs and in specs/Moments of `replay_parts`.
#![tactic(auto)]

mod clients;
mod counts;
mod drills;
mod one_front;
mod program;
mod run;
mod serve;
mod service;
mod turns;
mod words;

pub use inspect_world::fits_law;
pub use pair_world::pair_script_law;
pub use program::{INPUT_LIMIT, LINE_LIMIT, inspect};
pub use replay_parts::{Status, exit_code, status_line};
pub use replay_script::LineFault;
