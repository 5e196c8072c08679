//! A replay with two front ends: a back end with two clients of one page, and a front end for each, over one link.
//!
//! Promise: the clauses of `run_pair` (src/run.rt), for every input and every sink and link that keep their traits' contracts; over an
//! honest link the sink takes exactly the report of the script, as long as there is room.
//!
//! Way in: `run_pair`. `TwoFronts` (src/two_fronts.rt) has both ends: two seats behind a `Mux`, two front ends behind `Fronts`.
//!
//! Law: `session_numbers_law`, that the numbers of sessions last. What a line does and prints stands in pair_world (specs/PairScripts);
//! what holds of each call in specs/.
#![tactic(auto)]

mod carry;
mod laws;
mod reading;
mod run;
mod settles;
mod shows;
mod two_fronts;

pub use laws::session_numbers_law;
pub use run::run_pair;
