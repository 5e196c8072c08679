//! The run of a script over two streams: what the ends have sent fits the page, whenever it is folded whole. Nothing of it runs:
//! it is the theory of the top call.
//!
//! Promise: `report` (specs/Scripts) is what a replay writes, computed from the page alone; and a front end that folds the down
//! stream of a run meets no fault and shows the page's cut, however the pipes were cut.
//!
//! Way in: `World` (specs/World: a state, two streams, what was spent) and what each line does to it and prints; `Fits` and
//! `IsFit` (specs/Fits); the run with a settle's fetches (specs/Fetches, specs/FreshRuns).
//!
//! Law: `fits_law` (src/laws.rt, specs/ScriptsFit), also of the run with fetches, and that undo restores at each moment.
#![tactic(auto)]

mod laws;

pub use laws::fits_law;
