//! The theory of runs: a front end and a state with two streams between them, over any protocol; and two sessions of one page on one
//! pipe, with a front end each. Nothing here runs.
//!
//! Promise, and way in, are the laws of src/laws.rt. `run_law`: where each step takes a front end that fits the state to one that fits the
//! state after it, the whole streams of a run, folded, meet no fault and fit its state, however the pipes are cut. `fetch_law`: the same
//! run with the fetches of its settles goes together with it. `pair_law`: by what one front end and one client keep, two front ends show
//! two sessions.
//!
//! Its words are in specs/: `World` (a run) and `Passage` (one part of it), `Laws` and `Fits` (specs/Fold), `FrontPair` and `ClientPair`
//! (specs/Pairs). Crates above take its lemmas for their own relations; the laws say the same of tests, over any types.
#![tactic(auto)]

mod laws;

pub use laws::{fetch_law, pair_law, run_law};
