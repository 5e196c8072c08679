//! Two sessions of one page and two front ends, of this protocol: the theory of such runs, `pair_law` of session_runs, over the real
//! crates. Nothing here runs.
//!
//! Promise, and way in: the laws of src/laws.rt. `pair_law`: while the parts of a run go on, the two whole streams, folded into two front
//! ends, meet no fault and show just what each session's client sees; once all has come, no ask waits.
//!
//! `frame_law`: what is sent is routed and tagged as session_mux does it. `sending_law`: what front ends send may come in such a run.
//! `same_step_law`: the run's step of two clients is the back end's. `pair_script_law`: `pair_law` of the lines of a script.
//! `pair_fetch_law`: after a settle with its fetches each front end shows its client, with each text.
//!
//! Its words are in specs/: what a frame is that goes up (`SessionWays`), what the front ends read and how the back end goes on for one
//! client of two (`Clients`), what a front end shows of a client and what it may send (`Shown`), the runs (`PairFits`), what ties their
//! frames to the router and the tags (`FrameLaws`), what may come in them (`Sendings`), and how the step of a run is that of the back end
//! (`SameSteps`). What a frame is that comes down, and the fold of two front ends, stand in multi_replay (`Incoming`, `Folds`).
#![tactic(auto)]

mod laws;

pub use laws::{frame_law, pair_fetch_law, pair_law, pair_script_law, same_step_law, sending_law};
