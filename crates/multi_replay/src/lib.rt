//! Two front ends on one pipe of messages: the first for the root session, and a second while a session is attached.
//!
//! Promise: `take` folds each frame of all bytes taken so far into the front end whose it is, and refuses the first that is no
//! message for either, by its place in the whole stream. Commands that attach a session and detach it are made here, and the
//! replies to them are taken here.
//!
//! Way in: `Fronts`: `attach`, `detach`, `ask` and `fetch` make frames, `take` takes what comes; `first` and `second` are what the
//! front ends know then.
//!
//! Law, in src/laws.rt: `fronts_law` (two fronts are the fold of the frames that they sent and the bytes that they took). Whose a
//! frame is that comes down stands in specs/Incoming, the fold in specs/Folds, what each call makes of two fronts in specs/States.
#![tactic(auto)]

mod commands;
mod folding;
mod fronts;
mod incoming;
mod laws;
mod outcomes;
mod pair;
mod targets;

pub use fronts::Fronts;
pub use laws::fronts_law;
