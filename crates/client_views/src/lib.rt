//! What a client may know of a page, and how it changes: views, and the moves that lead from view to view, each of which one
//! message tells. Code is only what an Ok reply changes; the rest are definitions.
//!
//! Promise: `Effect::of_reply` is exactly what the reply changes of what the front end knows, beside the reply itself.
//!
//! Way in: `View` in specs/Views (a tree of shown nodes, and the sheets that were told); `Move`, its message and the view after
//! it in specs/Moves; a course is a list of moves from view to view; specs/Effects for code.
//!
//! Laws: none here. The back end's steps are courses (`step_law` of `back_end`), and a front end takes the message of any move
//! from the view before to the view after it (`move_law` of `front_mirror`).
#![tactic(auto)]

mod effects;

pub use effects::Effect;
