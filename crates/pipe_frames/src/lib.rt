//! The outside of the inspector, as traits with a meaning: a source of bytes, a sink for bytes, and the link of two pipes
//! between a back end and a front end. Beside them their implementations, and the frames that a pipe carries.
//!
//! Promise: a `Splitter` hands out exactly the frames of the bytes that it took, in whatever pieces they came; each
//! implementation in memory does exactly what it is said to do; a fault is answered only where a count of faults rose.
//!
//! Way in: `Source`, `Sink` and `Link` for callers, `MemSource`, `MemSink`, `MemLink` and `LyingLink` for tests, `StdSource` and
//! `StdSink` for main; `Splitter` and `put_frame` for frames, `read_all` and `write_all` for whole texts.
//!
//! Law: `frames_law` (src/frames.rt), there is one way to cut bytes into frames. What a pipe and an honest link are stands in
//! specs/Pipe.
#![tactic(auto)]

mod channel;
mod frames;
mod given;
mod lying;
mod memory;
mod outside;
mod schedule;
mod standard;
mod whole;

pub use frames::{Splitter, frames_law, put_frame};
pub use lying::LyingLink;
pub use memory::{MemLink, MemSink, MemSource};
pub use outside::{Failed, Link, OutErr, Sink, Source};
pub use standard::{StdSink, StdSource};
pub use whole::{ReadErr, read_all, write_all};
