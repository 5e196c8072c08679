//! JSON texts in their usual form, read off their front: token by token, or short ones as values.
//!
//! The readers of `json` and `serde_json` begin each text with a table of 16 kB, which finds the tokens of a long one fast: of a message
//! of a hundred bytes it takes longer than all else. Here there is no table, and a reader that knows what has to come next compares.
//!
//! Promise: the tokens are those that `json` reads, and the value that which `serde_json` reads. Only the usual form is read: whole
//! numbers spelled as they are written, at most one space behind a comma or a colon, and in values no escapes. Any other text is left to
//! `serde_json`.
//!
//! Ways in: `UsualReader`, `read_short`.
#![tactic(auto)]

mod escapes;
mod lexemes;
mod reader;
mod short_err;
mod value;

pub use reader::UsualReader;
pub use value::read_short;
