//! Cuts the text of a style sheet, a declaration or a selector into its pieces, by CSS Syntax 3, section 4, in a profile.
//!
//! A text is taken as it is: nothing is replaced before it is cut. Places are bytes from 0.
//!
//! Promise: `Tokens::next` gives exactly the pieces of the table, one after the other, and `unescape` the value of a piece.
//! Neither answers an error but for memory: every text has its pieces.
//!
//! Way in: `Tokens` for one piece after the other, `all_tokens` for the list; `Token` has a kind and a range; `unescape` and
//! `spells` for what a piece says.
//!
//! Laws: `table_law` (each piece is of the first row of the table that applies, and the longest of it) and `seam_law` (where a
//! text may be cut with its pieces kept), both in src/laws.rt. The table stands in specs/Rows, specs/Forms and specs/Table, as
//! CSS Syntax has it.
#![tactic(auto)]

mod codes;
mod escapes;
mod laws;
mod names;
mod rows;
mod runs;
mod spelling;
mod token;
mod tokens;
mod values;

pub use laws::{seam_law, table_law};
pub use spelling::spells;
pub use token::{Range, Token, TokenKind};
pub use tokens::{Tokens, all_tokens};
pub use values::unescape;
