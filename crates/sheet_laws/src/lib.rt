//! Laws of the reading of style sheets: what `sheet_reader` and `selectors` compute is what CSS Syntax 3 and Selectors 3 say, in
//! relations from the table of pieces up to the rules and places of a sheet. Nothing here runs.
//!
//! Promise, and way in, are the five laws of src/laws.rt: `cut_law` (one way to cut a text by the table), `prelude_law` (where a
//! prelude is a selector list), `declaration_law` (what a declaration is, with its `!important`), `place_law` (the places for a
//! rule) and `reading_law` (each text says one sheet, which is the one that is read); `inserted_law` of src/insertion.rt (what a
//! reading becomes where a rule is put in); and `head_law` and `media_head_law` of src/heads.rt (what it becomes where the selector list
//! of a rule, or the prelude of a media rule, is replaced).
//!
//! They stand in a crate of their own, above the three that they are about, so that none of these is proved anew for them. Their
//! words are in specs/: values, places, readings, and a reading with a rule put in or with a new prelude.
#![tactic(auto)]

mod heads;
mod insertion;
mod laws;

pub use heads::{head_law, media_head_law};
pub use insertion::inserted_law;
pub use laws::{cut_law, declaration_law, place_law, prelude_law, reading_law};
