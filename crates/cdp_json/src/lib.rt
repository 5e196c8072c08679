//! The values of the messages as JSON: objects are read field by field, in the order of their names, and written likewise.
//!
//! Promise: each field reader answers exactly by the value (the field, that it is missing, or that it is of the wrong kind); an
//! object that is described once is read exactly where it is spelled so, and what was written is read again.
//!
//! Way in: the field readers (`int_field`, `text_field` and the like) for commands, whose unknown names are ignored; a `Cursor`
//! for objects that have exactly their fields; `ObjectBuilder` to write one. Where a message is read and written with no values in
//! between: `take_key` and the like off the tokens of its text, `write_whole_field` and `write_text_field`.
//!
//! Law: `read_back_law` (src/laws.rt), plain JSON is read again from its text. What a description of an object has to keep is
//! `LawfulKind` (specs/Lawful); how one is put together stands in specs/Rows and specs/Kinds.
#![tactic(auto)]

mod cursor;
mod fields;
mod laws;
mod lists;
mod token_write;
mod tokens;
mod values;
mod whole;
mod write;

pub use cursor::Cursor;
pub use fields::{Field, depth_field, flag_field, int_field, list_field, object_field, text_field};
pub use laws::read_back_law;
pub use lists::{whole_list, wholes_of};
pub use token_write::{write_text_field, write_whole_field};
pub use tokens::{
    ScanErr, is_counted, take_any_key, take_begin_array, take_begin_object, take_counted_field,
    take_end_object, take_key, take_text, take_text_field, take_whole, take_whole_field,
};
pub use values::{
    COUNTED_LIMIT, depth_of, flag_of, list_of, object_of, signed_of, text_of, whole_of,
};
pub use whole::all_whole;
pub use write::{ObjectBuilder, put};
