//! A set and a map of numbers for numbers that follow one another, or nearly, as ids and serials do: there a look-up and a
//! change take one step. And a list of numbers in which the place of a number is found in a few steps.
//!
//! Promise: `NumberMap` and `NumberSet` are exactly a map and a set, and `NumberList` is exactly a list; each call gives and leaves
//! just what the same call of an ordered map, or of a list, would. That it is quick is no clause.
//!
//! Way in: the three types, with the calls of a map and of a list. In a map, numbers that follow one another stand in a row, from
//! its first to its last, and those before it or too far behind it in a tree. A long list stands in shelves, and keeps a map of
//! the shelf in which it looks for each number first.
//!
//! Laws: none; each call's contract is the law. What stands in a row under a key is specs/Rows, the place of a number in a list
//! specs/Places, and how a long list is cut into shelves specs/Shelves.
#![tactic(auto)]

mod lists;
mod long_lists;
mod maps;
mod rows;
mod scans;
mod shelves;

pub use lists::NumberList;
pub use maps::{NumberMap, NumberSet};
