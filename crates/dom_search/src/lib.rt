//! Search: which nodes of a page a query finds (the protocol's `DOM.performSearch`), and what was found, kept by number.
//!
//! Promise: `found` lists exactly the nodes but the document that have the query as a part of one of their texts, or that some
//! selector of the query matches, once each and in document order. `Searches` gives and leaves exactly what its definition says.
//!
//! Way in: `found` for a page and a query; `Searches` keeps such lists: `keep`, `slice`, `discard`, `clear`, `next`.
//!
//! Laws, in src/laws.rt: `found_law` (a node is in the list exactly where it is one of the page, is not the document and the query
//! finds it; once, and in document order). What a query finds stands in specs/Found, lists by number in specs/Searches.
#![tactic(auto)]

mod finding;
mod laws;
mod searches;
mod texts;

pub use finding::found;
pub use laws::found_law;
pub use searches::{SearchFault, Searches};
