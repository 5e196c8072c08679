/// The highest level of a node of a page; the document has level 0.
pub const MAX_LEVEL: u64 = 500;

/// How many levels a page has at most, the document's among them.
pub const MOST_LEVELS: u64 = MAX_LEVEL + 1;

/// How many levels of nodes a message tells at most, below the node that it is about.
pub const MOST_TOLD: u64 = 60;

/// The most nodes of a page, with the document.
pub const MAX_NODES: usize = 100_000;

/// The most sheets of a page.
pub const MAX_SHEETS: usize = 1000;

/// The most bytes of a sheet's text.
pub const MAX_SHEET_BYTES: usize = 1 << 24;
