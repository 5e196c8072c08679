/// A position in a text.
#[derive(Clone, Copy)]
pub struct Position {
    /// From 0. A line ends at a line feed alone.
    pub line: u64,
    /// From 0, in UTF-16 units.
    pub column: u64,
}
