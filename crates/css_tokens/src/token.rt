//! Kinds of pieces, and where a piece stands in its text.

/// The kind of a piece: one variant for each form that the table of pieces has.
#[derive(Clone, Copy)]
pub enum TokenKind {
    /// `/*` up to and with the next `*/`, or to the text's end.
    Comment,
    /// A whole run of spaces, tabs and newlines.
    WhiteSpace,
    /// A string with its quotes. At the text's end the second quote may be missing.
    Str,
    /// A string that a newline cut short. The newline is not part of it.
    BadString,
    /// `#` and a name.
    Hash {
        /// Whether the name is one that an ident could have, so that the hash may be an id selector.
        flag: bool,
    },
    Number,
    /// A number and `%`.
    Percentage,
    /// A number and its unit.
    Dimension,
    /// `-->`
    Cdc,
    Ident,
    /// A name and its `(`.
    Function,
    /// `url(` and what follows without quotes, with its `)` unless the text ends before.
    Url,
    /// What opens as a url and is none, up to and with the next `)`.
    BadUrl,
    /// `<!--`
    Cdo,
    /// `@` and a name.
    AtKeyword,
    Colon,
    Semicolon,
    Comma,
    /// `[`
    OpenSquare,
    /// `]`
    CloseSquare,
    /// `(`
    OpenRound,
    /// `)`
    CloseRound,
    /// `{`
    OpenCurly,
    /// `}`
    CloseCurly,
    /// Any other character. It is always ASCII, and so one byte.
    Delim,
}

/// A part of a text: the bytes from `start` up to `end`.
#[derive(Clone, Copy)]
pub struct Range {
    pub start: usize,
    pub end: usize,
}

/// A piece of a text: its kind, and the bytes from `start` up to `end`.
#[derive(Clone, Copy)]
pub struct Token {
    pub kind: TokenKind,
    pub start: usize,
    pub end: usize,
}

/// A piece at the front of a text: its kind, and how many bytes it takes.
#[derive(Clone, Copy)]
pub(crate) struct Piece {
    pub kind: TokenKind,
    pub len: usize,
}
