//! Classes of bytes. A byte of a character beyond ASCII is in the class that the character is in.

ghost use Rattle.std.specs.Prelude.{◌≡◌};
ghost use Rattle.css_tokens.specs.Codes.{is_newline, is_white, is_ident_start, is_ident, is_non_printable, is_quote, is_sign};

pub(crate) fn is_newline(b: u8) -> bool
    ensures { result ≡ is_newline b }
{
    b == b'\n' || b == b'\x0c' || b == b'\r'
}

pub(crate) fn is_white(b: u8) -> bool
    ensures { result ≡ is_white b }
{
    b.is_ascii_whitespace()
}

pub(crate) fn is_ident_start(b: u8) -> bool
    ensures { result ≡ is_ident_start b }
{
    b.is_ascii_alphabetic() || b == b'_' || (b == 0 || b >= 128)
}

pub(crate) fn is_ident(b: u8) -> bool
    ensures { result ≡ is_ident b }
{
    is_ident_start(b) || (b.is_ascii_digit() || b == b'-')
}

pub(crate) fn is_non_printable(b: u8) -> bool
    ensures { result ≡ is_non_printable b }
{
    matches!(b, 1..=8) || b == 11 || (matches!(b, 14..=31) || b == 127)
}

pub(crate) fn is_quote(b: u8) -> bool
    ensures { result ≡ is_quote b }
{
    b == b'"' || b == b'\''
}

pub(crate) fn is_sign(b: u8) -> bool
    ensures { result ≡ is_sign b }
{
    b == b'+' || b == b'-'
}
