//! Rows of the tokenizer: `cut [TEXT]` names the pieces of a text and how many bytes each has, `next [TEXT]` asks for two
//! pieces, and `say [TEXT]` tells what an escaped text stands for.

use crate::row_parts::{Answer, text_or_empty};
use css_tokens::{Token, TokenKind, Tokens, all_tokens, unescape};
use serde_json::Value;
use std::alloc::{AllocError, Global};

/// What comes of a row.
pub(crate) fn told(
    alloc: Global,
    word: &str,
    args: &Value,
    answer: &mut Answer,
) -> Result<(), AllocError> {
    let text = text_or_empty(args, 0);
    match word {
        "cut" => push_pieces(all_tokens(alloc, text)?.as_slice(), answer),
        "next" => push_first_two(text, answer),
        "say" => answer.push(unescape(alloc, text)?.as_str()),
        _ => answer.push("no such call"),
    }
    Ok(())
}

/// A short name of the kind.
fn name(kind: TokenKind) -> &'static str {
    match kind {
        TokenKind::Comment => "comment",
        TokenKind::WhiteSpace => "white",
        TokenKind::Str => "string",
        TokenKind::BadString => "bad-string",
        TokenKind::Hash { flag: true } => "id-hash",
        TokenKind::Hash { flag: false } => "hash",
        TokenKind::Number => "number",
        TokenKind::Percentage => "percentage",
        TokenKind::Dimension => "dimension",
        TokenKind::Cdc => "cdc",
        TokenKind::Ident => "ident",
        TokenKind::Function => "function",
        TokenKind::Url => "url",
        TokenKind::BadUrl => "bad-url",
        TokenKind::Cdo => "cdo",
        TokenKind::AtKeyword => "at-keyword",
        TokenKind::Colon => ":",
        TokenKind::Semicolon => ";",
        TokenKind::Comma => ",",
        TokenKind::OpenSquare => "[",
        TokenKind::CloseSquare => "]",
        TokenKind::OpenRound => "(",
        TokenKind::CloseRound => ")",
        TokenKind::OpenCurly => "{",
        TokenKind::CloseCurly => "}",
        TokenKind::Delim => "delim",
    }
}

/// The name of each piece's kind, and how many bytes it has.
fn push_pieces(tokens: &[Token], answer: &mut Answer) {
    if tokens.is_empty() {
        answer.push("none");
    }
    for token in tokens {
        answer.push(name(token.kind));
        answer.push(" ");
        answer.push_number(token.end.saturating_sub(token.start) as u64);
        answer.push(" ");
    }
}

/// Where the first two pieces stand.
fn push_first_two(text: &str, answer: &mut Answer) {
    let mut tokens = Tokens::new(text);
    push_place(tokens.next(), answer);
    answer.push(" ");
    push_place(tokens.next(), answer);
}

/// Where a piece stands, if there is one.
fn push_place(token: Option<Token>, answer: &mut Answer) {
    match token {
        Some(Token { start, end, .. }) => answer.push_range(start, end),
        None => answer.push("none"),
    }
}
