//! The words of a text: its pieces but white space and comments.

ghost use Rattle.std.specs.Prelude.{◌≡◌, ◌≤◌, All, IfSome, IfNone, IfOk, false, length, option_map};
ghost use Rattle.std.specs.List.{AllByRecursion, prefix_len};
ghost use Rattle.selectors.specs.Words.{word_kind, word_of, passed_over, words_of, words_after, IsWordOf, word_reading, next_word, head};
ghost use Rattle.selectors.specs.Words.{is_mark, is_no_comma, before_comma, from_comma};
ghost use Rattle.css_tokens.specs.Marks.{IsPieceOf};
ghost use Rattle.selectors.specs.Reading.{is_tight, first_is, range_of, is_over};

use css_tokens::{Range, Token, TokenKind, Tokens};
use std::alloc::{AllocError, Global};
use std::marker::Model;

#[derive(Clone, Copy)]
pub enum WordKind {
    Ident,
    /// A name and its `(`.
    Function,
    /// A string with its quotes. At the text's end the second quote may be missing.
    Str,
    /// A hash whose name is one that an ident could have.
    Id,
    AtKeyword,
    /// A character that is a piece of its own: a colon, a semicolon, a comma, a bracket or another delimiter.
    Mark(u8),
    /// `<!--`
    Cdo,
    /// `-->`
    Cdc,
    /// A string that a newline cut short, or a url with what no url may have.
    Bad,
    /// A hash that is no id, a number, a percentage, a dimension or a url.
    Other,
}

/// A piece that is neither white space nor a comment: the bytes from `start` up to `end`.
#[derive(Clone, Copy)]
pub struct Word {
    pub kind: WordKind,
    pub start: usize,
    pub end: usize,
    /// Whether white space stands between it and the word before, or the text's start.
    pub spaced: bool,
}

impl Word {
    /// Whether the word is this one character, in ASCII.
    pub fn is_mark(&self, mark: u8) -> bool
        ensures { result ≡ is_mark mark self.now.kind }
    {
        match self.kind {
            WordKind::Mark(own) => own == mark,
            _ => false,
        }
    }
}

fn word_kind(kind: TokenKind, first: u8) -> WordKind
    ensures { result ≡ word_kind kind first }
{
    match kind {
        TokenKind::Ident => WordKind::Ident,
        TokenKind::Function => WordKind::Function,
        TokenKind::Str => WordKind::Str,
        TokenKind::Hash { flag: true } => WordKind::Id,
        TokenKind::AtKeyword => WordKind::AtKeyword,
        TokenKind::Colon
        | TokenKind::Semicolon
        | TokenKind::Comma
        | TokenKind::OpenSquare
        | TokenKind::CloseSquare
        | TokenKind::OpenRound
        | TokenKind::CloseRound
        | TokenKind::OpenCurly
        | TokenKind::CloseCurly
        | TokenKind::Delim => WordKind::Mark(first),
        TokenKind::Cdo => WordKind::Cdo,
        TokenKind::Cdc => WordKind::Cdc,
        TokenKind::BadString | TokenKind::BadUrl => WordKind::Bad,
        _ => WordKind::Other,
    }
}

/// Whether what follows is spaced, where a piece of this kind is passed over.
fn passed(kind: TokenKind, spaced: bool) -> Option<bool>
    ensures { result ≡ passed_over kind spaced }
{
    match kind {
        TokenKind::Comment => Some(spaced),
        TokenKind::WhiteSpace => Some(true),
        _ => None,
    }
}

fn word_at(text: &str, token: Token, spaced: bool) -> Word
    requires { IsPieceOf text.now token }
    ensures value { result ≡ word_of text.now spaced token }
    ensures cut { IsWordOf text.now result }
{
    let first = text.as_bytes()[token.start];
    Word {
        kind: word_kind(token.kind, first),
        start: token.start,
        end: token.end,
        spaced,
    }
}

/// All words of a text, in order.
pub fn all_words(alloc: Global, text: &str) -> Result<Vec<Word>, AllocError>
    ensures words { IfOk result (λ v. v.items ≡ words_of text.now) }
    ensures each { IfOk result (λ v. AllByRecursion (IsWordOf text.now) v.items) }
{
    let mut words = Vec::new(alloc);
    let mut tokens = Tokens::new(text);
    let mut spaced = false;
    while let Some(token) = tokens.next() {
        if let Some(after) = passed(token.kind, spaced) {
            spaced = after;
            continue;
        }
        words.push(word_at(text, token, spaced))?;
        spaced = false;
    }
    Ok(words)
}

/// The words among some pieces of a text, in order.
pub fn words_among(alloc: Global, text: &str, pieces: &[Token]) -> Result<Vec<Word>, AllocError>
    requires { All (IsPieceOf text.now) pieces.now }
    ensures words { IfOk result (λ v. v.items ≡ words_after text.now false pieces.now) }
    ensures each { IfOk result (λ v. AllByRecursion (IsWordOf text.now) v.items) }
{
    let mut words = Vec::new(alloc);
    let mut spaced = false;
    for piece in pieces {
        if let Some(after) = passed(piece.kind, spaced) {
            spaced = after;
            continue;
        }
        words.push(word_at(text, *piece, spaced))?;
        spaced = false;
    }
    Ok(words)
}

/// From the first to the last word.
pub fn range_of(words: &[Word]) -> Option<Range>
    ensures { result ≡ range_of words.now }
{
    let first = words.first()?;
    let last = words.last()?;
    Some(Range {
        start: first.start,
        end: last.end,
    })
}

/// How many words stand before the first comma.
fn comma_place(words: &[Word]) -> usize
    ensures value { result ≡ prefix_len is_no_comma words.now }
    ensures fits { result ≤ length words.now }
{
    words.iter().take_while(|w| !w.is_mark(b',')).count()
}

/// A text, and those of its words that are still to come. The words may be a part of the text's.
#[derive(Drop)]
pub struct Words<'a> {
    text: &'a str,
    words: &'a [Word],
}

impl<'a> Model for Words<'a> {
    ghost use Rattle.std.specs.List.{AllByRecursion};
    ghost use Rattle.selectors.specs.Words.{WordReading, word_reading, IsWordOf};

    ghost Value = { WordReading };

    ghost view = { λ w. word_reading w.text.now w.words.now };

    ghost invariant = { λ w. AllByRecursion (IsWordOf w.text.now) w.words.now };
}

impl<'a> Words<'a> {
    /// The words of this text, from the first on.
    pub fn new(text: &'a str, words: &'a [Word]) -> Words<'a>
        requires { AllByRecursion (IsWordOf text.now) words.now }
        ensures { result ≡ word_reading text.now words.now }
    {
        Words { text, words }
    }

    /// The text that the words are of.
    pub fn text(&self) -> &'a str
        ensures { result.now ≡ self.now.text }
    {
        self.text
    }

    /// The next word, which is then behind; None at the end.
    pub fn next(&mut self) -> Option<Word>
        ensures first { option_map (λ w. (w, self.new)) result ≡ next_word self.old }
        ensures over { IfNone result (self.new ≡ self.old) }
        ensures cut { IfSome result (IsWordOf self.new.text) }
    {
        match self.words {
            [first, rest @ ..] => {
                self.words = rest;
                Some(*first)
            }
            [] => None,
        }
    }

    /// The next word, which stays.
    pub fn peek(&self) -> Option<Word>
        ensures { result ≡ head self.now }
    {
        match self.words {
            [first, ..] => Some(*first),
            [] => None,
        }
    }

    /// Whether no word is left.
    pub fn is_over(&self) -> bool
        ensures { result ≡ is_over self.now.words }
    {
        self.words.is_empty()
    }

    /// Whether a word is to come that stands with no white space before it.
    pub fn is_tight(&self) -> bool
        ensures { result ≡ is_tight self.now }
    {
        match self.words {
            [first, ..] => !first.spaced,
            [] => false,
        }
    }

    /// Whether the next word is this character.
    pub fn is_mark_next(&self, mark: u8) -> bool
        ensures { result ≡ first_is (λ w. is_mark mark w.kind) self.now.words }
    {
        match self.words {
            [first, ..] => first.is_mark(mark),
            [] => false,
        }
    }

    /// From the first to the last word.
    pub fn range(&self) -> Option<Range>
        ensures { result ≡ range_of self.now.words }
    {
        range_of(self.words)
    }

    /// Takes the words up to the first comma, which stays.
    pub fn until_comma(&mut self) -> Words<'a>
        ensures own { result ≡ word_reading self.old.text (before_comma self.old.words) }
        ensures rest { self.new ≡ word_reading self.old.text (from_comma self.old.words) }
    {
        let all = self.words;
        let n = comma_place(all);
        self.words = &all[n..];
        Words {
            text: self.text,
            words: &all[..n],
        }
    }
}
