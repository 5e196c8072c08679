// A text of lines, and some of them replaced.
ghost use Rattle.std.specs.Prelude.{◌≡◌, ◌+◌, ◌≤◌, ◌++◌, ℕ, List, [], true, IfOk, OnOk, IfSome, length, take, drop, string_bytes};
ghost use Rattle.std.specs.List.{list_all, concat};
ghost use Rattle.panels.specs.Lines.{is_line};
ghost use Rattle.panels.specs.Chunks.{AreChunks, IsEdge, lines_length};

use crate::chunks::{Chunk, Edge, chunks_of, edge_before, edge_behind, lines_end, mend};
use std::alloc::{AllocError, Global};
use std::marker::Model;
use std::mem;

/// Lines of a text, from one byte to another, and the edges of the chunks in which they stand.
#[derive(Drop)]
struct LineSpan {
    from: usize,
    to: usize,
    start: Edge,
    stop: Edge,
}

/// Where so many lines stand behind the first ones; `None` where they are not there.
fn span_of(bytes: &[u8], chunks: &[Chunk], place: usize, count: usize) -> Option<LineSpan>
    requires cut { AreChunks bytes.now chunks.now }
    ensures from { IfSome result (λ s. s.from ≡ lines_length place bytes.now) }
    ensures to { IfSome result (λ s. s.to ≡ s.from + lines_length count (drop s.from bytes.now)) }
    ensures inside { IfSome result (λ s. s.to ≤ length bytes.now) }
    ensures start { IfSome result (λ s. IsEdge bytes.now chunks.now s.start.chunk s.start.byte) }
    ensures before { IfSome result (λ s. s.start.byte ≤ s.from) }
    ensures stop { IfSome result (λ s. IsEdge bytes.now chunks.now s.stop.chunk s.stop.byte) }
    ensures behind { IfSome result (λ s. s.to ≤ s.stop.byte) }
{
    let (start, left) = edge_before(bytes, chunks, place);
    let from = lines_end(bytes, start.byte, left)?;
    let to = lines_end(bytes, from, count)?;
    let stop = edge_behind(bytes, chunks, start, to);
    Some(LineSpan {
        from,
        to,
        start,
        stop,
    })
}

/// Puts a text in place of so many lines behind the first ones, and tells whether the lines were there.
fn splice(
    alloc: Global,
    text: &mut String,
    chunks: &mut Vec<Chunk>,
    place: usize,
    count: usize,
    more: &str,
) -> Result<bool, AllocError>
    requires cut { AreChunks (string_bytes text.old) chunks.old.items }
    ensures cut { OnOk result (AreChunks (string_bytes text.new) chunks.new.items) }
    ensures text { (lines : List (List ℕ)) → string_bytes text.old ≡ concat lines → list_all is_line lines ≡ true
        → place + count ≤ length lines → IfOk result (λ done. done ≡ true
        → string_bytes text.new ≡ concat (take place lines) ++ (more.now ++ concat (drop (place + count) lines))) }
{
    let Some(span) = span_of(text.as_bytes(), chunks.as_slice(), place, count) else {
        return Ok(false);
    };
    if !text.is_char_boundary(span.from) || !text.is_char_boundary(span.to) {
        return Ok(false);
    }
    let behind = text.len() - span.stop.byte;
    text.replace_range(span.from..span.to, more)?;
    let stop = Edge {
        chunk: span.stop.chunk,
        byte: text.len() - behind,
    };
    mend(alloc, text.as_bytes(), chunks, span.start, stop)?;
    Ok(true)
}

/// A text whose lines are found by their numbers. Contracts see its bytes.
#[derive(Drop)]
pub(crate) struct LineText {
    alloc: Global,
    text: String,
    chunks: Vec<Chunk>,
}

impl Model for LineText {
    ghost Value = { List ℕ };

    ghost view = { λ t. string_bytes t.text };

    ghost invariant = { λ t. AreChunks (string_bytes t.text) t.chunks.items };
}

impl LineText {
    /// The empty text.
    pub(crate) fn new(alloc: Global) -> LineText
        ensures { result ≡ [] }
    {
        LineText {
            alloc,
            text: String::new(alloc),
            chunks: Vec::new(alloc),
        }
    }

    /// That text.
    pub(crate) fn of(alloc: Global, text: String) -> Result<LineText, AllocError>
        ensures { IfOk result (λ made. made ≡ string_bytes text) }
    {
        let chunks = chunks_of(alloc, text.as_bytes())?;
        Ok(LineText {
            alloc,
            text,
            chunks,
        })
    }

    /// The text, in one piece.
    pub(crate) fn as_str(&self) -> &str
        ensures { result.now ≡ self.now }
    {
        self.text.as_str()
    }

    /// Puts a text in place of so many lines behind the first ones, and tells whether the lines were there. After want of memory the text
    /// is empty.
    pub(crate) fn splice(
        &mut self,
        place: usize,
        count: usize,
        more: &str,
    ) -> Result<bool, AllocError>
        ensures { (lines : List (List ℕ)) → self.old ≡ concat lines → list_all is_line lines ≡ true → place + count ≤ length lines
            → IfOk result (λ done. done ≡ true
            → self.new ≡ concat (take place lines) ++ (more.now ++ concat (drop (place + count) lines))) }
    {
        let alloc = self.alloc;
        let LineText {
            mut text,
            mut chunks,
            ..
        } = mem::replace(self, LineText::new(alloc));
        let done = splice(alloc, &mut text, &mut chunks, place, count, more)?;
        *self = LineText {
            alloc,
            text,
            chunks,
        };
        Ok(done)
    }
}
