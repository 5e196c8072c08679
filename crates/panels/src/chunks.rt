// A text cut into chunks, by which the place of a line is found without a walk over all before it.
ghost use Rattle.std.specs.Prelude.{◌≡◌, ◌+◌, ◌<◌, ◌≤◌, ◌++◌, length, take, drop, IfOk, OnOk, IfSome};
ghost use Rattle.std.specs.List.{count_by};
ghost use Rattle.panels.specs.Chunks.{is_feed, AreChunks, IsEdge, lines_length};

use memchr::memchr;
use std::alloc::{AllocError, Global};

/// How many bytes a chunk has: so many or up to twice as many where it is cut, some hundred lines.
const CHUNK_BYTES: usize = 4_096;

/// A part of a text: so many bytes, in which so many lines end.
#[derive(Clone, Copy)]
pub(crate) struct Chunk {
    bytes: usize,
    lines: usize,
}

/// Where one chunk ends and the next begins: behind so many chunks, and so many bytes.
#[derive(Clone, Copy)]
pub(crate) struct Edge {
    pub(crate) chunk: usize,
    pub(crate) byte: usize,
}

/// How many lines end in these bytes.
#[tactic(auto, using(crate::proofs::TextLemmas::count_turn, crate::proofs::TextLemmas::count_end, crate::proofs::TextLemmas::count_all))]
fn line_count(bytes: &[u8]) -> usize
    ensures { result ≡ count_by is_feed bytes.now }
{
    let mut start = 0;
    for lines in 0..bytes.len() {
        let Some(len) = memchr(10, &bytes[start..]) else {
            return lines;
        };
        start += len + 1;
    }
    bytes.len()
}

/// The chunk of these bytes.
fn chunk_of(bytes: &[u8]) -> Chunk
    ensures bytes { result.bytes ≡ length bytes.now }
    ensures lines { result.lines ≡ count_by is_feed bytes.now }
{
    Chunk {
        bytes: bytes.len(),
        lines: line_count(bytes),
    }
}

/// Cuts a text into chunks.
pub(crate) fn chunks_of(alloc: Global, bytes: &[u8]) -> Result<Vec<Chunk>, AllocError>
    ensures { IfOk result (λ chunks. AreChunks bytes.now chunks.items) }
{
    let mut chunks = Vec::new(alloc);
    if bytes.is_empty() {
        return Ok(chunks);
    }
    let mut start = 0;
    while bytes.len() - start > 2 * CHUNK_BYTES {
        chunks.push(chunk_of(&bytes[start..start + CHUNK_BYTES]))?;
        start += CHUNK_BYTES;
    }
    chunks.push(chunk_of(&bytes[start..]))?;
    Ok(chunks)
}

/// Where so many lines end that begin at that place; `None` where there are fewer.
pub(crate) fn lines_end(bytes: &[u8], start: usize, count: usize) -> Option<usize>
    ensures within { IfSome result (λ end. end ≤ length bytes.now) }
    ensures ends { IfSome result (λ end. end ≡ start + lines_length count (drop start bytes.now)) }
{
    if start > bytes.len() {
        return None;
    }
    let mut end = start;
    for _ in 0..count {
        let Some(len) = memchr(10, &bytes[end..]) else {
            return None;
        };
        end += len + 1;
    }
    Some(end)
}

/// An edge before the end of so many lines, and how many of them end behind it.
pub(crate) fn edge_before(bytes: &[u8], chunks: &[Chunk], count: usize) -> (Edge, usize)
    requires cut { AreChunks bytes.now chunks.now }
    ensures edge { IsEdge bytes.now chunks.now result.0.chunk result.0.byte }
    ensures left { lines_length count bytes.now ≡ result.0.byte + lines_length result.1 (drop result.0.byte bytes.now) }
{
    // Read for the proof alone.
    let _bytes = bytes;
    let mut byte = 0;
    let mut left = count;
    for i in 0..chunks.len() {
        let chunk = chunks[i];
        if left <= chunk.lines {
            return (Edge { chunk: i, byte }, left);
        }
        left -= chunk.lines;
        byte += chunk.bytes;
    }
    let chunk = chunks.len();
    (Edge { chunk, byte }, left)
}

/// The first edge from that one on that does not stand before a byte.
pub(crate) fn edge_behind(bytes: &[u8], chunks: &[Chunk], start: Edge, to: usize) -> Edge
    requires start { IsEdge bytes.now chunks.now start.chunk start.byte }
    requires inside { to ≤ length bytes.now }
    ensures edge { IsEdge bytes.now chunks.now result.chunk result.byte }
    ensures behind { to ≤ result.byte }
{
    // Read for the proof alone.
    let _bytes = bytes;
    let mut byte = start.byte;
    for i in start.chunk..chunks.len() {
        if to <= byte {
            return Edge { chunk: i, byte };
        }
        byte += chunks[i].bytes;
    }
    let chunk = chunks.len();
    Edge { chunk, byte }
}

/// Puts chunks in place of those from one edge to another.
fn put_chunks(
    alloc: Global,
    chunks: &mut Vec<Chunk>,
    start: usize,
    stop: usize,
    new: &[Chunk],
) -> Result<(), AllocError>
    requires { stop ≤ length chunks.old.items }
    ensures { OnOk result (chunks.new.items ≡ take start chunks.old.items ++ (new.now ++ drop stop chunks.old.items)) }
{
    let mut rest = Vec::new(alloc);
    rest.extend_from_slice(&chunks[stop..])?;
    chunks.truncate(start);
    chunks.extend_from_slice(new)?;
    chunks.extend_from_slice(rest.as_slice())?;
    Ok(())
}

/// Cuts a part of a text anew, where the chunks before it and behind it are those of the text.
pub(crate) fn mend(
    alloc: Global,
    bytes: &[u8],
    chunks: &mut Vec<Chunk>,
    start: Edge,
    stop: Edge,
) -> Result<(), AllocError>
    requires order { start.byte ≤ stop.byte }
    requires inside { stop.byte ≤ length bytes.now }
    requires known { stop.chunk ≤ length chunks.old.items }
    requires front { AreChunks (take start.byte bytes.now) (take start.chunk chunks.old.items) }
    requires rest { AreChunks (drop stop.byte bytes.now) (drop stop.chunk chunks.old.items) }
    ensures { OnOk result (AreChunks bytes.now chunks.new.items) }
{
    let new = chunks_of(alloc, &bytes[start.byte..stop.byte])?;
    put_chunks(alloc, chunks, start.chunk, stop.chunk, new.as_slice())?;
    Ok(())
}
