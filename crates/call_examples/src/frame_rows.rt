//! Rows of pipes: `split [STEP,..]` tells what a splitter comes to, where a step is `["take",TEXT]`, `["next"]` or `["held"]`;
//! `put [TEXT,..]` the frames of texts; `link [FAULTS,STEP,..]` what comes through a link in memory that fails at these calls, and
//! `lying [PLACE,BYTE,STEP,..]` what comes through a lying one, where a step is `["up",TEXT,MOST]` or `["down",TEXT,MOST]`, which
//! sends a text and gets bytes; `read [TEXT,PIECE,FAULTS,LIMIT,..]` what reads of a source in memory come to, and
//! `reader [TEXT,LIMIT]` of a reader; `write [FAULTS,TEXT,..]` what a sink in memory has taken, and `writer [TEXT]` that of a writer.

use crate::row_parts::{Answer, list_at, number_or_zero, text_or_empty, values_from};
use pipe_frames::{
    Link, LyingLink, MemLink, MemSink, MemSource, Sink, Source, Splitter, StdSink, StdSource,
    frames_law, put_frame, read_all, write_all,
};
use serde_json::Value;
use std::alloc::{AllocError, Global};

/// What comes of a row.
pub(crate) fn told(
    alloc: Global,
    word: &str,
    args: &Value,
    answer: &mut Answer,
) -> Result<(), AllocError> {
    match word {
        "split" => split(alloc, values_from(args, 0), answer),
        "put" => put(alloc, values_from(args, 0), answer),
        "link" => mem_link(alloc, args, answer),
        "lying" => {
            lying_link(alloc, args, answer);
            Ok(())
        }
        "read" => mem_reads(alloc, args, answer),
        "reader" => {
            let mut source = StdSource::new(text_or_empty(args, 0).as_bytes());
            read(alloc, &mut source, number_or_zero(args, 1), answer);
            Ok(())
        }
        "write" => mem_writes(alloc, args, answer),
        _ => {
            write(
                &mut StdSink::new(Vec::new(alloc)),
                text_or_empty(args, 0),
                answer,
            );
            Ok(())
        }
    }
}

/// What each step on an empty splitter comes to.
fn split(alloc: Global, steps: &[Value], answer: &mut Answer) -> Result<(), AllocError> {
    let mut splitter = Splitter::new(alloc);
    for step in steps {
        split_step(&mut splitter, step, answer)?;
        answer.push("|");
    }
    Ok(())
}

/// A step on a splitter.
fn split_step(
    splitter: &mut Splitter,
    step: &Value,
    answer: &mut Answer,
) -> Result<(), AllocError> {
    match text_or_empty(step, 0) {
        "take" => return splitter.take(text_or_empty(step, 1).as_bytes()),
        "held" => answer.push_number(splitter.held() as u64),
        _ => match splitter.next() {
            Some(frame) => answer.push_bytes(frame.as_slice()),
            None => answer.push("none"),
        },
    }
    Ok(())
}

/// The frames of texts, each zero byte as `\0`.
fn put(alloc: Global, texts: &[Value], answer: &mut Answer) -> Result<(), AllocError> {
    let mut frames = Vec::new(alloc);
    put_texts(texts, &mut frames)?;
    for byte in &frames {
        if *byte == 0 {
            answer.push("\\0");
        } else {
            answer.push_bytes(&[*byte]);
        }
    }
    Ok(())
}

/// Puts the frames of texts behind one another.
fn put_texts(texts: &[Value], out: &mut Vec<u8>) -> Result<(), AllocError> {
    frames_law();
    for text in texts {
        put_text(text.as_str().unwrap_or("").as_bytes(), out)?;
    }
    Ok(())
}

/// The frame of a text that has no zero byte.
fn put_text(text: &[u8], out: &mut Vec<u8>) -> Result<(), AllocError> {
    if text.contains(&0) {
        return Ok(());
    }
    put_frame(text, out)
}

/// The numbers of a list.
fn numbers_of(alloc: Global, list: &[Value]) -> Result<Vec<u64>, AllocError> {
    let mut out = Vec::new(alloc);
    for number in list {
        out.push(number.as_u64().unwrap_or(0))?;
    }
    Ok(out)
}

/// What is left in the outcome of a get: the bytes, `!` where a call failed.
fn pass<L: Link>(link: &mut L, step: &Value, answer: &mut Answer) {
    let piece = text_or_empty(step, 1).as_bytes();
    let most = number_or_zero(step, 2) as usize;
    let failed = match text_or_empty(step, 0) {
        "up" => link.put_up(piece).is_err() || link.get_up(most, answer.bytes()).is_err(),
        _ => link.put_down(piece).is_err() || link.get_down(most, answer.bytes()).is_err(),
    };
    answer.push(if failed { "!|" } else { "|" });
}

/// What comes through a link.
fn pass_all<L: Link>(link: &mut L, steps: &[Value], answer: &mut Answer) {
    for step in steps {
        pass(link, step, answer);
    }
}

/// What comes through a link in memory.
fn mem_link(alloc: Global, args: &Value, answer: &mut Answer) -> Result<(), AllocError> {
    let mut link = MemLink::new(alloc, numbers_of(alloc, list_at(args, 0))?);
    pass_all(&mut link, values_from(args, 1), answer);
    Ok(())
}

/// What comes through a lying link.
fn lying_link(alloc: Global, args: &Value, answer: &mut Answer) {
    let to = match text_or_empty(args, 1).as_bytes().first() {
        Some(byte) => *byte,
        None => b'?',
    };
    let mut link = LyingLink::new(alloc, number_or_zero(args, 0), to);
    pass_all(&mut link, values_from(args, 2), answer);
}

/// The bytes of a whole source, or what was wrong.
fn read<S: Source>(alloc: Global, src: &mut S, limit: u64, answer: &mut Answer) {
    match read_all(alloc, src, limit as usize) {
        Ok(all) => answer.push_bytes(all.as_slice()),
        Err(fault) => answer.push_debug(&fault),
    }
    answer.push("|");
}

/// Reads a source in memory once for each limit.
fn mem_reads(alloc: Global, args: &Value, answer: &mut Answer) -> Result<(), AllocError> {
    let step = number_or_zero(args, 1);
    if step == 0 {
        return Ok(());
    }
    let text = Vec::from_slice(alloc, text_or_empty(args, 0).as_bytes())?;
    let mut source = MemSource::new(text, step as usize, numbers_of(alloc, list_at(args, 2))?);
    for limit in values_from(args, 3) {
        read(alloc, &mut source, limit.as_u64().unwrap_or(0), answer);
    }
    Ok(())
}

/// `.` where the piece was written, and else what was wrong.
fn write<K: Sink>(out: &mut K, piece: &str, answer: &mut Answer) {
    match write_all(out, piece.as_bytes()) {
        Ok(()) => answer.push("."),
        Err(fault) => answer.push_debug(&fault),
    }
}

/// Writes pieces to a sink in memory, and tells what it has taken.
fn mem_writes(alloc: Global, args: &Value, answer: &mut Answer) -> Result<(), AllocError> {
    let mut sink = MemSink::new(alloc, numbers_of(alloc, list_at(args, 0))?);
    for piece in values_from(args, 1) {
        write(&mut sink, piece.as_str().unwrap_or(""), answer);
    }
    answer.push(" ");
    answer.push_bytes(sink.bytes());
    Ok(())
}
