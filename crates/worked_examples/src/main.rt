//! Runs `inspect` on the examples that its standard input holds, and prints what is answered to each.
//!
//! An example begins with a line `## WORD NAME`; the lines up to the next are what `inspect WORD` reads. To `serve` and `share` each
//! line is a frame, whose line feed stands for its zero byte. A last line that ends in `..` is cut off there: no line feed
//! and no zero byte stands behind it. A line `#! PART N` says that the N-th call of a part of the outside fails, `source`,
//! `sink` or `link`. Lines `#! outline`, `#! counts` and `#! watch S` say which panels are handed in; without one they are the program's,
//! an outline, the counts and a watch on the node with serial 2.
//!
//! Behind the line of its beginning stands what was written, each zero byte as a line feed, and how a run ended that is
//! not done.
#![tactic(auto)]

use front_mirror::{Panel, PanelKind};
use inspect_replay::{Status, inspect, status_line};
use panels::{CountsPanel, OutlinePanel, WatchPanel};
use pipe_frames::{MemLink, MemSink, MemSource};
use std::alloc::Global;
use std::io::{Read, Write};
use std::{io, str};

/// The serial of the node that a panel watches.
const WATCHED: u64 = 2;

/// The bytes that a source gives at a time.
const PIECE: usize = 50;

/// An example as far as it is read, with the calls of the outside that fail in it and the panels that it names.
#[derive(Drop)]
struct Example<'a> {
    word: &'a str,
    input: Vec<u8>,
    source: Vec<u64>,
    sink: Vec<u64>,
    link: Vec<u64>,
    panels: Vec<PanelKind>,
}

fn main(rt: HostRuntime) -> io::Result<()> {
    let alloc = rt.alloc();
    let mut text = Vec::new(alloc);
    rt.reader().read_to_end(&mut text)?;
    let mut out = io::writer(&rt);
    let mut example = begun(alloc, "");
    let lines = text.strip_suffix(b"\n").unwrap_or(&text);
    for line in lines.split(|byte| *byte == b'\n') {
        if let Some(heading) = line.strip_prefix(b"## ") {
            tell(alloc, &mut out, example)?;
            out.write_all(line)?;
            out.write_all(b"\n")?;
            example = begun(alloc, text_of(heading));
        } else if let Some(fault) = line.strip_prefix(b"#! ") {
            set(&mut example, text_of(fault))?;
        } else {
            append(&mut example, line)?;
        }
    }
    tell(alloc, &mut out, example)
}

/// Bytes as a text, which is empty where they are not UTF-8.
fn text_of(bytes: &[u8]) -> &str {
    str::from_utf8(bytes).unwrap_or("")
}

/// An example whose heading is this, with no input yet.
fn begun<'a>(alloc: Global, heading: &'a str) -> Example<'a> {
    let word = match heading.split_once(" ") {
        Some((word, _)) => word,
        None => heading,
    };
    Example {
        word,
        input: Vec::new(alloc),
        source: Vec::new(alloc),
        sink: Vec::new(alloc),
        link: Vec::new(alloc),
        panels: Vec::new(alloc),
    }
}

/// One more panel without a number, or what has one.
fn set(example: &mut Example<'_>, said: &str) -> io::Result<()> {
    match said {
        "outline" => example.panels.push(PanelKind::Outline)?,
        "counts" => example.panels.push(PanelKind::Counts)?,
        _ => set_numbered(example, said)?,
    }
    Ok(())
}

/// One more call of the outside that fails: a part, and the number of its call; or a watch on a node. Any other text says nothing.
fn set_numbered(example: &mut Example<'_>, fault: &str) -> io::Result<()> {
    let Some((part, number)) = fault.split_once(" ") else {
        return Ok(());
    };
    let Ok(call) = number.parse::<u64>() else {
        return Ok(());
    };
    match part {
        "source" => example.source.push(call)?,
        "sink" => example.sink.push(call)?,
        "link" => example.link.push(call)?,
        "watch" => example.panels.push(PanelKind::Watch(call))?,
        _ => {}
    }
    Ok(())
}

/// Adds a line to the input: a line of a script, a frame with its zero byte, or what was cut off.
fn append(example: &mut Example<'_>, line: &[u8]) -> io::Result<()> {
    if let Some(front) = line.strip_suffix(b"..") {
        example.input.extend_from_slice(front)?;
        return Ok(());
    }
    example.input.extend_from_slice(line)?;
    let end = match example.word {
        "serve" | "share" => 0,
        _ => b'\n',
    };
    example.input.push(end)?;
    Ok(())
}

/// The panels that an example names, or those of the program where it names none.
fn or_usual(mut kinds: Vec<PanelKind>) -> io::Result<Vec<PanelKind>> {
    if kinds.is_empty() {
        kinds.push(PanelKind::Outline)?;
        kinds.push(PanelKind::Counts)?;
        kinds.push(PanelKind::Watch(WATCHED))?;
    }
    Ok(kinds)
}

/// Runs the example over an honest link, with the panels that it names, and prints what was written and how the run ended.
fn tell<W: Write>(alloc: Global, out: &mut W, example: Example<'_>) -> io::Result<()> {
    if example.word.is_empty() {
        return Ok(());
    }
    let mut words = Vec::new(alloc);
    words.push(String::from_str(alloc, example.word)?)?;
    let mut source = MemSource::new(example.input, PIECE, example.source);
    let mut sink = MemSink::new(alloc, example.sink);
    let mut link = MemLink::new(alloc, example.link);
    let kinds = or_usual(example.panels)?;
    let mut panels: Vec<Box<dyn Panel>> = Vec::new(alloc);
    for kind in kinds {
        match kind {
            PanelKind::Outline => panels.push(Box::new(alloc, OutlinePanel::new(alloc))?)?,
            PanelKind::Counts => panels.push(Box::new(alloc, CountsPanel::new(alloc))?)?,
            PanelKind::Watch(serial) => {
                panels.push(Box::new(alloc, WatchPanel::new(alloc, serial))?)?
            }
        }
    }
    let status = inspect(alloc, &words, &mut source, &mut sink, &mut link, panels);
    print(alloc, out, sink.bytes())?;
    end(alloc, out, &status)
}

/// Prints these bytes, each zero byte as a line feed.
fn print<W: Write>(alloc: Global, out: &mut W, bytes: &[u8]) -> io::Result<()> {
    let mut shown = Vec::new(alloc);
    for byte in bytes {
        shown.push(if *byte == 0 { b'\n' } else { *byte })?;
    }
    out.write_all(&shown)
}

/// Prints how a run ended that is not done.
fn end<W: Write>(alloc: Global, out: &mut W, status: &Status) -> io::Result<()> {
    let line = status_line(alloc, status)?;
    if !line.is_empty() {
        writeln!(out, "{line}")?;
    }
    Ok(())
}
