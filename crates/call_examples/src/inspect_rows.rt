// Rows of a whole replay: the exit status and the status line, and below them what was written.
//
// `replay` has a list of a script and of the numbers of the calls of the source, the sink and the link that fail; 0 is none. `deep`
// has the number of levels of a page's elements, which is a script with a load alone. `words` has a list of a script and a list of the
// program's words. `lie` has a list of a script, a place in what the link gives, the byte that the link gives there instead, and the
// program's word where it is not `replay`. `brief` has a list of a script, which runs with a panel that shows a lie before it is told of
// anything, and gives up at its second call.
use crate::brief_panels::BriefPanel;
use crate::row_parts::{Answer, list_at, number_or_zero, push_layers, text_or_empty, texts_of};
use front_mirror::Panel;
use inspect_replay::{Status, exit_code, inspect, status_line};
use pipe_frames::{Link, LyingLink, MemLink, MemSink, MemSource};
use serde_json::Value;
use std::alloc::{AllocError, Global};

/// What a row comes to.
pub(crate) fn told(
    alloc: Global,
    word: &str,
    args: &Value,
    answer: &mut Answer,
) -> Result<(), AllocError> {
    match word {
        "replay" => replay(alloc, args, answer),
        "deep" => deep(alloc, args.as_u64().unwrap_or(0), answer),
        "words" => other_words(alloc, args, answer),
        "brief" => brief(alloc, args, answer),
        _ => lie(alloc, args, answer),
    }
}

/// Replays over an honest link.
fn replay(alloc: Global, args: &Value, answer: &mut Answer) -> Result<(), AllocError> {
    let faults = [number_or_zero(args, 1), number_or_zero(args, 2)];
    let mut link = MemLink::new(alloc, Vec::from_slice(alloc, &[number_or_zero(args, 3)])?);
    run(alloc, text_or_empty(args, 0), faults, &mut link, answer)
}

/// Replays a load of elements that stand in one another down to the level, which is at least 1.
fn deep(alloc: Global, level: u64, answer: &mut Answer) -> Result<(), AllocError> {
    let mut input = String::new(alloc);
    write_nested(&mut input, level)?;
    let mut link = MemLink::new(alloc, Vec::new(alloc));
    run(alloc, input.as_str(), [0, 0], &mut link, answer)
}

/// Writes such a load.
fn write_nested(out: &mut String, level: u64) -> Result<(), AllocError> {
    out.push_str(r#"{"load":{"document":[{"e":"p""#)?;
    push_layers(out, level.saturating_sub(1), r#","c":[{"e":"p""#, "", "}]")?;
    out.push_str("}]}}")
}

/// What other words are answered.
fn other_words(alloc: Global, args: &Value, answer: &mut Answer) -> Result<(), AllocError> {
    match texts_of(alloc, list_at(args, 1))? {
        Some(words) => {
            let mut link = MemLink::new(alloc, Vec::new(alloc));
            push_replay(
                alloc,
                words.as_slice(),
                text_or_empty(args, 0),
                [0, 0],
                &mut link,
                answer,
            )
        }
        None => {
            answer.push("misspelt");
            Ok(())
        }
    }
}

/// The script over a link that lies at one place.
fn lie(alloc: Global, args: &Value, answer: &mut Answer) -> Result<(), AllocError> {
    let to = match text_or_empty(args, 2).as_bytes().first() {
        Some(byte) => *byte,
        None => b'?',
    };
    let word = match text_or_empty(args, 3) {
        "" => "replay",
        word => word,
    };
    let mut words = Vec::new(alloc);
    words.push(String::from_str(alloc, word)?)?;
    let mut link = LyingLink::new(alloc, number_or_zero(args, 1), to);
    push_replay(
        alloc,
        words.as_slice(),
        text_or_empty(args, 0),
        [0, 0],
        &mut link,
        answer,
    )
}

/// Replays with a panel that has memory for one call.
fn brief(alloc: Global, args: &Value, answer: &mut Answer) -> Result<(), AllocError> {
    let mut words = Vec::new(alloc);
    words.push(String::from_str(alloc, "replay")?)?;
    let mut panels: Vec<Box<dyn Panel>> = Vec::new(alloc);
    panels.push(Box::new(alloc, BriefPanel::new())?)?;
    let mut source = source_of(alloc, text_or_empty(args, 0), 0)?;
    let mut sink = MemSink::new(alloc, Vec::new(alloc));
    let mut link = MemLink::new(alloc, Vec::new(alloc));
    let status = inspect(
        alloc,
        words.as_slice(),
        &mut source,
        &mut sink,
        &mut link,
        panels,
    );
    push_end(alloc, &status, sink.bytes(), answer)
}

/// Runs the word of a replay.
fn run<L: Link>(
    alloc: Global,
    input: &str,
    faults: [u64; 2],
    link: &mut L,
    answer: &mut Answer,
) -> Result<(), AllocError> {
    let mut words = Vec::new(alloc);
    words.push(String::from_str(alloc, "replay")?)?;
    push_replay(alloc, words.as_slice(), input, faults, link, answer)
}

/// Runs the words over a source and a sink: the exit status, the status line and what was written. The calls of the source and of
/// the sink with the given numbers fail; 0 is none.
fn push_replay<L: Link>(
    alloc: Global,
    words: &[String],
    input: &str,
    faults: [u64; 2],
    link: &mut L,
    answer: &mut Answer,
) -> Result<(), AllocError> {
    let mut source = source_of(alloc, input, faults[0])?;
    let mut sink = MemSink::new(alloc, Vec::from_slice(alloc, &[faults[1]])?);
    let status = inspect(alloc, words, &mut source, &mut sink, link, Vec::new(alloc));
    push_end(alloc, &status, sink.bytes(), answer)
}

/// How a run ended: the exit status, the status line, and below them what was written.
fn push_end(
    alloc: Global,
    status: &Status,
    written: &[u8],
    answer: &mut Answer,
) -> Result<(), AllocError> {
    answer.push_shown(&exit_code(status));
    answer.push(" ");
    answer.push(status_line(alloc, status)?.as_str());
    answer.push("\n");
    answer.push_bytes(written);
    Ok(())
}

/// A source of these bytes, of which the call with the given number fails.
fn source_of(alloc: Global, input: &str, fault: u64) -> Result<MemSource, AllocError> {
    let faults = Vec::from_slice(alloc, &[fault])?;
    Ok(MemSource::new(Vec::from_slice(alloc, input.as_bytes())?, 50, faults))
}
