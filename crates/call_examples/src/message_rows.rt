// Rows of messages, which are read and written again.
//
// Behind `ask` and `own` stands a frame on its way up, where `own` knows `Replay.load` and `Replay.act` too: of one that is refused
// the error reply is told, of another its id and, for a command that the DOM agent is asked, what it is asked. Behind `event` stands an
// event or an error reply, and behind a method the reply to it: what is read is written again, so that a message that has its form
// comes back as it was. Behind `root` stands a reply with a document, which is read token by token where it has the fields in the order
// and the numbers in the spelling that are written here.
use crate::row_parts::{Answer, first_word};
use cdp_messages::{
    Asked, Command, Down, DownErr, ReadErr, ReplyBody, Text, read_command, read_down, read_result,
    read_root, write_event, write_refused, write_reply,
};
use serde_json::Value;
use std::alloc::{AllocError, Global};

/// What a row comes to.
pub(crate) fn told(alloc: Global, row: &str, answer: &mut Answer) -> Result<(), AllocError> {
    let (word, message) = first_word(row);
    match word {
        "ask" => read_up(alloc, message.as_bytes(), false, answer)?,
        "own" => read_up(alloc, message.as_bytes(), true, answer)?,
        "root" => root_again(alloc, message, answer)?,
        method => again(alloc, method, message.as_bytes(), answer)?,
    }
    answer.drop_zero();
    Ok(())
}

/// What a frame asks, or the error reply.
fn read_up(alloc: Global, frame: &[u8], own: bool, answer: &mut Answer) -> Result<(), AllocError> {
    match read_command(alloc, frame, own) {
        Ok(asked) => {
            push_asked(asked, answer);
            Ok(())
        }
        Err(ReadErr::Refused(refused)) => write_refused(alloc, &refused, answer.bytes()),
        Err(ReadErr::Memory) => Err(AllocError),
    }
}

/// The id of a command, and what the DOM agent is asked by it.
fn push_asked(asked: Asked, answer: &mut Answer) {
    answer.push_number(asked.id);
    if let Command::AskDom(ask) = asked.command {
        answer.push(" ");
        answer.push_debug(&ask);
    }
}

/// Reads a message to the front end, and writes it again.
fn again(
    alloc: Global,
    method: &str,
    message: &[u8],
    answer: &mut Answer,
) -> Result<(), AllocError> {
    match read_down(alloc, message) {
        Ok(down) => write_again(alloc, method, &down, answer),
        Err(error) => push_error(error, "no message", answer),
    }
}

/// Says these words of what is no message.
fn push_error(error: DownErr, words: &str, answer: &mut Answer) -> Result<(), AllocError> {
    match error {
        DownErr::NotMessage => {
            answer.push(words);
            Ok(())
        }
        DownErr::Memory => Err(AllocError),
    }
}

/// Writes a message to the front end.
fn write_again(
    alloc: Global,
    method: &str,
    down: &Down,
    answer: &mut Answer,
) -> Result<(), AllocError> {
    match down {
        Down::Reply { id, result } => reply_again(alloc, method, *id, result, answer),
        Down::Fault { id, code, text } => {
            push_fault(*id, *code, text, answer);
            Ok(())
        }
        Down::Event(event) => write_event(alloc, event, answer.bytes()),
    }
}

/// Reads the result of a reply, and writes the reply.
fn reply_again(
    alloc: Global,
    method: &str,
    id: u64,
    value: &Value,
    answer: &mut Answer,
) -> Result<(), AllocError> {
    match read_result(alloc, method, value) {
        Ok(body) => write_reply(alloc, id, &body, answer.bytes()),
        Err(error) => push_error(error, "no message", answer),
    }
}

/// An error reply in words.
fn push_fault(id: Option<u64>, code: i64, text: &Text, answer: &mut Answer) {
    answer.push("fault");
    if let Some(id) = id {
        answer.push(" of ");
        answer.push_number(id);
    }
    answer.push(": ");
    answer.push_shown(&code);
    answer.push(" ");
    answer.push_debug(text);
}

/// A reply with a document that is read token by token, written again; of any other text that it is not.
fn root_again(alloc: Global, message: &str, answer: &mut Answer) -> Result<(), AllocError> {
    match read_root(alloc, message) {
        Ok((id, tree)) => write_reply(alloc, id, &ReplyBody::Root(tree), answer.bytes()),
        Err(error) => push_error(error, "written otherwise", answer),
    }
}
