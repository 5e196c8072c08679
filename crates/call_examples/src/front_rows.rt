// Rows of the front end.
//
// `ask` with a method tells the frame of its first ask. `fold` with a list tells the faults of a front end that asked for the
// document and for the children of a node, and then took what the list holds; below them its outline, and how many pauses it saw. An
// item is a message, or a list of a number and a message, which comes in two pieces that are cut at that byte.
use crate::row_parts::{Answer, number_or_zero, values_from};
use front_mirror::{Front, FrontErr, FrontKind, write_outline};
use panels::OutlinePanel;
use serde_json::Value;
use std::alloc::{AllocError, Global};

/// A front end without panels.
type Alone = Front<OutlinePanel>;

/// The frame of the first ask with this method.
pub(crate) fn told_ask(alloc: Global, method: &str, answer: &mut Answer) -> Result<(), AllocError> {
    let mut front = Alone::new(alloc, Vec::new(alloc))?;
    let frame = front.ask(method, None, None)?;
    answer.push_bytes(frame.as_slice());
    answer.drop_zero();
    Ok(())
}

/// What a front end says of a list of messages, and shows then.
pub(crate) fn told(alloc: Global, messages: &Value, answer: &mut Answer) -> Result<(), AllocError> {
    let mut front = asking(alloc)?;
    take_all(alloc, &mut front, values_from(messages, 0), answer)?;
    write_outline(alloc, front.mirror(), answer.bytes())?;
    answer.push_number(front.pauses().len() as u64);
    answer.push(" pauses\n");
    Ok(())
}

/// A front that asked for the document and for the children of a node.
fn asking(alloc: Global) -> Result<Alone, AllocError> {
    let mut front = Alone::new(alloc, Vec::new(alloc))?;
    let _first = front.ask("DOM.getDocument", None, None)?;
    let _second = front.ask("DOM.requestChildNodes", None, None)?;
    Ok(front)
}

/// Takes the messages.
fn take_all(
    alloc: Global,
    front: &mut Alone,
    messages: &[Value],
    answer: &mut Answer,
) -> Result<(), AllocError> {
    for message in messages {
        take_message(alloc, front, message, answer)?;
    }
    Ok(())
}

/// Takes a message, or a message in two pieces.
fn take_message(
    alloc: Global,
    front: &mut Alone,
    message: &Value,
    answer: &mut Answer,
) -> Result<(), AllocError> {
    match message.get(1) {
        Some(whole) => {
            let place = number_or_zero(message, 0) as usize;
            take_cut(front, frame_of(alloc, whole)?.as_slice(), place, answer)
        }
        None => take(front, frame_of(alloc, message)?.as_slice(), answer),
    }
}

/// A message with its zero byte.
pub(crate) fn frame_of(alloc: Global, message: &Value) -> Result<Vec<u8>, AllocError> {
    let mut frame = message.to_string(alloc)?.into_bytes();
    frame.push(0)?;
    Ok(frame)
}

/// Takes a frame in two pieces, which is cut at this place.
fn take_cut(
    front: &mut Alone,
    frame: &[u8],
    place: usize,
    answer: &mut Answer,
) -> Result<(), AllocError> {
    match frame.split_at_checked(place) {
        Some((head, tail)) => {
            take(front, head, answer)?;
            take(front, tail, answer)
        }
        None => Ok(()),
    }
}

/// Takes a piece, and appends the fault, if there is one.
fn take(front: &mut Alone, piece: &[u8], answer: &mut Answer) -> Result<(), AllocError> {
    match front.take(piece) {
        Ok(()) => Ok(()),
        Err(FrontErr::Fault(fault)) => {
            answer.push(kind_word(fault.kind));
            Ok(())
        }
        Err(FrontErr::Memory) => Err(AllocError),
    }
}

/// The line for a kind of fault.
pub(crate) fn kind_word(kind: FrontKind) -> &'static str {
    match kind {
        FrontKind::NotMessage => "NotMessage\n",
        FrontKind::UnknownNode => "UnknownNode\n",
        FrontKind::NotChild => "NotChild\n",
        FrontKind::IdTaken => "IdTaken\n",
        FrontKind::UnknownSheet => "UnknownSheet\n",
        FrontKind::TooDeep => "TooDeep\n",
    }
}
