// Rows of the reading of a replay script: how many lines it has, or its first fault.
//
// Behind `first` stands the whole script, which is a line without a line feed, and behind `later` the line after a load. `text` has a
// list with the script, and `bytes` one of its bytes. `long` with a script and a number tells whether a line has more bytes than that.
// Behind `pair-first` and `pair-later` stands the first and the second line of a script with two front ends: told is what it says.
use crate::row_parts::{Answer, first_word, number_or_zero, text_or_empty, value_of, values_from};
use replay_script::{
    LineErr, LineFault, Lines, PairLine, fault_name, has_long_line, read_line, read_pair_line,
};
use serde_json::Value;
use std::alloc::{AllocError, Global};

/// What a row comes to.
pub(crate) fn told(alloc: Global, row: &str, answer: &mut Answer) -> Result<(), AllocError> {
    let (word, rest) = first_word(row);
    match word {
        "first" => push_read(alloc, rest.as_bytes(), answer),
        "later" => push_later(alloc, rest, answer),
        "pair-first" => push_pair(alloc, 1, rest, answer),
        "pair-later" => push_pair(alloc, 2, rest, answer),
        _ => {
            let value = value_of(alloc, rest)?;
            push_listed(alloc, word, &value, answer)
        }
    }
}

/// What a script comes to that stands in a list.
fn push_listed(
    alloc: Global,
    word: &str,
    list: &Value,
    answer: &mut Answer,
) -> Result<(), AllocError> {
    let text = text_or_empty(list, 0).as_bytes();
    match word {
        "text" => push_read(alloc, text, answer),
        "bytes" => {
            let mut bytes = Vec::new(alloc);
            push_bytes(values_from(list, 0), &mut bytes)?;
            push_read(alloc, bytes.as_slice(), answer)
        }
        _ => {
            answer.push_shown(&has_long_line(text, number_or_zero(list, 1) as usize));
            Ok(())
        }
    }
}

/// How many lines the script has, or its first fault.
fn push_read(alloc: Global, script: &[u8], answer: &mut Answer) -> Result<(), AllocError> {
    let mut number = 0u64;
    for line in Lines::new(script) {
        number = number.wrapping_add(1);
        if let Some(fault) = fault_of(alloc, number, line)? {
            push_fault(number, fault, answer);
            return Ok(());
        }
    }
    answer.push_number(number);
    answer.push(" lines");
    Ok(())
}

/// Why the line with this number is refused, if it is.
fn fault_of(alloc: Global, number: u64, line: &[u8]) -> Result<Option<LineFault>, AllocError> {
    match read_line(alloc, number, line) {
        Ok(_) => Ok(None),
        Err(LineErr::Fault(fault)) => Ok(Some(fault)),
        Err(LineErr::Memory) => Err(AllocError),
    }
}

/// A fault of the line with this number.
fn push_fault(number: u64, fault: LineFault, answer: &mut Answer) {
    answer.push("line ");
    answer.push_number(number);
    answer.push(": ");
    answer.push(fault_name(fault));
    answer.push(" ");
    answer.push_shown(&fault);
}

/// The answer to a script with that line behind a load.
fn push_later(alloc: Global, line: &str, answer: &mut Answer) -> Result<(), AllocError> {
    let script = format!(in alloc; "{{\"load\":{{\"document\":[]}}}}\n{line}\n")?;
    push_read(alloc, script.as_bytes(), answer)
}

/// What the line with this number says in a script with two front ends, or its fault.
fn push_pair(
    alloc: Global,
    number: u64,
    line: &str,
    answer: &mut Answer,
) -> Result<(), AllocError> {
    match read_pair_line(alloc, number, line.as_bytes()) {
        Ok(read) => answer.push(pair_word(&read)),
        Err(LineErr::Fault(fault)) => push_fault(number, fault, answer),
        Err(LineErr::Memory) => return Err(AllocError),
    }
    Ok(())
}

/// Whether a line attaches or detaches a session, or which front it speaks of.
fn pair_word(line: &PairLine) -> &'static str {
    match line {
        PairLine::Attach => "attach",
        PairLine::Detach => "detach",
        PairLine::First(_) => "first",
        PairLine::Second(_) => "second",
    }
}

/// Adds the bytes that a list holds.
fn push_bytes(items: &[Value], bytes: &mut Vec<u8>) -> Result<(), AllocError> {
    for item in items {
        bytes.push(byte_of(item))?;
    }
    Ok(())
}

/// The byte that a number is; 0 where it is none.
fn byte_of(number: &Value) -> u8 {
    match u8::try_from(number.as_u64().unwrap_or(0)) {
        Ok(byte) => byte,
        Err(_) => 0,
    }
}
