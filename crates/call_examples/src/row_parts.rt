// The parts of a row, and what is answered to it.
use serde_json::Value;
use std::alloc::{AllocError, Global};
use std::fmt::{Debug, Display};

/// What is answered to a row: its bytes, and whether there was memory for all of them.
#[derive(Drop)]
pub(crate) struct Answer {
    alloc: Global,
    said: Vec<u8>,
    is_whole: bool,
}

impl Answer {
    /// An empty answer.
    pub(crate) fn new(alloc: Global) -> Answer {
        Answer {
            alloc,
            said: Vec::new(alloc),
            is_whole: true,
        }
    }

    /// Adds bytes.
    pub(crate) fn push_bytes(&mut self, bytes: &[u8]) {
        if self.said.extend_from_slice(bytes).is_err() {
            self.is_whole = false;
        }
    }

    /// Adds a text.
    pub(crate) fn push(&mut self, text: &str) {
        self.push_bytes(text.as_bytes());
    }

    /// Adds a number.
    pub(crate) fn push_number(&mut self, number: u64) {
        self.push_shown(&number);
    }

    /// Adds where a part starts and ends.
    pub(crate) fn push_range(&mut self, start: usize, end: usize) {
        self.push_number(start as u64);
        self.push("-");
        self.push_number(end as u64);
    }

    /// Adds a value as it is shown.
    pub(crate) fn push_shown<T: Display>(&mut self, value: &T) {
        match format!(in self.alloc; "{value}") {
            Ok(text) => self.push(text.as_str()),
            Err(_) => self.is_whole = false,
        }
    }

    /// Adds a value as it is written in code.
    pub(crate) fn push_debug<T: Debug>(&mut self, value: &T) {
        match format!(in self.alloc; "{value:?}") {
            Ok(text) => self.push(text.as_str()),
            Err(_) => self.is_whole = false,
        }
    }

    /// Adds each line of another answer behind two spaces, on lines of their own.
    pub(crate) fn push_indented(&mut self, other: &[u8]) {
        let lines = match other.strip_suffix(b"\n".as_slice()) {
            Some(lines) => lines,
            None => other,
        };
        self.push("\n  ");
        for byte in lines {
            self.push_bytes(&[*byte]);
            if *byte == b'\n' {
                self.push("  ");
            }
        }
        self.push("\n");
    }

    /// Drops a zero byte at the end, as a message has.
    pub(crate) fn drop_zero(&mut self) {
        if self.said.ends_with(b"\0") {
            self.said.pop();
        }
    }

    /// The bytes, to which a call may add its own.
    pub(crate) fn bytes(&mut self) -> &mut Vec<u8> {
        &mut self.said
    }

    /// The bytes, if there was memory for all of them.
    pub(crate) fn as_slice(&self) -> Result<&[u8], AllocError> {
        if self.is_whole {
            Ok(self.said.as_slice())
        } else {
            Err(AllocError)
        }
    }
}

/// The first word of a text, and what stands behind it.
pub(crate) fn first_word(text: &str) -> (&str, &str) {
    match text.split_once(" ") {
        Some((word, rest)) => (word, rest),
        None => (text, ""),
    }
}

/// The value that a text spells; null where it spells none.
pub(crate) fn value_of(alloc: Global, text: &str) -> Result<Value, AllocError> {
    match Value::from_str(alloc, text) {
        Ok(value) => Ok(value),
        Err(error) => if error.is_memory() {
            Err(AllocError)
        } else {
            Ok(Value::Null)
        },
    }
}

/// The values of a list from this place on; none where it is no list.
pub(crate) fn values_from(list: &Value, place: usize) -> &[Value] {
    match list.as_array() {
        Some(values) => values.get(place..).unwrap_or(&[]),
        None => &[],
    }
}

/// The values of the list that stands at this place of a list; none where no list stands there.
pub(crate) fn list_at(list: &Value, place: usize) -> &[Value] {
    match list.get(place) {
        Some(values) => values_from(values, 0),
        None => &[],
    }
}

/// The text at this place of a list, and the empty text where there is none.
pub(crate) fn text_or_empty(list: &Value, place: usize) -> &str {
    match list.get(place) {
        Some(value) => value.as_str().unwrap_or(""),
        None => "",
    }
}

/// The number at this place of a list, and 0 where there is none.
pub(crate) fn number_or_zero(list: &Value, place: usize) -> u64 {
    match list.get(place) {
        Some(value) => value.as_u64().unwrap_or(0),
        None => 0,
    }
}

/// Adds so many layers round a core, each with one text before and one behind.
pub(crate) fn push_layers(
    out: &mut String,
    layers: u64,
    before: &str,
    core: &str,
    behind: &str,
) -> Result<(), AllocError> {
    for _ in 0..layers {
        out.push_str(before)?;
    }
    out.push_str(core)?;
    for _ in 0..layers {
        out.push_str(behind)?;
    }
    Ok(())
}

/// `None` where an item is no text.
pub(crate) fn texts_of(alloc: Global, items: &[Value]) -> Result<Option<Vec<String>>, AllocError> {
    let mut texts = Vec::new(alloc);
    for item in items {
        let Some(text) = item.as_str() else {
            return Ok(None);
        };
        texts.push(String::from_str(alloc, text)?)?;
    }
    Ok(Some(texts))
}
