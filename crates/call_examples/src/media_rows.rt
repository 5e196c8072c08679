//! Rows of media texts: `holds [TEXT,TYPE,WIDTH]` tells whether a text holds of the medium of that type and width.

use crate::row_parts::{Answer, number_or_zero, text_or_empty};
use media_rules::{Medium, MediumKind, holds};
use serde_json::Value;

/// What comes of a row.
pub(crate) fn told(word: &str, args: &Value, answer: &mut Answer) {
    if word != "holds" {
        answer.push("no such call");
        return;
    }
    answer.push_shown(&holds(text_or_empty(args, 0), &medium_at(args, 1)));
}

/// The medium whose type and width stand at this place of a list and at the next one; a screen where no other type stands there.
pub(crate) fn medium_at(list: &Value, place: usize) -> Medium {
    let kind = match text_or_empty(list, place) {
        "print" => MediumKind::Print,
        _ => MediumKind::Screen,
    };
    Medium {
        kind,
        width: number_or_zero(list, place.saturating_add(1)),
    }
}
