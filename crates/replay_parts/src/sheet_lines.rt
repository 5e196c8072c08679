// The lines of a show of the sheets.
ghost use Rattle.std.specs.Prelude.{◌≡◌, ◌<◌, ◌++◌, ◌∷◌, length, slice_get, option_map, Some, OnOk, IfOk};
ghost use Rattle.front_mirror.specs.Outline.{quoted};
ghost use Rattle.inspect_world.specs.SheetTexts.{text_shown, sheet_line, known_line, known_lines};

use cdp_messages::Origin;
use front_mirror::{Front, Panel};
use serde_json::Value;
use std::alloc::{AllocError, Global};

/// Appends a text as a JSON string.
pub(crate) fn write_quoted(alloc: Global, text: &str, out: &mut Vec<u8>) -> Result<(), AllocError>
    ensures { OnOk result (out.new.items ≡ out.old.items ++ quoted text.now) }
{
    let value = Value::String(String::from_str(alloc, text)?);
    let bytes = value.to_vec(alloc)?;
    out.extend_from_slice(&bytes)?;
    Ok(())
}

/// Appends a text as a JSON string, or `-` where there is none.
fn write_text(alloc: Global, text: Option<&str>, out: &mut Vec<u8>) -> Result<(), AllocError>
    ensures { OnOk result (out.new.items ≡ out.old.items ++ text_shown (option_map (λ t. t.now) text.entry)) }
{
    match text {
        Some(text) => write_quoted(alloc, text, out)?,
        None => out.push(b'-')?,
    }
    Ok(())
}

/// Appends the line of a sheet.
fn write_line(
    alloc: Global,
    number: u64,
    origin: Origin,
    text: Option<&str>,
    out: &mut Vec<u8>,
) -> Result<(), AllocError>
    ensures { OnOk result (out.new.items ≡ out.old.items ++ sheet_line number origin (option_map (λ t. t.now) text.entry)) }
{
    out.push(b's')?;
    out.extend_from_slice(number.to_string(alloc)?.as_bytes())?;
    out.push(b' ')?;
    out.extend_from_slice(origin.as_str().as_bytes())?;
    out.push(b' ')?;
    write_text(alloc, text, out)?;
    out.push(b'\n')?;
    Ok(())
}

/// Appends the line of the sheet that the front end knows at place `i`.
fn write_known<P: Panel>(
    alloc: Global,
    front: &Front<P>,
    i: usize,
    out: &mut Vec<u8>,
) -> Result<(), AllocError>
    requires { i < length front.now.value.sheets }
    ensures { OnOk result (option_map (λ s. out.old.items ++ known_line s) (slice_get front.now.value.sheets i) ≡ Some out.new.items) }
{
    let (number, origin, text) = front.sheet_at(i);
    write_line(alloc, number, origin, text, out)
}

/// A heading and the lines of the sheets that the front end knows.
pub(crate) fn sheets_text<P: Panel>(
    alloc: Global,
    heading: &str,
    front: &Front<P>,
) -> Result<Vec<u8>, AllocError>
    ensures { IfOk result (λ text. text.items ≡ heading.now ++ 10 ∷ known_lines front.now.value.sheets) }
{
    let mut text = Vec::from_slice(alloc, heading.as_bytes())?;
    text.push(b'\n')?;
    for i in 0..front.sheet_len() {
        write_known(alloc, front, i, &mut text)?;
    }
    Ok(text)
}
