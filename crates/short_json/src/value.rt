// From tokens to a value.
ghost use Rattle.std.specs.Prelude.{◌≡◌, ℕ, ◌<◌, length, Some, IfOk, IfSome, OnOk};
ghost use Rattle.json.specs.Json.{value, items, members};
ghost use Rattle.serde_json.specs.Data.{no_members};
ghost use Rattle.serde_json.specs.Read.{of_json, of_items, of_members, converted, read as read_text};
ghost use Rattle.serde_json.specs.View.{view, items_view, members_view};

use crate::reader::UsualReader;
use crate::short_err::ShortErr;
use serde_json::{Map, Value};
use std::alloc::{AllocError, Global};

/// How deep arrays and objects nest at most, as in `serde_json`.
const MAX_DEPTH: usize = 127;

// The next value of the reader. Arrays and objects may nest `depth` deep.
#[cycle(read)]
fn read(alloc: Global, reader: &mut UsualReader<'_>, depth: usize) -> Result<Value, ShortErr>
    ensures ok { IfOk result
        (λ v. converted of_json (value depth reader.old) ≡ Some (view v, reader.new)) }
    ensures shorter { OnOk result (length reader.new < length reader.old) }
{
    match reader.peek() {
        b'"' => return text_value(alloc, reader),
        b'{' => return object_value(alloc, reader, depth),
        b'[' => return array_value(alloc, reader, depth),
        _ => return whole_value(reader),
    }
}

// An object.
#[cycle(read)]
fn object_value(
    alloc: Global,
    reader: &mut UsualReader<'_>,
    depth: usize,
) -> Result<Value, ShortErr>
    ensures ok { IfOk result
        (λ v. converted of_json (value depth reader.old) ≡ Some (view v, reader.new)) }
    ensures shorter { OnOk result (length reader.new < length reader.old) }
{
    if depth == 0 {
        return Err(ShortErr::OtherForm);
    }
    let Some(()) = reader.begin_object() else {
        return Err(ShortErr::OtherForm);
    };
    let found = read_members(alloc, reader, depth - 1)?;
    Ok(Value::Object(found))
}

// An array.
#[cycle(read)]
fn array_value(alloc: Global, reader: &mut UsualReader<'_>, depth: usize) -> Result<Value, ShortErr>
    ensures ok { IfOk result
        (λ v. converted of_json (value depth reader.old) ≡ Some (view v, reader.new)) }
    ensures shorter { OnOk result (length reader.new < length reader.old) }
{
    if depth == 0 {
        return Err(ShortErr::OtherForm);
    }
    let Some(()) = reader.begin_array() else {
        return Err(ShortErr::OtherForm);
    };
    let found = read_items(alloc, reader, depth - 1)?;
    Ok(Value::Array(found))
}

// A text.
fn text_value(alloc: Global, reader: &mut UsualReader<'_>) -> Result<Value, ShortErr>
    ensures ok { (depth : ℕ) → IfOk result
        (λ v. converted of_json (value depth reader.old) ≡ Some (view v, reader.new)) }
    ensures shorter { OnOk result (length reader.new < length reader.old) }
{
    let Some(text) = reader.text() else {
        return Err(ShortErr::OtherForm);
    };
    let text = String::from_str(alloc, text)?;
    Ok(Value::String(text))
}

// A whole number.
fn whole_value(reader: &mut UsualReader<'_>) -> Result<Value, ShortErr>
    ensures ok { (depth : ℕ) → IfOk result
        (λ v. converted of_json (value depth reader.old) ≡ Some (view v, reader.new)) }
    ensures shorter { OnOk result (length reader.new < length reader.old) }
{
    let Some(whole) = reader.whole() else {
        return Err(ShortErr::OtherForm);
    };
    Ok(Value::from(whole))
}

// The items of an array, with its closing bracket.
#[cycle(read)]
fn read_items(
    alloc: Global,
    reader: &mut UsualReader<'_>,
    depth: usize,
) -> Result<Vec<Value>, ShortErr>
    ensures ok { IfOk result
        (λ v. converted of_items (items (value depth) (length reader.old) reader.old)
        ≡ Some (items_view v.items, reader.new)) }
    ensures shorter { OnOk result (length reader.new < length reader.old) }
{
    let mut found = Vec::new(alloc);
    'items: while reader.peek() != b']' {
        let item = read(alloc, reader, depth)?;
        found.push(item)?;
    }
    let Some(()) = reader.end_array() else {
        return Err(ShortErr::OtherForm);
    };
    Ok(found)
}

// The members of an object, with its closing brace.
#[cycle(read)]
fn read_members(
    alloc: Global,
    reader: &mut UsualReader<'_>,
    depth: usize,
) -> Result<Map<String, Value>, ShortErr>
    ensures ok { IfOk result
        (λ m. converted (λ ms. of_members ms no_members)
        (members (value depth) (length reader.old) reader.old)
        ≡ Some (members_view m.entries, reader.new)) }
    ensures shorter { OnOk result (length reader.new < length reader.old) }
{
    let mut found = Map::new(alloc);
    'members: while reader.peek() != b'}' {
        let Some(name) = reader.name() else {
            return Err(ShortErr::OtherForm);
        };
        let key = String::from_str(alloc, name)?;
        let member = read(alloc, reader, depth)?;
        drop(found.insert(key, member)?);
    }
    let Some(()) = reader.end_object() else {
        return Err(ShortErr::OtherForm);
    };
    Ok(found)
}

// A value with nothing behind it.
fn read_all(alloc: Global, text: &str) -> Result<Value, ShortErr>
    ensures { IfOk result (λ v. read_text text.now ≡ Some (view v)) }
{
    let mut reader = UsualReader::new(text);
    let found = read(alloc, &mut reader, MAX_DEPTH)?;
    if !reader.is_over() {
        return Err(ShortErr::OtherForm);
    }
    Ok(found)
}

/// The value that the text is, where it has its usual form. `None` says nothing of the text: it may be JSON all the same.
pub fn read_short(alloc: Global, text: &str) -> Result<Option<Value>, AllocError>
    ensures { IfOk result (λ found. IfSome found (λ v. read_text text.now ≡ Some (view v))) }
{
    match read_all(alloc, text) {
        Ok(found) => Ok(Some(found)),
        Err(ShortErr::OtherForm) => Ok(None),
        Err(ShortErr::Memory) => Err(AllocError),
    }
}
