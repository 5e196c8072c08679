ghost use Rattle.std.specs.Prelude.{◌≡◌, ◌++◌, OnOk, decimal, true};
ghost use Rattle.std.specs.List.{flat_map, list_all};
ghost use Rattle.front_mirror.specs.Outline.{is_plain_byte, indent, quoted, attribute_text, label_text, unshown_text, node_line};

use node_tree::{Attributes, Kind};
use serde_json::Value;
use std::alloc::{AllocError, Global};

/// Appends two spaces for each level.
#[tactic(auto, using(crate::proofs::OutlineLemmas::indent_more))]
pub(crate) fn write_indent(level: usize, out: &mut Vec<u8>) -> Result<(), AllocError>
    ensures { OnOk result (out.new.items ≡ out.old.items ++ indent level) }
{
    for _ in 0..level {
        out.extend_from_slice(b"  ")?;
    }
    Ok(())
}

fn write_decimal(number: u64, out: &mut Vec<u8>) -> Result<(), AllocError>
    ensures { OnOk result (out.new.items ≡ out.old.items ++ decimal number) }
{
    let mut buffer = itoa::Buffer::new();
    out.extend_from_slice(buffer.format(number).as_bytes())?;
    Ok(())
}

/// Whether a text stands in a JSON string as it is.
fn is_plain(text: &[u8]) -> bool
    ensures { result ≡ list_all is_plain_byte text.now }
{
    text.iter()
        .all(|byte| *byte >= 32 && *byte != b'"' && *byte != b'\\')
}

/// Appends a text that needs no escape.
#[tactic(auto, using(crate::proofs::OutlineLemmas::quoted_plain))]
fn write_plain(text: &str, out: &mut Vec<u8>) -> Result<(), AllocError>
    requires { list_all is_plain_byte text.now ≡ true }
    ensures { OnOk result (out.new.items ≡ out.old.items ++ quoted text.now) }
{
    out.push(b'"')?;
    out.extend_from_slice(text.as_bytes())?;
    out.push(b'"')?;
    Ok(())
}

fn write_quoted(alloc: Global, text: &str, out: &mut Vec<u8>) -> Result<(), AllocError>
    ensures { OnOk result (out.new.items ≡ out.old.items ++ quoted text.now) }
{
    if is_plain(text.as_bytes()) {
        return write_plain(text, out);
    }
    let value = Value::String(String::from_str(alloc, text)?);
    let bytes = value.to_vec(alloc)?;
    out.extend_from_slice(&bytes)?;
    Ok(())
}

fn write_attributes(
    alloc: Global,
    attributes: &Attributes,
    out: &mut Vec<u8>,
) -> Result<(), AllocError>
    ensures { OnOk result (out.new.items ≡ out.old.items ++ flat_map attribute_text attributes.now) }
{
    for (name, value) in attributes.iter() {
        out.extend_from_slice(b" ")?;
        out.extend_from_slice(name.as_str().as_bytes())?;
        out.extend_from_slice(b"=")?;
        write_quoted(alloc, value.as_str(), out)?;
    }
    Ok(())
}

fn write_label(
    alloc: Global,
    kind: Kind,
    name: &str,
    value: &str,
    attributes: &Attributes,
    out: &mut Vec<u8>,
) -> Result<(), AllocError>
    ensures { OnOk result (out.new.items ≡ out.old.items
        ++ label_text (record { kind = kind; name = name.now; value = value.now; attributes = attributes.now })) }
{
    match kind {
        Kind::Document => out.extend_from_slice(b"#document")?,
        Kind::Element => {
            out.extend_from_slice(b"<")?;
            out.extend_from_slice(name.as_bytes())?;
            write_attributes(alloc, attributes, out)?;
            out.extend_from_slice(b">")?;
        }
        Kind::Text => write_quoted(alloc, value, out)?,
        Kind::Comment => {
            out.extend_from_slice(b"<!--")?;
            write_quoted(alloc, value, out)?;
            out.extend_from_slice(b"-->")?;
        }
        Kind::Doctype => {
            out.extend_from_slice(b"<!")?;
            out.extend_from_slice(name.as_bytes())?;
            out.extend_from_slice(b">")?;
        }
    }
    Ok(())
}

fn write_unshown(unshown: u64, out: &mut Vec<u8>) -> Result<(), AllocError>
    ensures { OnOk result (out.new.items ≡ out.old.items ++ unshown_text unshown) }
{
    if unshown == 0 {
        return Ok(());
    }
    out.extend_from_slice(b" +")?;
    write_decimal(unshown, out)
}

/// Appends the line of one node, without indent and line feed: its number, its label, and ` +n` where `unshown` children,
/// at least one, are not shown.
pub fn write_node_line(
    alloc: Global,
    number: u64,
    kind: Kind,
    name: &str,
    value: &str,
    attributes: &Attributes,
    unshown: u64,
    out: &mut Vec<u8>,
) -> Result<(), AllocError>
    ensures { OnOk result (out.new.items ≡ out.old.items
        ++ node_line number (record { kind = kind; name = name.now; value = value.now; attributes = attributes.now }) unshown) }
{
    write_decimal(number, out)?;
    out.extend_from_slice(b" ")?;
    write_label(alloc, kind, name, value, attributes, out)?;
    write_unshown(unshown, out)
}
