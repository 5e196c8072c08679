// The line of one known node, as a string.
ghost use Rattle.std.specs.Prelude.{◌≡◌, ◌++◌, OnOk, IfOk, IsSome, decimal, string_bytes};
ghost use Rattle.std.specs.List.{flat_map};
ghost use Rattle.node_tree.specs.Keys.{find};
ghost use Rattle.node_tree.specs.Seen.{seen_id};
ghost use Rattle.front_mirror.specs.Outline.{quoted, attribute_text, label_text, unshown_text, seen_line};
ghost use Rattle.front_mirror.specs.Shown.{known_at};
ghost use Rattle.front_mirror.specs.Tables.{mirror_row};

use crate::mirror::Mirror;
use crate::slots::Slot;
use crate::table_walks::unshown_of;
use node_tree::{Attributes, Kind};
use serde_json::Value;
use std::alloc::{AllocError, Global};

fn push_decimal(number: u64, out: &mut String) -> Result<(), AllocError>
    ensures { OnOk result (string_bytes out.new ≡ string_bytes out.old ++ decimal number) }
{
    let mut buffer = itoa::Buffer::new();
    out.push_str(buffer.format(number))?;
    Ok(())
}

fn push_quoted(alloc: Global, text: &str, out: &mut String) -> Result<(), AllocError>
    ensures { OnOk result (string_bytes out.new ≡ string_bytes out.old ++ quoted text.now) }
{
    let value = Value::String(String::from_str(alloc, text)?);
    let written = value.to_string(alloc)?;
    out.push_str(written.as_str())?;
    Ok(())
}

fn push_attributes(
    alloc: Global,
    attributes: &Attributes,
    out: &mut String,
) -> Result<(), AllocError>
    ensures { OnOk result (string_bytes out.new ≡ string_bytes out.old ++ flat_map attribute_text attributes.now) }
{
    for (name, value) in attributes.iter() {
        out.push_str(" ")?;
        out.push_str(name.as_str())?;
        out.push_str("=")?;
        push_quoted(alloc, value.as_str(), out)?;
    }
    Ok(())
}

fn push_label(
    alloc: Global,
    kind: Kind,
    name: &str,
    value: &str,
    attributes: &Attributes,
    out: &mut String,
) -> Result<(), AllocError>
    ensures { OnOk result (string_bytes out.new ≡ string_bytes out.old
        ++ label_text (record { kind = kind; name = name.now; value = value.now; attributes = attributes.now })) }
{
    match kind {
        Kind::Document => out.push_str("#document")?,
        Kind::Element => {
            out.push_str("<")?;
            out.push_str(name)?;
            push_attributes(alloc, attributes, out)?;
            out.push_str(">")?;
        }
        Kind::Text => push_quoted(alloc, value, out)?,
        Kind::Comment => {
            out.push_str("<!--")?;
            push_quoted(alloc, value, out)?;
            out.push_str("-->")?;
        }
        Kind::Doctype => {
            out.push_str("<!")?;
            out.push_str(name)?;
            out.push_str(">")?;
        }
    }
    Ok(())
}

fn push_unshown(unshown: u64, out: &mut String) -> Result<(), AllocError>
    ensures { OnOk result (string_bytes out.new ≡ string_bytes out.old ++ unshown_text unshown) }
{
    if unshown == 0 {
        return Ok(());
    }
    out.push_str(" +")?;
    push_decimal(unshown, out)
}

fn push_slot(alloc: Global, slot: &Slot, out: &mut String) -> Result<(), AllocError>
    ensures { OnOk result (string_bytes out.new ≡ string_bytes out.old ++ seen_line (mirror_row slot.now)) }
{
    push_decimal(slot.id, out)?;
    out.push_str(" ")?;
    push_label(
        alloc,
        slot.kind,
        slot.name.as_str(),
        slot.value.as_str(),
        &slot.attributes,
        out,
    )?;
    push_unshown(unshown_of(slot), out)
}

/// The line of a known node in the outline, without its indent and its end.
pub fn mirror_line(alloc: Global, mirror: &Mirror, id: u64) -> Result<String, AllocError>
    requires known { IsSome (find seen_id id mirror.now) }
    ensures { IfOk result (λ line. string_bytes line ≡ seen_line (known_at id mirror.now).row) }
{
    let mut line = String::new(alloc);
    push_slot(alloc, mirror.at(id), &mut line)?;
    Ok(line)
}
