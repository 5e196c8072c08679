// The lines of a show of the panels.
ghost use Rattle.std.specs.Prelude.{◌≡◌, ◌+◌, ◌++◌, ◌∷◌, codes, false, OnOk, IfOk};
ghost use Rattle.front_mirror.specs.Places.{open_at};
ghost use Rattle.inspect_world.specs.PanelTexts.{kind_text, panel_heading, panel_text, panels_text};

use front_mirror::{Front, Panel, PanelKind};
use std::alloc::{AllocError, Global};

/// Appends `outline`, `counts` or `watch S`.
fn write_kind(alloc: Global, kind: PanelKind, text: &mut Vec<u8>) -> Result<(), AllocError>
    ensures { OnOk result (text.new.items ≡ text.old.items ++ kind_text kind) }
{
    match kind {
        PanelKind::Outline => text.extend_from_slice(b"outline"),
        PanelKind::Counts => text.extend_from_slice(b"counts"),
        PanelKind::Watch(serial) => {
            text.extend_from_slice(b"watch ")?;
            text.extend_from_slice(serial.to_string(alloc)?.as_bytes())
        }
    }
}

/// Appends `PLACE KIND`.
fn write_heading(
    alloc: Global,
    place: usize,
    kind: PanelKind,
    text: &mut Vec<u8>,
) -> Result<(), AllocError>
    ensures { OnOk result (text.new.items ≡ text.old.items ++ panel_heading place kind) }
{
    text.extend_from_slice(place.to_string(alloc)?.as_bytes())?;
    text.push(b' ')?;
    write_kind(alloc, kind, text)?;
    text.push(b'\n')?;
    Ok(())
}

/// Appends what the panel at that place shows, under its place and its kind; nothing where none stands open.
fn write_panel<P: Panel>(
    alloc: Global,
    front: &Front<P>,
    place: usize,
    text: &mut Vec<u8>,
) -> Result<(), AllocError>
    ensures { front.now.dead ≡ false → OnOk result
        (text.new.items ≡ text.old.items ++ panel_text place (open_at place front.now.panels) front.now.value.tree) }
{
    let Some(kind) = front.panel_kind(place) else {
        return Ok(());
    };
    write_heading(alloc, place, kind, text)?;
    if let Some(shown) = front.panel_text(place) {
        text.extend_from_slice(shown.as_bytes())?;
    }
    Ok(())
}

/// A heading and what the panels show that stand open, in the order of their places.
pub(crate) fn panels_text<P: Panel>(alloc: Global, front: &Front<P>) -> Result<Vec<u8>, AllocError>
    ensures { front.now.dead ≡ false
        → IfOk result (λ text. text.items ≡ codes "# panels" ++ 10 ∷ panels_text front.now.panels front.now.value.tree) }
{
    let mut text = Vec::from_slice(alloc, b"# panels\n")?;
    for before in 0..front.panel_places() {
        write_panel(alloc, front, before + 1, &mut text)?;
    }
    Ok(text)
}
