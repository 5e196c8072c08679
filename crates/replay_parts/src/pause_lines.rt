// The lines of a show of the pauses.
ghost use Rattle.std.specs.Prelude.{◌≡◌, ◌++◌, ◌∷◌, OnOk, IfOk};
ghost use Rattle.node_tree.specs.Watches.{watch_name};
ghost use Rattle.inspect_world.specs.ShownPauses.{flag_word, watched_text, target_text, target_shown, seen_pause_line, seen_pause_lines};

use front_mirror::SeenPause;
use std::alloc::{AllocError, Global};

/// A truth value in words.
fn flag_word(flag: bool) -> &'static str
    ensures { result.now ≡ flag_word flag }
{
    if flag { "true" } else { "false" }
}

/// Appends what is watched, and the node that is.
fn write_watched(alloc: Global, pause: &SeenPause, out: &mut Vec<u8>) -> Result<(), AllocError>
    ensures { OnOk result (out.new.items ≡ out.old.items ++ watched_text (watch_name pause.now.kind) pause.now.node) }
{
    out.extend_from_slice(pause.kind.as_str().as_bytes())?;
    out.push(b' ')?;
    out.extend_from_slice(pause.node.to_string(alloc)?.as_bytes())?;
    Ok(())
}

/// Appends the target, and whether it was put in.
fn write_target(
    alloc: Global,
    insertion: bool,
    target: u64,
    out: &mut Vec<u8>,
) -> Result<(), AllocError>
    ensures { OnOk result (out.new.items ≡ out.old.items ++ target_text insertion target) }
{
    out.extend_from_slice(b" target ")?;
    out.extend_from_slice(target.to_string(alloc)?.as_bytes())?;
    out.extend_from_slice(b" insertion ")?;
    out.extend_from_slice(flag_word(insertion).as_bytes())?;
    Ok(())
}

/// The same, where there is a target.
fn write_target_if(alloc: Global, pause: &SeenPause, out: &mut Vec<u8>) -> Result<(), AllocError>
    ensures { OnOk result (out.new.items ≡ out.old.items ++ target_shown pause.now.insertion pause.now.target) }
{
    match pause.target {
        Some(target) => write_target(alloc, pause.insertion, target, out)?,
        None => {}
    }
    Ok(())
}

/// Appends the line of a pause.
fn write_pause(alloc: Global, pause: &SeenPause, out: &mut Vec<u8>) -> Result<(), AllocError>
    ensures { OnOk result (out.new.items ≡ out.old.items ++ seen_pause_line pause.now) }
{
    write_watched(alloc, pause, out)?;
    write_target_if(alloc, pause, out)?;
    out.push(b'\n')?;
    Ok(())
}

/// A heading and the lines of the pauses.
pub(crate) fn pauses_text(
    alloc: Global,
    heading: &str,
    pauses: &[SeenPause],
) -> Result<Vec<u8>, AllocError>
    ensures { IfOk result (λ text. text.items ≡ heading.now ++ 10 ∷ seen_pause_lines pauses.now) }
{
    let mut text = Vec::from_slice(alloc, heading.as_bytes())?;
    text.push(b'\n')?;
    for pause in pauses {
        write_pause(alloc, pause, &mut text)?;
    }
    Ok(text)
}
