ghost use Rattle.std.specs.Prelude.{◌≡◌, ◌++◌, OnOk};
ghost use Rattle.front_mirror.specs.Outline.{outline_text, seen_line};

use crate::mirror::Mirror;
use std::alloc::{AllocError, Global};

/// Appends the outline: one line for each node in document order, two spaces deeper for each level, or the line
/// `no document` where the mirror is empty.
#[tactic(auto, using(crate::proofs::OutlineLemmas::outline_there))]
pub fn write_outline(alloc: Global, mirror: &Mirror, out: &mut Vec<u8>) -> Result<(), AllocError>
    ensures { OnOk result (out.new.items ≡ out.old.items ++ outline_text seen_line mirror.now) }
{
    if mirror.is_empty() {
        out.extend_from_slice(b"no document\n")?;
        return Ok(());
    }
    mirror.write_lines(alloc, out)
}
