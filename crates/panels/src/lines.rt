// The lines of an outline, one for each known node.
ghost use Rattle.std.specs.Prelude.{◌≡◌, ◌+◌, ◌<◌, ◌++◌, IsSome, IfOk, OnOk, string_bytes};
ghost use Rattle.std.specs.List.{concat};
ghost use Rattle.node_tree.specs.Nodes.{height};
ghost use Rattle.node_tree.specs.Keys.{find};
ghost use Rattle.node_tree.specs.Seen.{seen_id};
ghost use Rattle.front_mirror.specs.Shown.{known_at};
ghost use Rattle.front_mirror.specs.Outline.{indent};
ghost use Rattle.front_mirror.specs.Walks.{walk, walk_in};
ghost use Rattle.panels.specs.Lines.{level_limit, outline_line, shown_lines};

use front_mirror::{Mirror, mirror_line};
use node_tree::Text;
use std::alloc::{AllocError, Global};

/// Appends two spaces for each level.
#[tactic(auto, using(crate::proofs::ListLemmas::indent_more))]
fn push_indent(level: usize, out: &mut String) -> Result<(), AllocError>
    ensures { OnOk result (string_bytes out.new ≡ string_bytes out.old ++ indent level) }
{
    for _ in 0..level {
        out.push_str("  ")?;
    }
    Ok(())
}

/// The line of a known node on that level, with its indent and its end.
pub(crate) fn line_on(
    alloc: Global,
    mirror: &Mirror,
    id: u64,
    level: usize,
) -> Result<Text, AllocError>
    requires known { IsSome (find seen_id id mirror.now) }
    ensures { IfOk result (λ line. line ≡ outline_line level (known_at id mirror.now).row) }
{
    let mut line = String::new(alloc);
    push_indent(level, &mut line)?;
    let text = mirror_line(alloc, mirror, id)?;
    line.push_str(text.as_str())?;
    line.push_str("\n")?;
    Ok(Text::new(line))
}

/// Appends the lines of a known node on that level and of all below it.
#[cycle(listing)]
pub(crate) fn push_node(
    alloc: Global,
    mirror: &Mirror,
    id: u64,
    level: usize,
    out: &mut Vec<Text>,
) -> Result<(), AllocError>
    requires known { IsSome (find seen_id id mirror.now) }
    requires low { level + height (known_at id mirror.now).children < level_limit }
    ensures { OnOk result (out.new.items ≡ out.old.items ++ walk_in outline_line level (known_at id mirror.now)) }
{
    out.push(line_on(alloc, mirror, id, level)?)?;
    push_children(alloc, mirror, id, level, out)
}

/// Appends the lines of all below a known node on that level.
#[cycle(listing)]
fn push_children(
    alloc: Global,
    mirror: &Mirror,
    id: u64,
    level: usize,
    out: &mut Vec<Text>,
) -> Result<(), AllocError>
    requires known { IsSome (find seen_id id mirror.now) }
    requires low { level + height (known_at id mirror.now).children < level_limit }
    ensures { OnOk result (out.new.items ≡ out.old.items ++ walk outline_line (level + 1) (known_at id mirror.now).children) }
{
    mirror.valid();
    for i in 0..mirror.children_len(id) {
        let child = mirror.child_at(id, i);
        push_node(alloc, mirror, child, level + 1, out)?;
    }
    Ok(())
}

/// All lines of the mirror, or the one which says that it is empty.
#[tactic(auto, using(crate::proofs::RootLemmas::root_known, crate::proofs::RootLemmas::root_low, crate::proofs::RootLemmas::root_lines))]
pub(crate) fn all_lines(alloc: Global, mirror: &Mirror) -> Result<Vec<Text>, AllocError>
    ensures { IfOk result (λ lines. lines.items ≡ shown_lines mirror.now) }
{
    let mut lines = Vec::new(alloc);
    if mirror.is_empty() {
        lines.push(Text::copied(alloc, "no document\n")?)?;
        return Ok(lines);
    }
    mirror.valid();
    push_node(alloc, mirror, mirror.document(), 0, &mut lines)?;
    Ok(lines)
}

/// Appends the lines one after the other.
#[tactic(auto, using(crate::proofs::ListLemmas::join_turn, crate::proofs::ListLemmas::join_end))]
pub(crate) fn push_lines(lines: &[Text], out: &mut String) -> Result<(), AllocError>
    ensures { OnOk result (string_bytes out.new ≡ string_bytes out.old ++ concat lines.now) }
{
    for line in lines {
        out.push_str(line.as_str())?;
    }
    Ok(())
}
