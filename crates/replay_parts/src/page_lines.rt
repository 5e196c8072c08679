// The lines of a page, by its serials.
ghost use Rattle.std.specs.Prelude.{◌≡◌, ◌+◌, ◌<◌, ◌++◌, ◌∷◌, codes, OnOk, IfOk};
ghost use Rattle.node_tree.specs.Numbers.{number_limit};
ghost use Rattle.node_tree.specs.Nodes.{alone, branch_count, node_count};
ghost use Rattle.front_mirror.specs.Outline.{indent, lines_at, outline_text};
ghost use Rattle.inspect_world.specs.Scripts.{page_line};

use front_mirror::write_node_line;
use page_tree::{Children, Node, Page};
use std::alloc::{AllocError, Global};

/// Appends two spaces for each level.
#[tactic(auto, using(crate::proofs::PageLemmas::spaces_more))]
fn write_spaces(level: usize, out: &mut Vec<u8>) -> Result<(), AllocError>
    ensures { OnOk result (out.new.items ≡ out.old.items ++ indent level) }
{
    for _ in 0..level {
        out.extend_from_slice(b"  ")?;
    }
    Ok(())
}

fn write_one(alloc: Global, node: &Node, out: &mut Vec<u8>) -> Result<(), AllocError>
    ensures { OnOk result (out.new.items ≡ out.old.items ++ page_line node.now.row) }
{
    write_node_line(
        alloc,
        node.serial(),
        node.kind(),
        node.name(),
        node.value(),
        node.attributes(),
        0,
        out,
    )
}

/// Appends the lines of a node at that level and of those below it.
#[cycle(page_lines)]
fn write_node(alloc: Global, node: &Node, level: usize, out: &mut Vec<u8>) -> Result<(), AllocError>
    requires { level + branch_count node.now < number_limit }
    ensures { OnOk result (out.new.items ≡ out.old.items ++ lines_at page_line level (alone node.now)) }
{
    write_spaces(level, out)?;
    write_one(alloc, node, out)?;
    out.push(b'\n')?;
    write_children(alloc, &node.children(), level + 1, out)?;
    Ok(())
}

/// The same of the children of a node.
#[cycle(page_lines)]
fn write_children(
    alloc: Global,
    children: &Children,
    level: usize,
    out: &mut Vec<u8>,
) -> Result<(), AllocError>
    requires { level + node_count children.now < number_limit }
    ensures { OnOk result (out.new.items ≡ out.old.items ++ lines_at page_line level children.now) }
{
    for i in 0..children.len() {
        let node = children.at(i);
        write_node(alloc, &node, level, out)?;
    }
    Ok(())
}

/// A heading and the outline of the page.
pub fn page_text(alloc: Global, page: &Page) -> Result<Vec<u8>, AllocError>
    ensures { IfOk result (λ text. text.items ≡ codes "# page" ++ 10 ∷ outline_text page_line (alone page.now.tree)) }
{
    page.valid();
    let mut text = Vec::from_slice(alloc, b"# page\n")?;
    write_node(alloc, &page.root(), 0, &mut text)?;
    Ok(text)
}
