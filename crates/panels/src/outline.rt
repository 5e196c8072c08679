ghost use Rattle.std.specs.Prelude.{◌≡◌, [], ℕ, true, Some, IsSome, IfOk, IfSome, string_bytes};
ghost use Rattle.std.specs.List.{concat};
ghost use Rattle.node_tree.specs.Nodes.{Nodes};
ghost use Rattle.node_tree.specs.Keys.{find, level_of};
ghost use Rattle.node_tree.specs.Seen.{Seen, seen_id};
ghost use Rattle.front_mirror.specs.Shown.{known_at};
ghost use Rattle.front_mirror.specs.Outline.{seen_line, outline_text};
ghost use Rattle.front_mirror.specs.Panels.{Turns, MayShow};
ghost use Rattle.front_mirror.specs.Walks.{walk_in};
ghost use Rattle.front_mirror.specs.declared.panels.Change.TheVariants as change;
ghost use Rattle.front_mirror.specs.declared.panels.PanelKind.TheVariants as kind;
ghost use Rattle.panels.specs.Lines.{outline_line, place_left, TextTurned};

use crate::line_text::LineText;
use crate::lines::{all_lines, line_on, push_lines, push_node};
use front_mirror::{Change, Mirror, Panel, PanelKind};
use std::alloc::{AllocError, Global};

/// The outline of what is shown.
#[tactic(auto, using(crate::proofs::RootLemmas::outline_is))]
fn outline_of(alloc: Global, mirror: &Mirror) -> Result<String, AllocError>
    ensures { IfOk result (λ text. string_bytes text ≡ outline_text seen_line mirror.now) }
{
    let lines = all_lines(alloc, mirror)?;
    let mut text = String::new(alloc);
    push_lines(lines.as_slice(), &mut text)?;
    Ok(text)
}

/// The lines of a known node and of all below it.
fn lines_of(alloc: Global, mirror: &Mirror, id: u64) -> Result<String, AllocError>
    requires known { IsSome (find seen_id id mirror.now) }
    ensures { (level : ℕ) → level_of seen_id id 0 mirror.now ≡ Some level
        → IfOk result (λ text. string_bytes text ≡ concat (walk_in outline_line level (known_at id mirror.now))) }
{
    mirror.valid();
    let mut lines = Vec::new(alloc);
    push_node(alloc, mirror, id, mirror.level(id), &mut lines)?;
    let mut text = String::new(alloc);
    push_lines(lines.as_slice(), &mut text)?;
    Ok(text)
}

/// The node of that id was opened: its line gives way to those of all below it too. Tells whether the text is the one after.
fn open(alloc: Global, text: &mut LineText, node: u64, mirror: &Mirror) -> Result<bool, AllocError>
    ensures { TextTurned (change.Opened node) text.old text.new mirror.now result }
{
    if !mirror.known(node) {
        return Ok(false);
    }
    let more = lines_of(alloc, mirror, node)?;
    text.splice(mirror.rank(node), 1, more.as_str())
}

/// The node of that id came in: it has one line more.
fn insert(
    alloc: Global,
    text: &mut LineText,
    parent: u64,
    node: u64,
    mirror: &Mirror,
) -> Result<bool, AllocError>
    ensures { TextTurned (change.Inserted parent node) text.old text.new mirror.now result }
{
    let _parent = parent;
    if !mirror.known(node) {
        return Ok(false);
    }
    let line = line_on(alloc, mirror, node, mirror.level(node))?;
    text.splice(mirror.rank(node), 0, line.as_str())
}

/// The node of that id has another line.
fn replace(
    alloc: Global,
    text: &mut LineText,
    node: u64,
    mirror: &Mirror,
) -> Result<bool, AllocError>
    ensures { TextTurned (change.Changed node) text.old text.new mirror.now result }
{
    if !mirror.known(node) {
        return Ok(false);
    }
    let line = line_on(alloc, mirror, node, mirror.level(node))?;
    text.splice(mirror.rank(node), 1, line.as_str())
}

/// Where the lines of the child that stood at that place began; `None` where no child can have stood there.
fn place_of_child(mirror: &Mirror, parent: u64, place: usize) -> Option<usize>
    requires known { IsSome (find seen_id parent mirror.now) }
    ensures { IfSome result (λ start. start ≡ place_left parent place mirror.now) }
{
    mirror.valid();
    if place == 0 {
        return mirror.rank(parent).checked_add(1);
    }
    if place > mirror.children_len(parent) {
        return None;
    }
    let sibling = mirror.child_at(parent, place - 1);
    mirror.rank(sibling).checked_add(mirror.size(sibling))
}

/// The node of that id left, with so many known nodes: their lines go.
fn remove(
    text: &mut LineText,
    parent: u64,
    place: usize,
    node: u64,
    known: usize,
    mirror: &Mirror,
) -> Result<bool, AllocError>
    ensures { TextTurned (change.Removed parent place node known) text.old text.new mirror.now result }
{
    let _node = node;
    if !mirror.known(parent) {
        return Ok(false);
    }
    let Some(start) = place_of_child(mirror, parent, place) else {
        return Ok(false);
    };
    text.splice(start, known, "")
}

/// Changes those lines that the change touches. Tells whether the text is the one after: it is not where all begins afresh.
fn turn(
    alloc: Global,
    text: &mut LineText,
    change: &Change,
    mirror: &Mirror,
) -> Result<bool, AllocError>
    ensures { (before : Nodes Seen) → Turns before change.now mirror.now → MayShow change.now kind.Outline text.old before
        → IfOk result (λ done. done ≡ true → text.new ≡ outline_text seen_line mirror.now) }
{
    match *change {
        Change::Cleared | Change::Document => Ok(false),
        Change::Opened { node } => open(alloc, text, node, mirror),
        Change::Inserted { parent, node } => insert(alloc, text, parent, node, mirror),
        Change::Removed {
            parent,
            place,
            node,
            known,
        } => remove(text, parent, place, node, known, mirror),
        Change::Changed { node } => replace(alloc, text, node, mirror),
    }
}

/// A panel that shows the outline of the mirror. It keeps its text, and changes the lines that a change touches.
#[derive(Drop)]
pub struct OutlinePanel {
    alloc: Global,
    text: LineText,
}

impl OutlinePanel {
    /// A panel that shows the empty text, until it is told of a change.
    pub fn new(alloc: Global) -> OutlinePanel
        ensures { result.text ≡ [] }
    {
        OutlinePanel {
            alloc,
            text: LineText::new(alloc),
        }
    }
}

impl Panel for OutlinePanel {
    ghost use Rattle.front_mirror.specs.declared.panels.PanelKind.TheVariants as kind;

    ghost kind_of = { λ _. kind.Outline };

    ghost shown = { λ p. p.text };

    fn kind(&self) -> PanelKind {
        PanelKind::Outline
    }

    fn note(&mut self, change: &Change, mirror: &Mirror) -> Result<(), AllocError> {
        if turn(self.alloc, &mut self.text, change, mirror)? {
            return Ok(());
        }
        self.text = LineText::of(self.alloc, outline_of(self.alloc, mirror)?)?;
        Ok(())
    }

    fn text(&self) -> &str {
        self.text.as_str()
    }
}
