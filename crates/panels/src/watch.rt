ghost use Rattle.std.specs.Prelude.{◌≡◌, ◌≢◌, ◌++◌, ◌∷◌, [], ℕ, List, true, Some, IfOk, option_map, string_bytes, decimal, codes};
ghost use Rattle.node_tree.specs.Nodes.{Nodes};
ghost use Rattle.node_tree.specs.Keys.{find};
ghost use Rattle.node_tree.specs.Seen.{Seen, seen_serial};
ghost use Rattle.front_mirror.specs.Panels.{Turns, MayShow, watch_text};
ghost use Rattle.front_mirror.specs.declared.panels.PanelKind.TheVariants as kind;

use front_mirror::{Change, Mirror, Panel, PanelKind, mirror_line};
use std::alloc::{AllocError, Global};

/// Whether the node of that serial, if it is known, has another id.
fn is_other(serial: u64, id: u64, mirror: &Mirror) -> bool
    ensures { result ≡ true → option_map (λ b. b.row.id) (find seen_serial serial mirror.now) ≢ Some id }
{
    match mirror.id_of(serial) {
        Some(known) => known != id,
        None => true,
    }
}

/// Whether the line of the node of that serial is as it was before the change.
fn keeps(serial: u64, change: &Change, mirror: &Mirror) -> bool
    ensures { (before : Nodes Seen) (shown : List ℕ) → Turns before change.now mirror.now
        → MayShow change.now (kind.Watch serial) shown before → result ≡ true → shown ≡ watch_text serial mirror.now }
{
    match *change {
        Change::Cleared | Change::Document | Change::Opened { .. } | Change::Removed { .. } => {
            false
        }
        Change::Inserted { parent, node } => {
            let _parent = parent;
            is_other(serial, node, mirror)
        }
        Change::Changed { node } => is_other(serial, node, mirror),
    }
}

/// The line of the node of that serial, without its end.
fn bare_line(alloc: Global, serial: u64, mirror: &Mirror) -> Result<String, AllocError>
    ensures { IfOk result (λ line. string_bytes line ++ 10 ∷ [] ≡ watch_text serial mirror.now) }
{
    mirror.valid();
    match mirror.id_of(serial) {
        Some(id) => mirror_line(alloc, mirror, id),
        None => unknown_line(alloc, serial),
    }
}

/// The same with its end.
fn watch_line(alloc: Global, serial: u64, mirror: &Mirror) -> Result<String, AllocError>
    ensures { IfOk result (λ line. string_bytes line ≡ watch_text serial mirror.now) }
{
    let mut line = bare_line(alloc, serial, mirror)?;
    line.push_str("\n")?;
    Ok(line)
}

/// What is shown where no known node has the serial, without its end.
fn unknown_line(alloc: Global, serial: u64) -> Result<String, AllocError>
    ensures { IfOk result (λ line. string_bytes line ≡ codes "serial " ++ decimal serial ++ codes " not known") }
{
    let mut line = String::new(alloc);
    let mut buffer = itoa::Buffer::new();
    line.push_str("serial ")?;
    line.push_str(buffer.format(serial))?;
    line.push_str(" not known")?;
    Ok(line)
}

/// A panel that shows the line of the node with one serial. It keeps its line where a change touches another node.
#[derive(Drop)]
pub struct WatchPanel {
    alloc: Global,
    serial: u64,
    line: String,
}

impl WatchPanel {
    /// A panel that shows the empty text, until it is told of a change.
    pub fn new(alloc: Global, serial: u64) -> WatchPanel
        ensures serial { result.serial ≡ serial }
        ensures text { string_bytes result.line ≡ [] }
    {
        WatchPanel {
            alloc,
            serial,
            line: String::new(alloc),
        }
    }
}

impl Panel for WatchPanel {
    ghost use Rattle.std.specs.Prelude.{string_bytes};

    ghost kind_of = { λ p. kind.Watch p.serial };

    ghost shown = { λ p. string_bytes p.line };

    fn kind(&self) -> PanelKind {
        PanelKind::Watch(self.serial)
    }

    fn note(&mut self, change: &Change, mirror: &Mirror) -> Result<(), AllocError> {
        if keeps(self.serial, change, mirror) {
            return Ok(());
        }
        self.line = watch_line(self.alloc, self.serial, mirror)?;
        Ok(())
    }

    fn text(&self) -> &str {
        self.line.as_str()
    }
}
