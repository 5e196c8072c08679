ghost use Rattle.std.specs.Prelude.{◌≡◌, ◌++◌, [], ℕ, List, true, Some, IfOk, OnOk, string_bytes, decimal};
ghost use Rattle.std.specs.Option.{ForSome};
ghost use Rattle.node_tree.specs.Nodes.{Nodes};
ghost use Rattle.node_tree.specs.Seen.{Seen};
ghost use Rattle.front_mirror.specs.Panels.{numbers_text, counts_text, Turns, MayShow};
ghost use Rattle.front_mirror.specs.declared.panels.PanelKind.TheVariants as kind;
ghost use Rattle.panels.specs.Numbers.{numbers_in, tally_text};

use crate::numbers::{Tally, count_all, few_known, numbers_fit};
use front_mirror::{Change, Mirror, Panel, PanelKind};
use std::alloc::{AllocError, Global};

/// Appends a word and a number.
fn push_number(word: &str, number: u64, out: &mut String) -> Result<(), AllocError>
    ensures { OnOk result (string_bytes out.new ≡ string_bytes out.old ++ word.now ++ decimal number) }
{
    let mut buffer = itoa::Buffer::new();
    out.push_str(word)?;
    out.push_str(buffer.format(number))?;
    Ok(())
}

/// The line of the numbers.
fn numbers_line(alloc: Global, tally: Tally) -> Result<String, AllocError>
    ensures { IfOk result (λ line. string_bytes line ≡ numbers_text (numbers_in tally)) }
{
    let mut line = String::new(alloc);
    push_number("elements ", tally.elements, &mut line)?;
    push_number(" texts ", tally.texts, &mut line)?;
    push_number(" comments ", tally.comments, &mut line)?;
    push_number(" doctypes ", tally.doctypes, &mut line)?;
    push_number(" unopened ", tally.unopened, &mut line)?;
    line.push_str("\n")?;
    Ok(line)
}

/// The line of the numbers, or the one which says that there is no document.
fn tally_line(alloc: Global, tally: Option<Tally>) -> Result<String, AllocError>
    ensures { IfOk result (λ line. string_bytes line ≡ tally_text tally) }
{
    match tally {
        Some(tally) => numbers_line(alloc, tally),
        None => {
            let mut line = String::new(alloc);
            line.push_str("no document\n")?;
            Ok(line)
        }
    }
}

/// The numbers of the mirror; `None` where it is empty.
#[tactic(auto, using(crate::proofs::RootLemmas::counts_there))]
fn tally_of(mirror: &Mirror) -> Result<Option<Tally>, AllocError>
    ensures { IfOk result (λ tally. tally_text tally ≡ counts_text mirror.now) }
{
    if mirror.is_empty() {
        return Ok(None);
    }
    Ok(Some(count_all(mirror)?))
}

/// Whether the numbers are as they were before the change.
fn stays(change: &Change) -> bool
    ensures { (before after : Nodes Seen) (shown : List ℕ) → Turns before change.now after → MayShow change.now kind.Counts shown before
        → result ≡ true → shown ≡ counts_text after }
{
    match *change {
        Change::Cleared
        | Change::Document
        | Change::Opened { .. }
        | Change::Inserted { .. }
        | Change::Removed { .. } => false,
        Change::Changed { .. } => true,
    }
}

/// Adds what the change brings. Tells whether the numbers are those after: they are not where all has to be counted anew.
fn turn(tally: &mut Tally, change: &Change, mirror: &Mirror) -> Result<bool, AllocError>
    ensures { (before : Nodes Seen) (shown : List ℕ) → Turns before change.now mirror.now → MayShow change.now kind.Counts shown before
        → shown ≡ numbers_text (numbers_in tally.old)
        → IfOk result (λ done. done ≡ true → numbers_text (numbers_in tally.new) ≡ counts_text mirror.now) }
{
    few_known(mirror);
    numbers_fit(tally);
    match *change {
        Change::Cleared | Change::Document | Change::Removed { .. } | Change::Changed { .. } => {
            Ok(false)
        }
        Change::Opened { node } => tally.open(mirror, node),
        Change::Inserted { parent, node } => {
            let _parent = parent;
            tally.insert(mirror, node)
        }
    }
}

/// The numbers after the change: those that were kept with what it brings, or all counted anew. `None` where there is no document.
fn tally_after(
    kept: Option<Tally>,
    change: &Change,
    mirror: &Mirror,
) -> Result<Option<Tally>, AllocError>
    ensures { (before : Nodes Seen) (shown : List ℕ) → Turns before change.now mirror.now → MayShow change.now kind.Counts shown before
        → ForSome kept (λ tally. shown ≡ numbers_text (numbers_in tally))
        → IfOk result (λ tally. tally_text tally ≡ counts_text mirror.now) }
{
    if let Some(tally) = kept {
        let mut after = tally;
        if turn(&mut after, change, mirror)? {
            return Ok(Some(after));
        }
    }
    tally_of(mirror)
}

/// A panel that shows how many known nodes of each kind there are. It keeps the numbers, and adds those of the nodes that a change brings.
/// Where nodes leave, it counts anew.
#[derive(Drop)]
pub struct CountsPanel {
    alloc: Global,
    tally: Option<Tally>,
    text: String,
    ghost told: { ForSome tally (λ t. string_bytes text ≡ numbers_text (numbers_in t)) },
}

impl CountsPanel {
    /// A panel that shows the empty text, until it is told of a change.
    pub fn new(alloc: Global) -> CountsPanel
        ensures { string_bytes result.text ≡ [] }
    {
        CountsPanel {
            alloc,
            tally: None,
            text: String::new(alloc),
        }
    }
}

impl Panel for CountsPanel {
    ghost use Rattle.std.specs.Prelude.{string_bytes};
    ghost use Rattle.front_mirror.specs.declared.panels.PanelKind.TheVariants as kind;

    ghost kind_of = { λ _. kind.Counts };

    ghost shown = { λ p. string_bytes p.text };

    fn kind(&self) -> PanelKind {
        PanelKind::Counts
    }

    fn note(&mut self, change: &Change, mirror: &Mirror) -> Result<(), AllocError> {
        if stays(change) {
            return Ok(());
        }
        let tally = tally_after(self.tally, change, mirror)?;
        let text = tally_line(self.alloc, tally)?;
        self.tally = tally;
        self.text = text;
        Ok(())
    }

    fn text(&self) -> &str {
        self.text.as_str()
    }
}
