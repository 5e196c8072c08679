// How many nodes a front end knows, how many of its replies are good, and the lines that tell a drill's numbers.
ghost use Rattle.std.specs.Prelude.{◌≡◌, ◌+◌, ◌++◌, IsSome, IfOk, OnOk, OnErr};
ghost use Rattle.node_tree.specs.Numbers.{number_limit};
ghost use Rattle.node_tree.specs.Nodes.{none, alone};
ghost use Rattle.node_tree.specs.Keys.{find};
ghost use Rattle.node_tree.specs.Seen.{seen_id};
ghost use Rattle.front_mirror.specs.Shown.{known_at};
ghost use Rattle.inspect_replay.specs.Tallies.{known_in, row_known, plus, how_many, is_good, is_bad};
ghost use Rattle.front_mirror.specs.Panels.{one_where};
ghost use Rattle.inspect_replay.specs.Tallies.{tally_of, tally_line, tally_text};
ghost use Rattle.inspect_replay.specs.CountsSeen.{known_of, tally_seen};

use front_mirror::{Front, Kept, Mirror, Panel};
use std::alloc::{AllocError, Global};

/// How many known nodes there are, and how many of them are opened.
#[derive(Clone, Copy)]
struct Known {
    nodes: u64,
    opened: u64,
}

/// The numbers of a drill.
#[derive(Clone, Copy)]
struct Tally {
    known: Known,
    sheets: u64,
    replies: u64,
    errors: u64,
    pauses: u64,
}

/// One more where the test holds. There is no memory for it only where the number stands at its last value.
fn grown(number: u64, test: bool) -> Result<u64, AllocError>
    ensures grown { IfOk result (λ n. n ≡ number + one_where test) }
    ensures last { OnErr result (number + 1 ≡ number_limit) }
{
    if test {
        return number.checked_add(1).ok_or(AllocError);
    }
    Ok(number)
}

impl Known {
    /// No nodes.
    fn zero() -> Known
        ensures { known_of result ≡ known_in none }
    {
        Known {
            nodes: 0,
            opened: 0,
        }
    }

    /// Counts one known node.
    #[tactic(auto, using(crate::proofs::CountLemmas::row_added))]
    fn add(&mut self, mirror: &Mirror, id: u64) -> Result<(), AllocError>
        requires known { IsSome (find seen_id id mirror.now) }
        ensures { OnOk result (known_of self.new ≡ plus (known_of self.old) (row_known (known_at id mirror.now).row)) }
    {
        let nodes = grown(self.nodes, true)?;
        let opened = grown(self.opened, mirror.is_opened(id))?;
        *self = Known { nodes, opened };
        Ok(())
    }
}

/// Counts a known node and all below it.
#[cycle(counting)]
fn count_node(mirror: &Mirror, id: u64, known: &mut Known) -> Result<(), AllocError>
    requires known { IsSome (find seen_id id mirror.now) }
    ensures { OnOk result (known_of known.new ≡ plus (known_of known.old) (known_in (alone (known_at id mirror.now)))) }
{
    known.add(mirror, id)?;
    count_children(mirror, id, known)
}

/// Counts all below a known node.
#[cycle(counting)]
fn count_children(mirror: &Mirror, id: u64, known: &mut Known) -> Result<(), AllocError>
    requires known { IsSome (find seen_id id mirror.now) }
    ensures { OnOk result (known_of known.new ≡ plus (known_of known.old) (known_in (known_at id mirror.now).children)) }
{
    mirror.valid();
    for i in 0..mirror.children_len(id) {
        let child = mirror.child_at(id, i);
        count_node(mirror, child, known)?;
    }
    Ok(())
}

/// The numbers of all known nodes.
#[tactic(auto, using(crate::proofs::CountLemmas::root_known, crate::proofs::CountLemmas::all_counted))]
fn count_all(mirror: &Mirror) -> Result<Known, AllocError>
    ensures { IfOk result (λ known. known_of known ≡ known_in mirror.now) }
{
    let mut known = Known::zero();
    if mirror.is_empty() {
        return Ok(known);
    }
    mirror.valid();
    count_node(mirror, mirror.document(), &mut known)?;
    Ok(known)
}

// How many of the replies are no error replies.
fn count_good(replies: &[Kept]) -> Result<u64, AllocError>
    ensures { IfOk result (λ count. count ≡ how_many is_good replies.now) }
{
    let mut count = 0;
    for reply in replies {
        count = grown(count, reply.good)?;
    }
    Ok(count)
}

// How many are.
fn count_bad(replies: &[Kept]) -> Result<u64, AllocError>
    ensures { IfOk result (λ count. count ≡ how_many is_bad replies.now) }
{
    let mut count = 0;
    for reply in replies {
        count = grown(count, !reply.good)?;
    }
    Ok(count)
}

/// The numbers of what a front end shows.
fn tally_of<P: Panel>(front: &Front<P>) -> Result<Tally, AllocError>
    ensures { IfOk result (λ tally. tally_seen tally ≡ tally_of front.now.value) }
{
    Ok(Tally {
        known: count_all(front.mirror())?,
        sheets: front.sheet_len() as u64,
        replies: count_good(front.replies())?,
        errors: count_bad(front.replies())?,
        pauses: front.pauses().len() as u64,
    })
}

fn push_line(alloc: Global, text: &mut Vec<u8>, word: &str, number: u64) -> Result<(), AllocError>
    ensures { OnOk result (text.new.items ≡ text.old.items ++ tally_line word.now number) }
{
    text.extend_from_slice(word.as_bytes())?;
    text.extend_from_slice(number.to_string(alloc)?.as_bytes())?;
    text.push(b'\n')?;
    Ok(())
}

/// The six lines.
fn tally_text(alloc: Global, tally: &Tally) -> Result<Vec<u8>, AllocError>
    ensures { IfOk result (λ text. text.items ≡ tally_text (tally_seen tally.now)) }
{
    let mut text = Vec::new(alloc);
    push_line(alloc, &mut text, "nodes ", tally.known.nodes)?;
    push_line(alloc, &mut text, "opened ", tally.known.opened)?;
    push_line(alloc, &mut text, "sheets ", tally.sheets)?;
    push_line(alloc, &mut text, "replies ", tally.replies)?;
    push_line(alloc, &mut text, "errors ", tally.errors)?;
    push_line(alloc, &mut text, "pauses ", tally.pauses)?;
    Ok(text)
}

/// The six lines of what a front end shows.
pub(crate) fn front_text<P: Panel>(alloc: Global, front: &Front<P>) -> Result<Vec<u8>, AllocError>
    ensures { IfOk result (λ text. text.items ≡ tally_text (tally_of front.now.value)) }
{
    let tally = tally_of(front)?;
    tally_text(alloc, &tally)
}
