// How many known nodes there are of each kind.
ghost use Rattle.std.specs.Prelude.{◌≡◌, ◌+◌, ◌<◌, ℕ, IsSome, IfOk, OnOk, OnErr};
ghost use Rattle.node_tree.specs.Numbers.{number_limit};
ghost use Rattle.node_tree.specs.Nodes.{alone, node_count};
ghost use Rattle.node_tree.specs.Labels.{is_doctype};
ghost use Rattle.node_tree.specs.Keys.{find};
ghost use Rattle.node_tree.specs.Seen.{seen_id};
ghost use Rattle.front_mirror.specs.Shown.{known_at};
ghost use Rattle.front_mirror.specs.Panels.{numbers_of, is_text, is_comment, one_where};
ghost use Rattle.front_mirror.specs.declared.panels.Change.TheVariants as change;
ghost use Rattle.panels.specs.Numbers.{numbers_in, no_numbers, row_numbers, plus, AreSmall, NumbersTurned};

use front_mirror::Mirror;
use node_tree::Kind;
use std::alloc::AllocError;

/// How many known nodes there are of each kind but the document, and how many are containers whose children are not known.
#[derive(Clone, Copy)]
pub(crate) struct Tally {
    pub(crate) elements: u64,
    pub(crate) texts: u64,
    pub(crate) comments: u64,
    pub(crate) doctypes: u64,
    pub(crate) unopened: u64,
}

fn is_text(kind: Kind) -> bool
    ensures { result ≡ is_text kind }
{
    match kind {
        Kind::Text => true,
        Kind::Document | Kind::Element | Kind::Comment | Kind::Doctype => false,
    }
}

fn is_comment(kind: Kind) -> bool
    ensures { result ≡ is_comment kind }
{
    match kind {
        Kind::Comment => true,
        Kind::Document | Kind::Element | Kind::Text | Kind::Doctype => false,
    }
}

fn is_doctype(kind: Kind) -> bool
    ensures { result ≡ is_doctype kind }
{
    match kind {
        Kind::Doctype => true,
        Kind::Document | Kind::Element | Kind::Text | Kind::Comment => false,
    }
}

/// One more where the test holds. There is no memory for it only where the number stands at its last value.
fn grown(number: u64, test: bool) -> Result<u64, AllocError>
    ensures grown { IfOk result (λ n. n ≡ number + one_where test) }
    ensures last { OnErr result (number + 1 ≡ number_limit) }
{
    if test {
        return number.checked_add(1).ok_or(AllocError);
    }
    Ok(number)
}

impl Tally {
    /// No nodes.
    fn zero() -> Tally
        ensures { numbers_in result ≡ no_numbers }
    {
        Tally {
            elements: 0,
            texts: 0,
            comments: 0,
            doctypes: 0,
            unopened: 0,
        }
    }

    /// Counts one known node.
    #[tactic(auto, using(crate::proofs::NumberLemmas::added))]
    fn add(&mut self, mirror: &Mirror, id: u64) -> Result<(), AllocError>
        requires known { IsSome (find seen_id id mirror.now) }
        ensures { OnOk result (numbers_in self.new ≡ plus (numbers_in self.old) (row_numbers (known_at id mirror.now).row)) }
    {
        let kind = mirror.kind(id);
        let elements = grown(self.elements, kind.is_element())?;
        let texts = grown(self.texts, is_text(kind))?;
        let comments = grown(self.comments, is_comment(kind))?;
        let doctypes = grown(self.doctypes, is_doctype(kind))?;
        let unopened = grown(self.unopened, mirror.is_unopened(id))?;
        *self = Tally {
            elements,
            texts,
            comments,
            doctypes,
            unopened,
        };
        Ok(())
    }

    /// The node of that id was opened: it is unopened no longer, and all below it came in. Tells whether the numbers are those after.
    pub(crate) fn open(&mut self, mirror: &Mirror, node: u64) -> Result<bool, AllocError>
        ensures { NumbersTurned (change.Opened node) (numbers_in self.old) (numbers_in self.new) mirror.now result }
    {
        if !mirror.known(node) {
            return Ok(false);
        }
        let Some(unopened) = self.unopened.checked_sub(1) else {
            return Ok(false);
        };
        self.unopened = unopened;
        count_children(mirror, node, self)?;
        Ok(true)
    }

    /// The node of that id came in. Tells whether the numbers are those after.
    pub(crate) fn insert(&mut self, mirror: &Mirror, node: u64) -> Result<bool, AllocError>
        ensures { (parent : ℕ) → NumbersTurned (change.Inserted parent node) (numbers_in self.old) (numbers_in self.new) mirror.now result }
    {
        if !mirror.known(node) {
            return Ok(false);
        }
        count_node(mirror, node, self)?;
        Ok(true)
    }
}

/// A number that code holds is below 2^64.
fn number_fits(number: u64)
    ensures { number < number_limit }
{
    let _number = number;
}

/// The numbers of a tally are each below 2^64.
pub(crate) fn numbers_fit(tally: &Tally)
    ensures { AreSmall (numbers_in tally.now) }
{
    number_fits(tally.elements);
    number_fits(tally.texts);
    number_fits(tally.comments);
    number_fits(tally.doctypes);
    number_fits(tally.unopened);
}

/// A mirror has fewer than 2^64 known nodes.
#[tactic(auto, using(crate::proofs::CountLemmas::root_size))]
pub(crate) fn few_known(mirror: &Mirror)
    ensures { node_count mirror.now < number_limit }
{
    if mirror.is_empty() {
        return;
    }
    mirror.valid();
    let _size = mirror.size(mirror.document());
}

/// Counts a known node and all below it.
#[cycle(counting)]
fn count_node(mirror: &Mirror, id: u64, tally: &mut Tally) -> Result<(), AllocError>
    requires known { IsSome (find seen_id id mirror.now) }
    ensures { OnOk result (numbers_in tally.new ≡ plus (numbers_in tally.old) (numbers_of (alone (known_at id mirror.now)))) }
{
    tally.add(mirror, id)?;
    count_children(mirror, id, tally)
}

/// Counts all below a known node.
#[cycle(counting)]
fn count_children(mirror: &Mirror, id: u64, tally: &mut Tally) -> Result<(), AllocError>
    requires known { IsSome (find seen_id id mirror.now) }
    ensures { OnOk result (numbers_in tally.new ≡ plus (numbers_in tally.old) (numbers_of (known_at id mirror.now).children)) }
{
    mirror.valid();
    for i in 0..mirror.children_len(id) {
        let child = mirror.child_at(id, i);
        count_node(mirror, child, tally)?;
    }
    Ok(())
}

/// The numbers of all known nodes.
#[tactic(auto, using(crate::proofs::RootLemmas::root_known, crate::proofs::NumberLemmas::all_counted))]
pub(crate) fn count_all(mirror: &Mirror) -> Result<Tally, AllocError>
    ensures { IfOk result (λ tally. numbers_in tally ≡ numbers_of mirror.now) }
{
    let mut tally = Tally::zero();
    if mirror.is_empty() {
        return Ok(tally);
    }
    mirror.valid();
    count_node(mirror, mirror.document(), &mut tally)?;
    Ok(tally)
}
