// What is told of the trees of rows before they are made: a chain of many rows is never put together where a page may not hold it.
ghost use Rattle.std.specs.Prelude.{◌≡◌, [], ◌∷◌, suc, min, not, map, option_map, IfOk, OnOk};
ghost use Rattle.node_tree.specs.Nodes.{height};
ghost use Rattle.node_tree.specs.Levels.{most_levels};
ghost use Rattle.node_tree.specs.Labels.{holds};
ghost use Rattle.page_tree.specs.Forms.{may_stand};
ghost use Rattle.page_tree.specs.Flat.{flat_formed};
ghost use Rattle.page_tree.specs.FlatRows.{row_of, is_none_left, is_ahead, TakesOutline, kid_levels, kids_held, past_kids};
ghost use Rattle.page_tree.specs.FlatRows.{outline_under, outlined, outline_levels};

use crate::flat_rows::Row;
use node_tree::{Kind, MOST_LEVELS};
use std::alloc::{AllocError, Global};
use std::marker::Model;

/// A tree that has no parent yet: the number of its parent's row, how many levels it has, counted up to one more than a page may have,
/// and whether each of its nodes stands below one that may hold it.
#[derive(Clone, Copy)]
pub(crate) struct Outline {
    pub(crate) up: u64,
    pub(crate) levels: u64,
    pub(crate) is_held: bool,
}

/// Such trees, the first one innermost.
#[derive(Drop)]
struct Outlines {
    items: Vec<Outline>,
}

impl Model for Outlines {
    ghost use Rattle.std.specs.Prelude.{List, reverse};
    ghost use Rattle.page_tree.specs.declared.outlines.Outline.{Outline};
    ghost use Rattle.page_tree.specs.FlatRows.{coded_outlines};

    ghost Value = { List Outline };

    ghost coded = { coded_outlines };

    ghost view = { λ s. reverse s.items.items };
}

// What the children of a row are together.
#[derive(Clone, Copy)]
struct Kids {
    levels: u64,
    are_held: bool,
    are_none: bool,
}

impl Outlines {
    fn new(alloc: Global) -> Outlines
        ensures { result ≡ [] }
    {
        Outlines {
            items: Vec::new(alloc),
        }
    }

    fn is_empty(&self) -> bool
        ensures { result ≡ is_none_left self.now }
    {
        self.items.is_empty()
    }

    fn push(&mut self, outline: Outline) -> Result<(), AllocError>
        ensures { OnOk result (self.new ≡ outline ∷ self.old) }
    {
        self.items.push(outline)?;
        Ok(())
    }

    fn is_ahead(&self, i: u64) -> bool
        ensures { result ≡ is_ahead i self.now }
    {
        match self.items.last() {
            Some(first) => first.up == i,
            None => false,
        }
    }

    // Takes the first one, where its parent is the row `i`.
    fn take(&mut self, i: u64) -> Option<Outline>
        ensures { TakesOutline i self.old result self.new }
    {
        if !self.is_ahead(i) {
            return None;
        }
        self.items.pop()
    }

    // Takes those at the front whose parent is the row `i`.
    fn take_kids(&mut self, i: u64) -> Kids
        ensures levels { result.levels ≡ kid_levels i self.old }
        ensures held { result.are_held ≡ kids_held i self.old }
        ensures some { result.are_none ≡ not (is_ahead i self.old) }
        ensures past { self.new ≡ past_kids i self.old }
    {
        let are_none = !self.is_ahead(i);
        let mut levels = 0;
        let mut are_held = true;
        while let Some(kid) = self.take(i) {
            levels = levels.max(kid.levels);
            are_held = are_held && kid.is_held;
        }
        Kids {
            levels,
            are_held,
            are_none,
        }
    }
}

// One level more, up to one more than a page may have.
fn one_more(levels: u64) -> u64
    ensures { result ≡ min (suc levels) most_levels }
{
    if levels < MOST_LEVELS {
        levels + 1
    } else {
        MOST_LEVELS
    }
}

// A node of the kind may stand right below the document, or below another node.
fn may_stand(is_top: bool, kind: Kind) -> bool
    ensures { result ≡ may_stand is_top kind }
{
    match kind {
        Kind::Document => false,
        Kind::Doctype => is_top,
        Kind::Element | Kind::Text | Kind::Comment => true,
    }
}

fn may_hold(kind: Kind) -> bool
    ensures { result ≡ holds kind }
{
    match kind {
        Kind::Document | Kind::Element => true,
        Kind::Doctype | Kind::Text | Kind::Comment => false,
    }
}

// A row takes those at the front that are its children.
fn outline_under(i: u64, row: &Row, outlines: &mut Outlines) -> Result<(), AllocError>
    ensures { OnOk result (outlines.new ≡ outline_under i (row_of row.now) outlines.old) }
{
    let kids = outlines.take_kids(i);
    let stands = may_stand(row.up == 0, row.label.kind);
    let may_have_kids = may_hold(row.label.kind) || kids.are_none;
    outlines.push(Outline {
        up: row.up,
        levels: one_more(kids.levels),
        is_held: stands && may_have_kids && kids.are_held,
    })?;
    Ok(())
}

fn outline_all(alloc: Global, rows: &[Row]) -> Result<Outlines, AllocError>
    ensures { IfOk result (λ outlines. outlines ≡ outlined 1 (map row_of rows.now)) }
{
    let mut outlines = Outlines::new(alloc);
    let mut i = rows.len();
    while i > 0 {
        outline_under(i as u64, &rows[i - 1], &mut outlines)?;
        i -= 1;
    }
    Ok(outlines)
}

/// How many levels the nodes of rows have, counted up to one more than a page may have; none where the rows are those of no nodes, or
/// some node stands below one that may not hold it. Takes as long as there are rows, and makes no node.
pub(crate) fn flat_levels(alloc: Global, rows: &[Row]) -> Result<Option<u64>, AllocError>
    ensures { IfOk result (λ levels. levels
        ≡ option_map (λ n. min (height n) most_levels) (flat_formed (map row_of rows.now))) }
{
    let mut outlines = outline_all(alloc, rows)?;
    let kids = outlines.take_kids(0);
    if !outlines.is_empty() {
        return Ok(None);
    }
    if !kids.are_held {
        return Ok(None);
    }
    Ok(Some(kids.levels))
}
