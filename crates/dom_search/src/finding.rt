//! The nodes that a query finds: one walk over the page, beside the one that finds what the query selects.

ghost use Rattle.std.specs.Prelude.{◌≡◌, ◌++◌, map, filter, IfOk, OnOk, [], ◌∷◌, ◌||◌, cond};
ghost use Rattle.page_tree.specs.Zippers.{below, serial_of};
ghost use Rattle.dom_search.specs.Found.{lowered, has_text, selects, searched_nodes, found_in};
ghost use Rattle.dom_search.specs.Merged.{waiting, is_next, left_behind, left_after, merged};

use crate::texts::has_text;
use page_tree::{NodeRef, Page};
use select_match::all_matches;
use selectors::{SelErr, read_selectors};
use std::alloc::{AllocError, Global};

/// Serials of nodes in document order, of which a walk takes each as it meets its node.
#[derive(Drop)]
struct Listed<'a> {
    serials: &'a [u64],
    taken: usize,
}

impl<'a> Listed<'a> {
    /// Takes the serial, where it is the next.
    fn takes(&mut self, serial: u64) -> bool
        ensures met { result ≡ is_next serial (waiting self.old) }
        ensures left { waiting self.new ≡ left_behind serial (waiting self.old) }
    {
        if self.taken >= self.serials.len() {
            return false;
        }
        if self.serials[self.taken] != serial {
            return false;
        }
        self.taken += 1;
        true
    }
}

/// The serials of the elements that the query selects, in document order; none where it is no selector list.
fn selected(alloc: Global, page: &Page, query: &str) -> Result<Vec<u64>, AllocError>
    ensures { IfOk result (λ v. v.items ≡ map serial_of (filter (selects query.now) (searched_nodes page.now.tree))) }
{
    match read_selectors(alloc, query) {
        Ok(selectors) => all_matches(alloc, &selectors, page, page.document()),
        Err(SelErr::Invalid) => Ok(Vec::new(alloc)),
        Err(SelErr::Memory) => Err(AllocError),
    }
}

/// Adds the serial of a node that has the part in a text, or that is listed.
fn add_if(here: bool, is_listed: bool, serial: u64, found: &mut Vec<u64>) -> Result<(), AllocError>
    ensures { OnOk result (found.new.items ≡ found.old.items ++ cond (here || is_listed) (serial ∷ []) []) }
{
    if here || is_listed {
        found.push(serial)?;
    }
    Ok(())
}

/// Adds the serials of the nodes below the node that have the part, which is in lower case, in a text, or that are listed.
fn add_found(
    part: &[u8],
    node: &NodeRef<'_>,
    listed: &mut Listed<'_>,
    found: &mut Vec<u64>,
) -> Result<(), AllocError>
    ensures found { OnOk result (found.new.items ≡ found.old.items
        ++ merged (has_text part.now) (waiting listed.old) (below node.now)) }
    ensures left { OnOk result (waiting listed.new
        ≡ left_after (waiting listed.old) (below node.now)) }
{
    let mut at = node.first_child();
    while let Some(child) = at {
        let serial = child.serial();
        let is_listed = listed.takes(serial);
        add_if(has_text(part, &child), is_listed, serial, found)?;
        add_found(part, &child, listed, found)?;
        at = child.next_sibling();
    }
    Ok(())
}

/// The serials of the nodes of the page that the query finds, in document order: those that have it in a text, where the case of
/// ASCII letters counts for nothing and other letters are compared by their bytes, and those elements that some selector of it
/// matches. The query is taken as it is, with the white space at its ends; the empty one finds nothing.
pub fn found(alloc: Global, page: &Page, query: &str) -> Result<Vec<u64>, AllocError>
    ensures { IfOk result (λ v. v.items ≡ found_in page.now.tree query.now) }
{
    let mut found = Vec::new(alloc);
    if query.is_empty() {
        return Ok(found);
    }
    page.valid();
    let serials = selected(alloc, page, query)?;
    let part = query.to_ascii_lowercase(alloc)?;
    let mut listed = Listed {
        serials: serials.as_slice(),
        taken: 0,
    };
    add_found(
        part.as_bytes(),
        &page.node_ref(page.document()),
        &mut listed,
        &mut found,
    )?;
    Ok(found)
}
