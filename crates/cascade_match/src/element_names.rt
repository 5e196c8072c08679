//! The numbers of an element's names: a rule is tried only where the number of what it is filed under is among them.

ghost use Rattle.std.specs.Prelude.{◌≡◌, ◌==◌, ◌++◌, map, option_map, option_to_list, IfOk, OnOk};
ghost use Rattle.std.specs.Char.{is_ascii_whitespace};
ghost use Rattle.std.specs.List.{list_any, slice_split};
ghost use Rattle.select_match.specs.Subjects.{element_id, class_pieces};
ghost use Rattle.sheet_reader.specs.declared.filings.NameKind.TheVariants as kinds;
ghost use Rattle.sheet_reader.specs.Filings.{name_digest};
ghost use Rattle.cascade_match.specs.ElementNames.{element_digests, may_match};

use page_tree::NodeRef;
use sheet_reader::{NameKind, name_digest};
use std::alloc::{AllocError, Global};

fn add_id(node: &NodeRef<'_>, digests: &mut Vec<u32>) -> Result<(), AllocError>
    ensures { OnOk result (digests.new.items
        ≡ digests.old.items ++ option_to_list (option_map (name_digest kinds.Id) (element_id node.now))) }
{
    if let Some(id) = node.attr("id") {
        digests.push(name_digest(NameKind::Id, id.as_bytes()))?;
    }
    Ok(())
}

/// The pieces of a text that white space parts.
fn pieces_of(alloc: Global, text: &[u8]) -> Result<Vec<&[u8]>, AllocError>
    ensures { IfOk result (λ v. map (λ w. w.now) v.items ≡ slice_split is_ascii_whitespace text.now) }
{
    text.split(|b| b.is_ascii_whitespace()).collect(alloc)
}

/// The pieces of the element's class.
fn class_pieces<'a>(alloc: Global, node: &NodeRef<'a>) -> Result<Vec<&'a [u8]>, AllocError>
    ensures { IfOk result (λ v. map (λ w. w.now) v.items ≡ class_pieces node.now) }
{
    match node.attr("class") {
        Some(class) => pieces_of(alloc, class.as_bytes()),
        None => Ok(Vec::new(alloc)),
    }
}

fn add_classes(pieces: &[&[u8]], digests: &mut Vec<u32>) -> Result<(), AllocError>
    ensures { OnOk result (digests.new.items
        ≡ digests.old.items ++ map (name_digest kinds.Class) (map (λ w. w.now) pieces.now)) }
{
    for piece in pieces {
        digests.push(name_digest(NameKind::Class, piece))?;
    }
    Ok(())
}

/// The numbers of the element's type, of its id if it has one, and of the pieces of its class.
pub(crate) fn element_digests(alloc: Global, node: &NodeRef<'_>) -> Result<Vec<u32>, AllocError>
    ensures { IfOk result (λ v. v.items ≡ element_digests node.now) }
{
    let mut digests = Vec::new(alloc);
    digests.push(name_digest(NameKind::Tag, node.name().as_bytes()))?;
    add_id(node, &mut digests)?;
    let pieces = class_pieces(alloc, node)?;
    add_classes(pieces.as_slice(), &mut digests)?;
    Ok(digests)
}

fn is_among(digest: u32, digests: &[u32]) -> bool
    ensures { result ≡ list_any (λ d. d == digest) digests.now }
{
    for other in digests {
        if *other == digest {
            return true;
        }
    }
    false
}

/// Whether what has this number may be filed under one of the names with these.
pub(crate) fn may_match(digest: Option<u32>, digests: &[u32]) -> bool
    ensures { result ≡ may_match digest digests.now }
{
    match digest {
        Some(digest) => is_among(digest, digests),
        None => true,
    }
}
