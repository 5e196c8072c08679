ghost use Rattle.std.specs.Prelude.{◌≡◌, IfOk, OnOk, OnErr};
ghost use Rattle.style_edits.specs.Splices.{FitsSplice, after_splice, back_splice};

use crate::drafts::{apply, drafted};
use css_tokens::Range;
use node_tree::Text;
use sheet_reader::SheetBook;
use std::alloc::AllocError;

/// A change of one sheet's text: `text` takes the place of the bytes from `start` up to `end`.
#[derive(Drop)]
pub struct Splice {
    pub sheet: u64,
    pub start: usize,
    pub end: usize,
    pub text: Text,
}

/// Makes a splice, and answers the one that leads back. Where it replaces the body of a rule by a sealed text, only that is read, and else
/// what stands between the ends of rules with blocks at top level around it. On an error the book is as it was.
pub fn put_back(book: &mut SheetBook, splice: Splice) -> Result<Splice, AllocError>
    requires { FitsSplice splice book.old }
    ensures done { OnOk result (book.new ≡ after_splice splice book.old) }
    ensures back { IfOk result (λ back. back ≡ back_splice splice book.old) }
    ensures unchanged { OnErr result (book.new ≡ book.old) }
{
    let alloc = book.allocator();
    let Some(entry) = book.get(splice.sheet) else {
        unreachable!();
    };
    let part = Range {
        start: splice.start,
        end: splice.end,
    };
    let draft = drafted(alloc, entry, part, splice.text.as_str())?;
    Ok(apply(book, draft))
}
