// What each command that edits nothing comes to.
ghost use Rattle.std.specs.Prelude.{◌≡◌, Ok, IfOk, IfSome};
ghost use Rattle.std.specs.Option.{option_copied};
ghost use Rattle.sheet_reader.specs.Books.{IsEntry};
ghost use Rattle.cdp_messages.specs.declared.down.ReplyBody.TheVariants.{ClassNames, SheetText, Matched};
ghost use Rattle.css_agent.specs.ClassNames.{class_names};
ghost use Rattle.css_agent.specs.MatchedStyles.{matched_styles};
ghost use Rattle.css_agent.specs.Asks.{if_sheet, sheet_named, NodeIsThere, styled_page, css_outcome};

use crate::class_names::class_names;
use crate::matched_styles::matched_styles;
use cdp_messages::{CssAsk, Listed, ReplyBody, Why};
use css_objects::sheet_in;
use media_rules::Medium;
use node_tree::Text;
use page_tree::{NodeRef, Page};
use sheet_reader::{SheetBook, SheetEntry};
use std::alloc::{AllocError, Global};

/// The sheet of the book whose id has this text.
pub fn sheet_named<'a>(book: &'a SheetBook, text: &str) -> Option<&'a SheetEntry>
    ensures found { option_copied result ≡ sheet_named text.now book.now }
    ensures read { IfSome result (λ e. IsEntry e.now) }
{
    let id = sheet_in(text)?;
    book.get(id)
}

fn told_text(
    alloc: Global,
    book: &SheetBook,
    sheet: &str,
) -> Result<Result<ReplyBody, Why>, AllocError>
    ensures { IfOk result (λ o. o ≡ if_sheet (λ e. SheetText e.text) (sheet_named sheet.now book.now)) }
{
    let Some(entry) = sheet_named(book, sheet) else {
        return Ok(Err(Why::NoSheet));
    };
    let text = Text::copied(alloc, entry.text.as_str())?;
    Ok(Ok(ReplyBody::SheetText(text)))
}

fn told_class_names(
    alloc: Global,
    book: &SheetBook,
    sheet: &str,
) -> Result<Result<ReplyBody, Why>, AllocError>
    ensures { IfOk result (λ o. o ≡ if_sheet (λ e. ClassNames (class_names e.text)) (sheet_named sheet.now book.now)) }
{
    let Some(entry) = sheet_named(book, sheet) else {
        return Ok(Err(Why::NoSheet));
    };
    let names = class_names(alloc, entry.reading.rules.as_slice())?;
    Ok(Ok(ReplyBody::ClassNames(Listed::new(names))))
}

fn told_matched(
    alloc: Global,
    book: &SheetBook,
    node: NodeRef<'_>,
    medium: &Medium,
) -> Result<Result<ReplyBody, Why>, AllocError>
    ensures { IfOk result (λ o. o ≡ Ok (Matched (matched_styles medium.now book.now node.entry))) }
{
    let styles = matched_styles(alloc, book, node, medium)?;
    Ok(Ok(ReplyBody::Matched(styles)))
}

/// The result of the command, or why it is refused.
pub(crate) fn css_outcome(
    alloc: Global,
    page: &Page,
    book: &SheetBook,
    node: u64,
    ask: &CssAsk,
    medium: &Medium,
) -> Result<Result<ReplyBody, Why>, AllocError>
    requires { NodeIsThere node page.now.tree ask.now }
    ensures { IfOk result (λ o. o ≡ css_outcome (styled_page page.now.tree book.now medium.now) node ask.now) }
{
    match ask {
        CssAsk::GetMatchedStyles { node: _ } => {
            told_matched(alloc, book, page.node_ref(node), medium)
        }
        CssAsk::GetStyleSheetText { sheet } => told_text(alloc, book, sheet.as_str()),
        CssAsk::CollectClassNames { sheet } => told_class_names(alloc, book, sheet.as_str()),
    }
}
