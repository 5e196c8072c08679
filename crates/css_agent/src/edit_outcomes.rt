// What each command that edits sheets comes to.
ghost use Rattle.std.specs.Prelude.{◌≡◌, ◌∷◌, [], Ok, Err, IfOk};
ghost use Rattle.cdp_messages.specs.declared.down.ReplyBody.TheVariants.{Nothing, Selectors, Rule};
ghost use Rattle.style_edits.specs.Edits.{IfFault};
ghost use Rattle.css_agent.specs.Edits.{css_done, one_done, styles_set, selector_edited, text_edited, rule_edited, css_edited};
ghost use Rattle.css_agent.specs.Edits.{media_done, media_edited};

use crate::edit_words::{line_range, sheet_number, style_edits};
use crate::edited_rules::{media_told, styles_at, told_at};
use cdp_messages::{CssEdit, Listed, ReplyBody, TextEdit};
use css_objects::SourceRange;
use sheet_reader::SheetBook;
use std::alloc::{AllocError, Global};
use style_edits::{
    SheetErr, Splice, add_rule, edited_rule, set_media, set_selector, set_styles_noting, set_text,
};

/// The splices that lead back, in the order of the edits, and the result.
#[derive(Drop)]
pub(crate) struct Done {
    pub backs: Vec<Splice>,
    pub body: ReplyBody,
}

fn one_done(alloc: Global, back: Splice, body: ReplyBody) -> Result<Done, AllocError>
    ensures backs { IfOk result (λ d. d.backs.items ≡ back ∷ []) }
    ensures body { IfOk result (λ d. d.body ≡ body) }
{
    let backs = vec![in alloc; back]?;
    Ok(Done { backs, body })
}

fn styles_set(alloc: Global, book: &mut SheetBook, edits: &[TextEdit]) -> Result<Done, SheetErr>
    ensures done { IfOk result (λ d. styles_set edits.now book.old ≡ Ok (css_done book.new d.backs.items d.body)) }
    ensures fault { IfFault result (λ f. styles_set edits.now book.old ≡ Err f) }
    ensures unchanged { IfFault result (λ f. book.new ≡ book.old) }
{
    let edits = style_edits(alloc, edits)?;
    let mut rules = Vec::new(alloc);
    let backs = match set_styles_noting(book, edits.as_slice(), &mut rules) {
        Ok(backs) => backs,
        Err(stop) => return Err(stop),
    };
    let styles = styles_at(alloc, book, rules.as_slice())?;
    Ok(Done {
        backs,
        body: ReplyBody::Styles(Listed::new(styles)),
    })
}

fn selector_set(
    alloc: Global,
    book: &mut SheetBook,
    sheet: &str,
    range: SourceRange,
    selector: &str,
) -> Result<Done, SheetErr>
    ensures done { IfOk result (λ d. one_done (λ r. Selectors r.selectors) (selector_edited sheet.now range selector.now book.old)
        ≡ Ok (css_done book.new d.backs.items d.body)) }
    ensures fault { IfFault result (λ f. selector_edited sheet.now range selector.now book.old ≡ Err f) }
    ensures unchanged { IfFault result (λ f. book.new ≡ book.old) }
{
    let back = match set_selector(book, sheet_number(sheet), &line_range(range), selector) {
        Ok(back) => back,
        Err(stop) => return Err(stop),
    };
    let rule = told_at(alloc, book, &edited_rule(book, &back))?;
    Ok(one_done(alloc, back, ReplyBody::Selectors(rule.selectors))?)
}

fn text_set(alloc: Global, book: &mut SheetBook, sheet: &str, text: &str) -> Result<Done, SheetErr>
    ensures done { IfOk result (λ d. one_done (λ r. Nothing) (text_edited sheet.now text.now book.old)
        ≡ Ok (css_done book.new d.backs.items d.body)) }
    ensures fault { IfFault result (λ f. text_edited sheet.now text.now book.old ≡ Err f) }
    ensures unchanged { IfFault result (λ f. book.new ≡ book.old) }
{
    let back = match set_text(book, sheet_number(sheet), text) {
        Ok(back) => back,
        Err(stop) => return Err(stop),
    };
    Ok(one_done(alloc, back, ReplyBody::Nothing)?)
}

fn rule_added(
    alloc: Global,
    book: &mut SheetBook,
    sheet: &str,
    rule_text: &str,
    location: SourceRange,
) -> Result<Done, SheetErr>
    ensures done { IfOk result (λ d. one_done (λ r. Rule r) (rule_edited sheet.now rule_text.now location book.old)
        ≡ Ok (css_done book.new d.backs.items d.body)) }
    ensures fault { IfFault result (λ f. rule_edited sheet.now rule_text.now location book.old ≡ Err f) }
    ensures unchanged { IfFault result (λ f. book.new ≡ book.old) }
{
    let back = match add_rule(book, sheet_number(sheet), rule_text, &line_range(location)) {
        Ok(back) => back,
        Err(stop) => return Err(stop),
    };
    let rule = told_at(alloc, book, &edited_rule(book, &back))?;
    Ok(one_done(alloc, back, ReplyBody::Rule(rule))?)
}

fn media_set(
    alloc: Global,
    book: &mut SheetBook,
    sheet: &str,
    range: SourceRange,
    text: &str,
) -> Result<Done, SheetErr>
    ensures done { IfOk result (λ d. media_done (media_edited sheet.now range text.now book.old)
        ≡ Ok (css_done book.new d.backs.items d.body)) }
    ensures fault { IfFault result (λ f. media_edited sheet.now range text.now book.old ≡ Err f) }
    ensures unchanged { IfFault result (λ f. book.new ≡ book.old) }
{
    let back = match set_media(book, sheet_number(sheet), &line_range(range), text) {
        Ok(back) => back,
        Err(stop) => return Err(stop),
    };
    let media = media_told(alloc, book, &back)?;
    Ok(one_done(alloc, back, ReplyBody::Media(media))?)
}

/// Carries the edit out. On a fault the book is as it was.
pub(crate) fn css_edited(
    alloc: Global,
    book: &mut SheetBook,
    edit: &CssEdit,
) -> Result<Done, SheetErr>
    ensures done { IfOk result (λ d. css_edited book.old edit.now ≡ Ok (css_done book.new d.backs.items d.body)) }
    ensures fault { IfFault result (λ f. css_edited book.old edit.now ≡ Err f) }
    ensures unchanged { IfFault result (λ f. book.new ≡ book.old) }
{
    match edit {
        CssEdit::SetStyleTexts { edits } => styles_set(alloc, book, edits.as_slice()),
        CssEdit::SetRuleSelector {
            sheet,
            range,
            selector,
        } => selector_set(alloc, book, sheet.as_str(), *range, selector.as_str()),
        CssEdit::SetStyleSheetText { sheet, text } => {
            text_set(alloc, book, sheet.as_str(), text.as_str())
        }
        CssEdit::AddRule {
            sheet,
            rule_text,
            location,
        } => rule_added(alloc, book, sheet.as_str(), rule_text.as_str(), *location),
        CssEdit::SetMediaText { sheet, range, text } => {
            media_set(alloc, book, sheet.as_str(), *range, text.as_str())
        }
    }
}
