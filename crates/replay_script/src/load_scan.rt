// A line that loads a page, read off its tokens where it has its usual form.
ghost use Rattle.std.specs.Prelude.{◌≡◌, [], ◌∷◌, true, codes, Some, None, IfOk};
ghost use Rattle.json.specs.Token.{begin_object, end_object, key};
ghost use Rattle.page_forms.specs.Pages.{loaded_page, first_page_fault};
ghost use Rattle.page_forms.specs.Spelt.{ReadsAs};
ghost use Rattle.replay_script.specs.Loads.{load_line_form, Loads};

use json::{Reader, Scratch, Token};
use page_forms::{PageForm, ScanErr, scan_page};
use std::alloc::Global;

fn opens_load(reader: &mut Reader<'_>) -> bool
    ensures { result ≡ true → reader.old ≡ begin_object ∷ (key (codes "load") ∷ reader.new) }
{
    let Some(Token::BeginObject) = reader.next() else {
        return false;
    };
    match reader.next() {
        Some(Token::Key(name)) => name == "load",
        _ => false,
    }
}

// Whether the object ends, and nothing is behind it.
fn closes(reader: &mut Reader<'_>) -> bool
    ensures { result ≡ true → reader.old ≡ end_object ∷ [] }
{
    let Some(Token::EndObject) = reader.next() else {
        return false;
    };
    reader.next().is_none()
}

fn scan_tokens(alloc: Global, reader: &mut Reader<'_>) -> Result<PageForm, ScanErr>
    ensures spelt { IfOk result (λ page. ReadsAs load_line_form reader.old (loaded_page page) []) }
    ensures sound { IfOk result (λ page. first_page_fault (Some (loaded_page page)) ≡ None) }
{
    if !opens_load(reader) {
        return Err(ScanErr::OtherForm);
    }
    let page = scan_page(alloc, reader)?;
    if !closes(reader) {
        return Err(ScanErr::OtherForm);
    }
    Ok(page)
}

// The page that a line loads, where the line has its usual form and no fault. The table of the reader is cleared where a function is
// entered that has one.
fn scan_whole(alloc: Global, line: &[u8]) -> Result<PageForm, ScanErr>
    ensures { IfOk result (λ page. Loads line.now (loaded_page page)) }
{
    let Ok(text) = str::from_utf8(line) else {
        return Err(ScanErr::OtherForm);
    };
    let mut scratch = Scratch::new(alloc);
    let mut reader = Reader::new(text, &mut scratch)?;
    let page = scan_tokens(alloc, &mut reader)?;
    Ok(page)
}

/// The page that the line loads, where the line has its usual form and no fault. Any other line, which may be a load all the same, is
/// answered by an error.
pub(crate) fn scan_load(alloc: Global, line: &[u8]) -> Result<PageForm, ScanErr>
    ensures { IfOk result (λ page. Loads line.now (loaded_page page)) }
{
    if !line.starts_with(b"{\"load\":") {
        return Err(ScanErr::OtherForm);
    }
    let page = scan_whole(alloc, line)?;
    Ok(page)
}
