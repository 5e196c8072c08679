// A page out of the tokens that usually spell it.
ghost use Rattle.std.specs.Prelude.{◌≡◌, ◌∷◌, true, Some, None, IfOk};
ghost use Rattle.json.specs.Token.{key, end_object};
ghost use Rattle.node_tree.specs.Nodes.{nodes_of};
ghost use Rattle.page_forms.specs.Spelt.{ReadsAs, SpellsItems, SpellsField};
ghost use Rattle.page_forms.specs.PageForms.{sheet_value, sheets_form, sheets_field_form, SpellsNodes, page_form};
ghost use Rattle.page_forms.specs.Pages.{first_page_fault, loaded_page};

use crate::mediums::usual_medium;
use crate::node_scan::scan_nodes;
use crate::pages::PageForm;
use crate::row_scan::scan_flat;
use crate::sheets::{SheetForm, can_hold_sheets, origin_in};
use cdp_json::{
    ScanErr, take_any_key, take_begin_array, take_begin_object, take_end_object, take_key,
    take_text,
};
use json::{Reader, Token};
use node_tree::{MOST_TOLD, Text};
use page_tree::{NodeForm, limit_fault};
use std::alloc::Global;

// The most levels of nodes of a nested page that is read token by token; a deeper one is read as a value, or given flat.
const LEVELS: u64 = MOST_TOLD;

fn scan_sheet(alloc: Global, reader: &mut Reader<'_>) -> Result<SheetForm, ScanErr>
    ensures { IfOk result (λ sheet. ReadsAs sheet_value reader.old sheet reader.new) }
{
    take_begin_object(reader)?;
    take_key(reader, "origin")?;
    let word = take_text(reader)?;
    let Some(origin) = origin_in(word) else {
        return Err(ScanErr::OtherForm);
    };
    take_key(reader, "text")?;
    let text = take_text(reader)?;
    take_end_object(reader)?;
    Ok(SheetForm {
        origin,
        text: Text::copied(alloc, text)?,
    })
}

// The sheets of a list, behind the bracket that begins it.
fn scan_sheets(alloc: Global, reader: &mut Reader<'_>) -> Result<Vec<SheetForm>, ScanErr>
    ensures { IfOk result (λ sheets. SpellsItems sheets_form reader.old sheets.items reader.new) }
{
    let mut sheets = Vec::new(alloc);
    'sheets: while !reader.take_end_array() {
        let sheet = scan_sheet(alloc, reader)?;
        sheets.push(sheet)?;
    }
    Ok(sheets)
}

// The sheets in the field of that name, and the end of the page's object.
fn sheets_under(
    alloc: Global,
    reader: &mut Reader<'_>,
    name: &str,
) -> Result<Vec<SheetForm>, ScanErr>
    ensures { IfOk result (λ sheets. SpellsField sheets_field_form
        (key name.now ∷ reader.old) sheets.items (end_object ∷ reader.new)) }
{
    if name != "sheets" {
        return Err(ScanErr::OtherForm);
    }
    take_begin_array(reader)?;
    let sheets = scan_sheets(alloc, reader)?;
    take_end_object(reader)?;
    Ok(sheets)
}

// The sheets, if there are any, and the end of the page's object.
fn sheets_ahead(alloc: Global, reader: &mut Reader<'_>) -> Result<Vec<SheetForm>, ScanErr>
    ensures { IfOk result (λ sheets. SpellsField sheets_field_form
        reader.old sheets.items (end_object ∷ reader.new)) }
{
    match reader.next() {
        Some(Token::Key(name)) => {
            let sheets = sheets_under(alloc, reader, name)?;
            Ok(sheets)
        }
        Some(Token::EndObject) => Ok(Vec::new(alloc)),
        _ => Err(ScanErr::OtherForm),
    }
}

// The nodes of a page: its first field, nested or in rows.
fn scan_first_field(alloc: Global, reader: &mut Reader<'_>) -> Result<Vec<NodeForm>, ScanErr>
    ensures { IfOk result (λ nodes. SpellsNodes reader.old (nodes_of nodes.items) reader.new) }
{
    let name = take_any_key(reader)?;
    take_begin_array(reader)?;
    if name == "document" {
        let nodes = scan_nodes(alloc, reader, LEVELS, true)?;
        Ok(nodes)
    } else if name == "flat" {
        let nodes = scan_flat(alloc, reader)?;
        Ok(nodes)
    } else {
        Err(ScanErr::OtherForm)
    }
}

// Whether a page may hold these nodes and sheets.
fn can_load(page: &PageForm) -> bool
    ensures { result ≡ true → first_page_fault (Some (loaded_page page.now)) ≡ None }
{
    let fault = limit_fault(&page.nodes);
    fault.is_none() && can_hold_sheets(&page.sheets)
}

/// Reads the page whose tokens come next, where it is spelled in its usual form and has no fault: the fields `e`, `a`, `c` of an
/// element, `up`, `e`, `a` of a row, `document` or `flat` and `sheets` of a page, which tells no medium, `origin` and `text` of a sheet
/// stand in this order, and no more than 60 levels of nodes are nested. Any other tokens, which may spell a page all the same, are
/// answered by an error.
pub fn scan_page(alloc: Global, reader: &mut Reader<'_>) -> Result<PageForm, ScanErr>
    ensures spelt { IfOk result (λ page. ReadsAs page_form reader.old (loaded_page page) reader.new) }
    ensures sound { IfOk result (λ page. first_page_fault (Some (loaded_page page)) ≡ None) }
{
    take_begin_object(reader)?;
    let nodes = scan_first_field(alloc, reader)?;
    let sheets = sheets_ahead(alloc, reader)?;
    let medium = usual_medium();
    let page = PageForm {
        nodes,
        medium,
        sheets,
    };
    if !can_load(&page) {
        return Err(ScanErr::OtherForm);
    }
    Ok(page)
}
