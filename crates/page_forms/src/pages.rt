// A page that is loaded.
ghost use Rattle.std.specs.Prelude.{◌≡◌, Option, Some, option_map, IfOk};
ghost use Rattle.serde_json.specs.View.{view};
ghost use Rattle.cdp_json.specs.Rows.{object_of};
ghost use Rattle.node_tree.specs.Nodes.{Nodes, nodes_of};
ghost use Rattle.node_tree.specs.Labels.{Label};
ghost use Rattle.media_rules.specs.declared.medium.Medium.{Medium};
ghost use Rattle.page_tree.specs.Forms.{CanLoad};
ghost use Rattle.page_tree.specs.Loads.{first_load_fault, Reads};
ghost use Rattle.page_forms.specs.Pages.{page_row, nodes_at, sheets_at, page_with, first_page_fault, loaded_page, CanLoadPage, ReadsPage};
ghost use Rattle.page_forms.specs.Texts.{PageHasTexts};

use crate::mediums::medium_at;
use crate::sheets::{SheetForm, can_hold_sheets, read_sheets};
use crate::valid_texts::{forms_valid, sheets_valid};
use cdp_json::Cursor;
use media_rules::Medium;
use page_tree::{LoadErr, LoadFault, NodeForm, read_flat, read_nodes};
use serde_json::Value;
use std::alloc::{AllocError, Global};

/// What a load puts in place of a page.
#[derive(Drop)]
pub struct PageForm {
    /// The nodes below the document.
    pub nodes: Vec<NodeForm>,
    /// What the page is shown on.
    pub medium: Medium,
    /// The style sheets, in their order.
    pub sheets: Vec<SheetForm>,
}

impl PageForm {
    /// The texts of every page are UTF-8, by their types: this call only says so to a proof. It passes once over the nodes, and
    /// takes no memory.
    pub fn valid(&self)
        ensures { PageHasTexts (loaded_page self.now) }
    {
        forms_valid(&self.nodes);
        sheets_valid(&self.sheets);
    }
}

// The fields of an object that has nothing else.
#[derive(Drop)]
struct PageFields<'a> {
    document: Option<&'a Value>,
    flat: Option<&'a Value>,
    medium: Option<&'a Value>,
    sheets: Option<&'a Value>,
}

fn fields_of(page: &Value) -> Option<PageFields<'_>>
    ensures { option_map (λ l. (
      option_map (λ v. view v.now) l.document,
      (option_map (λ v. view v.now) l.flat, (option_map (λ v. view v.now) l.medium, (option_map (λ v. view v.now) l.sheets, tt))),
    )) result
        ≡ (object_of page_row).reads (view page.now) }
{
    let mut fields = Cursor::new(page.as_object()?);
    let document = fields.may("document");
    let flat = fields.may("flat");
    let medium = fields.may("medium");
    let sheets = fields.may("sheets");
    if fields.is_done() {
        Some(PageFields {
            document,
            flat,
            medium,
            sheets,
        })
    } else {
        None
    }
}

fn sheets_at(alloc: Global, list: Option<&Value>) -> Result<Option<Vec<SheetForm>>, AllocError>
    ensures { IfOk result (λ o. option_map (λ v. v.items) o
        ≡ sheets_at (option_map (λ v. view v.now) list.entry)) }
{
    match list {
        Some(list) => read_sheets(alloc, list),
        None => Ok(Some(Vec::new(alloc))),
    }
}

// The nodes at `document` or at `flat`, or their first fault.
fn nodes_at(
    alloc: Global,
    document: Option<&Value>,
    flat: Option<&Value>,
) -> Result<Vec<NodeForm>, LoadErr>
    ensures reads { Reads result (nodes_at (option_map (λ v. view v.now) document.entry)
        (option_map (λ v. view v.now) flat.entry)) }
    ensures fit { IfOk result (λ forms. CanLoad (nodes_of forms.items)) }
{
    match (document, flat) {
        (Some(list), None) => read_nodes(alloc, list),
        (None, Some(rows)) => read_flat(alloc, rows),
        _ => Err(LoadErr::Fault(LoadFault::BadForm)),
    }
}

// The first fault of a page whose nodes have this one: sheets that are too many come before a bad name.
fn fault_beside(fault: LoadFault, sheets: &[SheetForm]) -> LoadFault
    ensures { (nodes : Option (Nodes Label)) (medium : Medium) → first_load_fault nodes ≡ Some fault
        → first_page_fault (page_with nodes (Some medium) (Some sheets.now)) ≡ Some result }
{
    if can_hold_sheets(sheets) {
        return fault;
    }
    match fault {
        LoadFault::BadForm => LoadFault::BadForm,
        LoadFault::TooDeep => LoadFault::TooDeep,
        LoadFault::TooMany | LoadFault::BadName => LoadFault::TooMany,
    }
}

/// The page that a value spells, or the first fault of the load: `BadForm`, `TooDeep`, `TooMany`, `BadName`. Its nodes stand nested at
/// `document`, or as rows at `flat`.
pub fn read_page(alloc: Global, v: &Value) -> Result<PageForm, LoadErr>
    ensures reads { ReadsPage result (view v.now) }
    ensures fit { IfOk result (λ page. CanLoadPage (loaded_page page)) }
{
    let Some(fields) = fields_of(v) else {
        return Err(LoadErr::Fault(LoadFault::BadForm));
    };
    let Some(medium) = medium_at(fields.medium) else {
        return Err(LoadErr::Fault(LoadFault::BadForm));
    };
    let Some(sheets) = sheets_at(alloc, fields.sheets)? else {
        return Err(LoadErr::Fault(LoadFault::BadForm));
    };
    match nodes_at(alloc, fields.document, fields.flat) {
        Ok(nodes) => if can_hold_sheets(&sheets) {
            Ok(PageForm {
                nodes,
                medium,
                sheets,
            })
        } else {
            Err(LoadErr::Fault(LoadFault::TooMany))
        },
        Err(LoadErr::Fault(fault)) => Err(LoadErr::Fault(fault_beside(fault, &sheets))),
        Err(LoadErr::Memory) => Err(LoadErr::Memory),
    }
}
