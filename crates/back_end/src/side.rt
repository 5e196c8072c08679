ghost use Rattle.std.specs.Prelude.{◌≡◌, ◌≤◌, ◌<◌, ◌+◌, IfOk, IfSome, length};
ghost use Rattle.node_tree.specs.Numbers.{drawn_before_edit};
ghost use Rattle.page_tree.specs.Pages.{loaded};
ghost use Rattle.page_forms.specs.Pages.{loaded_nodes, loaded_sheets, loaded_page, CanLoadPage};
ghost use Rattle.back_end.specs.Sheets.{as_book, numbered_sheets};
ghost use Rattle.back_end.specs.Seats.{first_page};

use crate::sheets::PageSheets;
use media_rules::Medium;
use page_forms::{PageForm, usual_medium};
use page_tree::Page;
use sheet_reader::SheetBook;
use std::alloc::{AllocError, Global};

/// The page's side: what the page is, whoever inspects it.
#[derive(Drop)]
pub struct PageSide {
    pub(crate) page: Page,
    pub(crate) sheets: PageSheets,
}

impl PageSide {
    /// The page's side of this page, with serials and numbers of sheets from 1 on; without one, of the page of one document and
    /// no sheets.
    pub fn new(alloc: Global, form: Option<PageForm>) -> Result<PageSide, AllocError>
        requires can { IfSome form (λ page. CanLoadPage (loaded_page page)) }
        ensures page { IfOk result (λ side. side.page ≡ loaded 1 (first_page form).nodes) }
        ensures sheets { IfOk result (λ side. side.sheets.entries ≡ as_book (numbered_sheets 1 (first_page form).sheets)) }
        ensures next { IfOk result (λ side. side.sheets.next ≡ 1 + length (first_page form).sheets) }
        ensures medium { IfOk result (λ side. side.sheets.medium ≡ (first_page form).medium) }
    {
        match form {
            Some(form) => PageSide::loaded(alloc, 1, 1, form),
            None => PageSide::loaded(
                alloc,
                1,
                1,
                PageForm {
                    nodes: Vec::new(alloc),
                    medium: usual_medium(),
                    sheets: Vec::new(alloc),
                },
            ),
        }
    }

    /// The side of a page that is loaded, with serials and numbers of sheets from these on.
    pub(crate) fn loaded(
        alloc: Global,
        serial: u64,
        number: u64,
        form: PageForm,
    ) -> Result<PageSide, AllocError>
        requires can { CanLoadPage (loaded_page form) }
        requires serials { (1 ≤ serial) × (serial < drawn_before_edit) }
        requires numbers { (0 < number) × (number < drawn_before_edit) }
        ensures page { IfOk result (λ side. side.page ≡ loaded serial (loaded_nodes form)) }
        ensures sheets { IfOk result (λ side. side.sheets.entries ≡ as_book (numbered_sheets number (loaded_sheets form))) }
        ensures next { IfOk result (λ side. side.sheets.next ≡ number + length (loaded_sheets form)) }
        ensures medium { IfOk result (λ side. side.sheets.medium ≡ form.medium) }
    {
        let sheets = PageSheets::loaded(alloc, number, form.medium, form.sheets.as_slice())?;
        let page = Page::load(alloc, serial, form.nodes)?;
        Ok(PageSide { page, sheets })
    }

    /// The page as it stands.
    pub fn page(&self) -> &Page
        ensures { result.now ≡ self.now.page }
    {
        &self.page
    }

    /// The page's sheets, in their order.
    pub fn book(&self) -> &SheetBook
        ensures { result.now ≡ self.now.sheets.entries }
    {
        self.sheets.book()
    }

    /// The medium that the page is shown on.
    pub fn medium(&self) -> &Medium
        ensures { result.now ≡ self.now.sheets.medium }
    {
        self.sheets.medium()
    }
}
