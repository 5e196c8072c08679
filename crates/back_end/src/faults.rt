// Why the page refuses an act.
use page_tree::EditFault;
use style_edits::SheetFault;

/// Why the page refuses an act of a script: a fault of an edit of its nodes, or of a change of its sheets.
#[derive(Clone, Copy)]
pub enum ActFault {
    Edit(EditFault),
    Sheet(SheetFault),
}
