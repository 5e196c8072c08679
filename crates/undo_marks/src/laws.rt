ghost use Rattle.undo_marks.specs.Laws.{HistoryLaw};
ghost use Rattle.undo_marks.specs.PageLaws.{SavedPagesLaw};

/// Edits that are kept for a history by saved pages are kept for it after each change. An undo or a redo by them gives the
/// saved page, and no edit on the way meets a fault.
pub fn history_law()
    ensures { HistoryLaw }
{}

/// The same of the edits of a page's tree and of its sheets' texts, of which no law is taken for granted: an undo or a redo meets
/// no fault and no limit, and gives the very tree and texts that were saved.
pub fn saved_pages_law()
    ensures { SavedPagesLaw }
{}
