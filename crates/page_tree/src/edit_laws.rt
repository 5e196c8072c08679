ghost use Rattle.page_tree.specs.EditLaws.{AfterLaw, NextLaw, BackLaw, InsertLaw, CopyLaw, MoveLaw};

/// The page after an edit that it takes is valid, and has the next serial that it had.
pub fn after_law()
    ensures valid { AfterLaw }
    ensures next { NextLaw }
{}

/// The edit that leads back is taken by every page of the tree after the edit and of any later next serial, leads to the very tree
/// of before, and its own way back is the edit.
pub fn back_law()
    ensures { BackLaw }
{}

/// Where an insert has no fault, the edit that it means is taken as soon as its serials are drawn.
pub fn insert_law()
    ensures { InsertLaw }
{}

/// The same of a copy.
pub fn copy_law()
    ensures { CopyLaw }
{}

/// Where a move has no fault, both the edits that it means are taken, one after the other.
pub fn move_law()
    ensures { MoveLaw }
{}
