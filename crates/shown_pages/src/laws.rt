//! Laws of the definitions.

ghost use Rattle.shown_pages.specs.ShownLaws.{AllIsShown, BelowShown, FoundShown, ShownIsValid, ShownSteps, StandsShown};

/// A shown page is a valid page, and with the mode `All` it is the page. An edit of the page is, in the shown page, the same edit,
/// none, an attach or a detach; the shown page takes that, and it leads to the shown page of the page after. Exactly the nodes that
/// are not hidden themselves stand in the shown page, each below the same ancestors.
pub fn shown_law()
    ensures valid { ShownIsValid }
    ensures all { AllIsShown }
    ensures steps { ShownSteps }
    ensures found { FoundShown }
    ensures stands { StandsShown }
    ensures below { BelowShown }
{}
