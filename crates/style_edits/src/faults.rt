use std::alloc::AllocError;
use thiserror::Error;

/// Why an edit of a sheet is refused, in the order in which the first one that applies is answered.
#[derive(Clone, Copy, Debug, Error)]
pub enum SheetFault {
    /// No sheet has the id.
    #[error("no such sheet")]
    NoSheet,
    /// A client may not edit a sheet of the user agent.
    #[error("the sheet is the user agent's")]
    NotMutable,
    /// No style rule has its body, or its prelude, at the lines and columns, or no media rule its prelude.
    #[error("no rule has this range")]
    BadRange,
    /// The text is not sealed, or where a rule is wanted not one rule, or has a `{` or `;` where a prelude is wanted.
    #[error("the text does not stand for itself")]
    BadText,
    /// The text, or the rule's prelude, is no selector list.
    #[error("not a selector list")]
    BadSelector,
    /// The lines and columns are no place between the parts of the sheet.
    #[error("no rule may be added there")]
    BadPlace,
    /// A text would have more than 2^24 bytes, or there would be more than 1,000 sheets.
    #[error("too much text, or too many sheets")]
    TooBig,
}

#[derive(Clone, Copy, Debug, Error)]
pub enum SheetErr {
    #[error(transparent)]
    Fault(SheetFault),
    #[error("out of memory")]
    Memory,
}

impl From<AllocError> for SheetErr {
    ghost use Rattle.std.specs.Prelude.{◌≡◌};
    ghost use Rattle.style_edits.specs.declared.faults.SheetErr.TheVariants.{Memory};

    ghost from_gives = { λ _ e. e ≡ Memory };

    fn from(_: AllocError) -> SheetErr {
        SheetErr::Memory
    }
}
