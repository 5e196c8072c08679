use std::alloc::AllocError;
use thiserror::Error;

/// Why an edit of a page is refused, in the order in which the first one that applies is answered.
#[derive(Clone, Copy, Debug, Error)]
pub enum EditFault {
    /// A named serial is not live.
    #[error("there is no such node")]
    NoNode,
    /// An attribute is set or dropped at a node that is no element.
    #[error("the node is no element")]
    NotElement,
    /// The node is neither a text nor a comment.
    #[error("the node is no text and no comment")]
    NotText,
    /// The document can't be taken out, moved or copied.
    #[error("the node is the document")]
    IsDocument,
    /// The node before which another is put is no child of the parent.
    #[error("the node to put it before is no child of the parent")]
    NotChild,
    /// The parent is the moved node or stands below it.
    #[error("the parent is the node itself or below it")]
    Inside,
    /// A node would stand above level 500; the document has level 0.
    #[error("a node would stand above the highest level")]
    TooDeep,
    /// The page would have more than 100,000 nodes with the document.
    #[error("there would be too many nodes")]
    TooMany,
    /// The name of an element, a doctype or an attribute has not its form.
    #[error("a name has not its form")]
    BadName,
    /// There is no attribute of that name to drop.
    #[error("there is no such attribute")]
    NoAttr,
    /// The parent is no container, or a doctype would leave the document.
    #[error("the parent can't hold the node")]
    NotContainer,
}

#[derive(Clone, Copy, Debug, Error)]
pub enum EditErr {
    #[error(transparent)]
    Fault(EditFault),
    #[error("out of memory")]
    Memory,
}

impl From<AllocError> for EditErr {
    ghost use Rattle.std.specs.Prelude.{◌≡◌};
    ghost use Rattle.page_tree.specs.declared.edit_faults.EditErr.TheVariants.{Memory};

    ghost from_gives = { λ _ e. e ≡ Memory };

    fn from(_: AllocError) -> EditErr {
        EditErr::Memory
    }
}
