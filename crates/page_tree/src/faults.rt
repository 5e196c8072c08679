use std::alloc::AllocError;
use thiserror::Error;

/// Why the list of nodes of a load is refused, in the order in which the first one that applies is answered.
#[derive(Clone, Copy, Debug, Error)]
pub enum LoadFault {
    /// Not the form of nodes: an odd attribute list, a repeated attribute name and a doctype below an element are none.
    #[error("the nodes have not their form")]
    BadForm,
    /// A node stands above level 500; the document has level 0.
    #[error("a node stands above the highest level")]
    TooDeep,
    /// More than 100,000 nodes with the document.
    #[error("there are too many nodes")]
    TooMany,
    /// The name of an element, a doctype or an attribute has not its form.
    #[error("a name has not its form")]
    BadName,
}

#[derive(Clone, Copy, Debug, Error)]
pub enum LoadErr {
    #[error(transparent)]
    Fault(LoadFault),
    #[error("out of memory")]
    Memory,
}

impl From<AllocError> for LoadErr {
    ghost use Rattle.std.specs.Prelude.{◌≡◌};
    ghost use Rattle.page_tree.specs.declared.faults.LoadErr.TheVariants.{Memory};

    ghost from_gives = { λ _ e. e ≡ Memory };

    fn from(_: AllocError) -> LoadErr {
        LoadErr::Memory
    }
}
