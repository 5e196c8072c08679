// Why what comes down is not read.
ghost use Rattle.std.specs.Prelude.{◌≡◌};
ghost use Rattle.dom_objects.specs.declared.down_err.DownErr.TheVariants.{Memory};

use std::alloc::{AllocError, AllocFailed};

/// Why a node or a message is not read.
#[derive(Clone, Copy)]
pub enum DownErr {
    /// No node, or no message, has this form.
    NotMessage,
    Memory,
}

impl From<AllocError> for DownErr {
    ghost from_gives = { λ _ e. e ≡ Memory };

    fn from(_error: AllocError) -> DownErr {
        DownErr::Memory
    }
}

impl<T: Drop> From<AllocFailed<T>> for DownErr {
    ghost from_gives = { λ _ e. e ≡ Memory };

    fn from(_error: AllocFailed<T>) -> DownErr {
        DownErr::Memory
    }
}
