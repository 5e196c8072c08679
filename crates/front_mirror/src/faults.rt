ghost use Rattle.std.specs.Prelude.{◌≡◌};
ghost use Rattle.front_mirror.specs.declared.faults.FrontErr.TheVariants.{Memory};

use std::alloc::{AllocError, AllocFailed};
use thiserror::Error;

/// Why a message is refused.
#[derive(Clone, Copy, Debug)]
pub enum FrontKind {
    /// The frame is no message, a result is not of the method that was asked, or a reply answers no ask that waits.
    NotMessage,
    /// An event names a node that is not known, or one that it does not fit.
    UnknownNode,
    /// A node is said to be below another than its parent.
    NotChild,
    /// An id or a serial is known already, or comes twice in the message.
    IdTaken,
    /// An event names a sheet that is not known.
    UnknownSheet,
    /// A node would stand at a level above 500.
    TooDeep,
}

/// A message that is refused, by its place among all messages that came, counted from 1.
#[derive(Clone, Copy, Debug)]
pub struct FrontFault {
    pub place: u64,
    pub kind: FrontKind,
}

/// After `Memory` a front is dead: each later call that can answer it does.
#[derive(Debug, Drop, Error)]
pub enum FrontErr {
    #[error("message {} is refused: {:?}", .0.place, .0.kind)]
    Fault(FrontFault),
    #[error("out of memory")]
    Memory,
}

impl From<AllocError> for FrontErr {
    ghost from_gives = { λ _ e. e ≡ Memory };

    fn from(_error: AllocError) -> FrontErr {
        FrontErr::Memory
    }
}

/// What became of one frame that changed nothing. After `Memory` nothing is said of what is known.
#[derive(Drop)]
pub enum FrameErr {
    Refused(FrontKind),
    Memory,
}

impl From<AllocError> for FrameErr {
    ghost use Rattle.front_mirror.specs.declared.faults.FrameErr.TheVariants.{Memory};

    ghost from_gives = { λ _ e. e ≡ Memory };

    fn from(_error: AllocError) -> FrameErr {
        FrameErr::Memory
    }
}

impl<T: Drop> From<AllocFailed<T>> for FrameErr {
    ghost use Rattle.front_mirror.specs.declared.faults.FrameErr.TheVariants.{Memory};

    ghost from_gives = { λ _ e. e ≡ Memory };

    fn from(_error: AllocFailed<T>) -> FrameErr {
        FrameErr::Memory
    }
}
