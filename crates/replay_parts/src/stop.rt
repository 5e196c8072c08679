ghost use Rattle.std.specs.Prelude.{◌≡◌};
ghost use Rattle.replay_parts.specs.declared.stop.Stop.TheVariants.{Memory};

use front_mirror::{FrontErr, FrontKind};
use pipe_frames::{OutErr, ReadErr};
use replay_script::LineFault;
use std::alloc::AllocError;

/// Why a run stopped before its end.
#[derive(Drop)]
pub enum Stop {
    Line { number: u64, fault: LineFault },
    TooLong,
    ReadFault,
    WriteFault,
    LinkFault,
    FrontRefused { place: u64, fault: FrontKind },
    NoRoom,
    Memory,
}

impl From<AllocError> for Stop {
    ghost from_gives = { λ _ e. e ≡ Memory };

    fn from(_error: AllocError) -> Stop {
        Stop::Memory
    }
}
