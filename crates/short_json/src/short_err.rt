use std::alloc::{AllocError, AllocFailed};

/// Why no value is read.
#[derive(Clone, Copy, Debug, Drop)]
pub(crate) enum ShortErr {
    /// The text is not in its usual form. It may be JSON all the same.
    OtherForm,
    Memory,
}

impl From<AllocError> for ShortErr {
    ghost use Rattle.std.specs.Prelude.{◌≡◌};
    ghost use Rattle.short_json.specs.declared.short_err.ShortErr.TheVariants.{Memory};

    ghost from_gives = { λ _ e. e ≡ Memory };

    fn from(_: AllocError) -> ShortErr {
        ShortErr::Memory
    }
}

impl<T: Drop> From<AllocFailed<T>> for ShortErr {
    ghost use Rattle.std.specs.Prelude.{◌≡◌};
    ghost use Rattle.short_json.specs.declared.short_err.ShortErr.TheVariants.{Memory};

    ghost from_gives = { λ _ e. e ≡ Memory };

    fn from(_: AllocFailed<T>) -> ShortErr {
        ShortErr::Memory
    }
}
