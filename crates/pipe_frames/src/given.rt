//! What a pipe has given, for proofs alone. The meaning of a pipe is all that was ever sent, and a clause of any call may
//! speak of it, but the memory need hold no more than what waits. So the bytes that were let go stand in a ghost field.
ghost use Rattle.std.specs.Prelude.{◌≡◌, ℕ, List, [], ◌++◌};
ghost use Rattle.std.specs.Borrow.{ftrue};

use std::marker::Model;

/// The bytes that a channel has given and let go. It takes no memory: only proofs read it.
#[derive(Drop)]
pub(crate) struct Given {
    pub ghost bytes: { List ℕ },
}

impl Model for Given {
    ghost also_owns = { λ _. ftrue };
}

impl Given {
    /// Nothing let go yet.
    pub(crate) fn new() -> Given
        ensures { result.bytes ≡ [] }
    {
        Given {}
    }

    /// What was let go before, and more after it.
    pub(crate) fn with(_before: &Given, _more: &Vec<u8>) -> Given
        ensures { result.bytes ≡ _before.now.bytes ++ _more.now.items }
    {
        Given {}
    }
}
