//! Lists that are short most of the time.

ghost use Rattle.std.specs.Prelude.{◌≡◌};

use std::alloc::AllocError;

// So long is a list for which room is made one by one.
const SHORT_LIST: usize = 4;

/// Makes room for one element more, and for no other while the list is short: a push alone makes room for four in an empty one.
pub fn make_room<T>(list: &mut Vec<T>) -> Result<(), AllocError>
    ensures { list.new.items ≡ list.old.items }
{
    if list.len() < SHORT_LIST {
        list.reserve_exact(1)?;
    }
    Ok(())
}
