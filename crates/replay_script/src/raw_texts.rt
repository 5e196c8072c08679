// Which texts a line may send as they are.
ghost use Rattle.std.specs.Prelude.{◌≡◌, IfOk};
ghost use Rattle.std.specs.List.{list_any};
ghost use Rattle.serde_json.specs.View.{view};
ghost use Rattle.replay_script.specs.Faults.{is_zero, is_whole_number, has_whole_id, is_no_frame};

use cdp_json::all_whole;
use cdp_messages::json_of;
use serde_json::Value;
use std::alloc::{AllocError, Global};

fn has_zero(bytes: &[u8]) -> bool
    ensures { result ≡ list_any is_zero bytes.now }
{
    bytes.iter().any(|byte| *byte == 0)
}

fn is_whole_number(value: &Value) -> bool
    ensures { result ≡ is_whole_number (view value.now) }
{
    let whole = all_whole(value);
    value.is_number() && whole
}

fn has_whole_id(value: &Value) -> bool
    ensures { result ≡ has_whole_id (view value.now) }
{
    match value.get("id") {
        Some(id) => is_whole_number(id),
        None => false,
    }
}

/// Whether the bytes hold a zero byte, or read as an object whose `id` is a whole number, of any size and sign.
pub(crate) fn is_no_frame(alloc: Global, bytes: &[u8]) -> Result<bool, AllocError>
    ensures { IfOk result (λ b. b ≡ is_no_frame bytes.now) }
{
    if has_zero(bytes) {
        return Ok(true);
    }
    match json_of(alloc, bytes)? {
        Some(value) => Ok(has_whole_id(&value)),
        None => Ok(false),
    }
}
