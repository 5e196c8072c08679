// The ids of searches.
ghost use Rattle.std.specs.Prelude.{◌≡◌, string_bytes, IfOk};
ghost use Rattle.serde_json.specs.View.{view};
ghost use Rattle.cdp_messages.specs.SearchIds.{search_text, search_in, search_kind};

use cdp_json::text_of;
use css_objects::number_in;
use serde_json::Value;
use std::alloc::{AllocError, Global};

/// The search whose id has this text: `q`, and the number of the search, from 1 to 2^53-1, in decimal digits without a leading
/// zero.
pub fn search_in(text: &str) -> Option<u64>
    ensures { result ≡ search_in text.now }
{
    let digits = text.strip_prefix('q')?;
    number_in(digits)
}

fn search_text(alloc: Global, search: u64) -> Result<String, AllocError>
    ensures { IfOk result (λ text. string_bytes text ≡ search_text search) }
{
    format!(in alloc; "q{search}")
}

// `None` where the value is no search's id.
pub(crate) fn search_of(value: &Value) -> Option<u64>
    ensures { result ≡ search_kind.reads (view value.now) }
{
    search_in(text_of(value)?)
}

// The id of a search as JSON.
pub(crate) fn search_value(alloc: Global, search: u64) -> Result<Value, AllocError>
    ensures { IfOk result (λ v. view v ≡ search_kind.spell search) }
{
    Ok(Value::String(search_text(alloc, search)?))
}
