// Members written token by token, by the writer that `serde_json` itself calls.
ghost use Rattle.std.specs.Prelude.{◌≡◌, ◌++◌, Some, OnOk};
ghost use Rattle.cdp_json.specs.Kinds.{whole, text};
ghost use Rattle.cdp_json.specs.Tokens.{field_tokens};

use json::Writer;
use std::alloc::AllocError;

/// The member of that name, a number.
pub fn write_whole_field(out: &mut Writer, name: &str, number: u64) -> Result<(), AllocError>
    ensures ok { OnOk result (out.new.tokens ≡ out.old.tokens
        ++ field_tokens name.now (Some (whole.spell number))) }
    ensures before { out.new.before ≡ out.old.before }
{
    out.key(name)?;
    out.u64(number)
}

/// The member of that name, a text.
pub fn write_text_field(out: &mut Writer, name: &str, value: &str) -> Result<(), AllocError>
    ensures ok { OnOk result (out.new.tokens ≡ out.old.tokens
        ++ field_tokens name.now (Some (text.spell value.now))) }
    ensures before { out.new.before ≡ out.old.before }
{
    out.key(name)?;
    out.string(value)
}
