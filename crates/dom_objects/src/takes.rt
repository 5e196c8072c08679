// What has to come next of a node's text.
ghost use Rattle.std.specs.Prelude.{◌≡◌, ◌∷◌, ◌++◌, decimal, true, Some, IfOk};
ghost use Rattle.std.specs.List.{list_all};
ghost use Rattle.json.specs.Run.{is_plain};
ghost use Rattle.json.specs.Token.{begin_object, end_object, begin_array, key, string, number as number_token};
ghost use Rattle.cdp_json.specs.Kinds.{whole, text as text_kind};
ghost use Rattle.dom_objects.specs.Tokens.{field_tokens};

use cdp_json::ScanErr;
use node_tree::Text;
use short_json::UsualReader;
use std::alloc::Global;

/// The beginning of an object.
pub fn take_begin_object(reader: &mut UsualReader<'_>) -> Result<(), ScanErr>
    ensures { IfOk result (λ _. reader.old ≡ begin_object ∷ reader.new) }
{
    reader.begin_object().ok_or(ScanErr::OtherForm)
}

/// The end of an object.
pub fn take_end_object(reader: &mut UsualReader<'_>) -> Result<(), ScanErr>
    ensures { IfOk result (λ _. reader.old ≡ end_object ∷ reader.new) }
{
    reader.end_object().ok_or(ScanErr::OtherForm)
}

// The beginning of an array.
pub(crate) fn take_begin_array(reader: &mut UsualReader<'_>) -> Result<(), ScanErr>
    ensures { IfOk result (λ _. reader.old ≡ begin_array ∷ reader.new) }
{
    reader.begin_array().ok_or(ScanErr::OtherForm)
}

/// The name of a member, which has to be this one. It needs no escapes.
pub fn take_key(reader: &mut UsualReader<'_>, name: &str) -> Result<(), ScanErr>
    requires { list_all is_plain name.now ≡ true }
    ensures { IfOk result (λ _. reader.old ≡ key name.now ∷ reader.new) }
{
    if reader.take_name(name) {
        Ok(())
    } else {
        Err(ScanErr::OtherForm)
    }
}

// A text without escapes.
pub(crate) fn take_text<'a>(reader: &mut UsualReader<'a>) -> Result<&'a str, ScanErr>
    ensures { IfOk result (λ text. reader.old ≡ string text.now ∷ reader.new) }
{
    reader.text().ok_or(ScanErr::OtherForm)
}

// A text, copied.
pub(crate) fn take_copied(alloc: Global, reader: &mut UsualReader<'_>) -> Result<Text, ScanErr>
    ensures { IfOk result (λ text. reader.old ≡ string text ∷ reader.new) }
{
    if let Some(text) = reader.text() {
        let copied = Text::copied(alloc, text)?;
        return Ok(copied);
    }
    match reader.escaped_text(alloc)? {
        Some(text) => Ok(Text::new(text)),
        None => Err(ScanErr::OtherForm),
    }
}

// A whole number.
pub(crate) fn take_whole(reader: &mut UsualReader<'_>) -> Result<u64, ScanErr>
    ensures { IfOk result (λ n. reader.old ≡ number_token (decimal n) ∷ reader.new) }
{
    reader.whole().ok_or(ScanErr::OtherForm)
}

// The member of that name, which is a text without escapes.
pub(crate) fn take_text_field<'a>(
    reader: &mut UsualReader<'a>,
    name: &str,
) -> Result<&'a str, ScanErr>
    requires { list_all is_plain name.now ≡ true }
    ensures { IfOk result (λ t. reader.old ≡ field_tokens name.now (Some (text_kind.spell t.now)) ++ reader.new) }
{
    take_key(reader, name)?;
    take_text(reader)
}

/// The member of that name, which is a whole number. The name needs no escapes.
pub fn take_whole_field(reader: &mut UsualReader<'_>, name: &str) -> Result<u64, ScanErr>
    requires { list_all is_plain name.now ≡ true }
    ensures { IfOk result (λ n. reader.old ≡ field_tokens name.now (Some (whole.spell n)) ++ reader.new) }
{
    take_key(reader, name)?;
    take_whole(reader)
}
