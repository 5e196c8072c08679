// Replies with matched styles, written and read token by token. A text in any other form is left to `serde_json`.
ghost use Rattle.std.specs.Prelude.{◌≡◌, ◌++◌, [], Some, true, IfOk, OnOk, OnErr, IsUtf8};
ghost use Rattle.serde_json.specs.Written.{compact_text};
ghost use Rattle.pipe_frames.specs.Frames.{framed};
ghost use Rattle.cdp_json.specs.Kinds.{is_counted};
ghost use Rattle.cdp_json.specs.Tokens.{data_tokens};
ghost use Rattle.css_objects.specs.Rules.{matched_kind};
ghost use Rattle.cdp_messages.specs.declared.down.ReplyBody.TheVariants.{Matched as matched_body};
ghost use Rattle.cdp_messages.specs.Replies.{reply, message_data, down_of};
ghost use Rattle.cdp_messages.specs.Results.{body_data};

use cdp_json::{
    ScanErr, take_begin_object, take_counted_field, take_end_object, take_key, write_whole_field,
};
use css_objects::{Matched, scan_matched, write_matched};
use dom_objects::{DownErr, begin_frame, end_frame};
use json::{Reader, Scratch, Writer};
use std::alloc::{AllocError, Global};

fn write_matched_reply(
    alloc: Global,
    out: &mut Writer,
    id: u64,
    matched: &Matched,
) -> Result<(), AllocError>
    ensures ok { OnOk result (out.new.tokens ≡ out.old.tokens
        ++ data_tokens (message_data (reply id (matched_kind.spell matched.now)))) }
    ensures before { out.new.before ≡ out.old.before }
{
    out.begin_object()?;
    write_whole_field(out, "id", id)?;
    out.key("result")?;
    write_matched(alloc, out, matched)?;
    out.end_object()?;
    Ok(())
}

/// Appends the reply that tells these matched styles.
pub(crate) fn append_matched(
    alloc: Global,
    id: u64,
    matched: &Matched,
    out: &mut Vec<u8>,
) -> Result<(), AllocError>
    ensures ok { OnOk result (out.new.items ≡ out.old.items
        ++ framed (compact_text (message_data (reply id (matched_kind.spell matched.now))))) }
    ensures utf8 { OnOk result (IsUtf8 (compact_text (message_data (reply id (matched_kind.spell matched.now))))) }
    ensures err { OnErr result (out.new.items ≡ out.old.items) }
{
    let (mut writer, start) = begin_frame(alloc, out);
    let written = write_matched_reply(alloc, &mut writer, id, matched);
    end_frame(writer, start, written, out)
}

// That nothing is left.
fn take_end(reader: &mut Reader<'_>) -> Result<(), ScanErr>
    ensures { OnOk result (reader.old ≡ []) }
{
    match reader.next() {
        None => Ok(()),
        Some(_) => Err(ScanErr::OtherForm),
    }
}

// A reply with matched styles, and nothing behind it.
fn scan_matched_reply(alloc: Global, reader: &mut Reader<'_>) -> Result<(u64, Matched), ScanErr>
    ensures read { IfOk result (λ p. reader.old ≡ data_tokens (message_data (reply p.0 (body_data (matched_body p.1))))) }
    ensures counted { IfOk result (λ p. is_counted p.0 ≡ true) }
    ensures fits { IfOk result (λ p. matched_kind.fits p.1 ≡ true) }
{
    take_begin_object(reader)?;
    let id = take_counted_field(reader, "id")?;
    take_key(reader, "result")?;
    let matched = scan_matched(alloc, reader)?;
    take_end_object(reader)?;
    take_end(reader)?;
    Ok((id, matched))
}

/// Reads a reply with matched styles, where the text has the tokens that `write_reply` writes for it: the fields in the order of
/// their names, the numbers spelled as they are written. Any other text, which may be a message all the same, is answered by
/// an error.
pub fn read_matched(alloc: Global, text: &str) -> Result<(u64, Matched), DownErr>
    ensures told { IfOk result (λ p. down_of text.now ≡ Some (reply p.0 (body_data (matched_body p.1)))) }
    ensures fits { IfOk result (λ p. matched_kind.fits p.1 ≡ true) }
{
    let mut scratch = Scratch::new(alloc);
    let mut reader = Reader::new(text, &mut scratch)?;
    match scan_matched_reply(alloc, &mut reader) {
        Ok(found) => Ok(found),
        Err(ScanErr::OtherForm) => Err(DownErr::NotMessage),
        Err(ScanErr::Memory) => Err(DownErr::Memory),
    }
}
