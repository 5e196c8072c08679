// A document out of the tokens that are written for one, in one pass. Any other text is left to `serde_json`.
ghost use Rattle.std.specs.Prelude.{◌≡◌, ◌≤◌, [], Some, true, IfOk, OnOk};
ghost use Rattle.cdp_json.specs.Kinds.{is_counted};
ghost use Rattle.node_tree.specs.Nodes.{alone, height};
ghost use Rattle.node_tree.specs.Levels.{most_told_root};
ghost use Rattle.dom_objects.specs.NodeData.{fits_tree};
ghost use Rattle.cdp_messages.specs.declared.down.ReplyBody.TheVariants.{Root};
ghost use Rattle.cdp_messages.specs.Replies.{reply, message_data, down_of};
ghost use Rattle.cdp_messages.specs.Results.{body_data};
ghost use Rattle.dom_objects.specs.Tokens.{data_tokens};

use cdp_json::ScanErr;
use dom_objects::{
    DownErr, NodeTree, is_counted, scan_node, take_begin_object, take_end_object, take_key,
    take_whole_field,
};
use node_tree::MOST_TOLD;
use short_json::UsualReader;
use std::alloc::Global;

// The most levels that a document's message tells.
const LEVELS: u64 = MOST_TOLD + 1;

// That nothing is left.
fn take_end(reader: &mut UsualReader<'_>) -> Result<(), ScanErr>
    ensures { OnOk result (reader.old ≡ []) }
{
    if reader.is_over() {
        Ok(())
    } else {
        Err(ScanErr::OtherForm)
    }
}

// A reply with a document, and nothing behind it.
fn scan_reply(alloc: Global, reader: &mut UsualReader<'_>) -> Result<(u64, NodeTree), ScanErr>
    ensures read { IfOk result (λ p. reader.old ≡ data_tokens (message_data (reply p.0 (body_data (Root p.1))))) }
    ensures counted { IfOk result (λ p. is_counted p.0 ≡ true) }
    ensures fits { IfOk result (λ p. fits_tree true p.1 ≡ true) }
    ensures shallow { IfOk result (λ p. height (alone p.1) ≤ most_told_root) }
{
    take_begin_object(reader)?;
    let id = take_whole_field(reader, "id")?;
    if !is_counted(id) {
        return Err(ScanErr::OtherForm);
    }
    take_key(reader, "result")?;
    take_begin_object(reader)?;
    take_key(reader, "root")?;
    let tree = scan_node(alloc, reader, LEVELS, true)?;
    take_end_object(reader)?;
    take_end_object(reader)?;
    take_end(reader)?;
    Ok((id, tree))
}

/// Reads a reply with a document, where the text has the tokens that `write_reply` writes for it: the fields in the order of
/// their names, the numbers spelled as they are written. Any other text, which may be a message all the same, is answered by
/// an error.
pub fn read_root(alloc: Global, text: &str) -> Result<(u64, NodeTree), DownErr>
    ensures told { IfOk result (λ p. down_of text.now ≡ Some (reply p.0 (body_data (Root p.1)))) }
    ensures fits { IfOk result (λ p. fits_tree true p.1 ≡ true) }
{
    let mut reader = UsualReader::new(text);
    match scan_reply(alloc, &mut reader) {
        Ok(found) => Ok(found),
        Err(ScanErr::OtherForm) => Err(DownErr::NotMessage),
        Err(ScanErr::Memory) => Err(DownErr::Memory),
    }
}
