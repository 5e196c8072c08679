// JSON with nodes, written node by node.
ghost use Rattle.std.specs.Prelude.{◌≡◌, ◌++◌, [], ◌∷◌, codes, Some, OnOk, OnErr, IsUtf8};
ghost use Rattle.json.specs.Token.{begin_object, end_object, begin_array, end_array, key};
ghost use Rattle.serde_json.specs.Data.{Data};
ghost use Rattle.serde_json.specs.Written.{compact_text};
ghost use Rattle.cdp_json.specs.Kinds.{whole, text};
ghost use Rattle.pipe_frames.specs.Frames.{framed};
ghost use Rattle.dom_objects.specs.Tokens.{data_tokens, field_tokens, head_tokens, tail_tokens};
ghost use Rattle.dom_objects.specs.NodeRows.{told_by};

use crate::node_row::NodeRow;
use crate::node_write::{write_head, write_tail};
use crate::token_write::{begin_frame, end_frame};
use cdp_json::{write_text_field, write_whole_field};
use json::Writer;
use std::alloc::{AllocError, Global};
use std::marker::Model;

/// A message with nodes that is being written behind what a vector holds, and that has it until `finish`. Contracts see
/// what stood there before, and the tokens since.
///
/// What stands before the nodes and behind them is written member by member. A node is its head, its children where they are
/// shown, and its tail, both of the same row; children are the key, and then the nodes; nodes are a bracket, the nodes in
/// their order, and a bracket. After an `Err` the message is not whole, and `finish` takes back what there is of it.
#[derive(Drop)]
pub struct NodeWriter {
    writer: Writer,
    start: usize,
    // Room for a name, which is kept from node to node.
    name: String,
}

impl Model for NodeWriter {
    ghost use Rattle.std.specs.Prelude.{◌≡◌, length};
    ghost use Rattle.json.specs.Written.{Written, written_code};

    ghost Value = { Written };

    ghost coded = { written_code };

    ghost view = { λ w. w.writer };

    ghost invariant = { λ w. w.start ≡ length w.writer.before };
}

impl NodeWriter {
    /// Writes behind what `out` holds, and takes it; takes no memory.
    pub fn new(alloc: Global, out: &mut Vec<u8>) -> NodeWriter
        ensures before { result.before ≡ out.old.items }
        ensures tokens { result.tokens ≡ [] }
    {
        let (writer, start) = begin_frame(alloc, out);
        NodeWriter {
            writer,
            start,
            name: String::new(alloc),
        }
    }

    /// The brace that begins an object.
    pub fn begin_object(&mut self) -> Result<(), AllocError>
        ensures ok { OnOk result (self.new.tokens ≡ self.old.tokens ++ begin_object ∷ []) }
        ensures before { self.new.before ≡ self.old.before }
    {
        self.writer.begin_object()
    }

    /// The brace that ends one.
    pub fn end_object(&mut self) -> Result<(), AllocError>
        ensures ok { OnOk result (self.new.tokens ≡ self.old.tokens ++ end_object ∷ []) }
        ensures before { self.new.before ≡ self.old.before }
    {
        self.writer.end_object()
    }

    /// The name of a member.
    pub fn key(&mut self, name: &str) -> Result<(), AllocError>
        ensures ok { OnOk result (self.new.tokens ≡ self.old.tokens ++ key name.now ∷ []) }
        ensures before { self.new.before ≡ self.old.before }
    {
        self.writer.key(name)
    }

    /// A member that is a number.
    pub fn whole_field(&mut self, name: &str, number: u64) -> Result<(), AllocError>
        ensures ok { OnOk result (self.new.tokens ≡ self.old.tokens
            ++ field_tokens name.now (Some (whole.spell number))) }
        ensures before { self.new.before ≡ self.old.before }
    {
        write_whole_field(&mut self.writer, name, number)
    }

    /// A member that is a text.
    pub fn text_field(&mut self, name: &str, value: &str) -> Result<(), AllocError>
        ensures ok { OnOk result (self.new.tokens ≡ self.old.tokens
            ++ field_tokens name.now (Some (text.spell value.now))) }
        ensures before { self.new.before ≡ self.old.before }
    {
        write_text_field(&mut self.writer, name, value)
    }

    /// A node up to its children.
    pub fn head(&mut self, row: &NodeRow) -> Result<(), AllocError>
        ensures ok { OnOk result (self.new.tokens ≡ self.old.tokens ++ head_tokens (told_by row.now)) }
        ensures before { self.new.before ≡ self.old.before }
    {
        write_head(&mut self.writer, row)
    }

    /// The key of a node's children.
    pub fn children(&mut self) -> Result<(), AllocError>
        ensures ok { OnOk result (self.new.tokens ≡ self.old.tokens ++ key (codes "children") ∷ []) }
        ensures before { self.new.before ≡ self.old.before }
    {
        self.writer.key("children")
    }

    /// The bracket before nodes side by side.
    pub fn begin_nodes(&mut self) -> Result<(), AllocError>
        ensures ok { OnOk result (self.new.tokens ≡ self.old.tokens ++ begin_array ∷ []) }
        ensures before { self.new.before ≡ self.old.before }
    {
        self.writer.begin_array()
    }

    /// The bracket behind them.
    pub fn end_nodes(&mut self) -> Result<(), AllocError>
        ensures ok { OnOk result (self.new.tokens ≡ self.old.tokens ++ end_array ∷ []) }
        ensures before { self.new.before ≡ self.old.before }
    {
        self.writer.end_array()
    }

    /// A node behind its children.
    pub fn tail(&mut self, row: &NodeRow) -> Result<(), AllocError>
        ensures ok { OnOk result (self.new.tokens ≡ self.old.tokens ++ tail_tokens (told_by row.now)) }
        ensures before { self.new.before ≡ self.old.before }
    {
        write_tail(&mut self.writer, &mut self.name, row)
    }

    /// Gives `out` back what it had, with the message and its zero byte behind it. Where `written` says that the message is
    /// not whole, and after want of memory, with nothing behind it.
    pub fn finish(
        self,
        written: Result<(), AllocError>,
        out: &mut Vec<u8>,
    ) -> Result<(), AllocError>
        ensures ok { (d : Data) → OnOk written (self.tokens ≡ data_tokens d)
            → OnOk result (out.new.items ≡ self.before ++ framed (compact_text d)) }
        ensures utf8 { (d : Data) → OnOk written (self.tokens ≡ data_tokens d)
            → OnOk result (IsUtf8 (compact_text d)) }
        ensures err { OnErr result (out.new.items ≡ self.before) }
    {
        let NodeWriter { writer, start, .. } = self;
        end_frame(writer, start, written, out)
    }
}
