// The changes that a script makes of a page.
ghost use Rattle.std.specs.Prelude.{◌≡◌, codes, option_map, if◌then◌else◌, IfOk, Some, None};
ghost use Rattle.serde_json.specs.View.{view};
ghost use Rattle.cdp_json.specs.Gives.{Gives};
ghost use Rattle.cdp_json.specs.Kinds.{only_text};
ghost use Rattle.cdp_json.specs.Left.{left};
ghost use Rattle.cdp_json.specs.Rows.{left_with, need};
ghost use Rattle.page_forms.specs.Acts.{set_attr_in, drop_attr_in, set_text_in, insert_in, remove_in, move_in, act_in, IsInsertable};
ghost use Rattle.page_forms.specs.declared.acts.ActErr.TheVariants.{BadForm};
ghost use Rattle.page_forms.specs.Texts.{ActHasTexts};

use crate::mediums::medium_act_of;
use crate::sheet_acts::{add_sheet_of, drop_sheet_of, replace_sheet_of};
use crate::valid_texts::{form_valid, text_valid};
use cdp_json::Cursor;
use media_rules::Medium;
use node_tree::Text;
use page_tree::{LoadErr, NodeForm, read_node};
use serde_json::Value;
use sheet_reader::Origin;
use std::alloc::{AllocError, Global};
use thiserror::Error;

/// A change that a script makes of the page. Nodes are named by their serials, from 0 to 2^53-1, and sheets by the texts of their
/// ids; whether these are live is not judged here, nor are names, levels, the number of nodes and of sheets, and lengths of texts.
#[derive(Drop)]
pub enum Act {
    /// Sets the attribute of that name, or adds it.
    SetAttr {
        node: u64,
        name: Text,
        value: Text,
    },
    /// Takes the attribute of that name away.
    DropAttr {
        node: u64,
        name: Text,
    },
    /// Sets the value of a text or a comment.
    SetText {
        node: u64,
        value: Text,
    },
    /// Puts new nodes before the child `before` of the parent, or last where `before` is 0.
    Insert {
        parent: u64,
        before: u64,
        form: NodeForm,
    },
    /// Takes the node out, with all below it.
    Remove {
        node: u64,
    },
    /// Takes the node out, and puts it before the child `before` of the parent, or last where `before` is 0.
    Move {
        node: u64,
        parent: u64,
        before: u64,
    },
    /// Puts a new style sheet last.
    AddSheet {
        origin: Origin,
        text: Text,
    },
    /// Takes the style sheet of that id out.
    DropSheet {
        sheet: Text,
    },
    /// Takes the style sheet of that id out, and puts one of the same origin last, with this text and a new id.
    ReplaceSheet {
        sheet: Text,
        text: Text,
    },
    /// Shows the page on another medium.
    Medium {
        medium: Medium,
    },
}

impl Act {
    /// The texts of every act are UTF-8, by their types: this call only says so to a proof. It passes once over the nodes of an
    /// insert, and takes no memory.
    pub fn valid(&self)
        ensures { ActHasTexts self.now }
    {
        match self {
            Act::SetAttr { name, value, .. } => {
                text_valid(name);
                text_valid(value);
            }
            Act::DropAttr { name, .. } => text_valid(name),
            Act::SetText { value, .. } => text_valid(value),
            Act::Insert { form, .. } => form_valid(form),
            Act::AddSheet { text, .. } => text_valid(text),
            Act::DropSheet { sheet } => text_valid(sheet),
            Act::ReplaceSheet { sheet, text } => {
                text_valid(sheet);
                text_valid(text);
            }
            Act::Remove { .. } | Act::Move { .. } | Act::Medium { .. } => {}
        }
    }
}

/// Why a value is read as no act.
#[derive(Clone, Copy, Debug, Error)]
pub enum ActErr {
    /// The value has none of the forms of an act.
    #[error("the act has not its form")]
    BadForm,
    #[error("out of memory")]
    Memory,
}

impl From<AllocError> for ActErr {
    ghost use Rattle.std.specs.Prelude.{◌≡◌};
    ghost use Rattle.page_forms.specs.declared.acts.ActErr.TheVariants.{Memory};

    ghost from_gives = { λ _ e. e ≡ Memory };

    fn from(_: AllocError) -> ActErr {
        ActErr::Memory
    }
}

// Whether the next member is `do`, with this word.
pub(crate) fn does(fields: &mut Cursor<'_>, word: &str) -> bool
    ensures { option_map (left_with (left fields.new)) (if result then Some tt else None)
        ≡ need (only_text word.now).reads (codes "do") (left fields.old) }
{
    match fields.need_text("do") {
        Some(done) => done == word,
        None => false,
    }
}

fn set_attr_of(alloc: Global, value: &Value) -> Result<Option<Act>, AllocError>
    ensures { IfOk result (λ act. act ≡ set_attr_in (view value.now)) }
{
    let Some(members) = value.as_object() else {
        return Ok(None);
    };
    let mut fields = Cursor::new(members);
    if !does(&mut fields, "setAttr") {
        return Ok(None);
    }
    let Some(name) = fields.need_text("name") else {
        return Ok(None);
    };
    let Some(node) = fields.need_whole("node") else {
        return Ok(None);
    };
    let Some(text) = fields.need_text("value") else {
        return Ok(None);
    };
    if !fields.is_done() {
        return Ok(None);
    }
    Ok(Some(Act::SetAttr {
        node,
        name: Text::copied(alloc, name)?,
        value: Text::copied(alloc, text)?,
    }))
}

fn drop_attr_of(alloc: Global, value: &Value) -> Result<Option<Act>, AllocError>
    ensures { IfOk result (λ act. act ≡ drop_attr_in (view value.now)) }
{
    let Some(members) = value.as_object() else {
        return Ok(None);
    };
    let mut fields = Cursor::new(members);
    if !does(&mut fields, "dropAttr") {
        return Ok(None);
    }
    let Some(name) = fields.need_text("name") else {
        return Ok(None);
    };
    let Some(node) = fields.need_whole("node") else {
        return Ok(None);
    };
    if !fields.is_done() {
        return Ok(None);
    }
    Ok(Some(Act::DropAttr {
        node,
        name: Text::copied(alloc, name)?,
    }))
}

fn set_text_of(alloc: Global, value: &Value) -> Result<Option<Act>, AllocError>
    ensures { IfOk result (λ act. act ≡ set_text_in (view value.now)) }
{
    let Some(members) = value.as_object() else {
        return Ok(None);
    };
    let mut fields = Cursor::new(members);
    if !does(&mut fields, "setText") {
        return Ok(None);
    }
    let Some(node) = fields.need_whole("node") else {
        return Ok(None);
    };
    let Some(text) = fields.need_text("value") else {
        return Ok(None);
    };
    if !fields.is_done() {
        return Ok(None);
    }
    Ok(Some(Act::SetText {
        node,
        value: Text::copied(alloc, text)?,
    }))
}

fn insert_of(alloc: Global, value: &Value) -> Result<Option<Act>, AllocError>
    ensures { IfOk result (λ act. act ≡ insert_in (view value.now)) }
{
    let Some(members) = value.as_object() else {
        return Ok(None);
    };
    let mut fields = Cursor::new(members);
    let Some(before) = fields.need_whole("before") else {
        return Ok(None);
    };
    if !does(&mut fields, "insert") {
        return Ok(None);
    }
    let Some(node) = fields.need("node") else {
        return Ok(None);
    };
    let Some(parent) = fields.need_whole("parent") else {
        return Ok(None);
    };
    if !fields.is_done() {
        return Ok(None);
    }
    match read_node(alloc, node) {
        Ok(form) => Ok(Some(Act::Insert {
            parent,
            before,
            form,
        })),
        Err(LoadErr::Fault(_)) => Ok(None),
        Err(LoadErr::Memory) => Err(AllocError),
    }
}

fn remove_of(value: &Value) -> Option<Act>
    ensures { result ≡ remove_in (view value.now) }
{
    let mut fields = Cursor::new(value.as_object()?);
    if !does(&mut fields, "remove") {
        return None;
    }
    let node = fields.need_whole("node")?;
    if fields.is_done() {
        Some(Act::Remove { node })
    } else {
        None
    }
}

fn move_of(value: &Value) -> Option<Act>
    ensures { result ≡ move_in (view value.now) }
{
    let mut fields = Cursor::new(value.as_object()?);
    let before = fields.need_whole("before")?;
    if !does(&mut fields, "move") {
        return None;
    }
    let node = fields.need_whole("node")?;
    let parent = fields.need_whole("parent")?;
    if fields.is_done() {
        Some(Act::Move {
            node,
            parent,
            before,
        })
    } else {
        None
    }
}

/// The act that a value spells. A text is copied; an insert's node has its form, and names, levels, counts and lengths are the
/// page's to judge.
pub fn read_act(alloc: Global, v: &Value) -> Result<Act, ActErr>
    ensures reads { Gives (λ act. act) BadForm result (act_in (view v.now)) }
    ensures fit { IfOk result IsInsertable }
{
    if let Some(act) = set_attr_of(alloc, v)? {
        return Ok(act);
    }
    if let Some(act) = drop_attr_of(alloc, v)? {
        return Ok(act);
    }
    if let Some(act) = set_text_of(alloc, v)? {
        return Ok(act);
    }
    if let Some(act) = insert_of(alloc, v)? {
        return Ok(act);
    }
    if let Some(act) = remove_of(v) {
        return Ok(act);
    }
    if let Some(act) = move_of(v) {
        return Ok(act);
    }
    if let Some(act) = add_sheet_of(alloc, v)? {
        return Ok(act);
    }
    if let Some(act) = drop_sheet_of(alloc, v)? {
        return Ok(act);
    }
    if let Some(act) = replace_sheet_of(alloc, v)? {
        return Ok(act);
    }
    match medium_act_of(v) {
        Some(act) => Ok(act),
        None => Err(ActErr::BadForm),
    }
}
