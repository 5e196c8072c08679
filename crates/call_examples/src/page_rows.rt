// Rows of a page: each has a list of steps, and each step tells the nodes that came of it, or the fault.
//
// A step is one of `page NODES`, `flat ROWS`, `chain COUNT`, `many COUNT`, `deep LEVELS`, `set NODE NAME VALUE`, `drop NODE NAME`,
// `text NODE VALUE`, `detach NODE`, `insert PARENT BEFORE NODE`, `copy NODE PARENT BEFORE` and `move NODE PARENT BEFORE`. The first
// five load a page; `chain` is one of so many rows, each below the one before. Behind each other edit but a move its way back is
// carried out too: `and back` says that all nodes are as before.
ghost use Rattle.std.specs.Prelude.{IfOk};
ghost use Rattle.node_tree.specs.Nodes.{nodes_of};
ghost use Rattle.page_tree.specs.EditFaults.{CanInsert, IsReady};
ghost use Rattle.page_tree.specs.Forms.{CanLoad};

use crate::row_parts::{Answer, first_word, push_layers, value_of, values_from};
use page_tree::{
    EditErr, LoadErr, NodeForm, Page, Text, TreeEdit, after_law, back_law, copy_law, insert_law,
    move_law, read_flat, read_node, read_nodes,
};
use serde_json::Value;
use std::alloc::{AllocError, Global};

/// Serials are drawn below this.
const MOST_SERIALS: u64 = 1 << 50;

/// A page of so many nodes is printed whole.
const FEW: u64 = 40;

/// The first word of a text as a number, and what stands behind it.
fn first_number(text: &str) -> (u64, &str) {
    let (word, rest) = first_word(text);
    (word.parse::<u64>().unwrap_or(0), rest)
}

/// What a row comes to.
pub(crate) fn told(alloc: Global, row: &str, answer: &mut Answer) -> Result<(), AllocError> {
    let value = value_of(alloc, row)?;
    take_steps(alloc, values_from(&value, 0), answer)
}

/// What steps on a page come to, which is empty at first.
fn take_steps(alloc: Global, steps: &[Value], answer: &mut Answer) -> Result<(), AllocError> {
    let mut page = Page::load(alloc, 1, Vec::new(alloc))?;
    for step in steps {
        carry_out(alloc, &mut page, step.as_str().unwrap_or(""), answer)?;
        answer.push("\n");
    }
    Ok(())
}

/// Carries out a step.
fn carry_out(
    alloc: Global,
    page: &mut Page,
    step: &str,
    answer: &mut Answer,
) -> Result<(), AllocError> {
    let (word, rest) = first_word(step);
    match word {
        "page" => load(alloc, page, rest, answer),
        "flat" => flat(alloc, page, rest, answer),
        "chain" => chain(alloc, page, rest, answer),
        "many" => many(alloc, page, rest, answer),
        "deep" => deep(alloc, page, rest, answer),
        "insert" => insert(alloc, page, rest, answer),
        "copy" => copy(alloc, page, rest, answer),
        "move" => relocate(page, rest, answer),
        _ => edit(alloc, page, word, rest, answer),
    }
}

/// Loads a page of the nodes that a text spells.
fn load(alloc: Global, page: &mut Page, json: &str, answer: &mut Answer) -> Result<(), AllocError> {
    let value = value_of(alloc, json)?;
    load_nodes(alloc, page, &value, answer)
}

/// Loads a page of these nodes, whose document has the serial 1.
fn load_nodes(
    alloc: Global,
    page: &mut Page,
    nodes: &Value,
    answer: &mut Answer,
) -> Result<(), AllocError> {
    put_in_place(alloc, page, read_nodes(alloc, nodes), answer)
}

/// Loads a page of the nodes of rows.
fn flat(alloc: Global, page: &mut Page, json: &str, answer: &mut Answer) -> Result<(), AllocError> {
    let value = value_of(alloc, json)?;
    put_in_place(alloc, page, read_flat(alloc, &value), answer)
}

/// Loads a page of so many rows, each below the one before.
fn chain(
    alloc: Global,
    page: &mut Page,
    rest: &str,
    answer: &mut Answer,
) -> Result<(), AllocError> {
    let (count, _) = first_number(rest);
    let mut json = String::from_str(alloc, "[")?;
    for up in 0..count {
        if up > 0 {
            json.push(',')?;
        }
        write!(json, r#"{{"up":{up},"e":"a"}}"#)?;
    }
    json.push(']')?;
    flat(alloc, page, json.as_str(), answer)
}

/// A page of the nodes that were read, or why they are refused.
fn put_in_place(
    alloc: Global,
    page: &mut Page,
    read: Result<Vec<NodeForm>, LoadErr>,
    answer: &mut Answer,
) -> Result<(), AllocError>
    requires { IfOk read (λ forms. CanLoad (nodes_of forms.items)) }
{
    match read {
        Ok(forms) => {
            *page = Page::load(alloc, 1, forms)?;
            push_outline(page, answer);
            Ok(())
        }
        Err(LoadErr::Fault(fault)) => {
            answer.push_shown(&fault);
            Ok(())
        }
        Err(LoadErr::Memory) => Err(AllocError),
    }
}

/// Loads a page of so many texts below the document.
fn many(alloc: Global, page: &mut Page, rest: &str, answer: &mut Answer) -> Result<(), AllocError> {
    let (count, _) = first_number(rest);
    let mut json = String::from_str(alloc, "[")?;
    let (text, last) = (r#"{"t":""},"#, r#"{"t":""}]"#);
    push_layers(&mut json, count.saturating_sub(1), text, last, "")?;
    load(alloc, page, json.as_str(), answer)
}

/// Loads a page of so many elements, one in another.
fn deep(alloc: Global, page: &mut Page, rest: &str, answer: &mut Answer) -> Result<(), AllocError> {
    let (levels, _) = first_number(rest);
    let mut json = String::new(alloc);
    let (outer, core) = (r#"[{"e":"a","c":"#, r#"[{"e":"a"}]"#);
    push_layers(&mut json, levels.saturating_sub(1), outer, core, "}]")?;
    load(alloc, page, json.as_str(), answer)
}

/// One of the edits that draw no serial.
fn edit(
    alloc: Global,
    page: &mut Page,
    word: &str,
    rest: &str,
    answer: &mut Answer,
) -> Result<(), AllocError> {
    let (node, rest) = first_number(rest);
    let (name, value) = first_word(rest);
    let edit = match word {
        "set" => TreeEdit::SetAttr {
            node,
            name: Text::copied(alloc, name)?,
            value: Text::copied(alloc, value)?,
        },
        "drop" => TreeEdit::DropAttr {
            node,
            name: Text::copied(alloc, name)?,
        },
        "text" => TreeEdit::SetText {
            node,
            value: Text::copied(alloc, rest)?,
        },
        "detach" => TreeEdit::Detach { node },
        _ => {
            answer.push("no such step");
            return Ok(());
        }
    };
    there_and_back(alloc, page, edit, answer)
}

/// The page after the edit, or the fault; then the edit that leads back is carried out too.
fn there_and_back(
    alloc: Global,
    page: &mut Page,
    edit: TreeEdit,
    answer: &mut Answer,
) -> Result<(), AllocError>
    requires { IsReady page.old.next edit page.old.tree }
{
    let before = outline(alloc, page);
    if both_ways(page, edit, answer)? {
        return push_is_back(&before, &outline(alloc, page), answer);
    }
    Ok(())
}

/// Whether two outlines are the same.
fn push_is_back(before: &Answer, after: &Answer, answer: &mut Answer) -> Result<(), AllocError> {
    answer.push(if before.as_slice()? == after.as_slice()? {
        " and back"
    } else {
        " and not back"
    });
    Ok(())
}

/// The page after the edit, or the fault. Whether the edit was carried out, and then the one that leads back.
fn both_ways(page: &mut Page, edit: TreeEdit, answer: &mut Answer) -> Result<bool, AllocError>
    requires { IsReady page.old.next edit page.old.tree }
{
    page.valid();
    back_law();
    after_law();
    match page.apply(edit) {
        Ok(back) => {
            push_outline(page, answer);
            match page.apply(back) {
                Ok(_) => Ok(true),
                Err(_) => Err(AllocError),
            }
        }
        Err(EditErr::Fault(fault)) => {
            answer.push_shown(&fault);
            Ok(false)
        }
        Err(EditErr::Memory) => Err(AllocError),
    }
}

/// New nodes that are put into the page.
fn insert(
    alloc: Global,
    page: &mut Page,
    rest: &str,
    answer: &mut Answer,
) -> Result<(), AllocError> {
    let (parent, rest) = first_number(rest);
    let (before, json) = first_number(rest);
    let value = value_of(alloc, json)?;
    insert_node(alloc, page, parent, before, &value, answer)
}

/// The nodes that a value spells, before that child of the parent.
fn insert_node(
    alloc: Global,
    page: &mut Page,
    parent: u64,
    before: u64,
    node: &Value,
    answer: &mut Answer,
) -> Result<(), AllocError> {
    match read_node(alloc, node) {
        Ok(form) => put_in(alloc, page, parent, before, form, answer),
        Err(LoadErr::Fault(fault)) => {
            answer.push_shown(&fault);
            Ok(())
        }
        Err(LoadErr::Memory) => Err(AllocError),
    }
}

/// Nodes of this form, before that child of the parent.
fn put_in(
    alloc: Global,
    page: &mut Page,
    parent: u64,
    before: u64,
    form: NodeForm,
    answer: &mut Answer,
) -> Result<(), AllocError>
    requires { CanInsert form }
{
    if page.next_serial() >= MOST_SERIALS {
        answer.push("no serials");
        return Ok(());
    }
    page.valid();
    insert_law();
    if let Some(fault) = page.insert_fault(parent, before, &form) {
        answer.push_shown(&fault);
        return Ok(());
    }
    let tree = page.grow(form)?;
    let attach = TreeEdit::Attach {
        parent,
        before,
        tree,
    };
    there_and_back(alloc, page, attach, answer)
}

/// A copy of a node that is put into the page.
fn copy(alloc: Global, page: &mut Page, rest: &str, answer: &mut Answer) -> Result<(), AllocError> {
    let (node, rest) = first_number(rest);
    let (parent, rest) = first_number(rest);
    let (before, _) = first_number(rest);
    if page.next_serial() >= MOST_SERIALS {
        answer.push("no serials");
        return Ok(());
    }
    page.valid();
    copy_law();
    if let Some(fault) = page.copy_fault(node, parent, before) {
        answer.push_shown(&fault);
        return Ok(());
    }
    if node == page.document() || !page.live(node) {
        answer.push("no copy");
        return Ok(());
    }
    let tree = page.copy(node)?;
    let attach = TreeEdit::Attach {
        parent,
        before,
        tree,
    };
    there_and_back(alloc, page, attach, answer)
}

/// The page after a move, which is a detach and an attach.
fn relocate(page: &mut Page, rest: &str, answer: &mut Answer) -> Result<(), AllocError> {
    let (node, rest) = first_number(rest);
    let (parent, rest) = first_number(rest);
    let (before, _) = first_number(rest);
    page.valid();
    move_law();
    if let Some(fault) = page.move_fault(node, parent, before) {
        answer.push_shown(&fault);
        return Ok(());
    }
    let before = page.moved_before(node, parent, before);
    let Ok(TreeEdit::Attach { tree, .. }) = page.apply(TreeEdit::Detach { node }) else {
        return Err(AllocError);
    };
    let attach = TreeEdit::Attach {
        parent,
        before,
        tree,
    };
    match page.apply(attach) {
        Ok(_) => {
            push_outline(page, answer);
            Ok(())
        }
        Err(_) => Err(AllocError),
    }
}

/// The outline of a page as an answer of its own.
fn outline(alloc: Global, page: &Page) -> Answer {
    let mut answer = Answer::new(alloc);
    push_outline(page, &mut answer);
    answer
}

/// All nodes by their serials, of a page that has few. Of another page how many nodes it has.
fn push_outline(page: &Page, answer: &mut Answer) {
    let count = count_nodes(page);
    if count > FEW {
        answer.push_number(count);
        answer.push(" nodes");
    } else {
        push_nodes(page, answer);
    }
}

/// How many nodes a page has.
fn count_nodes(page: &Page) -> u64 {
    let mut count = 0u64;
    for serial in 1..page.next_serial() {
        if page.live(serial) {
            count = count.saturating_add(1);
        }
    }
    count
}

/// All nodes of a page, whose first is its document.
fn push_nodes(page: &Page, answer: &mut Answer) {
    for serial in 1..page.next_serial() {
        push_node(page, serial, answer);
    }
}

/// A node of the page with its name and value, its attributes, and its children's serials in brackets.
fn push_node(page: &Page, serial: u64, answer: &mut Answer) {
    if !page.live(serial) {
        return;
    }
    if serial > 1 {
        answer.push(" ");
    }
    answer.push_number(serial);
    answer.push(page.name(serial));
    answer.push(page.value(serial));
    for i in 0..page.attr_len(serial) {
        let (name, value) = page.attr_at(serial, i);
        answer.push(" ");
        answer.push(name);
        answer.push("=");
        answer.push(value);
    }
    answer.push("(");
    for i in 0..page.children_len(serial) {
        answer.push_number(page.child_at(serial, i));
        answer.push(",");
    }
    answer.push(")");
}
