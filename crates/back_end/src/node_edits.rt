// What a client's edit of the page comes to.
ghost use Rattle.std.specs.Prelude.{◌≡◌, map as mapped, IfOk};
ghost use Rattle.std.specs.Char.{to_ascii_lowercase};
ghost use Rattle.std.specs.FinMap as map;
ghost use Rattle.back_end.specs.Plans.{node_edit_fault};
ghost use Rattle.cdp_messages.specs.declared.dom_edit.DomEdit.TheVariants.{MoveTo, CopyTo};
ghost use Rattle.back_end.specs.Steps.{before_by, edit_named, lowered};

use cdp_messages::{DomEdit, Why};
use dom_agent::DomAgent;
use node_tree::Text;
use page_tree::{EditFault, Page, TreeEdit};
use std::alloc::{AllocError, Global};

/// What a client wants changed in the page's tree, with nodes by their serials; `before` is 0 for the last place.
#[derive(Drop)]
pub(crate) enum TreeWish {
    /// One edit of the tree.
    One { edit: TreeEdit },
    /// A node, with all below it, moves to another place.
    MoveNode { node: u64, parent: u64, before: u64 },
    /// A copy of a node, with all below it, is put in.
    CopyNode { node: u64, parent: u64, before: u64 },
}

/// A text in ASCII lower case.
fn lower(alloc: Global, text: &Text) -> Result<Text, AllocError>
    ensures { IfOk result (λ lower. lower ≡ mapped to_ascii_lowercase text.now) }
{
    Ok(Text::new(text.as_str().to_ascii_lowercase(alloc)?))
}

/// The serial of the known node before which another is put; 0 for the last place.
fn before_of(agent: &DomAgent, before: Option<u64>) -> Option<u64>
    ensures { result ≡ before_by (map.get agent.now.serials) before }
{
    match before {
        Some(before) => agent.serial_of(before),
        None => Some(0),
    }
}

/// The edit with names of attributes in ASCII lower case.
pub(crate) fn lowered(alloc: Global, edit: DomEdit) -> Result<DomEdit, AllocError>
    ensures { IfOk result (λ done. done ≡ lowered edit) }
{
    match edit {
        DomEdit::SetAttributeValue { node, name, value } => {
            let name = lower(alloc, &name)?;
            Ok(DomEdit::SetAttributeValue { node, name, value })
        }
        DomEdit::RemoveAttribute { node, name } => {
            let name = lower(alloc, &name)?;
            Ok(DomEdit::RemoveAttribute { node, name })
        }
        others => Ok(others),
    }
}

impl TreeWish {
    /// The edit with nodes by their serials, where each is known.
    pub(crate) fn named(edit: DomEdit, agent: &DomAgent) -> Result<TreeWish, Why>
        ensures { result ≡ edit_named (map.get agent.now.serials) edit }
    {
        match edit {
            DomEdit::SetAttributeValue { node, name, value } => {
                let Some(node) = agent.serial_of(node) else {
                    return Err(Why::UnknownNode);
                };
                let edit = TreeEdit::SetAttr { node, name, value };
                Ok(TreeWish::One { edit })
            }
            DomEdit::RemoveAttribute { node, name } => {
                let Some(node) = agent.serial_of(node) else {
                    return Err(Why::UnknownNode);
                };
                let edit = TreeEdit::DropAttr { node, name };
                Ok(TreeWish::One { edit })
            }
            DomEdit::SetNodeValue { node, value } => {
                let Some(node) = agent.serial_of(node) else {
                    return Err(Why::UnknownNode);
                };
                let edit = TreeEdit::SetText { node, value };
                Ok(TreeWish::One { edit })
            }
            DomEdit::RemoveNode { node } => {
                let Some(node) = agent.serial_of(node) else {
                    return Err(Why::UnknownNode);
                };
                let edit = TreeEdit::Detach { node };
                Ok(TreeWish::One { edit })
            }
            DomEdit::MoveTo {
                node,
                target,
                before,
            } => TreeWish::moved(agent, node, target, before),
            DomEdit::CopyTo {
                node,
                target,
                before,
            } => TreeWish::copied(agent, node, target, before),
        }
    }

    /// A move of the node that has the id, where all its nodes are known.
    fn moved(agent: &DomAgent, node: u64, target: u64, before: Option<u64>) -> Result<TreeWish, Why>
        ensures { result ≡ edit_named (map.get agent.now.serials) (MoveTo node target before) }
    {
        let Some(node) = agent.serial_of(node) else {
            return Err(Why::UnknownNode);
        };
        let Some(parent) = agent.serial_of(target) else {
            return Err(Why::UnknownNode);
        };
        let Some(before) = before_of(agent, before) else {
            return Err(Why::UnknownNode);
        };
        Ok(TreeWish::MoveNode {
            node,
            parent,
            before,
        })
    }

    /// A copy of the node that has the id, where all its nodes are known.
    fn copied(
        agent: &DomAgent,
        node: u64,
        target: u64,
        before: Option<u64>,
    ) -> Result<TreeWish, Why>
        ensures { result ≡ edit_named (map.get agent.now.serials) (CopyTo node target before) }
    {
        let Some(node) = agent.serial_of(node) else {
            return Err(Why::UnknownNode);
        };
        let Some(parent) = agent.serial_of(target) else {
            return Err(Why::UnknownNode);
        };
        let Some(before) = before_of(agent, before) else {
            return Err(Why::UnknownNode);
        };
        Ok(TreeWish::CopyNode {
            node,
            parent,
            before,
        })
    }

    /// The fault of the edit on a page, the first by number.
    pub(crate) fn fault(&self, page: &Page) -> Option<EditFault>
        ensures { result ≡ node_edit_fault self.now page.now }
    {
        match self {
            TreeWish::One { edit } => page.fault(edit),
            TreeWish::MoveNode {
                node,
                parent,
                before,
            } => page.move_fault(*node, *parent, *before),
            TreeWish::CopyNode {
                node,
                parent,
                before,
            } => page.copy_fault(*node, *parent, *before),
        }
    }
}
