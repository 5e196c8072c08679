//! An edit of the page that two clients of it are told of: the page makes it once.

ghost use Rattle.std.specs.Prelude.{◌≡◌, ◌<◌, ◌++◌, IfOk, OnOk};
ghost use Rattle.node_tree.specs.Numbers.{drawn_before_call};
ghost use Rattle.page_tree.specs.Edits.{after, back_tree};
ghost use Rattle.page_tree.specs.EditFaults.{first_fault, IsReady, RefusesEdit};
ghost use Rattle.client_views.specs.Moves.{frames_of_moves};
ghost use Rattle.dom_agent.specs.Edits.{OnFault};
ghost use Rattle.dom_agent.specs.ModeEdits.{shown_binding_edited};

use crate::agent::DomAgent;
use page_tree::{EditErr, Page, TreeEdit};

impl DomAgent {
    /// Makes the edit of the page once, and appends to each of two lists the events that tell it to a client, as `edit` does; answers
    /// the edit that leads back. A fault changes nothing.
    pub fn edit_both(
        &mut self,
        other: &mut DomAgent,
        page: &mut Page,
        edit: TreeEdit,
        out: &mut Vec<u8>,
        other_out: &mut Vec<u8>,
    ) -> Result<TreeEdit, EditErr>
        requires ready { IsReady page.old.next edit page.old.tree }
        requires room { self.old.next < drawn_before_call }
        requires other_room { other.old.next < drawn_before_call }
        ensures fault { RefusesEdit result (first_fault edit page.old.tree) }
        ensures page { OnOk result (page.new ≡ after edit page.old) }
        ensures back { IfOk result (λ back. back ≡ back_tree edit page.old.tree) }
        ensures agent { OnOk result (self.new ≡ (shown_binding_edited self.old.mode edit page.old self.old).state) }
        ensures sent { OnOk result
            (out.new.items ≡ out.old.items
            ++ frames_of_moves (shown_binding_edited self.old.mode edit page.old self.old).moves) }
        ensures other_agent { OnOk result
            (other.new ≡ (shown_binding_edited other.old.mode edit page.old other.old).state) }
        ensures other_sent { OnOk result
            (other_out.new.items ≡ other_out.old.items
            ++ frames_of_moves (shown_binding_edited other.old.mode edit page.old other.old).moves) }
        ensures page_kept { OnFault result (page.new ≡ page.old) }
        ensures agent_kept { OnFault result (self.new ≡ self.old) }
        ensures unsent { OnFault result (out.new.items ≡ out.old.items) }
        ensures other_kept { OnFault result (other.new ≡ other.old) }
        ensures other_unsent { OnFault result (other_out.new.items ≡ other_out.old.items) }
    {
        page.valid();
        if let Some(fault) = page.fault(&edit) {
            return Err(EditErr::Fault(fault));
        }
        let foreseen = self.foresee(page, &edit)?;
        let other_foreseen = other.foresee(page, &edit)?;
        let back = page.apply(edit)?;
        self.tell(page, foreseen, out)?;
        other.tell(page, other_foreseen, other_out)?;
        Ok(back)
    }
}
