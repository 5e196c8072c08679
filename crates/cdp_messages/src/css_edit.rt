// What a client edits of sheets.
ghost use Rattle.std.specs.Prelude.{◌≡◌};
ghost use Rattle.cdp_messages.specs.Parameters.{css_edit_form};

use crate::edits::TextEdits;
use crate::method::Method;
use css_objects::SourceRange;
use node_tree::Text;

/// A command of the domain CSS that edits sheets, with its parameters.
#[derive(Drop)]
pub enum CssEdit {
    /// `CSS.setStyleTexts`
    SetStyleTexts {
        edits: TextEdits,
    },
    /// `CSS.setRuleSelector`
    SetRuleSelector {
        sheet: Text,
        range: SourceRange,
        selector: Text,
    },
    /// `CSS.setStyleSheetText`
    SetStyleSheetText {
        sheet: Text,
        text: Text,
    },
    /// `CSS.addRule`
    AddRule {
        sheet: Text,
        rule_text: Text,
        location: SourceRange,
    },
    /// `CSS.setMediaText`
    SetMediaText {
        sheet: Text,
        range: SourceRange,
        text: Text,
    },
}

impl CssEdit {
    /// The method that asks it.
    pub fn method(&self) -> Method
        ensures { result ≡ (css_edit_form self.now).method }
    {
        match self {
            CssEdit::SetStyleTexts { .. } => Method::SetStyleTexts,
            CssEdit::SetRuleSelector { .. } => Method::SetRuleSelector,
            CssEdit::SetStyleSheetText { .. } => Method::SetStyleSheetText,
            CssEdit::AddRule { .. } => Method::AddRule,
            CssEdit::SetMediaText { .. } => Method::SetMediaText,
        }
    }
}
