// Edits of style sheets, as a command gives them.
ghost use Rattle.std.specs.Prelude.{◌≡◌};

use css_objects::SourceRange;
use node_tree::Text;
use std::marker::Model;

/// One edit of `CSS.setStyleTexts`: the text that comes in place of the range of that sheet.
#[derive(Drop)]
pub struct TextEdit {
    pub sheet: Text,
    pub range: SourceRange,
    pub text: Text,
}

/// A list of edits, which contracts see as the list.
#[derive(Drop)]
pub struct TextEdits {
    list: Vec<TextEdit>,
}

impl Model for TextEdits {
    ghost use Rattle.std.specs.Prelude.{List};
    ghost use Rattle.cdp_messages.specs.declared.edits.TextEdit.{TextEdit};

    ghost Value = { List TextEdit };

    ghost view = { λ e. e.list.items };
}

impl TextEdits {
    /// The edits of one command, in their order.
    pub fn new(list: Vec<TextEdit>) -> TextEdits
        ensures { result ≡ list.items }
    {
        TextEdits { list }
    }

    /// The edits, in their order.
    pub fn as_slice(&self) -> &[TextEdit]
        ensures { result.now ≡ self.now }
    {
        self.list.as_slice()
    }

    /// Gives the list back; takes no memory.
    pub fn into_vec(self) -> Vec<TextEdit>
        ensures { result.items ≡ self }
    {
        self.list
    }
}
