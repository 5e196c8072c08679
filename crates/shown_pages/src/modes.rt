//! Which nodes a mode hides.

ghost use Rattle.std.specs.Prelude.{◌≡◌};
ghost use Rattle.std.specs.Char.{is_ascii_whitespace};
ghost use Rattle.std.specs.List.{list_all};
ghost use Rattle.shown_pages.specs.Modes.{hides, hidden_in, is_blank_text};

use page_tree::{Kind, Node};

/// Which nodes of a page a client is shown (the protocol's `includeWhitespace`).
#[derive(Clone, Copy)]
pub enum Mode {
    /// All nodes.
    All,
    /// All but the texts that are empty or of white space alone.
    NoBlank,
}

/// Each byte is tab, line feed, form feed, carriage return or space.
fn is_white(text: &str) -> bool
    ensures { result ≡ list_all is_ascii_whitespace text.now }
{
    text.as_bytes()
        .iter()
        .all(|byte| byte.is_ascii_whitespace())
}

fn is_blank_text(kind: Kind, value: &str) -> bool
    ensures { result ≡ is_blank_text kind value.now }
{
    match kind {
        Kind::Text => is_white(value),
        Kind::Document | Kind::Element | Kind::Comment | Kind::Doctype => false,
    }
}

impl Mode {
    /// Whether it hides nodes of that kind and that value.
    pub fn hides(self, kind: Kind, value: &str) -> bool
        ensures { result ≡ hides self kind value.now }
    {
        match self {
            Mode::All => false,
            Mode::NoBlank => is_blank_text(kind, value),
        }
    }
}

/// Whether the mode hides the node. What it hides has no children, so no node is hidden by one above it.
pub fn is_hidden(node: &Node<'_>, mode: Mode) -> bool
    ensures { result ≡ hidden_in mode node.now.row.label }
{
    mode.hides(node.kind(), node.value())
}
