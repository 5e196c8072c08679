// What the CSS agent is asked that edits nothing.
ghost use Rattle.std.specs.Prelude.{◌≡◌};
ghost use Rattle.cdp_messages.specs.Parameters.{css_ask_form};

use crate::method::Method;
use node_tree::Text;

/// A command of the domain CSS that edits nothing, with its parameters.
#[derive(Drop)]
pub enum CssAsk {
    /// `CSS.getMatchedStylesForNode`: the node is named by its id.
    GetMatchedStyles { node: u64 },
    /// `CSS.getStyleSheetText`
    GetStyleSheetText { sheet: Text },
    /// `CSS.collectClassNames`
    CollectClassNames { sheet: Text },
}

impl CssAsk {
    /// The method that asks it.
    pub fn method(&self) -> Method
        ensures { result ≡ (css_ask_form self.now).method }
    {
        match self {
            CssAsk::GetMatchedStyles { .. } => Method::GetMatchedStyles,
            CssAsk::GetStyleSheetText { .. } => Method::GetStyleSheetText,
            CssAsk::CollectClassNames { .. } => Method::CollectClassNames,
        }
    }
}
