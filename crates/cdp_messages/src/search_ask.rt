// What a client asks of searches.
ghost use Rattle.std.specs.Prelude.{◌≡◌};
ghost use Rattle.cdp_messages.specs.Parameters.{search_ask_form};

use crate::method::Method;
use node_tree::Text;

/// A command on searches, with its parameters; a search is named by its id.
#[derive(Drop)]
pub enum SearchAsk {
    /// `DOM.performSearch`: the flag has no effect.
    PerformSearch { query: Text, shadow: Option<bool> },
    /// `DOM.getSearchResults`: from the place `from` up to before the place `to`, counted from 0.
    GetSearchResults { search: Text, from: u64, to: u64 },
    /// `DOM.discardSearchResults`
    DiscardSearchResults { search: Text },
}

impl SearchAsk {
    /// The method that asks it.
    pub fn method(&self) -> Method
        ensures { result ≡ (search_ask_form self.now).method }
    {
        match self {
            SearchAsk::PerformSearch { .. } => Method::PerformSearch,
            SearchAsk::GetSearchResults { .. } => Method::GetSearchResults,
            SearchAsk::DiscardSearchResults { .. } => Method::DiscardSearchResults,
        }
    }
}
