//! What a query asks.

ghost use Rattle.dom_agent.specs.Queries.{query_of, IsQuery};

use cdp_messages::Why;
use selectors::{SelErr, SelectorList, read_selectors};
use shown_pages::ShownNode;
use std::alloc::Global;

/// The serial of a node below which is searched, and the selectors.
#[derive(Drop)]
pub(crate) struct Query {
    pub root: u64,
    pub selectors: SelectorList,
}

/// Why nothing is searched.
#[derive(Clone, Copy)]
pub(crate) enum QueryErr {
    Refused(Why),
    Memory,
}

/// What is asked of a node, if there is one, with a text; or the first refusal.
pub(crate) fn read_query(
    alloc: Global,
    found: Option<ShownNode<'_>>,
    text: &str,
) -> Result<Query, QueryErr>
    ensures { IsQuery result (query_of found.entry text.now) }
{
    let Some(node) = found else {
        return Err(QueryErr::Refused(Why::UnknownNode));
    };
    if !node.kind().is_container() {
        return Err(QueryErr::Refused(Why::NotContainer));
    }
    let root = node.serial();
    match read_selectors(alloc, text) {
        Ok(selectors) => Ok(Query { root, selectors }),
        Err(SelErr::Invalid) => Err(QueryErr::Refused(Why::BadQuery)),
        Err(SelErr::Memory) => Err(QueryErr::Memory),
    }
}
