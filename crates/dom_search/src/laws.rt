//! Laws of the definitions.

ghost use Rattle.std.specs.Prelude.{ℕ, List};
ghost use Rattle.page_tree.specs.Pages.{PageValue, IsValid};
ghost use Rattle.dom_search.specs.FoundLaws.{FindsExactly};

/// A query finds exactly the nodes of the page but the document that have it as a part of one of their texts, but for the case of
/// ASCII letters, or that a selector of it matches; each once, in document order.
pub fn found_law()
    ensures { (page : PageValue) (query : List ℕ) → IsValid page → FindsExactly page query }
{}
