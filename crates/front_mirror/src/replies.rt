ghost use Rattle.std.specs.Prelude.{◌≡◌, option_copied};
ghost use Rattle.front_mirror.specs.Front.{matched_in};

use css_objects::Matched;
use node_tree::Text;

/// An ask that waits for its reply.
#[derive(Drop)]
pub struct Ask {
    pub id: u64,
    pub method: Text,
    /// The number of the sheet whose text is fetched; none where the ask is no fetch.
    pub sheet: Option<u64>,
}

/// A reply that came.
#[derive(Drop)]
pub struct Kept {
    /// The id of the ask that it answers, none where the back end read no id.
    pub id: Option<u64>,
    /// The method of that ask, none where there is no id.
    pub method: Option<Text>,
    /// The frame as it came.
    pub text: Text,
    /// Whether it is no error reply.
    pub good: bool,
}

/// A reply that told matched styles (`CSS.getMatchedStylesForNode`).
#[derive(Drop)]
pub struct MatchedReply {
    /// The id of the ask that it answers.
    pub ask: u64,
    pub matched: Matched,
}

/// The matched styles that the first of the replies to the ask of that id told.
pub(crate) fn matched_in(replies: &[MatchedReply], ask: u64) -> Option<&Matched>
    ensures { option_copied result ≡ matched_in ask replies.now }
{
    for reply in replies {
        if reply.ask == ask {
            return Some(&reply.matched);
        }
    }
    None
}
