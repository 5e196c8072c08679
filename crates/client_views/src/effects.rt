// What the front end has to do at an Ok reply.
ghost use Rattle.std.specs.Prelude.{◌≡◌};
ghost use Rattle.client_views.specs.Effects.{effect_of, effect_of_method};

use cdp_messages::ReplyBody;
use dom_objects::NodeTree;
use node_tree::Text;

/// What an Ok reply changes at the front end, beside the reply itself.
#[derive(Drop)]
pub enum Effect {
    /// This document comes in place of what is known.
    Document(NodeTree),
    /// The text of the sheet that was asked for.
    SheetText(Text),
    /// Neither nodes nor sheets are told any more.
    AllOff,
    /// No sheets are told any more.
    SheetsOff,
    NothingElse,
}

impl Effect {
    /// The effect of a reply to that method, whose result it takes. Takes no memory.
    pub fn of_reply(method: &str, body: ReplyBody) -> Effect
        ensures { result ≡ effect_of method.now body }
    {
        match body {
            ReplyBody::Nothing => effect_of_method(method),
            ReplyBody::Root(document) => Effect::Document(document),
            ReplyBody::SheetText(text) => Effect::SheetText(text),
            _ => Effect::NothingElse,
        }
    }
}

// Of a command without a result.
fn effect_of_method(method: &str) -> Effect
    ensures { result ≡ effect_of_method method.now }
{
    match method {
        "DOM.disable" => Effect::AllOff,
        "CSS.disable" => Effect::SheetsOff,
        _ => Effect::NothingElse,
    }
}
