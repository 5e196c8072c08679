// Events, by the names of their methods.
ghost use Rattle.std.specs.Prelude.{◌≡◌};
ghost use Rattle.cdp_json.specs.Kinds.{named};
ghost use Rattle.cdp_messages.specs.Events.{event_name, event_named};

// The method of an event.
#[derive(Clone, Copy)]
pub(crate) enum EventName {
    AttributeModified,
    AttributeRemoved,
    CharacterDataModified,
    ChildNodeCountUpdated,
    ChildNodeInserted,
    ChildNodeRemoved,
    SetChildNodes,
    DocumentUpdated,
    StyleSheetAdded,
    StyleSheetChanged,
    StyleSheetRemoved,
    Paused,
}

// Each event once.
const EVENTS: [EventName; 12] = [
    EventName::AttributeModified,
    EventName::AttributeRemoved,
    EventName::CharacterDataModified,
    EventName::ChildNodeCountUpdated,
    EventName::ChildNodeInserted,
    EventName::ChildNodeRemoved,
    EventName::SetChildNodes,
    EventName::DocumentUpdated,
    EventName::StyleSheetAdded,
    EventName::StyleSheetChanged,
    EventName::StyleSheetRemoved,
    EventName::Paused,
];

// The first of the events that has the name.
fn named_among(events: &[EventName], name: &str) -> Option<EventName>
    ensures { result ≡ named event_name events.now name.now }
{
    for event in events {
        if event.as_str() == name {
            return Some(*event);
        }
    }
    None
}

impl EventName {
    pub(crate) fn as_str(self) -> &'static str
        ensures { result.now ≡ event_name self }
    {
        match self {
            EventName::AttributeModified => "DOM.attributeModified",
            EventName::AttributeRemoved => "DOM.attributeRemoved",
            EventName::CharacterDataModified => "DOM.characterDataModified",
            EventName::ChildNodeCountUpdated => "DOM.childNodeCountUpdated",
            EventName::ChildNodeInserted => "DOM.childNodeInserted",
            EventName::ChildNodeRemoved => "DOM.childNodeRemoved",
            EventName::SetChildNodes => "DOM.setChildNodes",
            EventName::DocumentUpdated => "DOM.documentUpdated",
            EventName::StyleSheetAdded => "CSS.styleSheetAdded",
            EventName::StyleSheetChanged => "CSS.styleSheetChanged",
            EventName::StyleSheetRemoved => "CSS.styleSheetRemoved",
            EventName::Paused => "Debugger.paused",
        }
    }

    // The event whose method has the name.
    pub(crate) fn named(name: &str) -> Option<EventName>
        ensures { result ≡ event_named name.now }
    {
        named_among(&EVENTS, name)
    }
}
