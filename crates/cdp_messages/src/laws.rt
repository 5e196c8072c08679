// The laws of the messages, which make no call.
ghost use Rattle.cdp_messages.specs.Laws.{AsksAreAsked, AsksFit, CommandsAreAsked, ParametersAreRead, ParametersArePlain, CommandsAreNamed};
ghost use Rattle.cdp_messages.specs.Laws.{RepliesAreRead, RepliesAreShallow, EventsAreRead, EventsAreShallow};
ghost use Rattle.cdp_messages.specs.Laws.{EventsAreUtf8, ShownChildrenFit, RefusalsAreRead, ResultsAreRead, MessagesAreRead, FaultsAreRead};
ghost use Rattle.cdp_messages.specs.Laws.{ObjectsAreEmpty, MessagesAreSpelled, ResultsAreSpelled, OneMessage, OneResult, TextsHaveNoZero};
ghost use Rattle.cdp_messages.specs.Laws.{RepliesAreUtf8, ValuesAreRead, SpellingsAreRead};
ghost use Rattle.dom_objects.specs.Tellable.{ShownTreesFit};

/// What a writer appends is read as what it was given, nothing else is read, and no value spells two messages.
pub fn spell_law()
    ensures asks { AsksAreAsked }
    ensures parameters { ParametersAreRead }
    ensures plain { ParametersArePlain }
    ensures commands { CommandsAreAsked }
    ensures named { CommandsAreNamed }
    ensures asks_fit { AsksFit }
    ensures replies { RepliesAreRead }
    ensures shallow { RepliesAreShallow }
    ensures events { EventsAreRead }
    ensures events_shallow { EventsAreShallow }
    ensures events_utf8 { EventsAreUtf8 }
    ensures refusals { RefusalsAreRead }
    ensures messages { MessagesAreRead }
    ensures values { ValuesAreRead }
    ensures spellings { SpellingsAreRead }
    ensures faults { FaultsAreRead }
    ensures results { ResultsAreRead }
    ensures empty_results { ObjectsAreEmpty }
    ensures messages_spelled { MessagesAreSpelled }
    ensures results_spelled { ResultsAreSpelled }
    ensures one_message { OneMessage }
    ensures one_result { OneResult }
    ensures no_zero { TextsHaveNoZero }
    ensures utf8 { RepliesAreUtf8 }
    ensures shown_trees_fit { ShownTreesFit }
    ensures shown_children_fit { ShownChildrenFit }
{}
