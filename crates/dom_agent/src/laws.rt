ghost use Rattle.dom_agent.specs.Shows.{RequestTells};
ghost use Rattle.dom_agent.specs.Events.{AsksShowNew, RequestTellsInOrder, PathTells, SerialsTell, FirstFoundTells, FoundTell};
ghost use Rattle.dom_agent.specs.Sets.{DocumentOpens, RequestOpens, RequestPushes, PathOpens, PathPushes, SerialsOpen};
ghost use Rattle.dom_agent.specs.Sets.{FirstFoundOpens, FoundOpen};
ghost use Rattle.dom_agent.specs.EditLaws.{EditKeepsSession, EditKeepsBound, SameEditMoves, EditsAreMoves, EditDrawsOne};
ghost use Rattle.dom_agent.specs.ModeEdits.{ShownEditKeepsSession, ShownEditKeepsBound, SameShownMoves, ShownEditsAreMoves};
ghost use Rattle.dom_agent.specs.ModeEdits.{ShownEditDrawsOne, ShownEditKeepsMode, ShownCanBeTold, FindsShown};
ghost use Rattle.dom_agent.specs.Laws.{StaysSession, StaysBound, SameMoves, DrawsFew, StepsAreMoves, RepliesAnswer};
ghost use Rattle.dom_agent.specs.Laws.{CommandKeepsMode, PushKeepsMode};

/// What serves a session by its binding is the step of the session.
pub fn serve_law()
    // a session stays one
    ensures session { StaysSession }
    // the binding stands for the session after the step
    ensures stands { StaysBound }
    // and what is told are the moves of the step
    ensures same { SameMoves }
    // no command draws more ids than the page has nodes
    ensures few { DrawsFew }
    // the mode stays, also by a push
    ensures mode { CommandKeepsMode }
    ensures push_mode { PushKeepsMode }
    // these lead from the one view to the other, and messages can tell each view in between
    ensures moves { StepsAreMoves }
    // what is opened after `DOM.getDocument`, after a request, after pushes by a path and by serials, and after queries
    ensures document_opens { DocumentOpens }
    ensures request_opens { RequestOpens }
    ensures request_pushes { RequestPushes }
    // its events, by levels
    ensures request_tells { RequestTells }
    ensures request_in_order { RequestTellsInOrder }
    ensures path_opens { PathOpens }
    ensures path_pushes { PathPushes }
    ensures serials_open { SerialsOpen }
    ensures first_found_opens { FirstFoundOpens }
    ensures found_open { FoundOpen }
    // the events of all of these: what they show is what became known, each node once, with the ids that follow
    ensures show_new { AsksShowNew }
    // those of pushes, one for each ancestor that was not opened, in the order of the nodes and from the top down; and the ids in
    // their reply
    ensures path_tells { PathTells }
    ensures serials_tell { SerialsTell }
    ensures first_found_tells { FirstFoundTells }
    ensures found_tell { FoundTell }
    // the reply is one of the command's method
    ensures replies { RepliesAnswer }
{}

/// An edit that a page takes, for a session and the binding that stands for it.
pub fn edit_law()
    // the session is one with the page after
    ensures session { EditKeepsSession }
    // the binding stands for it
    ensures stands { EditKeepsBound }
    // both tell the same moves
    ensures same { SameEditMoves }
    // these lead from the view of the page before to that of the page after
    ensures moves { EditsAreMoves }
    // at most one id is drawn
    ensures few { EditDrawsOne }
{}

/// The same of an edit of the page for a client that is shown what a mode shows of it.
pub fn mode_law()
    // the session is one with the shown page of the page after
    ensures session { ShownEditKeepsSession }
    // the binding stands for it
    ensures stands { ShownEditKeepsBound }
    // both tell the same moves
    ensures same { SameShownMoves }
    // these lead from the view of the shown page before to that of the shown page after
    ensures moves { ShownEditsAreMoves }
    // at most one id is drawn
    ensures few { ShownEditDrawsOne }
    // the mode stays
    ensures mode { ShownEditKeepsMode }
    // what can be told of a page can be told of what is shown of it
    ensures tells { ShownCanBeTold }
    // what a query finds first in the whole page, below a shown node, is shown
    ensures finds { FindsShown }
{}
