ghost use Rattle.front_mirror.specs.Laws.{FoldGoesOn, AskJoins, FrontBegins, TakesFold, StaysFold, AsksFold, FetchesFold, MoveGives};
ghost use Rattle.front_mirror.specs.Laws.{CourseGives, TurnsAreAwaited};

/// The law of the fold: it goes on from the fold of a shorter stream, and an ask or a fetch that is sent only joins those that wait.
/// So a front is at all times the fold of the asks that it sent and the bytes that it took, in whatever pieces, or has the
/// first fault of that fold.
pub fn front_law()
    ensures goes_on { FoldGoesOn }
    ensures ask_joins { AskJoins }
    ensures begins { FrontBegins }
    ensures takes { TakesFold }
    ensures stays { StaysFold }
    ensures asks { AsksFold }
    ensures fetches { FetchesFold }
{}

/// The law of the moves of a view: a front that has a view has the next one, once it took the move's message, and has the
/// last one of a course, once it took them all. Moves that answer the first asks one by one are awaited.
pub fn move_law()
    ensures moves { MoveGives }
    ensures course { CourseGives }
    ensures turns { TurnsAreAwaited }
{}
