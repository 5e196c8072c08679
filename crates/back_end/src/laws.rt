// The laws of steps, which make no call.
ghost use Rattle.back_end.specs.Laws.{FramesStepWell, TurnsStepWell, UndoRestores};
ghost use Rattle.back_end.specs.SearchLaws.{SearchesFindShown, SearchesKeepFound, EditsKeepFound, AsksKeepFound, FoundIsForgotten};
ghost use Rattle.back_end.specs.Outside.{OutsideStepsWell, TurnsLeadAlike};
ghost use Rattle.back_end.specs.PairLaws.{StartIsPair, StepsKeepPairs, EachGoesAlone, SessionsBeginAnew, SessionsAreToldAlone};
ghost use Rattle.back_end.specs.PairLaws.{EqualSessionsAreToldAlike, RootsAreToldAlone, EqualRootsAreToldAlike};
ghost use Rattle.back_end.specs.PairSeats.{NewPairsStand, PairsHaveRoomLeft};
ghost use Rattle.back_end.specs.Starts.{StartIsState, NewSeatsStand, SheetNumbersDiffer};

/// After each step the state is valid, its history too, its moves lead from what the client saw to what it sees then, a frame is
/// answered once, under its id and by what its method answers, and what a script does answers nothing.
pub fn step_law()
    ensures frames { FramesStepWell }
    ensures turns { TurnsStepWell }
{}

/// An undo restores the very tree and texts from before the newest group that is kept, and a redo those after the group that was taken
/// back last; no edit on the way meets a fault or a limit.
pub fn undo_law()
    ensures { UndoRestores }
{}

/// The state of a page that was just loaded is valid, and a new seat at the new side of that page stands for it. In a valid state no
/// two sheets have one number.
pub fn start_law()
    ensures valid { StartIsState }
    ensures stands { NewSeatsStand }
    ensures numbers { SheetNumbersDiffer }
{}

/// A search finds exactly the nodes that the client is shown, are not the document and have the query as a part of one of their texts or
/// are matched by it; each once, in document order. It keeps them under the number that it gets. What it found stays as it is through
/// edits of the tree and of sheets, whoever makes them, and through what is asked of nodes; it goes with DOM and with the page. A node
/// that is gone or hidden is answered by 0 then.
pub fn search_law()
    ensures finds { SearchesFindShown }
    ensures keeps { SearchesKeepFound }
    ensures edits { EditsKeepFound }
    ensures asks { AsksKeepFound }
    ensures forgets { FoundIsForgotten }
{}

/// What one client's frame makes of the page is a step of every other client of the same page: the state after it is valid, the page's
/// side is the same for both, its moves lead from what that client saw to what it sees then, and it answers nothing. What a script
/// does leads the page to the same, whoever is its client.
pub fn outside_law()
    ensures steps { OutsideStepsWell }
    ensures alike { TurnsLeadAlike }
{}

/// Two clients of one page: each step leads from a state that can be to one that can be, and each client goes on by its own state and by
/// what comes to it alone: its own frames, the edits that the other's frames make, and the steps of a script. A session begins with a
/// client that has asked for nothing. So two sessions that begin alike, and to which the same comes, are told the same, whatever else
/// their roots ask, open, watch or switch; and so are two roots, but for what is answered at once.
pub fn two_clients_law()
    ensures start { StartIsPair }
    ensures stands { NewPairsStand }
    ensures room { PairsHaveRoomLeft }
    ensures steps { StepsKeepPairs }
    ensures alone { EachGoesAlone }
    ensures anew { SessionsBeginAnew }
    ensures told { SessionsAreToldAlone }
    ensures alike { EqualSessionsAreToldAlike }
    ensures roots_told { RootsAreToldAlone }
    ensures roots_alike { EqualRootsAreToldAlike }
{}
