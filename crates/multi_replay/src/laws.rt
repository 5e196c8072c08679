ghost use Rattle.multi_replay.specs.Laws.{BothBegin, BothTake, FaultsAreOfFold, FirstAsks, FirstFetches, SecondAsks, SecondFetches};
ghost use Rattle.multi_replay.specs.Laws.{BothAttach, BothDetach, NumbersAreOfTexts};

/// Two fronts are at all times the fold of the frames that they sent and the bytes that they took, in whatever pieces, or have the
/// first fault of that fold, in its place: however frames that go up are read, as long as each that they send is read as what it asks.
/// A session's text has its number alone.
pub fn fronts_law()
    ensures begins { BothBegin }
    ensures takes { BothTake }
    ensures faults { FaultsAreOfFold }
    ensures first_asks { FirstAsks }
    ensures first_fetches { FirstFetches }
    ensures second_asks { SecondAsks }
    ensures second_fetches { SecondFetches }
    ensures attaches { BothAttach }
    ensures detaches { BothDetach }
    ensures numbers { NumbersAreOfTexts }
{}
