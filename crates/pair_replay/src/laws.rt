ghost use Rattle.pair_replay.specs.NumberLaws.{EachNumbersOne};

/// Each frame that comes, each act and each load numbers one session at most, from the first number on. So within the 2^26 bytes of an
/// input the numbers last, and where a run meets two sessions without room for a step, it is one of them that has none.
pub fn session_numbers_law()
    ensures numbers { EachNumbersOne }
{}
