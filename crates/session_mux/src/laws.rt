// The laws of two sessions on one pipe, which make no call.
ghost use Rattle.session_mux.specs.Laws.{AttachedByName, AnsweredAtOnce, OneAnswer, AnswersAreMessages, OthersLeft, NumbersGoOn};
ghost use Rattle.session_mux.specs.Laws.{TagsStandLast, TagsComeOff};

/// A frame is the attached session's exactly where it names that session, and is answered at once exactly where it names another
/// or asks for one of the two methods, by one message, which `tag` takes as well; all others change nothing. A number never comes
/// again.
pub fn route_law()
    ensures attached { AttachedByName }
    ensures answered { AnsweredAtOnce }
    ensures answer { OneAnswer }
    ensures messages { AnswersAreMessages }
    ensures others { OthersLeft }
    ensures numbers { NumbersGoOn }
{}

/// A session is the last property of a message that has one, and comes off again.
pub fn tag_law()
    ensures last { TagsStandLast }
    ensures off { TagsComeOff }
{}
