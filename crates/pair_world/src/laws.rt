//! The laws of two front ends, each the contract of a function that does nothing.

ghost use Rattle.pair_world.specs.PairFits.{PairsFit, PairsShown, PairsSettle};
ghost use Rattle.pair_world.specs.FrameLaws.{AsksAreTheRoots, AsksAreTheSessions, TargetsAreKnown, SessionsAskTheSame, StepsAreRouted};
ghost use Rattle.pair_world.specs.Sendings.{AsksMayBeSent, SessionAsksMayBeSent, BareFramesMayBeSent, TargetsMayBeSent};
ghost use Rattle.pair_world.specs.PairScriptsFit.{PairInputsFit, PairInputsShow};
ghost use Rattle.pair_world.specs.SameSteps.{StartsAreSame, FrameStepsAreSame, TurnsAreSame};
ghost use Rattle.pair_world.specs.FrameLaws.{RootsAreUsual, SessionsAreUsual, TargetsAreUsual, SessionsAreTagged};
ghost use Rattle.pair_world.specs.FetchShown.{PairRefreshShows, PairLinesShow};

/// Two sessions of one page, which was loaded, on one pipe, with a front end each. After any parts of a run, each of which may come when
/// its turn is, with sessions that are attached and detached and with room before each step, the bytes that the ends have sent, folded
/// whole into the two front ends, meet no fault, and give just what each session's client sees of the page. Once all that was sent up was
/// taken in, as after a settle, a second front end stands just where a session is attached, and nothing waits for an answer. `N` is what is
/// counted of the run, `L` what was told of it: either may be anything.
pub fn pair_law<N, L>()
    ensures fits { PairsFit N L }
    ensures shown { PairsShown N L }
    ensures settles { PairsSettle N L }
{}

/// The frames of such a run are those of `session_mux`. A command without a session is the root's, one with a session is that session's,
/// and asks what it asks without it; the two commands that attach and detach are known. The run's step on a usual frame, as all that front
/// ends send are, is the one that the router names, and leaves the sessions that the router leaves; what it answers at once, it sends. What
/// the attached session is told are the messages that `tag` makes.
pub fn frame_law()
    ensures roots { AsksAreTheRoots }
    ensures sessions { AsksAreTheSessions }
    ensures targets { TargetsAreKnown }
    ensures same { SessionsAskTheSame }
    ensures usual_roots { RootsAreUsual }
    ensures usual_sessions { SessionsAreUsual }
    ensures usual_targets { TargetsAreUsual }
    ensures steps { StepsAreRouted }
    ensures tags { SessionsAreTagged }
{}

/// What front ends send may come in a run: commands without a session of any method but the two, as asks and fetches are, and frames that
/// name no ask; commands of the attached session; an attach where none is attached, and a detach where its session is. The ids of the two
/// commands are from 2^52 on, those of all others below.
pub fn sending_law()
    ensures asks { AsksMayBeSent }
    ensures session_asks { SessionAsksMayBeSent }
    ensures bare_frames { BareFramesMayBeSent }
    ensures targets { TargetsMayBeSent }
{}

/// The run's step of two clients, which is one by texts, is the back end's, which is one by messages: on each usual frame and on what a
/// script does both leave the same clients and sessions, and send the same bytes.
pub fn same_step_law()
    ensures starts { StartsAreSame }
    ensures frames { FrameStepsAreSame }
    ensures turns { TurnsAreSame }
{}

/// The same of the scripts that a replay with two front ends reads: after any number of the lines that are carried out, with room before
/// each step, the two whole streams, folded into the two front ends, meet no fault and fit both sessions; and where all sent bytes have
/// been taken in, a second front end stands just where a session is attached, each shows just what its session's client sees, and no ask
/// waits.
pub fn pair_script_law()
    ensures fit { PairInputsFit }
    ensures show { PairInputsShow }
{}

/// A settle of two front ends with its fetches: once all that was on its way has come, the first fetches the texts of sheets that it lacks
/// or knows to be old, and then the second in the attached session. Where the run went together with the one that the report tells, and
/// there is room for each step, each front end then shows just what its client sees: the tree, and while its domain CSS is on each sheet
/// with the page's text. It has kept the replies and the pauses that came to it in the run that the report tells, and waits for nothing.
/// So it is after any number of lines that are carried out.
pub fn pair_fetch_law()
    ensures refreshed { PairRefreshShows }
    ensures lines { PairLinesShow }
{}
