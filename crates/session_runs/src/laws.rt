//! The laws of runs, each the contract of a function that does nothing.

ghost use Rattle.session_runs.specs.RunLaws.{StartsFit, PassagesFit, SettlesShow, PassagesTogether, SettlesRefresh, SettlesRefreshBoth};
ghost use Rattle.session_runs.specs.PairLaws.{PairsStart, PairPassagesFit, PairSettlesShow};

/// A run between a front end and a state `S` over two streams. Where each step takes a front end `F` that fits the state to one that
/// fits the state after it, the whole streams of a run, folded, meet no fault and fit its state, whatever was sent, done and delivered.
/// `E` is what a front end answers to a frame that it refuses, `X` a step of the script, `N` what is counted, `L` what was told.
pub fn run_law<S, F, E, X, N, L>()
    ensures starts { StartsFit S F E X N L }
    ensures passages { PassagesFit S F E X N L }
    ensures settles { SettlesShow S F E X N L }
{}

/// Two runs of one script, one of which fetches in each settle the texts that are old, go together, and after such a settle no text is
/// old; no text of two kinds is, where a settle fetches first those of the one and then those of the other. `A` is what a front end shows
/// without its sheets, `M` what is counted but for fetches, `R` what other fetches are about.
pub fn fetch_law<S, F, E, X, N, L, A, M, R>()
    ensures together { PassagesTogether S F E X N L A M R }
    ensures refreshes { SettlesRefresh S F E X N L A M R }
    ensures refreshes_both { SettlesRefreshBoth S F E X N L A M R }
{}

/// Two sessions of one page on one pipe, with a front end each. Where what one client is told takes its front end along, in its own steps
/// and in those of the other, both front ends show their sessions after any parts of a run, with sessions that are attached and detached.
/// `V` is a front end's value, `E` its fault, `A` an ask, `P` the page's side, `C` a client, `D` what a step is to the page, `X` a step of
/// the script, `T` the text of a session, `N` what is counted, `L` what was told.
pub fn pair_law<V, E, A, P, C, D, X, T, N, L>()
    ensures starts { PairsStart V E A P C D X T N L }
    ensures passages { PairPassagesFit V E A P C D X T N L }
    ensures settles { PairSettlesShow V E A P C D X T N L }
{}
