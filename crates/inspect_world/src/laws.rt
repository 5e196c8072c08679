// The law of the run, which makes no call.
ghost use Rattle.inspect_world.specs.Fits.{IsPlainFrame};
ghost use Rattle.inspect_world.specs.FreshRuns.{front_fetcher, FreshLinesFit, FreshInputsFit, RefreshedShows, InputsShowTexts};
ghost use Rattle.inspect_world.specs.ScriptsFit.{LinesFit, InputsFit, UndoRestoresInRuns, BareFramesFit, TurnsFit, DeliveriesFit};
ghost use Rattle.inspect_world.specs.ScriptsFit.{SettledShows};

/// While the lines of a script are carried out, the bytes that the ends have sent, folded whole, meet no fault at the front
/// end, and give exactly what the client sees of the page. The same holds with the fetches of the settles and their replies
/// put into the streams, and then no text of a sheet is old after a settle: with each input, and after any number of its lines, the
/// sheets that the front end knows then are the page's, each with its text. An undo restores what was saved.
pub fn fits_law()
    ensures lines { LinesFit }
    ensures inputs { InputsFit }
    ensures restores { UndoRestoresInRuns }
    ensures bare_frames { BareFramesFit }
    ensures turns { TurnsFit }
    ensures deliveries { DeliveriesFit }
    ensures settled { SettledShows }
    ensures fresh_lines { FreshLinesFit front_fetcher IsPlainFrame }
    ensures fresh_inputs { FreshInputsFit front_fetcher IsPlainFrame }
    ensures refreshed { RefreshedShows front_fetcher IsPlainFrame }
    ensures texts { InputsShowTexts }
{}
