ghost use Rattle.node_binding.specs.Changes.{BindingBegins, Resets, ChangesMode, Starts, OpensDown, BindsChild, PassesAttach, Forgets};
ghost use Rattle.node_binding.specs.Changes.{PassesLabel};
ghost use Rattle.node_binding.specs.DealBindings.{OpensDeal, StartsDeal};
ghost use Rattle.node_binding.specs.DealLaws.{AskDeals, DealIsDeals, Deals, DealtInPieces, RootLow, ShownLow, StartDeals};

/// A binding that stands for a session with a page stands for the session after each change of the session or the page.
pub fn binding_law()
    ensures begun { BindingBegins }
    ensures reset { Resets }
    ensures mode { ChangesMode }
    ensures start { Starts }
    ensures open_down { OpensDown }
    // comes after the attach
    ensures bind_child { BindsChild }
    ensures attach_elsewhere { PassesAttach }
    // comes before the detach
    ensures forget_subtree { Forgets }
    ensures label { PassesLabel }
{}

/// Openings to many levels, in pieces of as many as a message tells.
pub fn deal_law()
    // a deal is its first opening and the deals of the containers a piece below
    ensures pieces { DealIsDeals }
    // its openings can be made one after another, and open what the one opening would
    ensures deals { Deals }
    // so do the further pieces of a document, and those of a request
    ensures start { StartDeals }
    ensures ask { AskDeals }
    // none has more levels than a piece, and what becomes known has no more
    ensures small { DealtInPieces }
    ensures low { ShownLow }
    ensures root { RootLow }
    // a binding that opens in pieces stands for the session that does
    ensures binds { OpensDeal }
    ensures starts { StartsDeal }
{}
