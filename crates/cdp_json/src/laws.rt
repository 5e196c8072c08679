// What holds of every value, with no call made.
ghost use Rattle.cdp_json.specs.Plain.{ReadsBack, KeepsUtf8};

/// The compact text of a plain value, which nests at most 127 deep, is read as that value.
pub fn read_back_law()
    ensures read { ReadsBack }
    ensures utf8 { KeepsUtf8 }
{}
