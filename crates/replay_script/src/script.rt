ghost use Rattle.replay_script.specs.Script.{ScriptLaw};
ghost use Rattle.replay_script.specs.Sound.{FormsAreSound, FirstIsLoad};

/// What is carried out of a script: where no line is refused, the forms of all its lines, and else of those before the
/// first that is refused; each of these has one.
pub fn script_law()
    ensures { ScriptLaw }
{}

/// What is carried out may be: each line that is not refused has nodes and sheets that a page takes, an ask that is written and read
/// again as it is, or a text that names no ask. A first line that is not refused loads a page.
pub fn forms_law()
    ensures sound { FormsAreSound }
    ensures first { FirstIsLoad }
{}
