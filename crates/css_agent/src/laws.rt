// Laws of the definitions.
ghost use Rattle.std.specs.Prelude.{◌≡◌, ℕ, List};
ghost use Rattle.sheet_reader.specs.Sheets.{sheet_of};
ghost use Rattle.css_agent.specs.ClassNames.{class_names, classes_of_rules, NamesAscend, has_class_name};
ghost use Rattle.css_agent.specs.MediaAround.{EachIsAround};
ghost use Rattle.css_agent.specs.EditLaws.{EditsAreDone};

/// What a client's edit of sheets that has no fault comes to: splices that can be made one after the other, those that lead back,
/// and a result of the edit's method, which tells of style rules and media rules that stand in the book: after edits of bodies, of a
/// prelude, and where a rule is added.
pub fn edit_law()
    ensures done { EditsAreDone }
{}

/// The class names of a sheet ascend by bytes, each once, and are exactly those that the selectors of its style rules ask for.
pub fn class_names_law()
    ensures ascend { (text : List ℕ) → NamesAscend (class_names text) }
    ensures exactly { (text name : List ℕ) → has_class_name name (class_names text)
        ≡ has_class_name name (classes_of_rules (sheet_of text).rules) }
{}

/// The media rules that are told of a style rule are all of those around it, from the innermost outwards.
pub fn around_law()
    ensures { EachIsAround }
{}
