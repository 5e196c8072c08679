// The laws of the objects, which make no call.
ghost use Rattle.std.specs.Prelude.{⊤, IsUtf8};
ghost use Rattle.std.specs.List.{AllByRecursion};
ghost use Rattle.css_objects.specs.Ranges.{range_kind};
ghost use Rattle.css_objects.specs.Sheets.{sheet_kind, header_kind};
ghost use Rattle.css_objects.specs.Media.{media_kind};
ghost use Rattle.css_objects.specs.Selectors.{selector_kind, selectors_kind};
ghost use Rattle.css_objects.specs.Styles.{property_kind, inline_kind, rule_style_kind};
ghost use Rattle.css_objects.specs.Rules.{rule_kind, match_kind, inherited_kind, matched_kind};
ghost use Rattle.css_objects.specs.Results.{sheet_text_result, class_names_result, styles_result, selectors_result, rule_result};
ghost use Rattle.css_objects.specs.Results.{media_result};
ghost use Rattle.css_objects.specs.Laws.{IsSoundKind, SelectorHasUtf8, SelectorsHaveUtf8, PropertyHasUtf8, StyleHasUtf8, RuleHasUtf8};
ghost use Rattle.css_objects.specs.Laws.{MediaHasUtf8};
ghost use Rattle.css_objects.specs.Laws.{MatchHasUtf8, InheritedHasUtf8, MatchedHaveUtf8};

/// Of each object and each result: it is spelled and read the same, no value spells two, its JSON is UTF-8 where its texts
/// are, its numbers are whole, and it nests so many levels deep at most.
pub fn css_objects_law()
    ensures sheet { IsSoundKind sheet_kind (λ _. ⊤) 0 }
    ensures range { IsSoundKind range_kind (λ _. ⊤) 1 }
    ensures header { IsSoundKind header_kind (λ _. ⊤) 1 }
    ensures selector { IsSoundKind selector_kind SelectorHasUtf8 2 }
    ensures selectors { IsSoundKind selectors_kind SelectorsHaveUtf8 4 }
    ensures property { IsSoundKind property_kind PropertyHasUtf8 2 }
    ensures inline { IsSoundKind inline_kind StyleHasUtf8 4 }
    ensures rule_style { IsSoundKind rule_style_kind StyleHasUtf8 4 }
    ensures media { IsSoundKind media_kind MediaHasUtf8 2 }
    ensures rule { IsSoundKind rule_kind RuleHasUtf8 5 }
    ensures rule_match { IsSoundKind match_kind MatchHasUtf8 6 }
    ensures inherited { IsSoundKind inherited_kind InheritedHasUtf8 8 }
    ensures matched { IsSoundKind matched_kind MatchedHaveUtf8 10 }
    ensures sheet_text { IsSoundKind sheet_text_result IsUtf8 1 }
    ensures class_names { IsSoundKind class_names_result (AllByRecursion IsUtf8) 2 }
    ensures styles { IsSoundKind styles_result (AllByRecursion StyleHasUtf8) 6 }
    ensures new_selectors { IsSoundKind selectors_result SelectorsHaveUtf8 5 }
    ensures new_rule { IsSoundKind rule_result RuleHasUtf8 6 }
    ensures new_media { IsSoundKind media_result MediaHasUtf8 3 }
{}
