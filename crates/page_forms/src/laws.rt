// What holds of every page and every act that is read, with no call made.
ghost use Rattle.page_forms.specs.Texts.{PagesHaveTexts, ActsHaveTexts};

/// The texts of what a value spells are UTF-8 where those of the value are.
pub fn texts_law()
    ensures pages { PagesHaveTexts }
    ensures acts { ActsHaveTexts }
{}
