// Texts are UTF-8 by their types: these calls only say so to a proof.
ghost use Rattle.std.specs.Prelude.{IsUtf8};
ghost use Rattle.node_tree.specs.Nodes.{nodes_of};
ghost use Rattle.node_tree.specs.Labels.{PairsHaveUtf8, LabelHasUtf8};
ghost use Rattle.page_forms.specs.Texts.{HaveTexts, FormHasTexts, SheetsHaveTexts};

use crate::sheets::SheetForm;
use page_tree::{Attributes, NodeForm, Text};

/// A text is UTF-8, since it can be lent as a `&str`.
pub(crate) fn text_valid(text: &Text)
    ensures { IsUtf8 text.now }
{
    let _ = text.as_str();
}

fn pairs_valid(attributes: &Attributes)
    ensures { PairsHaveUtf8 attributes.now }
{
    for pair in attributes.iter() {
        text_valid(&pair.0);
        text_valid(&pair.1);
    }
}

fn label_valid(form: &NodeForm)
    ensures { LabelHasUtf8 form.now.row }
{
    text_valid(&form.name);
    text_valid(&form.value);
    pairs_valid(&form.attributes);
}

/// The texts of these nodes are UTF-8, and of all below them.
pub(crate) fn forms_valid(forms: &[NodeForm])
    ensures { HaveTexts (nodes_of forms.now) }
{
    for form in forms {
        label_valid(form);
        forms_valid(&form.children);
    }
}

/// The texts of a node are UTF-8, and of all below it.
pub(crate) fn form_valid(form: &NodeForm)
    ensures { FormHasTexts form.now }
{
    label_valid(form);
    forms_valid(&form.children);
}

/// The texts of these sheets are UTF-8.
pub(crate) fn sheets_valid(sheets: &[SheetForm])
    ensures { SheetsHaveTexts sheets.now }
{
    for sheet in sheets {
        text_valid(&sheet.text);
    }
}
