// The page of a drill.
ghost use Rattle.std.specs.Prelude.{◌≡◌, true, IfOk, OnOk};
ghost use Rattle.page_forms.specs.Pages.{CanLoadPage, loaded_page};
ghost use Rattle.page_forms.specs.Texts.{PageHasTexts};
ghost use Rattle.drill_script.specs.Divs.{after_divs};
ghost use Rattle.drill_script.specs.DrillPages.{drill_page};
ghost use Rattle.drill_script.specs.Given.{is_drill};

use crate::divs::draw_divs;
use crate::draws::Draws;
use crate::nodes::drill_nodes;
use crate::sheet::drill_sheet;
use page_forms::{PageForm, usual_medium};
use std::alloc::{AllocError, Global};

/// The page of a drill with so many divs, drawn by a generator that is at their number.
pub(crate) fn drill_page(
    alloc: Global,
    divs: u64,
    draws: &mut Draws,
) -> Result<PageForm, AllocError>
    requires { (is_drill divs ≡ true) × (draws.old.at ≡ divs) }
    ensures page { IfOk result (λ page. loaded_page page ≡ drill_page divs) }
    ensures can { IfOk result (λ page. CanLoadPage (loaded_page page)) }
    ensures texts { IfOk result (λ page. PageHasTexts (loaded_page page)) }
    ensures at { OnOk result (draws.new.at ≡ after_divs divs divs) }
{
    let drawn = draw_divs(alloc, divs, draws)?;
    let nodes = drill_nodes(alloc, drawn)?;
    let mut sheets = Vec::new(alloc);
    sheets.push(drill_sheet(alloc)?)?;
    Ok(PageForm {
        nodes,
        medium: usual_medium(),
        sheets,
    })
}
