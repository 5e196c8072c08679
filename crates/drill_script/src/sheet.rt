// The sheet of a drill's page.
ghost use Rattle.std.specs.Prelude.{◌≡◌, ◌+◌, ◌<◌, ◌++◌, IfOk, OnOk, string_bytes, decimal};
ghost use Rattle.node_tree.specs.declared.origins.Origin.TheVariants.{Regular};
ghost use Rattle.drill_script.specs.DrillPages.{rule_line, drill_sheet};

use node_tree::Text;
use page_forms::SheetForm;
use sheet_reader::Origin;
use std::alloc::{AllocError, Global};

/// How many lines the sheet has.
const ALL_RULES: u64 = 100;

fn push_numbered(
    alloc: Global,
    text: &mut String,
    word: &str,
    number: u64,
) -> Result<(), AllocError>
    ensures { OnOk result (string_bytes text.new ≡ string_bytes text.old ++ word.now ++ decimal number) }
{
    text.push_str(word)?;
    text.push_str(number.to_string(alloc)?.as_str())?;
    Ok(())
}

// The line with that number.
fn push_rule(alloc: Global, text: &mut String, r: u64) -> Result<(), AllocError>
    ensures { OnOk result (string_bytes text.new ≡ string_bytes text.old ++ rule_line r) }
{
    push_numbered(alloc, text, ".k", r % 8)?;
    push_numbered(alloc, text, ">div:nth-child(", r % 5 + 1)?;
    push_numbered(alloc, text, "n){p", r)?;
    push_numbered(alloc, text, ":v", r)?;
    text.push_str("}\n")?;
    Ok(())
}

/// The sheet.
pub(crate) fn drill_sheet(alloc: Global) -> Result<SheetForm, AllocError>
    ensures { IfOk result (λ sheet. sheet ≡ record { origin = Regular; text = drill_sheet }) }
{
    let mut text = String::new(alloc);
    for r in 0..ALL_RULES {
        push_rule(alloc, &mut text, r)?;
    }
    Ok(SheetForm {
        origin: Origin::Regular,
        text: Text::new(text),
    })
}
