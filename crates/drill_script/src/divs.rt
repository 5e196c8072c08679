// The divs of a drill's page.
ghost use Rattle.std.specs.Prelude.{◌≡◌, ◌<◌, length, IfOk, OnOk};
ghost use Rattle.drill_script.specs.Divs.{place, next_div, page_divs, after_divs, AreLevels};

use crate::draws::Draws;
use std::alloc::{AllocError, Global};

/// The level of the body, which stands for the div of number 0.
const BODY_LEVEL: u64 = 2;

/// No div has a higher level.
const LAST_LEVEL: u64 = 50;

/// A div, before it is a node.
#[derive(Drop)]
pub(crate) struct Div {
    /// Counted from 1.
    pub(crate) number: u64,
    /// The number of the div that it is put into; 0 for the body.
    pub(crate) up: u64,
    /// Its level in the page.
    pub(crate) level: u64,
    /// The digit in its class.
    pub(crate) digit: u64,
}

/// Where a div is put that draws `j`: into the body where `j` is 0 or div `j` has the last level, else into div `j`.
fn place(levels: &[u64], j: u64) -> u64
    requires { j < length levels.now }
    ensures { result ≡ place levels.now j }
{
    if j == 0 {
        return 0;
    }
    if levels[j as usize] == LAST_LEVEL {
        return 0;
    }
    j
}

/// The next div, where the body and the divs before have these levels.
fn next_div(levels: &[u64], draws: &mut Draws) -> Div
    requires { AreLevels levels.now }
    ensures div { result ≡ next_div levels.now draws.old.at }
    ensures at { draws.new.at ≡ after_divs 1 draws.old.at }
{
    let number = levels.len() as u64;
    let j = draws.draw(number);
    let up = place(levels, j);
    let digit = draws.draw(8);
    Div {
        number,
        up,
        level: levels[up as usize] + 1,
        digit,
    }
}

/// The divs of a page with so many.
pub(crate) fn draw_divs(
    alloc: Global,
    count: u64,
    draws: &mut Draws,
) -> Result<Vec<Div>, AllocError>
    requires { draws.old.at ≡ count }
    ensures divs { IfOk result (λ divs. divs.items ≡ page_divs count) }
    ensures at { OnOk result (draws.new.at ≡ after_divs count count) }
{
    let mut levels = Vec::new(alloc);
    levels.push(BODY_LEVEL)?;
    let mut divs = Vec::new(alloc);
    for _ in 0..count {
        let div = next_div(levels.as_slice(), draws);
        levels.push(div.level)?;
        divs.push(div)?;
    }
    Ok(divs)
}
