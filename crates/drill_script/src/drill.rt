// The script of a drill, line by line.
ghost use Rattle.std.specs.Prelude.{◌≡◌, true, IfOk, option_map};
ghost use Rattle.page_forms.specs.Pages.{CanLoadPage, loaded_page};
ghost use Rattle.page_forms.specs.Texts.{PageHasTexts};
ghost use Rattle.replay_script.specs.Seen.{seen};
ghost use Rattle.drill_script.specs.DrillPages.{drill_page};
ghost use Rattle.drill_script.specs.DrillLines.{drill_lines};
ghost use Rattle.drill_script.specs.Given.{is_drill, GivesFirst};

use crate::course::{Course, Next};
use crate::draws::Draws;
use crate::pages::drill_page;
use page_forms::PageForm;
use replay_script::Line;
use std::alloc::{AllocError, Global};
use std::marker::Model;

/// How many divs a drill has at most.
const MOST_DIVS: u64 = 50000;

/// The lines of a drill that are still to come, which contracts see as the list of them.
#[derive(Drop)]
pub struct Drill {
    course: Course,
}

impl Model for Drill {
    ghost use Rattle.std.specs.Prelude.{◌≡◌, List, true};
    ghost use Rattle.std.specs.Coded.{codes};
    ghost use Rattle.node_tree.specs.Labels.{coded_label};
    ghost use Rattle.node_tree.specs.Nodes.{coded_nodes};
    ghost use Rattle.cdp_messages.specs.JsonCode.{coded_data};
    ghost use Rattle.replay_script.specs.Forms.{LineForm};
    ghost use Rattle.drill_script.specs.DrillLines.{left_of};
    ghost use Rattle.drill_script.specs.Given.{is_drill};

    ghost Value = { List LineForm };

    ghost coded = { Prim.hlevel (codes, coded_nodes coded_label, coded_data) };

    ghost view = { λ d. left_of d.course };

    ghost invariant = { λ d. is_drill d.course.divs ≡ true };
}

/// Whether there is a drill with so many divs: from 1 to 50,000.
pub fn is_drill(divs: u64) -> bool
    ensures { result ≡ is_drill divs }
{
    1 <= divs && divs <= MOST_DIVS
}

impl Drill {
    /// The page of a drill with so many divs, and the drill, of which all lines after the load are still to come.
    pub fn start(alloc: Global, divs: u64) -> Result<(PageForm, Drill), AllocError>
        requires { is_drill divs ≡ true }
        ensures page { IfOk result (λ r. loaded_page r.0 ≡ drill_page divs) }
        ensures can { IfOk result (λ r. CanLoadPage (loaded_page r.0)) }
        ensures texts { IfOk result (λ r. PageHasTexts (loaded_page r.0)) }
        ensures lines { IfOk result (λ r. r.1 ≡ drill_lines divs) }
    {
        let mut draws = Draws { at: divs };
        let page = drill_page(alloc, divs, &mut draws)?;
        let course = Course {
            divs,
            draws,
            next: Next::Document,
        };
        Ok((page, Drill { course }))
    }

    /// The next line; none just where none is left. After want of memory nothing is said of what is left.
    pub fn next_line(&mut self, alloc: Global) -> Result<Option<Line>, AllocError>
        ensures { IfOk result (λ line. GivesFirst self.old (option_map seen line) self.new) }
    {
        self.course.next_line(alloc)
    }
}
