// How far the lines of a drill have come.
ghost use Rattle.std.specs.Prelude.{◌≡◌, ◌∷◌, true, min, option_map, IfOk};
ghost use Rattle.replay_script.specs.Seen.{seen};
ghost use Rattle.drill_script.specs.Draws.{next_number, drawn};
ghost use Rattle.drill_script.specs.DrillLines.{div_drawn, sets_class, asks_title, asks_matched, most_turns, turns_from, left_of};
ghost use Rattle.drill_script.specs.Given.{is_drill, GivesFirst};

use crate::asks::{
    class_act, document_ask, matched_ask, styles_ask, text_act, title_ask, watch_ask,
};
use crate::draws::Draws;
use replay_script::Line;
use std::alloc::{AllocError, Global};

/// How many turns there are at most.
const MOST_TURNS: u64 = 1000;

/// The line that comes next.
#[derive(Clone, Copy)]
pub(crate) enum Next {
    Document,
    Styles,
    Watch,
    Settle,
    /// The first of the turn of this number, counted from 0, or the settle behind the last turn.
    Turn(u64),
    /// Bytes go up, and then down; the turn of this number follows.
    Up(u64),
    Down(u64),
    Nothing,
}

/// A drill by its number of divs, with its generator.
#[derive(Drop)]
pub(crate) struct Course {
    pub(crate) divs: u64,
    pub(crate) draws: Draws,
    pub(crate) next: Next,
}

// How many turns there are with so many divs.
fn turns_of(divs: u64) -> u64
    ensures { result ≡ min divs most_turns }
{
    if divs < MOST_TURNS { divs } else { MOST_TURNS }
}

impl Course {
    // The serial of one of the divs.
    fn draw_div(&mut self) -> u64
        requires { is_drill self.old.divs ≡ true }
        ensures div { result ≡ div_drawn self.old.divs self.old.draws.at }
        ensures new { self.new ≡ record self.old { draws = record { at = next_number self.old.draws.at } } }
    {
        4 + self.draws.draw(self.divs)
    }

    // The script gives a div a class.
    fn class_turn(&mut self, alloc: Global) -> Result<Line, AllocError>
        requires { is_drill self.old.divs ≡ true }
        ensures line { IfOk result (λ line. seen line
            ≡ sets_class (div_drawn self.old.divs self.old.draws.at) (drawn (next_number self.old.draws.at) 8)) }
        ensures new { self.new ≡ record self.old { draws = record { at = next_number (next_number self.old.draws.at) } } }
    {
        let node = self.draw_div();
        let digit = self.draws.draw(8);
        class_act(alloc, node, digit)
    }

    // The client gives a div a title.
    fn title_turn(&mut self, alloc: Global) -> Result<Line, AllocError>
        requires { is_drill self.old.divs ≡ true }
        ensures line { IfOk result (λ line. seen line
            ≡ asks_title (div_drawn self.old.divs self.old.draws.at) (drawn (next_number self.old.draws.at) 10)) }
        ensures new { self.new ≡ record self.old { draws = record { at = next_number (next_number self.old.draws.at) } } }
    {
        let node = self.draw_div();
        let digit = self.draws.draw(10);
        title_ask(alloc, node, digit)
    }

    // The client asks for the styles of a div.
    fn matched_turn(&mut self, alloc: Global) -> Result<Line, AllocError>
        requires { is_drill self.old.divs ≡ true }
        ensures line { IfOk result (λ line. seen line ≡ asks_matched (div_drawn self.old.divs self.old.draws.at)) }
        ensures new { self.new ≡ record self.old { draws = record { at = next_number self.old.draws.at } } }
    {
        let node = self.draw_div();
        matched_ask(alloc, node)
    }

    // The first line of the turn of that number, or the settle behind the last turn.
    fn turn(&mut self, alloc: Global, number: u64) -> Result<Line, AllocError>
        requires { is_drill self.old.divs ≡ true }
        ensures line { IfOk result (λ line. turns_from self.old.divs number self.old.draws.at ≡ seen line ∷ left_of self.new) }
        ensures divs { self.new.divs ≡ self.old.divs }
    {
        if number >= turns_of(self.divs) {
            self.next = Next::Nothing;
            return Ok(Line::Settle);
        }
        self.next = Next::Turn(number + 1);
        match number % 4 {
            0 => self.class_turn(alloc),
            1 => self.title_turn(alloc),
            2 => self.matched_turn(alloc),
            _ => {
                self.next = Next::Up(number + 1);
                text_act(alloc)
            },
        }
    }

    /// The next line; none just where none is left.
    pub(crate) fn next_line(&mut self, alloc: Global) -> Result<Option<Line>, AllocError>
        requires { is_drill self.old.divs ≡ true }
        ensures line { IfOk result (λ line. GivesFirst (left_of self.old) (option_map seen line) (left_of self.new)) }
        ensures divs { self.new.divs ≡ self.old.divs }
    {
        match self.next {
            Next::Document => {
                self.next = Next::Styles;
                Ok(Some(document_ask(alloc)?))
            },
            Next::Styles => {
                self.next = Next::Watch;
                Ok(Some(styles_ask(alloc)?))
            },
            Next::Watch => {
                self.next = Next::Settle;
                Ok(Some(watch_ask(alloc)?))
            },
            Next::Settle => {
                self.next = Next::Turn(0);
                Ok(Some(Line::Settle))
            },
            Next::Turn(number) => Ok(Some(self.turn(alloc, number)?)),
            Next::Up(following) => {
                self.next = Next::Down(following);
                Ok(Some(Line::Up(self.draws.draw(64))))
            },
            Next::Down(following) => {
                self.next = Next::Turn(following);
                Ok(Some(Line::Down(self.draws.draw(4096))))
            },
            Next::Nothing => Ok(None),
        }
    }
}
