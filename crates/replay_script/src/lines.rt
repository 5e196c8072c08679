ghost use Rattle.std.specs.Prelude.{◌≡◌, ◌<◌, ◌∷◌, length, position};
ghost use Rattle.sheet_reader.specs.Positions.{is_line_feed};
ghost use Rattle.replay_script.specs.Lines.{lines_of, has_long_line, LinesLaw};

use std::marker::Model;

/// The lines of an input, from the first on, each without its LF. Takes no memory.
#[derive(Drop)]
pub struct Lines<'a> {
    rest: &'a [u8],
}

impl<'a> Model for Lines<'a> {
    ghost use Rattle.std.specs.Prelude.{ℕ, List};
    ghost use Rattle.replay_script.specs.Lines.{lines_of};

    ghost Value = { List (List ℕ) };

    ghost view = { λ s. lines_of s.rest.now };
}

impl<'a> Lines<'a> {
    /// The lines of the input, from its start.
    pub fn new(input: &'a [u8]) -> Lines<'a>
        ensures { result ≡ lines_of input.now }
    {
        Lines { rest: input }
    }
}

impl<'a> Iterator for Lines<'a> {
    ghost use Rattle.std.specs.Iterator.{YieldsFirstRef, item_count};

    type Item = &'a [u8];

    ghost next_gives = { YieldsFirstRef (λ s. s) };

    ghost remaining = { item_count (λ s. s) };

    fn next(&mut self) -> Option<&'a [u8]> {
        if self.rest.is_empty() {
            return None;
        }
        let (line, rest) = cut_line(self.rest);
        self.rest = rest;
        Some(line)
    }
}

// The first line, and what is left after its LF.
fn cut_line(bytes: &[u8]) -> (&[u8], &[u8])
    requires { 0 < length bytes.now }
    ensures { lines_of bytes.now ≡ result.0.now ∷ lines_of result.1.now }
{
    match line_end(bytes) {
        Some(end) => (bytes.split_at(end).0, bytes.split_at(end + 1).1),
        None => (bytes, &[]),
    }
}

fn line_end(bytes: &[u8]) -> Option<usize>
    ensures { result ≡ position is_line_feed bytes.now }
{
    bytes.iter().position(|byte| *byte == b'\n')
}

/// Whether some line is longer than `limit` bytes.
pub fn has_long_line(input: &[u8], limit: usize) -> bool
    ensures { result ≡ has_long_line input.now limit }
{
    Lines::new(input).any(|line| line.len() > limit)
}

/// What the lines of an input are: none holds an LF, and with an LF after each they are the input, but for the LF that
/// its end may lack.
pub fn lines_law()
    ensures { LinesLaw }
{}
