// Numbers that are drawn.
ghost use Rattle.std.specs.Prelude.{◌≡◌, ◌<◌};
ghost use Rattle.drill_script.specs.Draws.{next_number, drawn};

const FACTOR: u64 = 6364136223846793005;

const STEP: u64 = 1442695040888963407;

/// A generator, by the number that it is at.
#[derive(Clone, Copy)]
pub(crate) struct Draws {
    pub(crate) at: u64,
}

impl Draws {
    /// Draws a number below `limit`.
    pub(crate) fn draw(&mut self, limit: u64) -> u64
        requires { 0 < limit }
        ensures drawn { result ≡ drawn self.old.at limit }
        ensures at { self.new.at ≡ next_number self.old.at }
    {
        self.at = self.at.wrapping_mul(FACTOR).wrapping_add(STEP);
        (self.at >> 33) % limit
    }
}
