// A settle: all is delivered, and then each front end fetches the texts that it lacks.
ghost use Rattle.std.specs.Prelude.{◌≡◌, ◌&&◌, true, length, IfOk};
ghost use Rattle.front_mirror.specs.Sheets.{has_sheet};
ghost use Rattle.multi_replay.specs.States.{is_there, front_meant};

use crate::two_fronts::TwoFronts;
use front_mirror::Panel;
use pipe_frames::Link;
use replay_parts::{Stop, Watched};
use std::alloc::AllocError;

impl<P: Panel> TwoFronts<P> {
    ghost use Rattle.pair_replay.specs.Running.{delivers_all, refreshing, fetching, fetching_all, fetching_known, stale_meant};
    ghost use Rattle.pair_replay.specs.Playing.{Goes, aims, goes_to, pair_fetching};

    /// Delivers all of the up pipe, and then all of the down pipe.
    fn deliver_all<L: Link>(&mut self, link: &mut L) -> Result<(), Stop>
        ensures { Goes (goes_to delivers_all) (⟦<L as Watched>⟧.at link.old self.old)
            (⟦<L as Watched>⟧.at link.new self.new) result }
    {
        let up = self.ends.up_there();
        match self.deliver_up(link, up) {
            Ok(()) => {
                let down = self.ends.down_there();
                self.deliver_down(link, down)
            }
            Err(stop) => Err(stop),
        }
    }

    /// Whether the front end that is meant stands, and knows the sheet.
    fn knows_sheet(&self, second: bool, number: u64) -> bool
        ensures { result
            ≡ (is_there second self.now.fronts.pair && has_sheet number (front_meant second self.now.fronts.pair).value.sheets) }
    {
        match self.front(second) {
            Some(front) => front.knows_sheet(number),
            None => false,
        }
    }

    /// The sheets whose text the front end that is meant lacks or knows to be old; none where it does not stand.
    fn stale(&self, second: bool) -> Result<Vec<u64>, AllocError>
        ensures { IfOk result (λ numbers. numbers.items ≡ stale_meant second self.now.fronts.pair) }
    {
        match self.front(second) {
            Some(front) => front.stale(),
            None => Ok(Vec::new(self.alloc)),
        }
    }

    /// Fetches the text of a sheet that the front end that is meant knows.
    fn fetch_text<L: Link>(&mut self, link: &mut L, second: bool, number: u64) -> Result<(), Stop>
        requires stands { is_there second self.old.fronts.pair ≡ true }
        requires known { has_sheet number (front_meant second self.old.fronts.pair).value.sheets ≡ true }
        ensures { Goes (pair_fetching second 1 (fetching_known second number)) (⟦<L as Watched>⟧.at link.old self.old)
            (⟦<L as Watched>⟧.at link.new self.new) result }
    {
        match self.send_fetch(link, second, number) {
            Ok(()) => self.deliver_all(link),
            Err(stop) => Err(stop),
        }
    }

    /// The same; a sheet that the front end does not know any more is passed over, and so are all where it does not stand any more.
    fn fetch_if_known<L: Link>(
        &mut self,
        link: &mut L,
        second: bool,
        number: u64,
    ) -> Result<(), Stop>
        ensures { Goes (pair_fetching second 1 (fetching second number)) (⟦<L as Watched>⟧.at link.old self.old)
            (⟦<L as Watched>⟧.at link.new self.new) result }
    {
        if self.knows_sheet(second, number) {
            return self.fetch_text(link, second, number);
        }
        Ok(())
    }

    /// Fetches the texts of these sheets, one after the other.
    fn fetch_all<L: Link>(
        &mut self,
        link: &mut L,
        second: bool,
        numbers: &[u64],
    ) -> Result<(), Stop>
        ensures { Goes (pair_fetching second (length numbers.now) (fetching_all second numbers.now)) (⟦<L as Watched>⟧.at link.old self.old)
            (⟦<L as Watched>⟧.at link.new self.new) result }
    {
        for number in numbers {
            match self.fetch_if_known(link, second, *number) {
                Ok(()) => {}
                Err(stop) => return Err(stop),
            }
        }
        Ok(())
    }

    /// Fetches each text that the front end that is meant lacks or knows to be old. Which these are is found before the first fetch.
    fn fetch_stale<L: Link>(&mut self, link: &mut L, second: bool) -> Result<(), Stop>
        ensures { Goes (pair_fetching second (length (stale_meant second self.old.fronts.pair))
            (fetching_all second (stale_meant second self.old.fronts.pair))) (⟦<L as Watched>⟧.at link.old self.old)
            (⟦<L as Watched>⟧.at link.new self.new) result }
    {
        let numbers = self.stale(second)?;
        self.fetch_all(link, second, &numbers)
    }

    /// Delivers all that is on its way, and then fetches each text that a front end lacks or knows to be old: those of the first, and
    /// then those of the second.
    pub(crate) fn settle<L: Link>(&mut self, link: &mut L) -> Result<(), Stop>
        ensures { Goes (aims 0 refreshing) (⟦<L as Watched>⟧.at link.old self.old)
            (⟦<L as Watched>⟧.at link.new self.new) result }
    {
        match self.deliver_all(link) {
            Ok(()) => {}
            Err(stop) => return Err(stop),
        }
        match self.fetch_stale(link, false) {
            Ok(()) => self.fetch_stale(link, true),
            Err(stop) => Err(stop),
        }
    }
}
