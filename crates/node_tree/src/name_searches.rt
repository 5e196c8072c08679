// A name looked for among attributes that ascend by their names' bytes: its shelf by halves, and its place there.
ghost use Rattle.std.specs.Prelude.{◌≡◌, suc, ◌<◌, ◌≤◌, drop, length, true};
ghost use Rattle.node_tree.specs.Labels.{is_ascending, is_below};
ghost use Rattle.node_tree.specs.Searches.{shifted, search_name};
ghost use Rattle.node_tree.specs.Shelves.{pairs_of, pairs_in, all_of, number_of, start_of, AreFilled, IsFound};

use crate::shelves::Shelves;
use crate::texts::Text;
use std::cmp::Ordering;

/// The place of the first pair whose name is not before this one, found by halves.
fn first_not_before(pairs: &[(Text, Text)], name: &str) -> usize
    requires { is_ascending pairs.now ≡ true }
    ensures within { result ≤ length pairs.now }
    ensures passed { search_name name.now pairs.now ≡ shifted result (search_name name.now (drop result pairs.now)) }
{
    let mut low = 0;
    let mut high = pairs.len();
    'halves: while low < high {
        let middle = low + (high - low) / 2;
        let other = pairs[middle].0.as_str();
        match name.cmp(other) {
            Ordering::Greater => low = middle + 1,
            Ordering::Less | Ordering::Equal => high = middle,
        }
    }
    low
}

/// The place of the first pair whose name is not before this one: `Ok` where it has the name.
fn search_name(pairs: &[(Text, Text)], name: &str) -> Result<usize, usize>
    requires { is_ascending pairs.now ≡ true }
    ensures { result ≡ search_name name.now pairs.now }
{
    let start = first_not_before(pairs, name);
    for i in start..pairs.len() {
        let other = pairs[i].0.as_str();
        match name.cmp(other) {
            Ordering::Less => return Err(i),
            Ordering::Equal => return Ok(i),
            Ordering::Greater => {}
        }
    }
    Err(pairs.len())
}

impl Shelves {
    /// How many of the later shelves begin with this name or one before it, found by halves.
    fn shelves_before(&self, name: &str) -> usize
        requires ascending { is_ascending (pairs_in self.now) ≡ true }
        requires filled { AreFilled self.now.later.items }
        ensures inside { result ≤ length self.now.later.items }
        ensures passed { search_name name.now (pairs_in self.now)
            ≡ shifted (start_of (all_of self.now) result) (search_name name.now (pairs_of (drop result (all_of self.now)))) }
        ensures behind { is_below name.now (pairs_of (drop result self.now.later.items)) ≡ true }
    {
        let mut low = 0;
        let mut high = self.later.len();
        'shelves: while low < high {
            let middle = low + (high - low) / 2;
            let other = self.later[middle][0].0.as_str();
            match name.cmp(other) {
                Ordering::Less => high = middle,
                Ordering::Equal => low = middle + 1,
                Ordering::Greater => low = middle + 1,
            }
        }
        low
    }

    /// Where the first pair stands whose name is not before this one, or where it would: the shelf, and how far behind its start.
    pub(crate) fn find(&self, name: &str) -> (Option<usize>, Result<usize, usize>)
        requires ascending { is_ascending (pairs_in self.now) ≡ true }
        requires filled { AreFilled self.now.later.items }
        ensures found { search_name name.now (pairs_in self.now) ≡ shifted (start_of (all_of self.now) (number_of result.0)) result.1 }
        ensures shelf { IsFound (all_of self.now) (number_of result.0) result.1 }
    {
        let before = self.shelves_before(name);
        if before == 0 {
            return (None, search_name(self.first.as_slice(), name));
        }
        let k = before - 1;
        (Some(k), search_name(self.later[k].as_slice(), name))
    }
}
