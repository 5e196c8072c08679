ghost use Rattle.std.specs.Prelude.{◌≡◌, [], ◌++◌};
ghost use Rattle.node_tree.specs.Shelves.{pairs_of};

use crate::texts::Text;
use std::marker::Model;

/// The attributes of a list that a walk has not taken yet, in their order.
#[derive(Drop)]
pub struct Pairs<'a> {
    front: &'a [(Text, Text)],
    later: &'a [Vec<(Text, Text)>],
}

impl<'a> Model for Pairs<'a> {
    ghost use Rattle.std.specs.Prelude.{ℕ, List, ◌++◌};
    ghost use Rattle.node_tree.specs.Shelves.{pairs_of};

    ghost Value = { List (List ℕ × List ℕ) };

    ghost view = { λ a. a.front.now ++ pairs_of a.later.now };
}

impl<'a> Pairs<'a> {
    /// Those of no list.
    pub fn none() -> Pairs<'a>
        ensures { result ≡ [] }
    {
        Pairs {
            front: &[],
            later: &[],
        }
    }

    /// Those of a shelf, and of the shelves behind it.
    pub(crate) fn of(front: &'a [(Text, Text)], later: &'a [Vec<(Text, Text)>]) -> Pairs<'a>
        ensures { result ≡ front.now ++ pairs_of later.now }
    {
        Pairs { front, later }
    }
}

impl<'a> Iterator for Pairs<'a> {
    ghost use Rattle.std.specs.Iterator.{YieldsFirstRef, item_count};

    type Item = &'a (Text, Text);

    ghost next_gives = { YieldsFirstRef (λ s. s) };

    ghost remaining = { item_count (λ s. s) };

    fn next(&mut self) -> Option<&'a (Text, Text)> {
        let (front, later) = ahead(self.front, self.later);
        self.later = later;
        self.front = front;
        let (pair, behind) = front.split_first()?;
        self.front = behind;
        Some(pair)
    }
}

/// The same pairs, where the first shelf has one unless there is none.
fn ahead<'a>(
    front: &'a [(Text, Text)],
    later: &'a [Vec<(Text, Text)>],
) -> (&'a [(Text, Text)], &'a [Vec<(Text, Text)>])
    ensures same { result.0.now ++ pairs_of result.1.now ≡ front.now ++ pairs_of later.now }
    ensures end { result.0.now ≡ [] → result.1.now ≡ [] }
{
    let mut here = front;
    let mut behind = later;
    'shelves: while here.is_empty() {
        let Some((shelf, others)) = behind.split_first() else {
            return (here, behind);
        };
        here = shelf.as_slice();
        behind = others;
    }
    (here, behind)
}
