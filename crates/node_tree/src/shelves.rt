// Attributes in their order, cut into shelves, so that one comes or leaves without a move of all behind it.
ghost use Rattle.std.specs.Prelude.{◌≡◌, ℕ, List, suc, ◌<◌, ◌≤◌, ◌++◌, length, slice_get, slice_set, Some, IfOk, OnOk, OnErr};
ghost use Rattle.std.specs.List.{insert, remove};
ghost use Rattle.node_tree.specs.Shelves.{Shelf, pairs_of, pairs_in, all_of, number_of, place_of, AreFilled, Kept, IsSpot, IsWithin};

use crate::short_lists::make_room;
use crate::texts::Text;
use std::alloc::{AllocError, Global};
use std::mem;

/// A shelf that has more pairs is cut in two.
const MOST_PAIRS: usize = 128;

/// Shelves one behind the other, and how many pairs stand in them. With few pairs all are in the first. None but the first is empty.
#[derive(Drop)]
pub(crate) struct Shelves {
    pub(crate) first: Vec<(Text, Text)>,
    pub(crate) later: Vec<Vec<(Text, Text)>>,
    pub(crate) len: usize,
}

impl Shelves {
    /// These pairs in one shelf; takes no memory.
    pub(crate) fn of(pairs: Vec<(Text, Text)>) -> Shelves
        ensures pairs { pairs_in result ≡ pairs.items }
        ensures kept { Kept result }
    {
        let alloc = *pairs.allocator();
        let len = pairs.len();
        Shelves {
            first: pairs,
            later: Vec::new(alloc),
            len,
        }
    }

    /// The shelf of that place among the later ones, or the first.
    pub(crate) fn shelf(&self, k: Option<usize>) -> &Vec<(Text, Text)>
        requires { number_of k < length (all_of self.now) }
        ensures { slice_get (all_of self.now) (number_of k) ≡ Some result.now }
    {
        match k {
            None => &self.first,
            Some(k) => &self.later[k],
        }
    }

    /// Where the pair at a place stands: in which shelf, and how far behind its start.
    pub(crate) fn within(&self, i: usize) -> (Option<usize>, usize)
        requires { i < length (pairs_in self.now) }
        ensures within { IsWithin (all_of self.now) (number_of result.0) result.1 }
        ensures place { place_of (all_of self.now) (number_of result.0) result.1 ≡ i }
    {
        if i < self.first.len() {
            return (None, i);
        }
        let mut left = i - self.first.len();
        for k in 0..self.later.len() {
            let len = self.later[k].len();
            if left < len {
                return (Some(k), left);
            }
            left -= len;
        }
        unreachable!()
    }

    /// The end of the last shelf.
    pub(crate) fn end(&self) -> (Option<usize>, usize)
        ensures spot { IsSpot (all_of self.now) (number_of result.0) result.1 }
        ensures place { place_of (all_of self.now) (number_of result.0) result.1 ≡ length (pairs_in self.now) }
    {
        let count = self.later.len();
        if count == 0 {
            return (None, self.first.len());
        }
        (Some(count - 1), self.later[count - 1].len())
    }

    /// Where a pair comes that is put before the one at a place, or last.
    pub(crate) fn spot(&self, i: usize) -> (Option<usize>, usize)
        requires inside { i ≤ length (pairs_in self.now) }
        requires kept { Kept self.now }
        ensures spot { IsSpot (all_of self.now) (number_of result.0) result.1 }
        ensures place { place_of (all_of self.now) (number_of result.0) result.1 ≡ i }
    {
        if i < self.len {
            return self.within(i);
        }
        self.end()
    }

    /// The pair at a place.
    pub(crate) fn at(&self, i: usize) -> &(Text, Text)
        requires { i < length (pairs_in self.now) }
        ensures { slice_get (pairs_in self.now) i ≡ Some result.now }
    {
        let (k, j) = self.within(i);
        let shelf = self.shelf(k);
        &shelf[j]
    }

    /// Makes room for a pair more in the first shelf, and for no other while it is short.
    pub(crate) fn room(&mut self) -> Result<(), AllocError>
        ensures pairs { pairs_in self.new ≡ pairs_in self.old }
        ensures kept { Kept self.old → Kept self.new }
    {
        if !self.later.is_empty() {
            return Ok(());
        }
        make_room(&mut self.first)
    }

    /// Puts a pair into a shelf, which is not cut yet, and counts nothing.
    fn put(&mut self, k: Option<usize>, j: usize, pair: (Text, Text)) -> Result<(), AllocError>
        requires spot { IsSpot (all_of self.old) (number_of k) j }
        requires filled { AreFilled self.old.later.items }
        ensures ok { OnOk result (pairs_in self.new ≡ insert (pairs_in self.old) (place_of (all_of self.old) (number_of k) j) pair) }
        ensures err { OnErr result (pairs_in self.new ≡ pairs_in self.old) }
        ensures filled { AreFilled self.new.later.items }
        ensures all { length (all_of self.new) ≡ length (all_of self.old) }
        ensures len { self.new.len ≡ self.old.len }
    {
        match k {
            None => {
                self.first.insert(j, pair)?;
                Ok(())
            }
            Some(k) => {
                self.later[k].insert(j, pair)?;
                Ok(())
            }
        }
    }

    /// Cuts the first shelf in two, if it is long. Without memory for it the shelf stays.
    fn cut_first(&mut self) -> Result<(), AllocError>
        requires { AreFilled self.old.later.items }
        ensures pairs { pairs_in self.new ≡ pairs_in self.old }
        ensures filled { AreFilled self.new.later.items }
        ensures len { self.new.len ≡ self.old.len }
    {
        if self.first.len() <= MOST_PAIRS {
            return Ok(());
        }
        self.later.reserve(1)?;
        let upper = upper_half(&mut self.first)?;
        match self.later.insert(0, upper) {
            Ok(()) => Ok(()),
            Err(_) => unreachable!(),
        }
    }

    /// Cuts a later shelf in two, if it is long. Without memory for it the shelf stays.
    fn cut_later(&mut self, k: usize) -> Result<(), AllocError>
        requires shelf { k < length self.old.later.items }
        requires filled { AreFilled self.old.later.items }
        ensures pairs { pairs_in self.new ≡ pairs_in self.old }
        ensures filled { AreFilled self.new.later.items }
        ensures len { self.new.len ≡ self.old.len }
    {
        if self.later[k].len() <= MOST_PAIRS {
            return Ok(());
        }
        self.later.reserve(1)?;
        let upper = upper_half(&mut self.later[k])?;
        match self.later.insert(k + 1, upper) {
            Ok(()) => Ok(()),
            Err(_) => unreachable!(),
        }
    }

    /// Cuts a shelf in two, if it is long and there is memory for it.
    fn cut(&mut self, k: Option<usize>)
        requires shelf { number_of k < length (all_of self.old) }
        requires filled { AreFilled self.old.later.items }
        ensures pairs { pairs_in self.new ≡ pairs_in self.old }
        ensures filled { AreFilled self.new.later.items }
        ensures len { self.new.len ≡ self.old.len }
    {
        // Without memory the shelf stays long, until one more comes.
        let _cut = match k {
            None => self.cut_first(),
            Some(k) => self.cut_later(k),
        };
    }

    /// Puts a pair into a shelf, so far behind its start.
    pub(crate) fn insert(
        &mut self,
        k: Option<usize>,
        j: usize,
        pair: (Text, Text),
    ) -> Result<(), AllocError>
        requires spot { IsSpot (all_of self.old) (number_of k) j }
        requires kept { Kept self.old }
        ensures ok { OnOk result (pairs_in self.new ≡ insert (pairs_in self.old) (place_of (all_of self.old) (number_of k) j) pair) }
        ensures err { OnErr result (pairs_in self.new ≡ pairs_in self.old) }
        ensures kept { Kept self.new }
    {
        if self.len == usize::MAX {
            return Err(AllocError);
        }
        self.put(k, j, pair)?;
        self.len += 1;
        self.cut(k);
        Ok(())
    }

    /// Takes a pair out of a later shelf, and counts nothing.
    fn take_later(&mut self, k: usize, j: usize) -> (Text, Text)
        requires within { IsWithin (all_of self.old) (suc k) j }
        requires filled { AreFilled self.old.later.items }
        ensures pair { slice_get (pairs_in self.old) (place_of (all_of self.old) (suc k) j) ≡ Some result }
        ensures rest { pairs_in self.new ≡ remove (pairs_in self.old) (place_of (all_of self.old) (suc k) j) }
        ensures filled { AreFilled self.new.later.items }
        ensures len { self.new.len ≡ self.old.len }
    {
        let pair = self.later[k].remove(j);
        drop_empty(&mut self.later, k);
        pair
    }

    /// Takes a pair out of the first shelf, and counts nothing.
    fn take_first(&mut self, j: usize) -> (Text, Text)
        requires { IsWithin (all_of self.old) 0 j }
        ensures pair { slice_get (pairs_in self.old) j ≡ Some result }
        ensures rest { pairs_in self.new ≡ remove (pairs_in self.old) j }
        ensures later { self.new.later ≡ self.old.later }
        ensures len { self.new.len ≡ self.old.len }
    {
        self.first.remove(j)
    }

    /// Takes a pair out of a shelf.
    pub(crate) fn take(&mut self, k: Option<usize>, j: usize) -> (Text, Text)
        requires within { IsWithin (all_of self.old) (number_of k) j }
        requires kept { Kept self.old }
        ensures pair { slice_get (pairs_in self.old) (place_of (all_of self.old) (number_of k) j) ≡ Some result }
        ensures rest { pairs_in self.new ≡ remove (pairs_in self.old) (place_of (all_of self.old) (number_of k) j) }
        ensures kept { Kept self.new }
    {
        self.len -= 1;
        match k {
            None => self.take_first(j),
            Some(k) => self.take_later(k, j),
        }
    }

    /// Gives a pair of a shelf another value, and gives the old one.
    pub(crate) fn set(&mut self, k: Option<usize>, j: usize, value: Text) -> Text
        requires within { IsWithin (all_of self.old) (number_of k) j }
        requires kept { Kept self.old }
        ensures set { (name : List ℕ) → (was : List ℕ)
            → slice_get (pairs_in self.old) (place_of (all_of self.old) (number_of k) j) ≡ Some (name, was)
            → (pairs_in self.new ≡ slice_set (pairs_in self.old) (place_of (all_of self.old) (number_of k) j) (name, value))
            × (result ≡ was) }
        ensures kept { Kept self.new }
    {
        match k {
            None => {
                let pair = &mut self.first[j];
                mem::replace(&mut pair.1, value)
            }
            Some(k) => {
                let pair = &mut self.later[k][j];
                mem::replace(&mut pair.1, value)
            }
        }
    }

    /// A copy of the shelves and of their texts.
    pub(crate) fn try_clone(&self, alloc: Global) -> Result<Shelves, AllocError>
        requires { Kept self.now }
        ensures pairs { IfOk result (λ copy. pairs_in copy ≡ pairs_in self.now) }
        ensures kept { IfOk result (λ copy. Kept copy) }
    {
        let first = copy(alloc, &self.first)?;
        let mut later = Vec::with_capacity(alloc, self.later.len())?;
        for shelf in &self.later {
            later.push(copy(alloc, shelf)?)?;
        }
        Ok(Shelves {
            first,
            later,
            len: self.len,
        })
    }
}

/// A copy of a shelf and of its texts.
fn copy(alloc: Global, shelf: &Vec<(Text, Text)>) -> Result<Vec<(Text, Text)>, AllocError>
    ensures { IfOk result (λ copied. copied.items ≡ shelf.now.items) }
{
    let mut copied = Vec::with_capacity(alloc, shelf.len())?;
    for pair in shelf {
        copied.push((pair.0.try_clone()?, pair.1.try_clone()?))?;
    }
    Ok(copied)
}

/// Takes a shelf out that has no pairs.
fn drop_empty(later: &mut Vec<Vec<(Text, Text)>>, k: usize)
    requires { k < length later.old.items }
    ensures pairs { pairs_of later.new.items ≡ pairs_of later.old.items }
    ensures filled { (before : List Shelf) (shelf : Shelf) → AreFilled before → later.old.items ≡ slice_set before k shelf
        → AreFilled later.new.items }
{
    let left = later[k].len();
    if left > 0 {
        return;
    }
    later.remove(k);
}

/// Takes the upper half of a shelf away from it.
fn upper_half(shelf: &mut Vec<(Text, Text)>) -> Result<Vec<(Text, Text)>, AllocError>
    requires { 1 < length shelf.old.items }
    ensures halves { IfOk result (λ upper. shelf.new.items ++ upper.items ≡ shelf.old.items) }
    ensures upper { IfOk result (λ upper. 0 < length upper.items) }
    ensures lower { 0 < length shelf.new.items }
    ensures err { OnErr result (shelf.new ≡ shelf.old) }
{
    let half = shelf.len() / 2;
    shelf.split_off(half)
}
