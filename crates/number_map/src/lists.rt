ghost use Rattle.std.specs.Prelude.{◌≡◌, ◌<◌, ◌≤◌, ◌++◌, [], ◌∷◌, length, slice_get, Some, IfOk, OnOk, OnErr};
ghost use Rattle.std.specs.List.{insert, remove};
ghost use Rattle.number_map.specs.Places.{number_place};
ghost use Rattle.number_map.specs.Lists.{numbers_of};

use crate::long_lists::LongList;
use crate::scans::scan;
use std::alloc::{AllocError, Global};
use std::marker::Model;

/// A list of up to so many numbers is one `Vec`, searched from its front.
const MOST_SHORT: usize = 256;

/// A list of numbers in which the place of a number is found in a few steps, however long it is, and one is put in or taken out
/// without a move of all behind it.
///
/// Up to 256 numbers stand in one `Vec`, 8 bytes each, and are searched from the front. A longer list stands in shelves of up to
/// 512 numbers, and keeps beside that in which of them each number stands: 16 to 32 bytes more a number, where they follow one
/// another or nearly, and some more where not. A search then looks for that shelf and through it, the number at a place is found
/// in as many steps as the number of shelves has bits, and a change moves numbers of one shelf alone. A list in which a number
/// stood twice while it was long is searched from the front. None of this is a clause.
pub struct NumberList {
    alloc: Global,
    numbers: Numbers,
}

impl Drop for NumberList {
    // One call, so that who lets a list go has no cases of its numbers.
    fn drop(self) {
        let NumberList {
            alloc: _alloc,
            numbers,
        } = self;
        drop(numbers);
    }
}

/// The numbers of a list. It becomes long with its 257th number, unless memory is wanted, and stays so.
#[derive(Drop)]
enum Numbers {
    Short(Vec<u64>),
    Long(Box<LongList>),
}

impl Model for NumberList {
    ghost use Rattle.std.specs.Prelude.{ℕ, List};
    ghost use Rattle.number_map.specs.Lists.{numbers_of};

    ghost Value = { List ℕ };

    ghost view = { λ a. numbers_of a.numbers };
}

impl NumberList {
    /// No numbers; takes no memory.
    pub fn new(alloc: Global) -> NumberList
        ensures { result ≡ [] }
    {
        NumberList {
            alloc,
            numbers: Numbers::Short(Vec::new(alloc)),
        }
    }

    /// No numbers, with room for so many, or for those of a list that is not long yet.
    pub fn with_room(alloc: Global, count: usize) -> Result<NumberList, AllocError>
        ensures { IfOk result (λ list. list ≡ []) }
    {
        let room = count.min(MOST_SHORT);
        Ok(NumberList {
            alloc,
            numbers: Numbers::Short(Vec::with_capacity(alloc, room)?),
        })
    }

    /// How many numbers there are.
    pub fn len(&self) -> usize
        ensures { result ≡ length self.now }
    {
        match &self.numbers {
            Numbers::Short(numbers) => numbers.len(),
            Numbers::Long(list) => list.len(),
        }
    }

    /// The number at place `i`, counted from 0.
    pub fn at(&self, i: usize) -> u64
        requires { i < length self.now }
        ensures { slice_get self.now i ≡ Some result }
    {
        match &self.numbers {
            Numbers::Short(numbers) => numbers[i],
            Numbers::Long(list) => list.at(i),
        }
    }

    /// The place of the first that is the number, and else how many there are.
    pub fn place(&self, number: u64) -> usize
        ensures { result ≡ number_place number self.now }
    {
        match &self.numbers {
            Numbers::Short(numbers) => scan(numbers.as_slice(), number),
            Numbers::Long(list) => list.place(number),
        }
    }

    /// Puts a number last.
    pub fn push(&mut self, number: u64) -> Result<(), AllocError>
        ensures ok { OnOk result (self.new ≡ self.old ++ number ∷ []) }
        ensures err { OnErr result (self.new ≡ self.old) }
    {
        let len = self.len();
        self.insert(len, number)?;
        Ok(())
    }

    /// Puts a number before the one at place `i`, or last.
    pub fn insert(&mut self, i: usize, number: u64) -> Result<(), AllocError>
        requires { i ≤ length self.old }
        ensures ok { OnOk result (self.new ≡ insert self.old i number) }
        ensures err { OnErr result (self.new ≡ self.old) }
    {
        put(&mut self.numbers, i, number)?;
        self.lengthen();
        Ok(())
    }

    /// Takes the number at place `i` out, where there is one.
    pub fn remove(&mut self, i: usize)
        ensures { self.new ≡ remove self.old i }
    {
        if i < self.len() {
            take(&mut self.numbers, i);
        }
    }

    /// Makes a short list long where it has too many numbers for a short one. Without memory for it, it stays short.
    fn lengthen(&mut self)
        ensures { self.new ≡ self.old }
    {
        let Numbers::Short(numbers) = &self.numbers else {
            return;
        };
        if numbers.len() > MOST_SHORT {
            if let Ok(long) = long_of(self.alloc, numbers.as_slice()) {
                self.numbers = long;
            }
        }
    }
}

/// These numbers as those of a long list.
fn long_of(alloc: Global, numbers: &[u64]) -> Result<Numbers, AllocError>
    ensures { IfOk result (λ long. numbers_of long ≡ numbers.now) }
{
    Ok(Numbers::Long(Box::new(alloc, LongList::of(alloc, numbers)?)?))
}

/// Puts a number before the one at place `i`, or last.
fn put(numbers: &mut Numbers, i: usize, number: u64) -> Result<(), AllocError>
    requires { i ≤ length (numbers_of numbers.old) }
    ensures ok { OnOk result (numbers_of numbers.new ≡ insert (numbers_of numbers.old) i number) }
    ensures err { OnErr result (numbers_of numbers.new ≡ numbers_of numbers.old) }
{
    match numbers {
        Numbers::Short(short) => {
            short.insert(i, number)?;
            Ok(())
        }
        Numbers::Long(long) => long.insert(i, number),
    }
}

/// Takes the number at place `i` out.
fn take(numbers: &mut Numbers, i: usize)
    requires { i < length (numbers_of numbers.old) }
    ensures { numbers_of numbers.new ≡ remove (numbers_of numbers.old) i }
{
    match numbers {
        Numbers::Short(short) => {
            short.remove(i);
        }
        Numbers::Long(long) => long.remove(i),
    }
}
