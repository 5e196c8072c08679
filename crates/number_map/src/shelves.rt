// Numbers in their order, cut into shelves, so that one comes or leaves without a move of all behind it.
ghost use Rattle.std.specs.Prelude.{◌≡◌, ℕ, ◌+◌, ◌<◌, ◌≤◌, length, take, drop, slice_get, Some, IfSome, IfOk, OnOk, OnErr};
ghost use Rattle.std.specs.List.{insert, remove};
ghost use Rattle.number_map.specs.Places.{number_place};
ghost use Rattle.number_map.specs.Shelves.{numbers_in, StartAt, Counted, Spot, Within};

use crate::scans::scan;
use std::alloc::{AllocError, Global};

/// A shelf that has more numbers is cut in two.
const MOST_NUMBERS: usize = 512;

/// So many halvings find a shelf among as many as there can be.
const MOST_HALVINGS: usize = 64;

/// The first serial: that of the shelf that a list begins with.
pub(crate) const FIRST_SERIAL: u64 = 0;

/// Numbers that follow one another.
#[derive(Drop)]
pub(crate) struct Shelf {
    /// Under which the seats of its numbers name it: no other shelf of the list has it, but that is no clause.
    pub(crate) serial: u64,
    /// How many numbers stand before it.
    start: usize,
    pub(crate) numbers: Vec<u64>,
}

/// Shelves one behind the other, and how many numbers stand in them.
#[derive(Drop)]
pub(crate) struct Shelves {
    pub(crate) items: Vec<Shelf>,
    pub(crate) len: usize,
    last: u64,
}

impl Shelves {
    /// These numbers in one shelf.
    pub(crate) fn of(alloc: Global, numbers: &[u64]) -> Result<Shelves, AllocError>
        ensures numbers { IfOk result (λ shelves. numbers_in shelves.items.items ≡ numbers.now) }
        ensures counted { IfOk result (λ shelves. Counted shelves) }
    {
        let numbers = copy(alloc, numbers)?;
        let len = numbers.len();
        let mut items = Vec::new(alloc);
        items.push(Shelf {
            serial: FIRST_SERIAL,
            start: 0,
            numbers,
        })?;
        Ok(Shelves {
            items,
            len,
            last: FIRST_SERIAL,
        })
    }

    /// The shelf in which the place is looked for first: the last that starts at it or before. No clause says so.
    fn near(&self, place: usize) -> usize {
        let mut low = 0;
        let mut high = self.items.len();
        for _ in 0..MOST_HALVINGS {
            let half = high.saturating_sub(low) / 2;
            if half == 0 {
                return low;
            }
            let middle = low.saturating_add(half);
            match self.items.get(middle) {
                Some(shelf) if shelf.start <= place => low = middle,
                _ => high = middle,
            }
        }
        low
    }

    /// How far behind the start of that shelf a place lies, where it is within it.
    fn within(&self, k: usize, place: usize) -> Option<usize>
        requires { (k : ℕ) → StartAt self.now.items.items k }
        ensures { IfSome result (λ j. Within self.now.items.items place k j) }
    {
        if k >= self.items.len() {
            return None;
        }
        let shelf = &self.items[k];
        if place < shelf.start {
            return None;
        }
        let j = place - shelf.start;
        if j < shelf.numbers.len() {
            return Some(j);
        }
        None
    }

    /// The shelf in which a place lies, and how far behind its start.
    pub(crate) fn shelf_at(&self, place: usize) -> (usize, usize)
        requires inside { place < length (numbers_in self.now.items.items) }
        requires counted { Counted self.now }
        ensures { Within self.now.items.items place result.0 result.1 }
    {
        let k = self.near(place);
        match self.within(k, place) {
            Some(j) => (k, j),
            None => self.walk_to(place),
        }
    }

    /// The same, by a walk over the shelves.
    fn walk_to(&self, place: usize) -> (usize, usize)
        requires inside { place < length (numbers_in self.now.items.items) }
        requires counted { Counted self.now }
        ensures { Within self.now.items.items place result.0 result.1 }
    {
        for k in 0..self.items.len() {
            let shelf = &self.items[k];
            let j = place - shelf.start;
            if j < shelf.numbers.len() {
                return (k, j);
            }
        }
        unreachable!()
    }

    /// The number at a place.
    pub(crate) fn at(&self, place: usize) -> u64
        requires inside { place < length (numbers_in self.now.items.items) }
        requires counted { Counted self.now }
        ensures { slice_get (numbers_in self.now.items.items) place ≡ Some result }
    {
        let (k, j) = self.shelf_at(place);
        self.items[k].numbers[j]
    }

    /// A place at which the number stands, looked for in the shelf of that serial.
    pub(crate) fn place_in(&self, serial: u64, number: u64) -> Option<usize>
        requires { Counted self.now }
        ensures { IfSome result (λ i. slice_get (numbers_in self.now.items.items) i ≡ Some number) }
    {
        for k in 0..self.items.len() {
            let shelf = &self.items[k];
            if shelf.serial == serial {
                let j = scan(shelf.numbers.as_slice(), number);
                if j < shelf.numbers.len() {
                    return Some(shelf.start + j);
                }
                return None;
            }
        }
        None
    }

    /// The place of the first that is the number, and else how many there are.
    pub(crate) fn place(&self, number: u64) -> usize
        requires { Counted self.now }
        ensures { result ≡ number_place number (numbers_in self.now.items.items) }
    {
        let all = self.len;
        for k in 0..self.items.len() {
            let shelf = &self.items[k];
            let j = scan(shelf.numbers.as_slice(), number);
            if j < shelf.numbers.len() {
                return shelf.start + j;
            }
        }
        all
    }

    /// The serial of the shelf in which a place is looked for first. No clause says so.
    pub(crate) fn serial_at(&self, place: usize) -> u64 {
        match self.items.get(self.near(place)) {
            Some(shelf) => shelf.serial,
            None => FIRST_SERIAL,
        }
    }

    /// Puts an empty shelf in where there is none.
    fn begin(&mut self, alloc: Global) -> Result<(), AllocError>
        requires { Counted self.old }
        ensures same { numbers_in self.new.items.items ≡ numbers_in self.old.items.items }
        ensures counted { Counted self.new }
        ensures some { OnOk result (0 < length self.new.items.items) }
    {
        if !self.items.is_empty() {
            return Ok(());
        }
        self.items.push(Shelf {
            serial: FIRST_SERIAL,
            start: 0,
            numbers: Vec::new(alloc),
        })?;
        Ok(())
    }

    /// Where a number comes that is put before a place, or last: a shelf, and how far behind its start.
    fn spot(&mut self, alloc: Global, place: usize) -> Result<(usize, usize), AllocError>
        requires inside { place ≤ length (numbers_in self.old.items.items) }
        requires counted { Counted self.old }
        ensures same { numbers_in self.new.items.items ≡ numbers_in self.old.items.items }
        ensures counted { Counted self.new }
        ensures spot { IfOk result (λ spot. Spot self.new.items.items place spot.0 spot.1) }
    {
        if place < self.len {
            return Ok(self.shelf_at(place));
        }
        self.begin(alloc)?;
        let k = self.items.len() - 1;
        Ok((k, self.items[k].numbers.len()))
    }

    /// Puts a number before a place, or last. Gives the place of the shelf that was cut off another, if one was.
    pub(crate) fn insert(
        &mut self,
        alloc: Global,
        place: usize,
        number: u64,
    ) -> Result<Option<usize>, AllocError>
        requires inside { place ≤ length (numbers_in self.old.items.items) }
        requires counted { Counted self.old }
        ensures put { OnOk result (numbers_in self.new.items.items ≡ insert (numbers_in self.old.items.items) place number) }
        ensures kept { OnErr result (numbers_in self.new.items.items ≡ numbers_in self.old.items.items) }
        ensures counted { Counted self.new }
    {
        if self.len == usize::MAX {
            return Err(AllocError);
        }
        let len = self.len + 1;
        let spot = self.spot(alloc, place)?;
        let (k, j) = spot;
        self.items[k].numbers.insert(j, number)?;
        self.len = len;
        let cut = self.cut(alloc, k).unwrap_or(None);
        self.restart(k);
        Ok(cut)
    }

    /// Takes the number at a place out.
    pub(crate) fn take(&mut self, place: usize) -> u64
        requires inside { place < length (numbers_in self.old.items.items) }
        requires counted { Counted self.old }
        ensures was { slice_get (numbers_in self.old.items.items) place ≡ Some result }
        ensures left { numbers_in self.new.items.items ≡ remove (numbers_in self.old.items.items) place }
        ensures counted { Counted self.new }
    {
        let (k, j) = self.shelf_at(place);
        let number = self.items[k].numbers.remove(j);
        self.drop_empty(k);
        self.len -= 1;
        self.restart(k);
        number
    }

    /// Takes a shelf out that has no numbers.
    fn drop_empty(&mut self, k: usize)
        requires { k < length self.old.items.items }
        ensures numbers { numbers_in self.new.items.items ≡ numbers_in self.old.items.items }
        ensures front { take k self.new.items.items ≡ take k self.old.items.items }
        ensures known { k ≤ length self.new.items.items }
        ensures len { self.new.len ≡ self.old.len }
    {
        let left = self.items[k].numbers.len();
        if left > 0 {
            return;
        }
        self.items.remove(k);
    }

    /// Cuts a shelf in two, if it is long: the upper half of its numbers comes into a shelf of its own, whose place is given. The
    /// shelves from that one on are to be started anew. Without memory for it the shelf stays.
    fn cut(&mut self, alloc: Global, k: usize) -> Result<Option<usize>, AllocError>
        requires { k < length self.old.items.items }
        ensures numbers { numbers_in self.new.items.items ≡ numbers_in self.old.items.items }
        ensures front { take k self.new.items.items ≡ take k self.old.items.items }
        ensures known { k ≤ length self.new.items.items }
        ensures len { self.new.len ≡ self.old.len }
    {
        let len = self.items[k].numbers.len();
        if len <= MOST_NUMBERS {
            return Ok(None);
        }
        let half = len / 2;
        let upper = copy(alloc, numbers_from(self.items[k].numbers.as_slice(), half))?;
        self.last = self.last.saturating_add(1);
        self.items.insert(
            k + 1,
            Shelf {
                serial: self.last,
                start: 0,
                numbers: upper,
            },
        )?;
        self.items[k].numbers.truncate(half);
        Ok(Some(k + 1))
    }

    /// How many numbers stand before a shelf, by the one before it.
    fn count_before(&self, k: usize) -> usize
        requires known { k ≤ length self.now.items.items }
        requires front { (i : ℕ) → i < k → StartAt self.now.items.items i }
        requires counted { self.now.len ≡ length (numbers_in self.now.items.items) }
        ensures { result ≡ length (numbers_in (take k self.now.items.items)) }
    {
        if k == 0 {
            return 0;
        }
        let shelf = &self.items[k - 1];
        shelf.start + shelf.numbers.len()
    }

    /// Counts anew how many numbers stand before each shelf from that one on.
    fn restart(&mut self, from: usize)
        requires known { from ≤ length self.old.items.items }
        requires front { (i : ℕ) → i < from → StartAt self.old.items.items i }
        requires counted { self.old.len ≡ length (numbers_in self.old.items.items) }
        ensures same { numbers_in self.new.items.items ≡ numbers_in self.old.items.items }
        ensures counted { Counted self.new }
    {
        // That this number fits bounds the sums below.
        let _all = self.len;
        let mut before = self.count_before(from);
        for k in from..self.items.len() {
            let shelf = &mut self.items[k];
            shelf.start = before;
            before += shelf.numbers.len();
        }
    }
}

/// These numbers once more.
fn copy(alloc: Global, numbers: &[u64]) -> Result<Vec<u64>, AllocError>
    ensures { IfOk result (λ copied. copied.items ≡ numbers.now) }
{
    let mut copied = Vec::with_capacity(alloc, numbers.len())?;
    copied.extend_from_slice(numbers)?;
    Ok(copied)
}

/// The numbers from that place on.
fn numbers_from(numbers: &[u64], place: usize) -> &[u64]
    requires { place ≤ length numbers.now }
    ensures { result.now ≡ drop place numbers.now }
{
    &numbers[place..]
}
