// Numbers under keys that follow one another, for which a look-up takes one step.
ghost use Rattle.std.specs.Prelude.{◌≡◌, ℕ, ◌+◌, ◌<◌, ◌==◌, ◌&&◌, cond, false, length, [], None, Some, IfOk, OnErr, IfSome, IfNone};
ghost use Rattle.number_map.specs.Rows.{row_at};

use std::alloc::{AllocError, Global};

/// By how many places without a number a row is lengthened at most, to one behind them.
const REACH: usize = 64;

/// Whether a place lies too far behind the end of a row of that length.
fn is_far(place: usize, len: usize) -> bool {
    place.saturating_sub(len) > REACH
}

/// At place `i` stands the number under the key `first + i`, where there is one.
///
/// A row takes 16 bytes for each key from its first to its last, whether or not a number stands there. A call writes at most
/// 65 places, and drops no more than earlier calls wrote.
#[derive(Drop)]
pub(crate) struct Row {
    pub(crate) first: u64,
    pub(crate) numbers: Vec<Option<u64>>,
}

impl Row {
    /// A row without places.
    pub(crate) fn new(alloc: Global) -> Row
        ensures { result.numbers.items ≡ [] }
    {
        Row {
            first: 0,
            numbers: Vec::new(alloc),
        }
    }

    /// A row without numbers, with so many places from that key on.
    pub(crate) fn spanning(alloc: Global, first: u64, places: usize) -> Result<Row, AllocError>
        ensures { IfOk result (λ row. (key : ℕ) → row_at row.first row.numbers.items key ≡ None) }
    {
        let mut numbers = Vec::new(alloc);
        numbers.resize(places, None)?;
        Ok(Row { first, numbers })
    }

    /// The number under the key, if there is one.
    pub(crate) fn get(&self, key: u64) -> Option<u64>
        ensures { result ≡ row_at self.now.first self.now.numbers.items key }
    {
        let place = self.place_of(key)?;
        self.numbers[place]
    }

    /// The place of the key, if it has one.
    fn place_of(&self, key: u64) -> Option<usize>
        ensures within { IfSome result (λ place. place < length self.now.numbers.items) }
        ensures there { IfSome result (λ place. self.now.first + place ≡ key) }
        ensures none { IfNone result (row_at self.now.first self.now.numbers.items key ≡ None) }
    {
        if key < self.first {
            return None;
        }
        let place = (key - self.first) as usize;
        if place >= self.numbers.len() {
            return None;
        }
        Some(place)
    }

    /// Puts the number under the key, unless that has no place in the row and is too far from it to get one: whether it did.
    pub(crate) fn put(&mut self, key: u64, number: u64) -> Result<bool, AllocError>
        ensures put { IfOk result (λ is_put. (other : ℕ) → row_at self.new.first self.new.numbers.items other
            ≡ cond (is_put && other == key) (Some number) (row_at self.old.first self.old.numbers.items other)) }
        ensures far { IfOk result (λ is_put. is_put ≡ false → row_at self.old.first self.old.numbers.items key ≡ None) }
        ensures kept { OnErr result ((other : ℕ) → row_at self.new.first self.new.numbers.items other
            ≡ row_at self.old.first self.old.numbers.items other) }
    {
        self.begin(key);
        if key < self.first {
            return Ok(false);
        }
        self.put_at((key - self.first) as usize, number)
    }

    /// Where it has no places, its first is to be that of the key.
    fn begin(&mut self, key: u64)
        ensures { (other : ℕ) → row_at self.new.first self.new.numbers.items other
            ≡ row_at self.old.first self.old.numbers.items other }
    {
        if self.numbers.is_empty() {
            self.first = key;
        }
    }

    /// The same at a place, counted from 0, that may lie behind the row's end.
    fn put_at(&mut self, place: usize, number: u64) -> Result<bool, AllocError>
        ensures put { IfOk result (λ is_put. (other : ℕ) → row_at self.new.first self.new.numbers.items other
            ≡ cond (is_put && other == self.old.first + place) (Some number) (row_at self.old.first self.old.numbers.items other)) }
        ensures far { IfOk result (λ is_put. is_put ≡ false
            → row_at self.old.first self.old.numbers.items (self.old.first + place) ≡ None) }
        ensures kept { OnErr result ((other : ℕ) → row_at self.new.first self.new.numbers.items other
            ≡ row_at self.old.first self.old.numbers.items other) }
    {
        let len = self.numbers.len();
        if place < len {
            self.numbers[place] = Some(number);
            return Ok(true);
        }
        if is_far(place, len) {
            return Ok(false);
        }
        self.numbers.resize(place, None)?;
        self.numbers.push(Some(number))?;
        Ok(true)
    }

    /// Takes the number out that stands under the key, if there is one.
    pub(crate) fn take(&mut self, key: u64) -> Option<u64>
        ensures was { result ≡ row_at self.old.first self.old.numbers.items key }
        ensures left { (other : ℕ) → row_at self.new.first self.new.numbers.items other
            ≡ cond (other == key) None (row_at self.old.first self.old.numbers.items other) }
    {
        let place = self.place_of(key)?;
        let number = self.numbers[place];
        self.numbers[place] = None;
        self.shorten();
        number
    }

    /// Drops the places without a number at the end.
    fn shorten(&mut self)
        ensures { (other : ℕ) → row_at self.new.first self.new.numbers.items other
            ≡ row_at self.old.first self.old.numbers.items other }
    {
        while let Some(None) = self.numbers.last() {
            self.numbers.pop();
        }
    }

    /// Takes all numbers out.
    pub(crate) fn clear(&mut self)
        ensures { self.new.numbers.items ≡ [] }
    {
        self.numbers.clear();
    }
}
