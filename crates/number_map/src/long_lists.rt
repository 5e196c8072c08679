// A long list of numbers: in shelves, with a seat for each number.
ghost use Rattle.std.specs.Prelude.{◌≡◌, ◌<◌, ◌≤◌, ℕ, List, ◌∷◌, length, slice_get, Some, is_some, IfOk, IfSome, OnOk, OnErr};
ghost use Rattle.std.specs.FinMap as map;
ghost use Rattle.std.specs.List.{insert, remove};
ghost use Rattle.number_map.specs.Places.{number_place, HasSeats};

use crate::maps::NumberMap;
use crate::shelves::{FIRST_SERIAL, Shelves};
use std::alloc::{AllocError, Global};
use std::marker::Model;

/// For so many seats a number there is room at most in the row of their map.
const MOST_ROOM: usize = 2;

/// A list of numbers in shelves, which knows in which of them each number stands.
///
/// A number has a seat: the serial of the shelf in which it is looked for first, and where it does stand unless memory was
/// wanted. Without seats, since a number stood twice, all shelves are looked through. None of this is a clause.
#[derive(Drop)]
pub(crate) struct LongList {
    alloc: Global,
    shelves: Shelves,
    seats: Option<NumberMap>,
}

impl Model for LongList {
    ghost use Rattle.std.specs.Prelude.{ℕ, List, IfSome};
    ghost use Rattle.number_map.specs.Places.{HasSeats};
    ghost use Rattle.number_map.specs.Shelves.{numbers_in, Counted};

    ghost Value = { List ℕ };

    ghost view = { λ a. numbers_in a.shelves.items.items };

    ghost invariant = { λ a. Counted a.shelves × IfSome a.seats (λ seats. HasSeats seats (numbers_in a.shelves.items.items)) };
}

impl LongList {
    /// These numbers.
    pub(crate) fn of(alloc: Global, numbers: &[u64]) -> Result<LongList, AllocError>
        ensures { IfOk result (λ list. list ≡ numbers.now) }
    {
        Ok(LongList {
            alloc,
            shelves: Shelves::of(alloc, numbers)?,
            seats: seats_of(alloc, numbers)?,
        })
    }

    /// How many numbers there are.
    pub(crate) fn len(&self) -> usize
        ensures { result ≡ length self.now }
    {
        self.shelves.len
    }

    /// The number at place `i`, counted from 0.
    pub(crate) fn at(&self, i: usize) -> u64
        requires { i < length self.now }
        ensures { slice_get self.now i ≡ Some result }
    {
        self.shelves.at(i)
    }

    /// The place of the first that is the number, and else how many there are.
    pub(crate) fn place(&self, number: u64) -> usize
        ensures { result ≡ number_place number self.now }
    {
        let Some(seats) = &self.seats else {
            return self.shelves.place(number);
        };
        let Some(serial) = seats.get(number) else {
            return self.shelves.len;
        };
        match self.shelves.place_in(serial, number) {
            Some(place) => place,
            None => self.shelves.place(number),
        }
    }

    /// Puts a number before the one at place `i`, or last.
    pub(crate) fn insert(&mut self, i: usize, number: u64) -> Result<(), AllocError>
        requires { i ≤ length self.old }
        ensures ok { OnOk result (self.new ≡ insert self.old i number) }
        ensures err { OnErr result (self.new ≡ self.old) }
    {
        seat_new(&mut self.seats, number, self.shelves.serial_at(i))?;
        let cut = self.shelves.insert(self.alloc, i, number)?;
        seat_moved(&mut self.seats, &self.shelves, cut);
        Ok(())
    }

    /// Takes the number at place `i` out.
    pub(crate) fn remove(&mut self, i: usize)
        requires { i < length self.old }
        ensures { self.new ≡ remove self.old i }
    {
        let number = self.shelves.take(i);
        unseat(&mut self.seats, number);
    }
}

/// Gives a number that is to come its seat. Where it stands in the list, or may, the seats go, as a number has one seat.
fn seat_new(seats: &mut Option<NumberMap>, number: u64, serial: u64) -> Result<(), AllocError>
    ensures ok { OnOk result ((ks : List ℕ) → IfSome seats.old (λ s. HasSeats s ks) → IfSome seats.new (λ s. HasSeats s (number ∷ ks))) }
    ensures err { OnErr result ((ks : List ℕ) → IfSome seats.old (λ s. HasSeats s ks) → IfSome seats.new (λ s. HasSeats s ks)) }
{
    if has_seat(seats, number) {
        *seats = None;
        return Ok(());
    }
    if let Some(seated) = seats {
        seated.insert(number, serial)?;
    }
    Ok(())
}

/// Whether there are seats, and the number has one.
fn has_seat(seats: &Option<NumberMap>, number: u64) -> bool
    ensures { IfSome seats.now (λ s. result ≡ is_some (map.get s number)) }
{
    match seats {
        None => false,
        Some(seated) => seated.get(number).is_some(),
    }
}

/// Takes the seat of a number that was taken out.
fn unseat(seats: &mut Option<NumberMap>, number: u64)
    ensures { (ks : List ℕ) → IfSome seats.old (λ s. HasSeats s (number ∷ ks)) → IfSome seats.new (λ s. HasSeats s ks) }
{
    if let Some(seated) = seats {
        seated.remove(number);
    }
}

/// Gives the numbers of a shelf that was cut off another, if one was, their new seats. Without memory for it they keep the old.
fn seat_moved(seats: &mut Option<NumberMap>, shelves: &Shelves, cut: Option<usize>)
    ensures { (ks : List ℕ) → IfSome seats.old (λ s. HasSeats s ks) → IfSome seats.new (λ s. HasSeats s ks) }
{
    let Some(k) = cut else {
        return;
    };
    let Some(shelf) = shelves.items.get(k) else {
        return;
    };
    if let Some(seated) = seats {
        seat_all(seated, shelf.numbers.as_slice(), shelf.serial);
    }
}

/// Gives all these numbers that seat. Without memory for it some keep another, or none.
fn seat_all(seats: &mut NumberMap, numbers: &[u64], serial: u64)
    ensures { (ks : List ℕ) → HasSeats seats.old ks → HasSeats seats.new ks }
{
    for i in 0..numbers.len() {
        let _ = seats.insert(numbers[i], serial);
    }
}

/// The seats of these numbers, all in the first shelf, unless one stands twice.
fn seats_of(alloc: Global, numbers: &[u64]) -> Result<Option<NumberMap>, AllocError>
    ensures { IfOk result (λ seats. IfSome seats (λ s. HasSeats s numbers.now)) }
{
    let mut seats = room_for(alloc, numbers)?;
    for i in 0..numbers.len() {
        let number = numbers[i];
        if seats.get(number).is_some() {
            return Ok(None);
        }
        seats.insert(number, FIRST_SERIAL)?;
    }
    Ok(Some(seats))
}

/// A map for the seats of these numbers, without keys yet: its row begins at the least, and reaches to the greatest where that
/// takes no more room than it may.
fn room_for(alloc: Global, numbers: &[u64]) -> Result<NumberMap, AllocError>
    ensures { IfOk result (λ places. places ≡ map.empty) }
{
    let (least, greatest) = ends(numbers);
    let span = (greatest.saturating_sub(least) as usize).saturating_add(1);
    let places = NumberMap::spanning(
        alloc,
        least,
        span.min(numbers.len().saturating_mul(MOST_ROOM)),
    )?;
    Ok(places)
}

/// The least and the greatest of the numbers.
fn ends(numbers: &[u64]) -> (u64, u64) {
    let mut least = u64::MAX;
    let mut greatest = 0;
    for i in 0..numbers.len() {
        least = least.min(numbers[i]);
        greatest = greatest.max(numbers[i]);
    }
    (least, greatest)
}
