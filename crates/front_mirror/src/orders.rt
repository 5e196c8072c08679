// Ids in their order, cut into shelves, so that the place of one is found without a walk over all before it.
ghost use Rattle.std.specs.Prelude.{◌≡◌, true, ℕ, List, ◌+◌, ◌<◌, ◌≤◌, ◌++◌, [], cond, length, take, drop, Some, IfOk, OnOk, IfSome};
ghost use Rattle.std.specs.Prelude.{slice_get};
ghost use Rattle.std.specs.FinMap as map;
ghost use Rattle.node_tree.specs.Numbers.{number_limit};
ghost use Rattle.number_map.specs.Places.{number_place};
ghost use Rattle.client_views.specs.Views.{is_in};
ghost use Rattle.front_mirror.specs.Orders.{ids_in};
ghost use Rattle.front_mirror.specs.Walks.{spliced};

use crate::sizes::forget;
use number_map::NumberMap;
use std::alloc::{AllocError, Global};
use std::marker::Model;
use std::mem;

/// How many ids a shelf has at most.
const MOST_IDS: usize = 256;

/// How many ids a shelf has that is cut off a longer one.
const CUT_IDS: usize = 128;

/// The ids of a shelf: so few that one is looked for from the front.
#[derive(Drop)]
pub(crate) struct IdList {
    ids: Vec<u64>,
}

impl Model for IdList {
    ghost use Rattle.std.specs.Prelude.{ℕ, List};

    ghost Value = { List ℕ };

    ghost view = { λ l. l.ids.items };
}

impl IdList {
    /// These ids.
    fn of(alloc: Global, ids: &[u64]) -> Result<IdList, AllocError>
        ensures { IfOk result (λ list. list ≡ ids.now) }
    {
        let mut list = Vec::with_capacity(alloc, ids.len())?;
        list.extend_from_slice(ids)?;
        Ok(IdList { ids: list })
    }

    /// The ids in their order.
    fn as_slice(&self) -> &[u64]
        ensures { result.now ≡ self.now }
    {
        self.ids.as_slice()
    }

    /// How many ids they are.
    fn len(&self) -> usize
        ensures { result ≡ length self.now }
    {
        self.ids.len()
    }

    /// The place of the first that is the id, and else the number of them.
    fn place(&self, id: u64) -> usize
        ensures { result ≡ number_place id self.now }
    {
        let ids = self.as_slice();
        for i in 0..ids.len() {
            if ids[i] == id {
                return i;
            }
        }
        ids.len()
    }
}

/// Ids that follow one another, under a number that no other shelf has.
#[derive(Drop)]
pub(crate) struct Shelf {
    number: u64,
    pub(crate) ids: IdList,
}

/// Notes for these ids that they stand in the shelf of that number.
fn note_in(numbers: &mut NumberMap, ids: &[u64], number: u64) -> Result<(), AllocError>
    ensures { OnOk result ((k : ℕ) → map.get numbers.new k ≡ cond (is_in k ids.now) (Some number) (map.get numbers.old k)) }
{
    for id in ids {
        numbers.insert(*id, number)?;
    }
    Ok(())
}

/// The first ids, so many of them.
fn ids_before(ids: &[u64], place: usize) -> &[u64]
    requires { place ≤ length ids.now }
    ensures { result.now ≡ take place ids.now }
{
    &ids[..place]
}

/// The ids behind the first ones.
fn ids_behind(ids: &[u64], place: usize) -> &[u64]
    requires { place ≤ length ids.now }
    ensures { result.now ≡ drop place ids.now }
{
    &ids[place..]
}

/// Whether no id comes, and none leaves.
fn stays(gone: usize, new: &[u64]) -> bool
    ensures { result ≡ true → (place : ℕ) (ids : List ℕ) → ids ≡ spliced place gone new.now ids }
{
    if gone == 0 {
        return new.is_empty();
    }
    false
}

/// Shelves one behind the other, and for each id the number of the shelf in which it is looked for first.
#[derive(Drop)]
pub(crate) struct Shelves {
    pub(crate) items: Vec<Shelf>,
    numbers: NumberMap,
    last: u64,
}

impl Shelves {
    fn new(alloc: Global) -> Shelves
        ensures { result.items.items ≡ [] }
    {
        Shelves {
            items: Vec::new(alloc),
            numbers: NumberMap::new(alloc),
            last: 0,
        }
    }

    /// A number that no shelf has.
    fn next_number(&mut self) -> u64
        ensures { self.new.items.items ≡ self.old.items.items }
    {
        self.last = self.last.saturating_add(1);
        self.last
    }

    /// The number of that shelf, or one that none has.
    fn number_at(&mut self, start: usize) -> u64
        ensures { self.new.items.items ≡ self.old.items.items }
    {
        if start < self.items.len() {
            return self.items[start].number;
        }
        self.next_number()
    }

    /// The first shelf within which a place lies or at which it ends, and how many of its ids stand before the place.
    fn shelf_at(&self, place: usize) -> (usize, usize)
        requires inside { place ≤ length (ids_in self.now.items.items) }
        ensures known { result.0 ≤ length self.now.items.items }
        ensures before { length (ids_in (take result.0 self.now.items.items)) + result.1 ≡ place }
    {
        let mut left = place;
        for i in 0..self.items.len() {
            let len = self.items[i].ids.len();
            if left <= len {
                return (i, left);
            }
            left -= len;
        }
        (self.items.len(), left)
    }

    /// Takes out shelves from that one on, at least one, if there is one, and so many that they have as many ids as are wanted.
    fn take_out(
        &mut self,
        alloc: Global,
        start: usize,
        number: u64,
        wanted: usize,
    ) -> Result<Vec<u64>, AllocError>
        requires known { start ≤ length self.old.items.items }
        requires there { length (ids_in (take start self.old.items.items)) + wanted ≤ length (ids_in self.old.items.items) }
        ensures known { OnOk result (start ≤ length self.new.items.items) }
        ensures front { OnOk result (take start self.new.items.items ≡ take start self.old.items.items) }
        ensures rest { IfOk result (λ ids. ids.items ++ ids_in (drop start self.new.items.items)
            ≡ ids_in (drop start self.old.items.items)) }
        ensures enough { IfOk result (λ ids. wanted ≤ length ids.items) }
    {
        let mut ids = Vec::new(alloc);
        while start < self.items.len() {
            let shelf = self.items.remove(start);
            let more = shelf.ids.as_slice();
            if shelf.number != number {
                note_in(&mut self.numbers, more, number)?;
            }
            ids.extend_from_slice(more)?;
            if ids.len() >= wanted {
                return Ok(ids);
            }
        }
        Ok(ids)
    }

    /// Puts in a shelf of these ids before another.
    fn put_shelf(
        &mut self,
        alloc: Global,
        start: usize,
        number: u64,
        ids: &[u64],
    ) -> Result<(), AllocError>
        requires known { start ≤ length self.old.items.items }
        ensures known { OnOk result (start ≤ length self.new.items.items) }
        ensures front { OnOk result (take start self.new.items.items ≡ take start self.old.items.items) }
        ensures rest { OnOk result (ids_in (drop start self.new.items.items) ≡ ids.now ++ ids_in (drop start self.old.items.items)) }
    {
        let ids = IdList::of(alloc, ids)?;
        self.items.insert(start, Shelf { number, ids })?;
        Ok(())
    }

    /// Puts in ids before a shelf, under that number, and what is too many for one shelf under others.
    fn put_in(
        &mut self,
        alloc: Global,
        start: usize,
        number: u64,
        mut ids: Vec<u64>,
    ) -> Result<(), AllocError>
        requires known { start ≤ length self.old.items.items }
        ensures front { OnOk result (take start self.new.items.items ≡ take start self.old.items.items) }
        ensures rest { OnOk result (ids_in (drop start self.new.items.items) ≡ ids.items ++ ids_in (drop start self.old.items.items)) }
    {
        while ids.len() > MOST_IDS {
            let cut = ids.len() - CUT_IDS;
            let other = self.next_number();
            let more = ids_behind(&ids, cut);
            note_in(&mut self.numbers, more, other)?;
            self.put_shelf(alloc, start, other, more)?;
            ids.truncate(cut);
        }
        if ids.is_empty() {
            return Ok(());
        }
        self.put_shelf(alloc, start, number, ids.as_slice())?;
        Ok(())
    }

    /// Puts ids in place of so many others behind the first ones.
    fn splice(
        &mut self,
        alloc: Global,
        place: usize,
        gone: usize,
        new: &[u64],
    ) -> Result<(), AllocError>
        requires there { place + gone ≤ length (ids_in self.old.items.items) }
        requires few { length (ids_in self.old.items.items) < number_limit }
        ensures { OnOk result (ids_in self.new.items.items ≡ spliced place gone new.now (ids_in self.old.items.items)) }
    {
        let (start, front) = self.shelf_at(place);
        let number = self.number_at(start);
        let old = self.take_out(alloc, start, number, front + gone)?;
        forget(&mut self.numbers, &old[front..front + gone]);
        note_in(&mut self.numbers, new, number)?;
        let mut ids = Vec::new(alloc);
        ids.extend_from_slice(ids_before(&old, front))?;
        ids.extend_from_slice(new)?;
        ids.extend_from_slice(ids_behind(&old, front + gone))?;
        self.put_in(alloc, start, number, ids)?;
        Ok(())
    }

    /// A place where the id stands, looked for in the shelf whose number is noted for it.
    fn noted_place(&self, id: u64) -> Option<usize>
        requires few { length (ids_in self.now.items.items) < number_limit }
        ensures { IfSome result (λ i. slice_get (ids_in self.now.items.items) i ≡ Some id) }
    {
        let number = self.numbers.get(id)?;
        let mut before = 0;
        for i in 0..self.items.len() {
            let shelf = &self.items[i];
            let len = shelf.ids.len();
            if shelf.number == number {
                let place = shelf.ids.place(id);
                if place < len {
                    return Some(before + place);
                }
                return None;
            }
            before += len;
        }
        None
    }

    /// The place of the first that is the id, and else the number of them.
    fn first_place(&self, id: u64) -> usize
        requires few { length (ids_in self.now.items.items) < number_limit }
        ensures { result ≡ number_place id (ids_in self.now.items.items) }
    {
        let mut before = 0;
        for i in 0..self.items.len() {
            let shelf = &self.items[i];
            let len = shelf.ids.len();
            let place = shelf.ids.place(id);
            if place < len {
                return before + place;
            }
            before += len;
        }
        before
    }
}

/// A list of ids in which an id is found, and some give way to others, in about as many steps as its length has a square root.
#[derive(Drop)]
pub(crate) struct Order {
    shelves: Shelves,
    len: usize,
}

impl Model for Order {
    ghost use Rattle.std.specs.Prelude.{◌≡◌, ℕ, List, length};
    ghost use Rattle.front_mirror.specs.Orders.{ids_in};

    ghost Value = { List ℕ };

    ghost view = { λ o. ids_in o.shelves.items.items };

    ghost invariant = { λ o. o.len ≡ length (ids_in o.shelves.items.items) };
}

impl Order {
    /// No ids.
    pub(crate) fn new(alloc: Global) -> Order
        ensures { result ≡ [] }
    {
        Order {
            shelves: Shelves::new(alloc),
            len: 0,
        }
    }

    /// These ids.
    pub(crate) fn of(alloc: Global, ids: &[u64]) -> Result<Order, AllocError>
        ensures { IfOk result (λ order. order ≡ ids.now) }
    {
        let mut order = Order::new(alloc);
        order.splice(alloc, 0, 0, ids)?;
        Ok(order)
    }

    /// How many ids they are.
    pub(crate) fn len(&self) -> usize
        ensures { result ≡ length self.now }
    {
        self.len
    }

    /// A place where the id stands, if it stands anywhere.
    pub(crate) fn place_of(&self, id: u64) -> usize
        ensures there { (i : ℕ) → slice_get self.now i ≡ Some id → slice_get self.now result ≡ Some id }
    {
        let _len = self.len;
        if let Some(place) = self.shelves.noted_place(id) {
            return place;
        }
        self.shelves.first_place(id)
    }

    /// Puts ids in place of so many others behind the first ones. After want of memory there are none.
    pub(crate) fn splice(
        &mut self,
        alloc: Global,
        place: usize,
        gone: usize,
        new: &[u64],
    ) -> Result<(), AllocError>
        requires { place + gone ≤ length self.old }
        ensures { OnOk result (self.new ≡ spliced place gone new.now self.old) }
    {
        if stays(gone, new) {
            return Ok(());
        }
        let Order { mut shelves, len } = mem::replace(self, Order::new(alloc));
        let len = (len - gone).checked_add(new.len()).ok_or(AllocError)?;
        shelves.splice(alloc, place, gone, new)?;
        *self = Order { shelves, len };
        Ok(())
    }
}
