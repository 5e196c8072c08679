//! What searches found, kept by their numbers.

ghost use Rattle.std.specs.Prelude.{◌≡◌, ◌<◌, true, is_some, Ok, Err, None, IfOk, IfErr, OnOk, OnErr};
ghost use Rattle.std.specs.FinMap as map;
ghost use Rattle.node_tree.specs.Numbers.{drawn_before_nodes};
ghost use Rattle.dom_search.specs.declared.searches.SearchFault.TheVariants.{NoSearch};

use std::alloc::{AllocError, Global};
use std::collections::BTreeMap;
use std::marker::Model;

/// Why nothing is given of a search.
#[derive(Clone, Copy, Drop)]
pub enum SearchFault {
    /// No search with that number is kept.
    NoSearch,
    /// The range is empty or upside down, or ends behind what was found.
    SearchRange,
}

/// Serials in the order in which they were found.
#[derive(Drop)]
struct Serials {
    list: Vec<u64>,
}

impl Model for Serials {
    ghost use Rattle.std.specs.Prelude.{ℕ, List};
    ghost use Rattle.std.specs.Coded.{coded_ℕ, coded_list};

    ghost Value = { List ℕ };

    ghost coded = { coded_list coded_ℕ };

    ghost view = { λ s. s.list.items };
}

impl Serials {
    fn as_slice(&self) -> &[u64]
        ensures { result.now ≡ self.now }
    {
        self.list.as_slice()
    }
}

/// What searches found, by their numbers. A number is given once, from 1 on. Edits of the page change nothing here: a serial
/// stays where its node is gone.
#[derive(Drop)]
pub struct Searches {
    lists: BTreeMap<u64, Serials>,
    given: u64,
}

impl Model for Searches {
    ghost use Rattle.std.specs.Prelude.{◌<◌};
    ghost use Rattle.std.specs.FinMap as map;
    ghost use Rattle.node_tree.specs.Numbers.{drawn_before_nodes};
    ghost use Rattle.dom_search.specs.Searches.{Kept, coded_kept};

    ghost Value = { Kept };

    ghost coded = { coded_kept };

    ghost view = { λ s. record { lists = map.from_entries s.lists.entries; given = s.given } };

    ghost invariant = { λ s. s.given < drawn_before_nodes };
}

impl Searches {
    ghost use Rattle.dom_search.specs.Searches.{no_searches, next_search, with_search, without_search, forgotten, slice_of};

    /// No search is kept, and the first number is 1. Takes no memory.
    pub fn new(alloc: Global) -> Searches
        ensures { result ≡ no_searches }
    {
        Searches {
            lists: BTreeMap::new(alloc),
            given: 0,
        }
    }

    /// Keeps what a search found, and gives its number. After want of memory all is as before.
    pub fn keep(&mut self, serials: Vec<u64>) -> Result<u64, AllocError>
        requires { next_search self.old < drawn_before_nodes }
        ensures number { IfOk result (λ n. n ≡ next_search self.old) }
        ensures kept { OnOk result (self.new ≡ with_search serials.items self.old) }
        ensures same { OnErr result (self.new ≡ self.old) }
    {
        let search = self.given + 1;
        self.lists.insert(search, Serials { list: serials })?;
        self.given = search;
        Ok(search)
    }

    /// What a search found from the place `from` up to before the place `to`, counted from 0. `NoSearch` is tested first. Takes no
    /// memory.
    pub fn slice(&self, search: u64, from: u64, to: u64) -> Result<&[u64], SearchFault>
        ensures ok { IfOk result (λ s. slice_of search from to self.now ≡ Ok s.now) }
        ensures fault { IfErr result (λ f. slice_of search from to self.now ≡ Err f) }
    {
        let Some(serials) = self.lists.get(&search) else {
            return Err(SearchFault::NoSearch);
        };
        let serials = serials.as_slice();
        if from >= to {
            return Err(SearchFault::SearchRange);
        }
        if to > serials.len() as u64 {
            return Err(SearchFault::SearchRange);
        }
        Ok(&serials[from as usize..to as usize])
    }

    /// Forgets what a search found. Its number is never given again. A fault changes nothing. Takes no memory.
    pub fn discard(&mut self, search: u64) -> Result<(), SearchFault>
        ensures kept { OnOk result (self.new ≡ without_search search self.old) }
        ensures there { OnOk result (is_some (map.get self.old.lists search) ≡ true) }
        ensures same { OnErr result (self.new ≡ self.old) }
        ensures fault { IfErr result (λ f. (f ≡ NoSearch) × (map.get self.old.lists search ≡ None)) }
    {
        let Some(_list) = self.lists.remove(&search) else {
            return Err(SearchFault::NoSearch);
        };
        Ok(())
    }

    /// Forgets what all searches found. The numbers go on. Takes no memory.
    pub fn clear(&mut self)
        ensures { self.new ≡ forgotten self.old }
    {
        self.lists.clear();
    }

    /// The number that the next search gets.
    pub fn next(&self) -> u64
        ensures { result ≡ next_search self.now }
    {
        self.given + 1
    }
}
