ghost use Rattle.std.specs.Prelude.{◌≡◌, IsSome, OnOk, OnErr};
ghost use Rattle.std.specs.Ordering.{nat_cmp};
ghost use Rattle.std.specs.Coded.{coded_ℕ};
ghost use Rattle.std.specs.FinSet as set;
ghost use Rattle.page_tree.specs.Pages.{find_in};
ghost use Rattle.dom_breakpoints.specs.Watched.{outside};

use crate::climbing::is_within;
use page_tree::Page;
use std::alloc::{AllocError, Global};
use std::collections::BTreeSet;
use std::marker::Model;

/// A set of serials.
#[derive(Drop)]
pub struct SerialSet {
    serials: BTreeSet<u64>,
}

impl Model for SerialSet {
    ghost Value = { set.FinSet nat_cmp };

    ghost coded = { set.code coded_ℕ };

    ghost view = { λ a. set.from_list a.serials.keys };
}

impl SerialSet {
    /// The empty set; takes no memory.
    pub fn new(alloc: Global) -> SerialSet
        ensures { result ≡ set.empty }
    {
        SerialSet {
            serials: BTreeSet::new(alloc),
        }
    }

    /// The serial is in the set.
    pub fn contains(&self, serial: u64) -> bool
        ensures { result ≡ set.contains self.now serial }
    {
        self.serials.contains(&serial)
    }

    /// One that is there stays.
    pub fn insert(&mut self, serial: u64) -> Result<(), AllocError>
        ensures ok { OnOk result (self.new ≡ set.insert self.old serial) }
        ensures err { OnErr result (self.new ≡ self.old) }
    {
        self.serials.insert(serial)?;
        Ok(())
    }

    /// One that is not there changes nothing.
    pub fn remove(&mut self, serial: u64)
        ensures { self.new ≡ set.remove self.old serial }
    {
        self.serials.remove(&serial);
    }

    /// Forgets the nodes at and below the root.
    pub fn remove_within(&mut self, page: &Page, root: u64)
        requires { IsSome (find_in root page.now.tree) }
        ensures { self.new ≡ outside root page.now.tree self.old }
    {
        self.serials
            .retain(|serial| !is_within(page, *serial, root));
    }

    /// Takes all serials out.
    pub fn clear(&mut self)
        ensures { self.new ≡ set.empty }
    {
        self.serials.clear();
    }
}
