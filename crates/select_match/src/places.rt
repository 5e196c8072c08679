//! The places of an element among its siblings.

ghost use Rattle.std.specs.Prelude.{◌≡◌, Some, None};
ghost use Rattle.selectors.specs.declared.selector.NthKind.{NthKind};
ghost use Rattle.select_match.specs.Subjects.{element_place, place_known, with_place};

use selectors::NthKind;

/// The four places of an element among its siblings, each counted from 1 (Selectors 3, section 6.6.5).
#[derive(Clone, Copy, Drop)]
pub struct ElementPlaces {
    pub child: u64,
    pub last_child: u64,
    pub of_type: u64,
    pub last_of_type: u64,
}

/// Those of the four places that have been counted.
#[derive(Clone, Copy, Drop)]
pub struct KnownPlaces {
    pub child: Option<u64>,
    pub last_child: Option<u64>,
    pub of_type: Option<u64>,
    pub last_of_type: Option<u64>,
}

impl KnownPlaces {
    /// None yet.
    pub fn new() -> KnownPlaces
        ensures { (kind : NthKind) → place_known kind result ≡ None }
    {
        KnownPlaces {
            child: None,
            last_child: None,
            of_type: None,
            last_of_type: None,
        }
    }

    /// All four.
    pub fn of(places: ElementPlaces) -> KnownPlaces
        ensures { (kind : NthKind) → place_known kind result ≡ Some (element_place kind places) }
    {
        KnownPlaces {
            child: Some(places.child),
            last_child: Some(places.last_child),
            of_type: Some(places.of_type),
            last_of_type: Some(places.last_of_type),
        }
    }

    /// Those among all elements.
    pub fn of_child(child: u64, last_child: u64) -> KnownPlaces
        ensures { result ≡ record { child = Some child; last_child = Some last_child; of_type = None; last_of_type = None } }
    {
        KnownPlaces {
            child: Some(child),
            last_child: Some(last_child),
            of_type: None,
            last_of_type: None,
        }
    }

    /// The place that was counted, if one was: from 1.
    pub fn place(&self, kind: NthKind) -> Option<u64>
        ensures { result ≡ place_known kind self.now }
    {
        match kind {
            NthKind::Child => self.child,
            NthKind::LastChild => self.last_child,
            NthKind::OfType => self.of_type,
            NthKind::LastOfType => self.last_of_type,
        }
    }

    /// Keeps a place that was counted.
    pub fn set_place(&mut self, kind: NthKind, place: u64)
        ensures { self.new ≡ with_place kind place self.old }
    {
        match kind {
            NthKind::Child => self.child = Some(place),
            NthKind::LastChild => self.last_child = Some(place),
            NthKind::OfType => self.of_type = Some(place),
            NthKind::LastOfType => self.last_of_type = Some(place),
        }
    }
}
