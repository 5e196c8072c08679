//! What a search to the left tells.

ghost use Rattle.std.specs.Prelude.{◌≡◌};

/// How a search to the left of an element ends. Where it fails, the outcome says of which other nodes it would fail too, so
/// that the combinators further right need not try them, and the whole search is not exponential.
#[derive(Clone, Copy)]
pub enum Outcome {
    Found,
    /// Nothing is known of other nodes.
    NotHere,
    /// It fails at each earlier sibling too.
    NotBeside,
    /// It fails at each earlier sibling, at each ancestor and at each earlier sibling of these too.
    Nowhere,
}

impl Outcome {
    ghost use Rattle.select_match.specs.Outcomes.{ends_above, ends_before, at_child};

    /// Whether a search among ancestors ends with this outcome at one of them.
    pub fn ends_above(self) -> bool
        ensures { result ≡ ends_above self }
    {
        match self {
            Outcome::Found | Outcome::Nowhere => true,
            Outcome::NotHere | Outcome::NotBeside => false,
        }
    }

    /// Whether a search among the siblings before ends with this outcome at one of them.
    pub fn ends_before(self) -> bool
        ensures { result ≡ ends_before self }
    {
        match self {
            Outcome::Found | Outcome::NotBeside | Outcome::Nowhere => true,
            Outcome::NotHere => false,
        }
    }

    /// What the outcome at the parent is for its children.
    pub fn at_child(self) -> Outcome
        ensures { result ≡ at_child self }
    {
        match self {
            Outcome::NotHere => Outcome::NotBeside,
            Outcome::Found | Outcome::NotBeside | Outcome::Nowhere => self,
        }
    }
}
