//! Selectors as they are read.

ghost use Rattle.std.specs.Prelude.{◌≡◌};
ghost use Rattle.selectors.specs.Lists.{moved_range, CanMove};
ghost use Rattle.selectors.specs.Moves.{cut, moved_place, placed_range, CanPlace, CanPlaceRange};

use css_tokens::Range;
use node_tree::Text;
use std::alloc::AllocError;
use thiserror::Error;

#[derive(Clone, Copy, Debug, Error)]
pub enum SelErr {
    #[error("the text spells no selector list")]
    Invalid,
    #[error("out of memory")]
    Memory,
}

impl From<AllocError> for SelErr {
    ghost use Rattle.std.specs.Prelude.{◌≡◌};
    ghost use Rattle.selectors.specs.declared.selector.SelErr.TheVariants.{Memory};

    ghost from_gives = { λ _ e. e ≡ Memory };

    fn from(_: AllocError) -> SelErr {
        SelErr::Memory
    }
}

/// What ties a compound to the one on its left (Selectors 3, section 8).
#[derive(Clone, Copy)]
pub enum Joint {
    /// White space. The first compound of a selector has this joint too.
    Descendant,
    /// `>`
    Child,
    /// `+`
    Next,
    /// `~`
    Later,
}

/// How an attribute selector compares (Selectors 3, section 6.3).
#[derive(Clone, Copy, Debug)]
pub enum AttrOp {
    /// No operator: the attribute is there.
    Exists,
    /// `=`
    Equal,
    /// `~=`
    Word,
    /// `|=`
    Dash,
    /// `^=`
    Prefix,
    /// `$=`
    Suffix,
    /// `*=`
    Part,
}

/// Which siblings are counted, and from where (Selectors 3, section 6.6.5).
#[derive(Clone, Copy, Debug)]
pub enum NthKind {
    Child,
    LastChild,
    OfType,
    LastOfType,
}

/// What a simple selector asks of an element. Names and operands are values: escapes are read.
#[derive(Drop)]
pub enum Test {
    /// `*`
    Any,
    Tag(Text),
    Id(Text),
    Class(Text),
    Attr {
        name: Text,
        op: AttrOp,
        /// Empty for `Exists`.
        operand: Text,
    },
    Root,
    Empty,
    /// The places `step * n + offset` among the siblings, for n from 0, counted from 1. `:first-child` and its like have
    /// step 0 and offset 1.
    Nth {
        kind: NthKind,
        step: i64,
        offset: i64,
    },
    OnlyChild,
    OnlyOfType,
    /// A pseudo-class that no element here meets, as `:hover` and `:lang`.
    Never,
}

#[derive(Drop)]
pub enum Simple {
    Is(Test),
    /// `:not`
    Not(Test),
}

#[derive(Drop)]
pub struct Compound {
    pub joint: Joint,
    /// From left to right. Empty where a pseudo-element stands alone.
    pub tests: Vec<Simple>,
}

#[derive(Drop)]
pub struct Selector {
    /// From left to right.
    pub compounds: Vec<Compound>,
    /// Whether the last compound ends in a pseudo-element.
    pub pseudo_element: bool,
    /// From the first to the last piece that is neither white space nor comment.
    pub range: Range,
}

/// One or more selectors, in the order of their text.
#[derive(Drop)]
pub struct SelectorList {
    pub(crate) list: Vec<Selector>,
}

impl SelectorList {
    ghost use Rattle.std.specs.Prelude.{◌≡◌, ◌<◌, All, length, map, Some, slice_get};
    ghost use Rattle.selectors.specs.Forms.{selector_seen};
    ghost use Rattle.selectors.specs.Lists.{list_seen, moved_selector, CanMove};
    ghost use Rattle.selectors.specs.Moves.{cut, moved_place, placed_selector, placed_range, CanPlace, CanPlaceRange};

    /// How many selectors the list has.
    pub fn len(&self) -> usize
        ensures { result ≡ length (list_seen self.now) }
    {
        self.list.len()
    }

    /// The selector at this place, from 0.
    pub fn at(&self, i: usize) -> &Selector
        requires { i < length (list_seen self.now) }
        ensures { slice_get (list_seen self.now) i ≡ Some (selector_seen result.now) }
    {
        &self.list[i]
    }

    /// Moves every range from base `from` to base `to`, as where the text that was read becomes part of a longer one.
    /// Takes no memory.
    pub fn shift(self, from: usize, to: usize) -> SelectorList
        requires { All (λ s. CanMove from to s.range) (list_seen self) }
        ensures { list_seen result ≡ map (moved_selector from to) (list_seen self) }
    {
        let SelectorList { mut list } = self;
        for selector in list.iter_mut() {
            selector.range = moved(selector.range, from, to);
        }
        SelectorList { list }
    }

    /// Moves the ends of all ranges as the places of a text are moved of which the bytes from `start` up to `end` make way for
    /// `size` others. Takes no memory.
    pub fn move_behind(&mut self, start: usize, end: usize, size: usize)
        requires { All (λ s. CanPlaceRange (cut start end size) s.range) (list_seen self.old) }
        ensures moved { list_seen self.new ≡ map (placed_selector (moved_place (cut start end size))) (list_seen self.old) }
    {
        for selector in self.list.iter_mut() {
            selector.range = move_range(selector.range, start, end, size);
        }
    }
}

/// The place where a place comes to lie, where the bytes from `start` up to `end` make way for `size` others.
pub fn move_place(place: usize, start: usize, end: usize, size: usize) -> usize
    requires { CanPlace (cut start end size) place }
    ensures moved { result ≡ moved_place (cut start end size) place }
{
    if place <= start {
        place
    } else {
        place - end + start + size
    }
}

/// A range with both of its ends moved so.
pub fn move_range(range: Range, start: usize, end: usize, size: usize) -> Range
    requires { CanPlaceRange (cut start end size) range }
    ensures moved { result ≡ placed_range (moved_place (cut start end size)) range }
{
    Range {
        start: move_place(range.start, start, end, size),
        end: move_place(range.end, start, end, size),
    }
}

fn moved(range: Range, from: usize, to: usize) -> Range
    requires { CanMove from to range }
    ensures { result ≡ moved_range from to range }
{
    Range {
        start: range.start - from + to,
        end: range.end - from + to,
    }
}
