//! The lists of a sheet. Each is made from a `Vec` and gives it back without taking memory.

ghost use Rattle.std.specs.Prelude.{◌≡◌, ◌<◌, ◌+◌, ◌++◌, ◌∷◌, [], All, length, map, slice_get, IfSome, OnOk};
ghost use Rattle.node_tree.specs.Numbers.{number_limit};
ghost use Rattle.selectors.specs.Moves.{cut, moved_place, CanPlace};
ghost use Rattle.sheet_reader.specs.Filings.{rule_digest, AreDigests};
ghost use Rattle.sheet_reader.specs.Forms.{rule_seen};
ghost use Rattle.sheet_reader.specs.Moves.{placed_property, placed_media, CanPlaceProperty, CanPlaceMedia, IsPropertyWithin};

use crate::filings::list_digest;
use crate::moves::{Gap, move_media, move_places, move_properties, raise_properties};
use crate::sheet::{MediaRule, Property, StyleRule};
use std::alloc::AllocError;
use std::marker::Model;
use std::mem::replace;

/// The declarations of a body, in the order of the text.
#[derive(Drop)]
pub struct Properties {
    properties: Vec<Property>,
}

impl Model for Properties {
    ghost use Rattle.std.specs.Prelude.{List};
    ghost use Rattle.sheet_reader.specs.declared.sheet.Property.{Property};

    ghost Value = { List Property };

    ghost view = { λ l. l.properties.items };
}

impl Properties {
    /// The declarations, in their order.
    pub fn new(properties: Vec<Property>) -> Properties
        ensures { result ≡ properties.items }
    {
        Properties { properties }
    }

    /// The declarations, in their order.
    pub fn as_slice(&self) -> &[Property]
        ensures { result.now ≡ self.now }
    {
        self.properties.as_slice()
    }

    /// Gives the declarations back.
    pub fn into_vec(self) -> Vec<Property>
        ensures { result.items ≡ self }
    {
        self.properties
    }

    /// How many there are.
    pub fn len(&self) -> usize
        ensures { result ≡ length self.now }
    {
        self.properties.len()
    }

    /// Moves all their ranges. Takes no memory.
    pub(crate) fn move_behind(&mut self, gap: Gap)
        requires { All (CanPlaceProperty (cut gap.start gap.end gap.size)) self.old }
        ensures moved { self.new ≡ map (placed_property (moved_place (cut gap.start gap.end gap.size))) self.old }
    {
        move_properties(&mut self.properties, gap);
    }

    /// The declarations with their ranges further back. Takes no memory.
    pub(crate) fn raised(self, start: usize, size: usize) -> Properties
        requires within { All (IsPropertyWithin size) self }
        requires fits { start + size < number_limit }
        ensures { result ≡ map (placed_property (λ place. start + place)) self }
    {
        let mut properties = self.properties;
        raise_properties(&mut properties, start, size);
        Properties { properties }
    }
}

/// The style rules of a sheet, in the order of the text. Contracts see these alone: for the first of them, mostly for all, the
/// numbers of what they are filed under are kept too.
#[derive(Drop)]
pub struct StyleRules {
    rules: Vec<StyleRule>,
    digests: Vec<Option<u32>>,
}

impl Model for StyleRules {
    ghost use Rattle.std.specs.Prelude.{List, map};
    ghost use Rattle.sheet_reader.specs.Forms.{RuleForm, rule_seen};
    ghost use Rattle.sheet_reader.specs.Filings.{AreDigests};

    ghost Value = { List RuleForm };

    ghost view = { λ l. map rule_seen l.rules.items };

    ghost invariant = { λ l. AreDigests l.digests.items (map rule_seen l.rules.items) };
}

impl StyleRules {
    /// The rules, in their order.
    pub fn new(rules: Vec<StyleRule>) -> StyleRules
        ensures { result ≡ map rule_seen rules.items }
    {
        let digests = Vec::new(*rules.allocator());
        StyleRules { rules, digests }
    }

    /// Rules of which numbers are known.
    pub(crate) fn with_digests(rules: Vec<StyleRule>, digests: Vec<Option<u32>>) -> StyleRules
        requires { AreDigests digests.items (map rule_seen rules.items) }
        ensures { result ≡ map rule_seen rules.items }
    {
        StyleRules { rules, digests }
    }

    /// The numbers that are kept, which are kept no longer. Takes no memory.
    pub(crate) fn take_digests(&mut self) -> Vec<Option<u32>>
        ensures digests { AreDigests result.items self.old }
        ensures same { self.new ≡ self.old }
    {
        let none = Vec::new(*self.digests.allocator());
        replace(&mut self.digests, none)
    }

    pub(crate) fn push(&mut self, rule: StyleRule) -> Result<(), AllocError>
        ensures { OnOk result (self.new ≡ self.old ++ rule_seen rule ∷ []) }
    {
        let digest = list_digest(&rule.selectors);
        let are_kept = self.digests.len() == self.rules.len();
        self.rules.push(rule)?;
        if are_kept {
            self.digests.push(digest)?;
        }
        Ok(())
    }

    /// The rules, in their order.
    pub fn as_slice(&self) -> &[StyleRule]
        ensures { map rule_seen result.now ≡ self.now }
    {
        self.rules.as_slice()
    }

    /// Gives the rules back.
    pub fn into_vec(self) -> Vec<StyleRule>
        ensures { map rule_seen result.items ≡ self }
    {
        self.rules
    }

    /// How many there are.
    pub fn len(&self) -> usize
        ensures { result ≡ length self.now }
    {
        self.rules.len()
    }

    /// The number of what all selectors of the rule at place `i`, from 0, are filed under, if they have one in common. It is looked
    /// up, but where a rule was put in or its selectors were changed, for the rules from there on.
    pub fn digest_at(&self, i: usize) -> Option<u32>
        requires { i < length self.now }
        ensures { IfSome (slice_get self.now i) (λ r. result ≡ rule_digest r) }
    {
        match self.digests.get(i) {
            Some(digest) => *digest,
            None => list_digest(&self.rules[i].selectors),
        }
    }
}

/// Places in a text, in bytes.
#[derive(Drop)]
pub struct Places {
    places: Vec<usize>,
}

impl Model for Places {
    ghost use Rattle.std.specs.Prelude.{ℕ, List};

    ghost Value = { List ℕ };

    ghost view = { λ l. l.places.items };
}

impl Places {
    /// The places, in bytes, in their order.
    pub fn new(places: Vec<usize>) -> Places
        ensures { result ≡ places.items }
    {
        Places { places }
    }

    pub(crate) fn push(&mut self, place: usize) -> Result<(), AllocError>
        ensures { OnOk result (self.new ≡ self.old ++ place ∷ []) }
    {
        self.places.push(place)?;
        Ok(())
    }

    /// The places, in bytes, in their order.
    pub fn as_slice(&self) -> &[usize]
        ensures { result.now ≡ self.now }
    {
        self.places.as_slice()
    }

    /// Gives the places, in bytes back.
    pub fn into_vec(self) -> Vec<usize>
        ensures { result.items ≡ self }
    {
        self.places
    }

    /// Moves them all. Takes no memory.
    pub(crate) fn move_behind(&mut self, gap: Gap)
        requires { All (CanPlace (cut gap.start gap.end gap.size)) self.old }
        ensures moved { self.new ≡ map (moved_place (cut gap.start gap.end gap.size)) self.old }
    {
        move_places(&mut self.places, gap);
    }
}

/// The media rules of a sheet, in the order of the text.
#[derive(Drop)]
pub struct MediaRules {
    rules: Vec<MediaRule>,
}

impl Model for MediaRules {
    ghost use Rattle.std.specs.Prelude.{List};
    ghost use Rattle.sheet_reader.specs.declared.sheet.MediaRule.{MediaRule};

    ghost Value = { List MediaRule };

    ghost view = { λ l. l.rules.items };
}

impl MediaRules {
    /// The rules, in their order.
    pub fn new(rules: Vec<MediaRule>) -> MediaRules
        ensures { result ≡ rules.items }
    {
        MediaRules { rules }
    }

    /// How many there are.
    pub fn len(&self) -> usize
        ensures { result ≡ length self.now }
    {
        self.rules.len()
    }

    pub(crate) fn push(&mut self, rule: MediaRule) -> Result<(), AllocError>
        ensures { OnOk result (self.new ≡ self.old ++ rule ∷ []) }
    {
        self.rules.push(rule)?;
        Ok(())
    }

    /// The rules, in their order.
    pub fn as_slice(&self) -> &[MediaRule]
        ensures { result.now ≡ self.now }
    {
        self.rules.as_slice()
    }

    /// Gives the rules back.
    pub fn into_vec(self) -> Vec<MediaRule>
        ensures { result.items ≡ self }
    {
        self.rules
    }

    /// Moves all their preludes. Takes no memory.
    pub(crate) fn move_behind(&mut self, gap: Gap)
        requires { All (CanPlaceMedia (cut gap.start gap.end gap.size)) self.old }
        ensures moved { self.new ≡ map (placed_media (moved_place (cut gap.start gap.end gap.size))) self.old }
    {
        move_media(&mut self.rules, gap);
    }
}
