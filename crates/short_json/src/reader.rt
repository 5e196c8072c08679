// The tokens of a text, taken one by one.
ghost use Rattle.std.specs.Prelude.{◌≡◌, ◌∷◌, decimal, true, false, string_bytes, [], Some, IfSome, IfNone, IfOk};
ghost use Rattle.std.specs.Bool.{MatchBool};
ghost use Rattle.std.specs.List.{list_all};
ghost use Rattle.json.specs.Run.{is_plain};
ghost use Rattle.json.specs.Json.{after_end_array};
ghost use Rattle.json.specs.Token.{begin_object, end_object, begin_array, end_array, key, string, number, boolean};
ghost use Rattle.json.specs.Lex.{between, lex, after_value, may_begin, may_close, punctuate, tokens};
ghost use Rattle.short_json.specs.Places.{place_seen, tokens_at};

use crate::escapes::escaped_in;
use crate::lexemes::{behind, behind_name, behind_space, string_in, value_ends, whole_in};
use std::alloc::{AllocError, Global};
use std::marker::Model;

/// Where a reader stands.
#[derive(Clone, Copy, Drop)]
pub(crate) enum Place {
    /// Behind an opening bracket or a key.
    Fresh,
    AfterValue,
    AfterComma,
}

impl Place {
    fn may_begin(self) -> bool
        ensures { result ≡ may_begin (place_seen self) }
    {
        match self {
            Place::Fresh | Place::AfterComma => true,
            Place::AfterValue => false,
        }
    }

    fn may_close(self) -> bool
        ensures { result ≡ may_close (place_seen self) }
    {
        match self {
            Place::Fresh | Place::AfterValue => true,
            Place::AfterComma => false,
        }
    }
}

/// A reader of a text in its usual form. A clause sees the tokens that are still to come.
#[derive(Drop)]
pub struct UsualReader<'a> {
    left: &'a str,
    place: Place,
}

impl<'a> Model for UsualReader<'a> {
    ghost use Rattle.std.specs.Prelude.{List};
    ghost use Rattle.json.specs.Token.{Token, tokens_code};

    ghost Value = { List Token };

    ghost coded = { tokens_code };

    ghost use Rattle.short_json.specs.Places.{tokens_at};

    ghost view = { λ r. tokens_at r.place r.left.now };
}

// Passes the comma that may follow a value, and a space behind it.
fn after_value<'a>(left: &'a str) -> (Place, &'a str)
    ensures { tokens_at result.0 result.1.now ≡ punctuate after_value (lex between left.now) }
{
    match behind(left, b',') {
        Some(rest) => (Place::AfterComma, behind_space(rest)),
        None => (Place::AfterValue, left),
    }
}

impl<'a> UsualReader<'a> {
    /// At the first token.
    pub fn new(text: &'a str) -> UsualReader<'a>
        ensures { result ≡ tokens text.now }
    {
        UsualReader {
            left: text,
            place: Place::Fresh,
        }
    }

    // The byte that comes next, or a space at the end.
    pub(crate) fn peek(&self) -> u8 {
        let bytes = self.left.as_bytes();
        if bytes.is_empty() { b' ' } else { bytes[0] }
    }

    /// Whether nothing is left.
    pub fn is_over(&self) -> bool
        ensures { result ≡ true → self.now ≡ [] }
    {
        if !self.left.is_empty() {
            return false;
        }
        self.place.may_close()
    }

    // Goes on behind a value.
    fn passed(&mut self, rest: &'a str)
        ensures { self.new ≡ punctuate after_value (lex between rest.now) }
    {
        let (place, left) = after_value(rest);
        self.place = place;
        self.left = left;
    }

    /// The beginning of an object.
    pub fn begin_object(&mut self) -> Option<()>
        ensures some { IfSome result (λ _. self.old ≡ begin_object ∷ self.new) }
        ensures none { IfNone result (self.new ≡ self.old) }
    {
        let rest = behind(self.left, b'{')?;
        if !self.place.may_begin() {
            return None;
        }
        self.place = Place::Fresh;
        self.left = rest;
        Some(())
    }

    /// The beginning of an array.
    pub fn begin_array(&mut self) -> Option<()>
        ensures some { IfSome result (λ _. self.old ≡ begin_array ∷ self.new) }
        ensures none { IfNone result (self.new ≡ self.old) }
    {
        let rest = behind(self.left, b'[')?;
        if !self.place.may_begin() {
            return None;
        }
        self.place = Place::Fresh;
        self.left = rest;
        Some(())
    }

    /// The end of an object.
    pub fn end_object(&mut self) -> Option<()>
        ensures some { IfSome result (λ _. self.old ≡ end_object ∷ self.new) }
        ensures none { IfNone result (self.new ≡ self.old) }
    {
        let rest = behind(self.left, b'}')?;
        if !self.place.may_close() {
            return None;
        }
        self.passed(rest);
        Some(())
    }

    /// The end of an array.
    pub fn end_array(&mut self) -> Option<()>
        ensures some { IfSome result (λ _. self.old ≡ end_array ∷ self.new) }
        ensures none { IfNone result (self.new ≡ self.old) }
    {
        let rest = behind(self.left, b']')?;
        if !self.place.may_close() {
            return None;
        }
        self.passed(rest);
        Some(())
    }

    /// The name of a member.
    pub fn name(&mut self) -> Option<&'a str>
        ensures some { IfSome result (λ name. self.old ≡ key name.now ∷ self.new) }
        ensures none { IfNone result (self.new ≡ self.old) }
    {
        let (name, mark) = string_in(self.left)?;
        let rest = behind(mark, b':')?;
        if !self.place.may_begin() {
            return None;
        }
        self.place = Place::Fresh;
        self.left = behind_space(rest);
        Some(name)
    }

    /// Passes the name of a member and its colon, where that name comes next, and else nothing.
    pub fn take_name(&mut self, name: &str) -> bool
        requires { list_all is_plain name.now ≡ true }
        ensures { MatchBool result (self.old ≡ key name.now ∷ self.new) (self.new ≡ self.old) }
    {
        let Some(rest) = behind_name(self.left, name) else {
            return false;
        };
        if !self.place.may_begin() {
            return false;
        }
        self.place = Place::Fresh;
        self.left = behind_space(rest);
        true
    }

    /// Passes the end of an array, where that comes next, and else nothing.
    pub fn take_end_array(&mut self) -> bool
        ensures { MatchBool result (after_end_array self.old ≡ Some self.new) (self.new ≡ self.old) }
    {
        match self.end_array() {
            Some(()) => true,
            None => false,
        }
    }

    /// A text without escapes.
    pub fn text(&mut self) -> Option<&'a str>
        ensures some { IfSome result (λ text. self.old ≡ string text.now ∷ self.new) }
        ensures none { IfNone result (self.new ≡ self.old) }
    {
        let (text, rest) = string_in(self.left)?;
        if !value_ends(rest) {
            return None;
        }
        if !self.place.may_begin() {
            return None;
        }
        self.passed(rest);
        Some(text)
    }

    /// A text, with the escapes that are usual.
    pub fn escaped_text(&mut self, alloc: Global) -> Result<Option<String>, AllocError>
        ensures some { IfOk result (λ found. IfSome found (λ text. self.old ≡ string (string_bytes text) ∷ self.new)) }
        ensures none { IfOk result (λ found. IfNone found (self.new ≡ self.old)) }
    {
        let found = escaped_in(alloc, self.left)?;
        let Some((text, rest)) = found else {
            return Ok(None);
        };
        if !value_ends(rest) {
            return Ok(None);
        }
        if !self.place.may_begin() {
            return Ok(None);
        }
        self.passed(rest);
        Ok(Some(text))
    }

    /// A whole number.
    pub fn whole(&mut self) -> Option<u64>
        ensures some { IfSome result (λ n. self.old ≡ number (decimal n) ∷ self.new) }
        ensures none { IfNone result (self.new ≡ self.old) }
    {
        let (whole, rest) = whole_in(self.left)?;
        if !self.place.may_begin() {
            return None;
        }
        self.passed(rest);
        Some(whole)
    }
}
