// Reading an object's members in the order of their names.
ghost use Rattle.std.specs.Prelude.{◌≡◌, false, Some, option_map, IfNone};
ghost use Rattle.serde_json.specs.Find.{as_str, as_array};
ghost use Rattle.serde_json.specs.View.{view, items_view, members_view};
ghost use Rattle.cdp_json.specs.Kinds.{as_whole, as_signed};
ghost use Rattle.cdp_json.specs.Rows.{left_with, first_at, after_first, need, may, may_true, is_done};

use crate::values::{flag_of, list_of, signed_of, text_of, whole_of};
use serde_json::{Map, Value};
use std::collections::btree_map::Iter;
use std::iter::Iterator;

/// The members of an object in the order of their names, but for those that have been taken.
#[derive(Drop)]
pub struct Cursor<'a> {
    ahead: Option<(&'a String, &'a Value)>,
    rest: Iter<'a, String, Value>,
}

impl<'a> Cursor<'a> {
    ghost use Rattle.cdp_json.specs.Left.{left};

    /// At the first member.
    pub fn new(object: &'a Map<String, Value>) -> Cursor<'a>
        ensures { left result ≡ members_view object.now.entries }
    {
        let mut rest = object.iter();
        let ahead = rest.next();
        Cursor { ahead, rest }
    }

    /// Whether each member has been taken.
    pub fn is_done(&self) -> bool
        ensures { result ≡ is_done (left self.now) }
    {
        self.ahead.is_none()
    }

    // The next member's value, if it has this name.
    fn here(&self, name: &str) -> Option<&'a Value>
        ensures { option_map (λ v. view v.now) result ≡ first_at name.now (left self.now) }
    {
        match self.ahead {
            Some((key, value)) => if name == key.as_str() {
                Some(value)
            } else {
                None
            },
            None => None,
        }
    }

    // Goes past the next member.
    fn pass(&mut self)
        requires { is_done (left self.old) ≡ false }
        ensures { left self.new ≡ after_first (left self.old) }
    {
        self.ahead = self.rest.next();
    }

    /// Takes the next member, if it has this name. Each `None` here leaves the cursor as it was.
    pub fn need(&mut self, name: &str) -> Option<&'a Value>
        ensures value { option_map (λ v. left_with (left self.new) (view v.now)) result
            ≡ need Some name.now (left self.old) }
        ensures none { IfNone result (left self.new ≡ left self.old) }
    {
        let value = self.here(name)?;
        self.pass();
        Some(value)
    }

    /// The field of this name, which must be there, as a whole number of at least 0.
    pub fn need_whole(&mut self, name: &str) -> Option<u64>
        ensures value { option_map (left_with (left self.new)) result
            ≡ need as_whole name.now (left self.old) }
        ensures none { IfNone result (left self.new ≡ left self.old) }
    {
        let found = whole_of(self.here(name)?)?;
        self.pass();
        Some(found)
    }

    /// The field of this name, which must be there, as a whole number.
    pub fn need_signed(&mut self, name: &str) -> Option<i64>
        ensures value { option_map (left_with (left self.new)) result
            ≡ need as_signed name.now (left self.old) }
        ensures none { IfNone result (left self.new ≡ left self.old) }
    {
        let found = signed_of(self.here(name)?)?;
        self.pass();
        Some(found)
    }

    /// The field of this name, which must be there, as a string.
    pub fn need_text(&mut self, name: &str) -> Option<&'a str>
        ensures value { option_map (λ s. left_with (left self.new) s.now) result
            ≡ need as_str name.now (left self.old) }
        ensures none { IfNone result (left self.new ≡ left self.old) }
    {
        let found = text_of(self.here(name)?)?;
        self.pass();
        Some(found)
    }

    /// The field of this name, which must be there, as an array.
    pub fn need_list(&mut self, name: &str) -> Option<&'a [Value]>
        ensures value { option_map (λ xs. left_with (left self.new) (items_view xs.now)) result
            ≡ need as_array name.now (left self.old) }
        ensures none { IfNone result (left self.new ≡ left self.old) }
    {
        let found = list_of(self.here(name)?)?;
        self.pass();
        Some(found)
    }

    /// Takes the next member, if it has this name. An outer `None`, here and below, says that the
    /// member is there and of another kind.
    pub fn may(&mut self, name: &str) -> Option<&'a Value>
        ensures { Some (left_with (left self.new) (option_map (λ v. view v.now) result))
            ≡ may Some name.now (left self.old) }
    {
        let value = self.here(name)?;
        self.pass();
        Some(value)
    }

    /// The field of this name, if it is there, as a whole number of at least 0.
    pub fn may_whole(&mut self, name: &str) -> Option<Option<u64>>
        ensures value { option_map (left_with (left self.new)) result
            ≡ may as_whole name.now (left self.old) }
        ensures none { IfNone result (left self.new ≡ left self.old) }
    {
        let Some(value) = self.here(name) else {
            return Some(None);
        };
        let found = whole_of(value)?;
        self.pass();
        Some(Some(found))
    }

    /// The field of this name, if it is there, as an array.
    pub fn may_list(&mut self, name: &str) -> Option<Option<&'a [Value]>>
        ensures value { option_map (λ o. left_with (left self.new) (option_map (λ xs. items_view xs.now) o)) result
            ≡ may as_array name.now (left self.old) }
        ensures none { IfNone result (left self.new ≡ left self.old) }
    {
        let Some(value) = self.here(name) else {
            return Some(None);
        };
        let found = list_of(value)?;
        self.pass();
        Some(Some(found))
    }

    /// Whether the next member has this name, with `true` as its value.
    pub fn may_true(&mut self, name: &str) -> Option<bool>
        ensures value { option_map (left_with (left self.new)) result
            ≡ may_true name.now (left self.old) }
        ensures none { IfNone result (left self.new ≡ left self.old) }
    {
        let Some(value) = self.here(name) else {
            return Some(false);
        };
        if !flag_of(value)? {
            return None;
        }
        self.pass();
        Some(true)
    }
}
