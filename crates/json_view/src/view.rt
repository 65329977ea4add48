//! A JSON value with its place, and the readers of its fields.
ghost use Rattle.std.specs.Prelude.{◌≡◌, ◌<◌, Some, IfOk, is_some};
ghost use Rattle.serde_json.specs.Find.{as_null};
ghost use Rattle.serde_json.specs.View.{view as value_of};
ghost use Rattle.json_view.specs.Answers.{Answers, StandsFor, Parses, now_of, same, nothing};
ghost use Rattle.json_view.specs.Located.{located, root_of};
ghost use Rattle.json_view.specs.Reading.{only_of, field_of, items_of, item_of, item_count, int_of, text_of, flag_of};
ghost use Rattle.json_view.specs.Reading.{whole_number_of, has_field};

use crate::fault::JsonFault;
use crate::names::{first_missing, has_member, least_unlisted};
use crate::place::Place;
use list_views::Seq;
use serde_json::Value;
use std::alloc::{AllocError, Global};

/// The value that `serde_json` reads of `bytes`.
///
/// # Errors
///
/// `NotJson` exactly where it reads no value; want of memory.
pub fn parse(alloc: Global, bytes: &[u8]) -> Result<Value, JsonFault>
    ensures { Parses bytes.now result }
{
    match Value::from_slice(alloc, bytes) {
        Ok(value) => Ok(value),
        Err(error) if error.is_memory() => Err(JsonFault::Memory),
        Err(_) => Err(JsonFault::NotJson),
    }
}

/// A value with its place in the text's value.
///
/// A view lends the view that it was reached by, and costs no memory. Its value lives for `'v`, as long as the text's: what
/// is read of it may be handed out of the function that made the view. Its place lives for `'p`.
#[derive(Clone, Copy)]
pub struct View<'v, 'p> {
    value: &'v Value,
    place: Place<'p>,
}

impl<'v, 'p> View<'v, 'p> {
    /// The value of a whole text.
    #[tactic(auto, unfolding(crate::specs::Located::located))]
    pub fn root(value: &'v Value) -> View<'v, 'p>
        ensures { located result ≡ root_of (value_of value.now) }
    {
        View {
            value,
            place: Place::Root,
        }
    }

    /// The place of the value, as a JSON pointer (RFC 6901): a caller's own fault may name it.
    ///
    /// # Errors
    ///
    /// Want of memory.
    #[tactic(auto, unfolding(crate::specs::Located::located))]
    pub fn place(&self, alloc: Global) -> Result<Seq<u8>, AllocError>
        ensures { IfOk result (λ place. place ≡ (located self.now).place) }
    {
        self.place.pointer(alloc)
    }

    /// `WrongKind` at this value, or want of memory for its place.
    #[tactic(auto, unfolding(crate::specs::Located::located))]
    pub fn wrong_kind(&self, alloc: Global) -> JsonFault
        ensures { StandsFor result (JsonFault.WrongKind (located self.now).place) }
    {
        JsonFault::wrong_kind(alloc, &self.place)
    }

    /// `OutOfRange` at this value, or want of memory for its place.
    #[tactic(auto, unfolding(crate::specs::Located::located))]
    pub fn out_of_range(&self, alloc: Global) -> JsonFault
        ensures { StandsFor result (JsonFault.OutOfRange (located self.now).place) }
    {
        JsonFault::out_of_range(alloc, &self.place)
    }

    /// Whether the value is an object that has the field `name`.
    #[tactic(auto, unfolding(crate::specs::Located::located))]
    pub fn has(&self, name: &str) -> bool
        ensures { result ≡ has_field name.now (located self.now) }
    {
        match self.value.as_object() {
            Some(members) => has_member(members, name),
            None => false,
        }
    }

    /// Whether the value is an object with exactly the fields that stand in `names`, divided by
    /// single spaces.
    ///
    /// # Errors
    ///
    /// `WrongKind` where it is no object; else `UnknownField` for the least name, by its bytes, that
    /// isn't listed; else `MissingField` for the first listed name that isn't there.
    #[tactic(auto, unfolding(crate::specs::Located::located, crate::specs::Reading::only_of))]
    pub fn only(&self, alloc: Global, names: &str) -> Result<(), JsonFault>
        ensures { Answers nothing result (only_of names.now (located self.now)) }
    {
        let Some(members) = self.value.as_object() else {
            return Err(JsonFault::wrong_kind(alloc, &self.place));
        };
        if let Some(name) = least_unlisted(members, names) {
            let place = Place::Field(&self.place, name.as_bytes());
            return Err(JsonFault::unknown_field(alloc, &place));
        }
        if let Some(name) = first_missing(members, names) {
            let place = Place::Field(&self.place, name.as_bytes());
            return Err(JsonFault::missing_field(alloc, &place));
        }
        Ok(())
    }

    /// The value of the field `name`.
    ///
    /// # Errors
    ///
    /// `WrongKind` where the value is no object, `MissingField` where it has no such field.
    #[tactic(auto, unfolding(crate::specs::Located::located, crate::specs::Reading::field_of))]
    pub fn field<'q>(&'q self, alloc: Global, name: &'q str) -> Result<View<'v, 'q>, JsonFault>
        ensures { Answers located result (field_of name.now (located self.now)) }
    {
        if !self.value.is_object() {
            return Err(JsonFault::wrong_kind(alloc, &self.place));
        }
        let place = Place::Field(&self.place, name.as_bytes());
        match self.value.get(name) {
            Some(value) => Ok(View { value, place }),
            None => Err(JsonFault::missing_field(alloc, &place)),
        }
    }

    /// The number of a list's items.
    ///
    /// # Errors
    ///
    /// `WrongKind` where the value is no list.
    #[tactic(auto, unfolding(crate::specs::Located::located, crate::specs::Reading::items_of))]
    pub fn items(&self, alloc: Global) -> Result<usize, JsonFault>
        ensures answer { Answers same result (items_of (located self.now)) }
        ensures count { IfOk result (λ n. n ≡ item_count (located self.now).value) }
    {
        match self.value.as_array() {
            Some(items) => Ok(items.len()),
            None => Err(JsonFault::wrong_kind(alloc, &self.place)),
        }
    }

    /// The item `n`, counted from 0, of a list.
    #[tactic(auto, using(crate::proofs::Items::at_below), unfolding(crate::specs::Located::located, crate::specs::Reading::item_of))]
    pub fn item<'q>(&'q self, n: usize) -> View<'v, 'q>
        requires { n < item_count (located self.now).value }
        ensures { item_of n (located self.now) ≡ Some (located result) }
    {
        View {
            value: &self.value[n],
            place: Place::Item(&self.place, n),
        }
    }

    /// A whole number from `lo` to `hi`.
    ///
    /// # Errors
    ///
    /// `WrongKind` where the value is no number that `serde_json` keeps as a u64 or an i64,
    /// `OutOfRange` where that number is below `lo` or above `hi`.
    #[tactic(auto, unfolding(crate::specs::Located::located, crate::specs::Reading::int_of))]
    pub fn int(&self, alloc: Global, lo: i64, hi: i64) -> Result<i64, JsonFault>
        ensures { Answers same result (int_of lo hi (located self.now)) }
    {
        let Some(number) = whole_number(self.value) else {
            return Err(JsonFault::wrong_kind(alloc, &self.place));
        };
        if number < lo as i128 || number > hi as i128 {
            return Err(JsonFault::out_of_range(alloc, &self.place));
        }
        Ok(number as i64)
    }

    /// A string's text.
    ///
    /// # Errors
    ///
    /// `WrongKind` where the value is no string.
    #[tactic(auto, unfolding(crate::specs::Located::located, crate::specs::Reading::text_of))]
    pub fn text(&self, alloc: Global) -> Result<&'v str, JsonFault>
        ensures { Answers now_of result (text_of (located self.now)) }
    {
        match self.value.as_str() {
            Some(text) => Ok(text),
            None => Err(JsonFault::wrong_kind(alloc, &self.place)),
        }
    }

    /// A truth value.
    ///
    /// # Errors
    ///
    /// `WrongKind` where the value is neither `true` nor `false`.
    #[tactic(auto, unfolding(crate::specs::Located::located, crate::specs::Reading::flag_of))]
    pub fn flag(&self, alloc: Global) -> Result<bool, JsonFault>
        ensures { Answers same result (flag_of (located self.now)) }
    {
        match self.value.as_bool() {
            Some(flag) => Ok(flag),
            None => Err(JsonFault::wrong_kind(alloc, &self.place)),
        }
    }

    /// Whether the value is `null`.
    #[tactic(auto, unfolding(crate::specs::Located::located))]
    pub fn is_null(&self) -> bool
        ensures { result ≡ is_some (as_null (located self.now).value) }
    {
        self.value.is_null()
    }
}

/// The number that `serde_json` keeps as a u64 or an i64.
fn whole_number(value: &Value) -> Option<i128>
    ensures { result ≡ whole_number_of (value_of value.now) }
{
    match value.as_number() {
        Some(number) => number.as_i128(),
        None => None,
    }
}
