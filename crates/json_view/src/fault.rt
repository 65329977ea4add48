//! Why a text or a field of a value isn't read.
ghost use Rattle.json_view.specs.Answers.{StandsFor};
ghost use Rattle.json_view.specs.Place.{pointer_of};
ghost use Rattle.json_view.specs.Faults.{fault_name, fault_fields, fault_text};
ghost use Rattle.std.specs.Prelude.{◌≡◌, IfOk};

use crate::place::Place;
use list_views::Seq;
use list_views::fault_words::{bytes_field, joined};
use std::alloc::{AllocError, AllocFailed, Global};

/// Why a text or a field of a value isn't read.
///
/// A place is the JSON pointer (RFC 6901) of the value that breaks the rule; the root's is empty.
#[derive(Drop, PartialEq)]
pub enum JsonFault {
    /// The bytes are no JSON text that `serde_json` reads.
    NotJson,
    /// The value is of another kind than the one that was asked for.
    WrongKind { place: Seq<u8> },
    /// The object has no such field.
    MissingField { place: Seq<u8> },
    /// The object has a field that isn't listed.
    UnknownField { place: Seq<u8> },
    /// The number lies outside its limits.
    OutOfRange { place: Seq<u8> },
    /// Want of memory.
    Memory,
}

impl From<AllocError> for JsonFault {
    ghost use Rattle.json_view.specs.declared.fault.JsonFault.TheVariants.{Memory};

    ghost from_gives = { λ _ e. e ≡ Memory };

    fn from(_: AllocError) -> JsonFault {
        JsonFault::Memory
    }
}

impl<T: Drop> From<AllocFailed<T>> for JsonFault {
    ghost use Rattle.json_view.specs.declared.fault.JsonFault.TheVariants.{Memory};

    ghost from_gives = { λ _ e. e ≡ Memory };

    fn from(_: AllocFailed<T>) -> JsonFault {
        JsonFault::Memory
    }
}

impl JsonFault {
    /// The fault's name.
    pub fn name(&self) -> &'static [u8]
        ensures { result.now ≡ fault_name self.now }
    {
        match self {
            JsonFault::NotJson => b"NotJson",
            JsonFault::WrongKind { .. } => b"WrongKind",
            JsonFault::MissingField { .. } => b"MissingField",
            JsonFault::UnknownField { .. } => b"UnknownField",
            JsonFault::OutOfRange { .. } => b"OutOfRange",
            JsonFault::Memory => b"Memory",
        }
    }

    /// The fault's fields, each as ` name=value`.
    ///
    /// # Errors
    ///
    /// Want of memory.
    pub fn fields(&self, alloc: Global) -> Result<Seq<u8>, AllocError>
        ensures { IfOk result (λ text. text ≡ fault_fields self.now) }
    {
        match self {
            JsonFault::NotJson => Ok(Seq::new(alloc)),
            JsonFault::WrongKind { place } => bytes_field(alloc, b"place", place.as_slice()),
            JsonFault::MissingField { place } => bytes_field(alloc, b"place", place.as_slice()),
            JsonFault::UnknownField { place } => bytes_field(alloc, b"place", place.as_slice()),
            JsonFault::OutOfRange { place } => bytes_field(alloc, b"place", place.as_slice()),
            JsonFault::Memory => Ok(Seq::new(alloc)),
        }
    }

    /// The fault in words: its name and its fields.
    ///
    /// # Errors
    ///
    /// Want of memory.
    pub fn text(&self, alloc: Global) -> Result<Seq<u8>, AllocError>
        ensures { IfOk result (λ text. text ≡ fault_text self.now) }
    {
        let fields = self.fields(alloc)?;
        joined(alloc, &[self.name(), fields.as_slice()])
    }

    pub(crate) fn wrong_kind(alloc: Global, place: &Place<'_>) -> JsonFault
        ensures { StandsFor result (JsonFault.WrongKind (pointer_of place.now)) }
    {
        match place.pointer(alloc) {
            Ok(place) => JsonFault::WrongKind { place },
            Err(_) => JsonFault::Memory,
        }
    }

    pub(crate) fn missing_field(alloc: Global, place: &Place<'_>) -> JsonFault
        ensures { StandsFor result (JsonFault.MissingField (pointer_of place.now)) }
    {
        match place.pointer(alloc) {
            Ok(place) => JsonFault::MissingField { place },
            Err(_) => JsonFault::Memory,
        }
    }

    pub(crate) fn unknown_field(alloc: Global, place: &Place<'_>) -> JsonFault
        ensures { StandsFor result (JsonFault.UnknownField (pointer_of place.now)) }
    {
        match place.pointer(alloc) {
            Ok(place) => JsonFault::UnknownField { place },
            Err(_) => JsonFault::Memory,
        }
    }

    pub(crate) fn out_of_range(alloc: Global, place: &Place<'_>) -> JsonFault
        ensures { StandsFor result (JsonFault.OutOfRange (pointer_of place.now)) }
    {
        match place.pointer(alloc) {
            Ok(place) => JsonFault::OutOfRange { place },
            Err(_) => JsonFault::Memory,
        }
    }
}
