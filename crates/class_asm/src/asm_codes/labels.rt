//! The places that labels name, found through an index.

ghost use Rattle.std.specs.Prelude.{◌≡◌, [], OnOk, IfOk, is_some, not};
ghost use Rattle.class_asm.specs.asm_codes.Instructions.{target};
ghost use Rattle.class_asm.specs.asm_codes.Places.{place_in, with_place};
ghost use Rattle.class_asm.specs.asm_codes.LineFaults.{is_among, with_label};

use class_base::NameSet;
use indexmap::IndexMap;
use std::alloc::{AllocError, AllocFailed, Global};
use std::marker::Model;

/// The labels of a method with their places. It is seen as the list of the labels, each with
/// its place.
#[derive(Drop)]
pub(crate) struct Labels<'a> {
    places: IndexMap<&'a [u8], usize>,
}

impl<'a> Model for Labels<'a> {
    ghost use Rattle.std.specs.Prelude.{List, ℕ, map};

    ghost Value = { List (List ℕ × ℕ) };

    ghost view = { λ s. map (λ e. (e.0.now, e.1)) s.places.entries };
}

impl<'a> Labels<'a> {
    /// No labels.
    pub(crate) fn new(alloc: Global) -> Labels<'a>
        ensures { result ≡ [] }
    {
        Labels {
            places: IndexMap::new(alloc),
        }
    }

    /// One more label. The first place of a label stays.
    pub(crate) fn add(&mut self, label: &'a [u8], place: usize) -> Result<(), AllocError>
        ensures { OnOk result (place_in self.new ≡ with_place (place_in self.old) label.now place) }
    {
        if self.places.contains_key(label) {
            return Ok(());
        }
        self.places.insert(label, place)?;
        Ok(())
    }

    /// The place of the label.
    pub(crate) fn place(&self, label: &[u8]) -> Option<usize>
        ensures { result ≡ place_in self.now label.now }
    {
        match self.places.get(label) {
            Some(place) => Some(*place),
            None => None,
        }
    }

    /// Whether there is such a label.
    pub(crate) fn has(&self, label: &[u8]) -> bool
        ensures { result ≡ is_some (place_in self.now label.now) }
    {
        self.place(label).is_some()
    }

    /// The place of the label, or 0 where it has none.
    pub(crate) fn target(&self, label: &[u8]) -> usize
        ensures { result ≡ target (place_in self.now) label.now }
    {
        match self.place(label) {
            Some(place) => place,
            None => 0,
        }
    }
}

/// One more label of those of the lines so far, and whether it is new.
pub(crate) fn add_label<'a>(seen: &mut NameSet<'a>, label: &'a [u8]) -> Result<bool, AllocError>
    ensures labels { OnOk result (is_among seen.new ≡ with_label (is_among seen.old) label.now) }
    ensures is_new { IfOk result (λ is_new. is_new ≡ not (is_among seen.old label.now)) }
{
    let is_new = seen.add(label)?;
    Ok(is_new)
}
