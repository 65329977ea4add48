//! The types at the places of a code, while they grow.
ghost use Rattle.std.specs.Prelude.{◌≡◌, ◌<◌, ◌≤◌, ◌+◌, ℕ, [], ◌∷◌, length, slice_set, min, IfOk, OnOk, MatchBool, MatchOption};
ghost use Rattle.std.specs.Prelude.{true, false, Some, IsTrue};
ghost use Rattle.std.specs.Option.{option_map};
ghost use Rattle.jvm_values.specs.TypedHeaps.{world_types};
ghost use Rattle.jvm_values.specs.States.{types_of};
ghost use Rattle.frame_types.specs.Places.{IsProper};
ghost use Rattle.frame_types.specs.Growth.{IsComing, IsTable, IsGrown, AreRefused, IsRoomier, waits};

use crate::copies::copy_of;
use crate::merges::{Coming, merge_frames};
use jvm_values::list_views::Seq;
use jvm_values::{FrameType, Types};
use std::alloc::{AllocError, Global};

/// The types at the places of a method's code, and which of these places are to be looked at.
#[derive(Drop)]
pub struct Table {
    /// The number of the method's locals.
    pub max_locals: u16,
    /// The most entries of its stack.
    pub max_stack: u16,
    /// The types by place; none where no way was seen to lead.
    pub types: Seq<Option<FrameType>>,
    /// For each place whether it is to be looked at.
    pub waiting: Seq<bool>,
    /// No place below this one is to be looked at.
    pub low: usize,
}

/// Makes the types of a place as wide as those that come.
fn come<T: Types>(
    alloc: Global,
    types: &T,
    there: &mut Option<FrameType>,
    frame: &FrameType,
) -> Result<Coming, AllocError>
    requires old { (before : _) → option_map types_of there.old ≡ Some before
        → IsProper (world_types (T.sub types.now) (T.erase types.now) (T.classes types.now) (T.fields types.now)
        (T.can_be_made types.now)) (length frame.now.locals) before }
    requires more { IsProper (world_types (T.sub types.now) (T.erase types.now) (T.classes types.now) (T.fields types.now)
        (T.can_be_made types.now)) (length frame.now.locals) (types_of frame.now) }
    ensures { IfOk result
        (λ coming. IsComing (world_types (T.sub types.now) (T.erase types.now) (T.classes types.now) (T.fields types.now)
        (T.can_be_made types.now)) (length frame.now.locals) (option_map types_of there.old) (types_of frame.now)
        (option_map types_of there.new) coming) }
{
    match there {
        Some(old) => Ok(merge_frames(types, old, frame)),
        None => {
            *there = Some(copy_of(alloc, frame)?);
            Ok(Coming::Grew)
        }
    }
}

impl Table {
    /// A table without types, of a method with so many locals and at most so many stack entries.
    pub fn new(alloc: Global, max_locals: u16, max_stack: u16) -> Table
        ensures { result ≡ record { max_locals = max_locals; max_stack = max_stack; types = []; waiting = []; low = 0 } }
    {
        Table {
            max_locals,
            max_stack,
            types: Seq::new(alloc),
            waiting: Seq::new(alloc),
            low: 0,
        }
    }

    /// Adds a place without types.
    fn add_place(&mut self) -> Result<(), AllocError>
        requires small { length self.old.types < 65536 }
        requires even { length self.old.waiting ≡ length self.old.types }
        ensures roomier { OnOk result (IsRoomier self.old self.new) }
        ensures count { OnOk result (length self.new.types ≡ length self.old.types + 1) }
    {
        self.types.push(None)?;
        self.waiting.push(false)?;
        Ok(())
    }

    /// Adds places without types up to one.
    fn make_room(&mut self, place: usize) -> Result<(), AllocError>
        requires place { place < 65536 }
        requires small { length self.old.types ≤ 65536 }
        requires even { length self.old.waiting ≡ length self.old.types }
        ensures roomier { OnOk result (IsRoomier self.old self.new) }
        ensures count { OnOk result (place < length self.new.types) }
    {
        while self.types.len() <= place {
            self.add_place()?;
        }
        Ok(())
    }

    /// Says that a place is to be looked at.
    fn mark(&mut self, place: usize)
        requires { place < length self.old.waiting }
        ensures { self.new ≡ record self.old { waiting = slice_set self.old.waiting place true; low = min self.old.low place } }
    {
        *self.waiting.at_mut(place) = true;
        self.low = self.low.min(place);
    }

    /// Takes a frame to a place.
    fn enter_place<T: Types>(
        &mut self,
        alloc: Global,
        types: &T,
        place: usize,
        frame: &FrameType,
    ) -> Result<bool, AllocError>
        requires place { place < 65536 }
        requires table { IsTable (world_types (T.sub types.now) (T.erase types.now) (T.classes types.now) (T.fields types.now)
            (T.can_be_made types.now)) self.old }
        requires proper { IsProper (world_types (T.sub types.now) (T.erase types.now) (T.classes types.now) (T.fields types.now)
            (T.can_be_made types.now)) self.old.max_locals (types_of frame.now) }
        requires depth { length frame.now.stack.0 ≤ self.old.max_stack }
        ensures { IfOk result
            (λ ok. MatchBool ok (IsGrown
            (world_types (T.sub types.now) (T.erase types.now) (T.classes types.now) (T.fields types.now)
            (T.can_be_made types.now)) (record { to = place; frame = types_of frame.now } ∷ []) self.old self.new)
            (AreRefused (world_types (T.sub types.now) (T.erase types.now) (T.classes types.now) (T.fields types.now)
            (T.can_be_made types.now)) (record { to = place; frame = types_of frame.now } ∷ []) self.old)) }
    {
        self.make_room(place)?;
        let there = self.types.at_mut(place);
        let coming = come(alloc, types, there, frame)?;
        match coming {
            Coming::Same => Ok(true),
            Coming::Grew => {
                self.mark(place);
                Ok(true)
            }
            Coming::Apart => Ok(false),
        }
    }

    /// Takes a frame to a place, where the table has types or gets them, and says so; it can't where no types are as wide
    /// as those of the place and the frame, and where the frame's stack has more entries than the method's may have. A
    /// place whose types have changed is to be looked at.
    ///
    /// # Errors
    ///
    /// Want of memory; then the table is of no use.
    pub fn enter<T: Types>(
        &mut self,
        alloc: Global,
        types: &T,
        to: u16,
        frame: &FrameType,
    ) -> Result<bool, AllocError>
        requires table { IsTable (world_types (T.sub types.now) (T.erase types.now) (T.classes types.now) (T.fields types.now)
            (T.can_be_made types.now)) self.old }
        requires proper { IsProper (world_types (T.sub types.now) (T.erase types.now) (T.classes types.now) (T.fields types.now)
            (T.can_be_made types.now)) self.old.max_locals (types_of frame.now) }
        ensures { IfOk result
            (λ ok. MatchBool ok (IsGrown
            (world_types (T.sub types.now) (T.erase types.now) (T.classes types.now) (T.fields types.now)
            (T.can_be_made types.now)) (record { to = to; frame = types_of frame.now } ∷ []) self.old self.new)
            (AreRefused (world_types (T.sub types.now) (T.erase types.now) (T.classes types.now) (T.fields types.now)
            (T.can_be_made types.now)) (record { to = to; frame = types_of frame.now } ∷ []) self.old)) }
    {
        if frame.stack.len() > usize::from(self.max_stack) {
            Ok(false)
        } else {
            self.enter_place(alloc, types, usize::from(to), frame)
        }
    }

    /// The lowest place that is to be looked at, and from now on is not; None where there is none.
    pub fn take(&mut self) -> Option<u16>
        requires even { length self.old.waiting ≡ length self.old.types }
        requires small { length self.old.types ≤ 65536 }
        requires done { (place : ℕ) → place < self.old.low → waits self.old.waiting place ≡ false }
        ensures taken { MatchOption result ((place : ℕ) → waits self.old.waiting place ≡ false)
            (λ place. (IsTrue (waits self.old.waiting place))
            × (self.new ≡ record self.old { waiting = slice_set self.old.waiting place false; low = place + 1 })
            × ((k : ℕ) → k < place → waits self.old.waiting k ≡ false)) }
        ensures types { self.new.types ≡ self.old.types }
    {
        while self.low < self.waiting.len() {
            let place = self.low;
            self.low += 1;
            if *self.waiting.at(place) {
                *self.waiting.at_mut(place) = false;
                return Some(place as u16);
            }
        }
        None
    }
}
