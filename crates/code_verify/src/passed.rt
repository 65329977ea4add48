//! What last came to the handlers of a method, so that it need not come again from the next place.
ghost use Rattle.class_program.specs.class_world.Worlds.{classes_of};
ghost use Rattle.class_program.specs.class_world.WorldTypes.{types_of};
ghost use Rattle.std.specs.Prelude.{◌≡◌, ◌≤◌, ◌<◌, ℕ, [], All, IfOk, filter, true, IsTrue};
ghost use Rattle.jvm_values.specs.States.{types_of as seen};
ghost use Rattle.frame_types.specs.Places.{IsProper};
ghost use Rattle.frame_types.specs.Tables.{types_at};
ghost use Rattle.frame_types.specs.Growth.{IsTable};
ghost use Rattle.code_verify.specs.Answers.{Comes};
ghost use Rattle.code_verify.specs.Flows.{CanCatch, covers, caught};
ghost use Rattle.code_verify.specs.inner.Solving.{IsPassed, narrowed};

use crate::flows::enter_handlers;
use class_program::CatchRange;
use class_program::class_world::World;
use frame_types::Table;
use jvm_values::{FrameType, PlaceType};
use list_views::Seq;
use std::alloc::{AllocError, Global};

/// Places from one to before another.
#[derive(Clone, Copy)]
pub(crate) struct Stretch {
    /// The first place.
    pub(crate) low: usize,
    /// The place behind the last one.
    pub(crate) end: usize,
}

/// Locals that the handlers of some places already take: those of each range that has one of these places, and all of them have
/// the same ranges.
#[derive(Drop)]
pub(crate) struct Passed {
    /// The places.
    pub(crate) places: Stretch,
    /// The locals.
    pub(crate) locals: Seq<PlaceType>,
}

/// Those of the places around a place that a range has, if it has that place, and else those that it has not.
fn narrowed(place: u16, range: CatchRange, around: Stretch) -> Stretch
    ensures { result ≡ narrowed place range around }
{
    let start = usize::from(range.start);
    let end = usize::from(range.end);
    let place = usize::from(place);
    if place < start {
        Stretch {
            low: around.low,
            end: around.end.min(start),
        }
    } else if place < end {
        Stretch {
            low: around.low.max(start),
            end: around.end.min(end),
        }
    } else {
        Stretch {
            low: around.low.max(end),
            end: around.end,
        }
    }
}

/// Places around a place that are in the same ranges.
fn around(place: u16, ranges: &[CatchRange]) -> Stretch
    ensures { (q : ℕ) → result.low ≤ q → q < result.end → filter (covers q) ranges.now ≡ filter (covers place) ranges.now }
{
    let mut around = Stretch { low: 0, end: 65536 };
    for range in ranges {
        around = narrowed(place, *range, around);
    }
    around
}

impl Passed {
    /// Nothing came yet.
    pub(crate) fn nothing(alloc: Global) -> Passed
        ensures { result ≡ record { places = record { low = 0; end = 0 }; locals = [] } }
    {
        Passed {
            places: Stretch { low: 0, end: 0 },
            locals: Seq::new(alloc),
        }
    }

    /// These locals came from a place.
    fn from_place(
        alloc: Global,
        place: u16,
        ranges: &[CatchRange],
        locals: &Seq<PlaceType>,
    ) -> Result<Passed, AllocError>
        ensures locals { IfOk result (λ passed. passed.locals ≡ locals.now) }
        ensures places { IfOk result (λ passed. (q : ℕ) → passed.places.low ≤ q → q < passed.places.end
            → filter (covers q) ranges.now ≡ filter (covers place) ranges.now) }
    {
        let copy = Seq::from_slice(alloc, locals.as_slice())?;
        Ok(Passed {
            places: around(place, ranges),
            locals: copy,
        })
    }

    /// Whether the locals are these.
    fn has_locals(&self, locals: &Seq<PlaceType>) -> bool
        ensures { IsTrue result → self.now.locals ≡ locals.now }
    {
        self.locals.as_slice() == locals.as_slice()
    }

    /// Whether the place is one of these.
    fn has_place(&self, place: u16) -> bool
        ensures { IsTrue result → (self.now.places.low ≤ place) × (place < self.now.places.end) }
    {
        let place = usize::from(place);
        self.places.low <= place && place < self.places.end
    }

    /// Whether these locals at this place lead to nothing new.
    fn has(&self, place: u16, locals: &Seq<PlaceType>) -> bool
        ensures place { IsTrue result → (self.now.places.low ≤ place) × (place < self.now.places.end) }
        ensures locals { IsTrue result → self.now.locals ≡ locals.now }
    {
        self.has_place(place) && self.has_locals(locals)
    }
}

/// Takes a frame's locals, with what is caught alone on the stack, to the handlers of the ranges that have a place, unless they
/// take them already since the same came from a place before.
pub(crate) fn pass_handlers(
    alloc: Global,
    world: &World<'_>,
    place: u16,
    ranges: &[CatchRange],
    frame: &mut FrameType,
    table: &mut Table,
    passed: &mut Passed,
) -> Result<bool, AllocError>
    requires table { IsTable (types_of (classes_of world.now)) table.old }
    requires proper { IsProper (types_of (classes_of world.now)) table.old.max_locals (seen frame.old) }
    requires catches { All (CanCatch (classes_of world.now)) ranges.now }
    requires passed { IsPassed (classes_of world.now) ranges.now (types_at table.old.types) passed.old }
    ensures comes { IfOk result
        (λ ok. Comes (types_of (classes_of world.now)) (caught (classes_of world.now) place (seen frame.old) ranges.now) ok
        table.old table.new) }
    ensures passed { IfOk result (λ ok. ok ≡ true → IsPassed (classes_of world.now) ranges.now (types_at table.new.types) passed.new) }
{
    if passed.has(place, &frame.locals) {
        return Ok(true);
    }
    let later = Passed::from_place(alloc, place, ranges, &frame.locals)?;
    let entered = enter_handlers(alloc, world, place, ranges, frame, table)?;
    *passed = later;
    Ok(entered)
}
