//! The slots of a stop: its ints and its sized ids, with the places at which the state has them.
ghost use Rattle.std.specs.Prelude.{◌≡◌, ◌≤◌, ◌++◌, map, OnOk, IfOk};
ghost use Rattle.abs_cells.specs.Cells.{is_int};
ghost use Rattle.abs_cells.specs.Patterns.{count_in};
ghost use Rattle.term_enc.specs.Encoding.{pattern_of};
ghost use Rattle.path_rules.specs.Rules.{entries_with, ids_with, int_slot, locals_with, places_from, size_slot, slots_of};
ghost use Rattle.path_rules.specs.inner.Sizing.{entry_of, sized, sizes_of};
ghost use Rattle.path_rules.specs.Sizing.{size_at};

use crate::sizes::{class_terms, variable_terms};
use crate::stops::Stop;
use abs_cells::{AbsFrame, Id, Pairs};
use abs_reach::Marks;
use descent::{Place, SlotForm};
use list_views::Seq;
use std::alloc::{AllocError, Global};
use term_enc::PatternTerm;

/// A place in a list as a number of a position. A list of 2^32 entries and more takes more memory than there is: want of memory is
/// told then.
fn place_number(place: usize) -> Result<u32, AllocError>
    ensures { IfOk result (λ number. number ≡ place) }
{
    if place <= u32::MAX as usize {
        Ok(place as u32)
    } else {
        Err(AllocError)
    }
}

/// Adds the locals of a frame that have an id.
fn push_locals(
    places: &mut Seq<Place>,
    id: Id,
    frame: u32,
    locals: &[Option<Id>],
) -> Result<(), AllocError>
    ensures { OnOk result (places.new ≡ places.old ++ locals_with id frame 0 locals.now) }
{
    for (place, local) in locals.iter().enumerate() {
        if *local == Some(id) {
            places.push(Place {
                frame,
                stack: false,
                index: place_number(place)?,
            })?;
        }
    }
    Ok(())
}

/// Adds the entries of an operand stack, counted from the bottom, that have an id.
fn push_entries(places: &mut Seq<Place>, id: Id, frame: u32, stack: &[Id]) -> Result<(), AllocError>
    ensures { OnOk result (places.new ≡ places.old ++ entries_with id frame 0 stack.now) }
{
    for (place, entry) in stack.iter().enumerate() {
        if *entry == id {
            places.push(Place {
                frame,
                stack: true,
                index: place_number(place)?,
            })?;
        }
    }
    Ok(())
}

/// Adds the positions of frames, counted from the bottom, that have an id.
fn push_places(places: &mut Seq<Place>, id: Id, frames: &[AbsFrame]) -> Result<(), AllocError>
    ensures { OnOk result (places.new ≡ places.old ++ places_from id 0 frames.now) }
{
    for (place, frame) in frames.iter().enumerate() {
        let number = place_number(place)?;
        push_locals(places, id, number, frame.locals())?;
        push_entries(places, id, number, frame.stack())?;
    }
    Ok(())
}

/// The slot of an int.
fn int_slot<P: Pairs>(alloc: Global, stop: &Stop<P>, id: Id) -> Result<SlotForm, AllocError>
    ensures { IfOk result (λ slot. slot ≡ int_slot stop.now.first (sized stop.now.node.state) id) }
{
    let mut places = Seq::new(alloc);
    push_places(&mut places, id, stop.state().frames())?;
    Ok(SlotForm {
        id,
        size: false,
        places,
        terms: Seq::from_slice(alloc, &[(stop.variable(id), 1)])?,
        constant: 0,
        weights: Seq::new(alloc),
    })
}

/// Adds the slots of a stop's ints.
fn push_int_slots<P: Pairs>(
    alloc: Global,
    slots: &mut Seq<SlotForm>,
    stop: &Stop<P>,
) -> Result<(), AllocError>
    ensures { OnOk result (slots.new ≡ slots.old ++ map (int_slot stop.now.first (sized stop.now.node.state))
        (ids_with is_int stop.now.node.state)) }
{
    for (id, cell) in stop.state().cells() {
        if cell.is_int() {
            slots.push(int_slot(alloc, stop, *id)?)?;
        }
    }
    Ok(())
}

/// The slot of an id that has a size.
fn size_slot<P: Pairs>(
    alloc: Global,
    stop: &Stop<P>,
    id: Id,
    pattern: &PatternTerm,
) -> Result<SlotForm, AllocError>
    requires { count_in (pattern_of pattern.now) ≤ 4096 }
    ensures { IfOk result (λ slot. slot ≡ size_slot stop.now.first (sized stop.now.node.state) (id, pattern_of pattern.now)) }
{
    let mut places = Seq::new(alloc);
    push_places(&mut places, id, stop.state().frames())?;
    Ok(SlotForm {
        id,
        size: true,
        places,
        terms: variable_terms(alloc, &1, stop, pattern)?,
        constant: 0,
        weights: class_terms(alloc, &1, pattern)?,
    })
}

/// Adds the slot of an id, if the id is sized.
#[tactic(auto, using(crate::proofs::Sized::size_small))]
fn push_size_slot<P: Pairs>(
    alloc: Global,
    slots: &mut Seq<SlotForm>,
    stop: &Stop<P>,
    id: Id,
    marks: &mut Marks,
) -> Result<(), AllocError>
    ensures { OnOk result (slots.new ≡ slots.old ++ map (size_slot stop.now.first (sized stop.now.node.state))
        (entry_of id (size_at stop.now.node.state id))) }
{
    if let Some(pattern) = stop.pattern(alloc, id, marks)? {
        slots.push(size_slot(alloc, stop, id, &pattern)?)?;
    }
    Ok(())
}

/// Adds the slots of a stop's sized ids.
fn push_size_slots<P: Pairs>(
    alloc: Global,
    slots: &mut Seq<SlotForm>,
    stop: &Stop<P>,
    marks: &mut Marks,
) -> Result<(), AllocError>
    ensures { OnOk result (slots.new ≡ slots.old ++ map (size_slot stop.now.first (sized stop.now.node.state))
        (sizes_of stop.now.node.state)) }
{
    for (id, _) in stop.state().cells() {
        push_size_slot(alloc, slots, stop, *id, marks)?;
    }
    Ok(())
}

/// The slots of a stop: those of its ints, and then those of its sized ids.
pub(crate) fn slots<P: Pairs>(
    alloc: Global,
    stop: &Stop<P>,
    marks: &mut Marks,
) -> Result<Seq<SlotForm>, AllocError>
    ensures { IfOk result (λ slots. slots ≡ slots_of stop.now.first (sized stop.now.node.state)) }
{
    let mut slots = Seq::new(alloc);
    push_int_slots(alloc, &mut slots, stop)?;
    push_size_slots(alloc, &mut slots, stop, marks)?;
    Ok(slots)
}
