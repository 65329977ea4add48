//! Where a state stands: its running frame with the instruction there.
ghost use Rattle.std.specs.Prelude.{◌≡◌, ◌&&◌, ◌∷◌, [], min, length, reverse, slice_get, slice_set, ◌<◌, ◌+◌, IfOk, IfSome};
ghost use Rattle.std.specs.Prelude.{MatchOption, Some};
ghost use Rattle.std.specs.Option.{option_map, option_and_then};
ghost use Rattle.jvm_values.specs.States.{types_of};
ghost use Rattle.abs_cells.specs.Cells.{is_known, is_of_sort, cell_in, cell_at};
ghost use Rattle.abs_cells.specs.PairLists.{has};
ghost use Rattle.abs_cells.specs.Sound.{AreIdsRising, IsSound, IsSoundCell};
ghost use Rattle.jvm_step.specs.class_world.WorldTypes.{types_of as world_types_of};
ghost use Rattle.abs_ints.specs.IntIntervals.{all_ints};
ghost use Rattle.jvm_step.specs.class_program.Views.{program_of};
ghost use Rattle.abs_turns.specs.Turns.{frames_at, with_stack, interval_in, interval_of_id};
ghost use Rattle.abs_turns.specs.Needs.{may_be_null, is_unknown, known_partner};
ghost use Rattle.abs_turns.specs.Table.{local_here, is_null_here, place_under, bottom_of, locals_of_method, static_local};

use abs_cells::lin_core::Interval;
use abs_cells::list_views::{Seq, Stack};
use abs_cells::{AbsFrame, AbsState, Cell, Id, Pairs, copied_frames, is_pair};
use abs_heap::abs_reach::cell_of;
use jvm_step::class_program::Program;
use jvm_values::{FrameType, PlaceType};
use std::alloc::{AllocError, Global};
use std::marker::Model;

/// Where a state stands: the program, the state, its running frame and the frames below, the types that the typing gives
/// the frame, and the place of the next instruction.
#[derive(Drop)]
pub struct Spot<'a, 'p, P: Pairs> {
    program: &'a Program<'p>,
    state: &'a AbsState<P>,
    frame: &'a AbsFrame,
    below: &'a [AbsFrame],
    types: &'a FrameType,
    next: u16,
}

impl<'a, 'p, P: Pairs> Model for Spot<'a, 'p, P> {
    ghost use Rattle.std.specs.Prelude.{reverse};
    ghost use Rattle.jvm_values.specs.States.{types_of};
    ghost use Rattle.abs_cells.specs.Sound.{IsSound};
    ghost use Rattle.jvm_step.specs.class_world.WorldTypes.{types_of as world_types_of};
    ghost use Rattle.jvm_step.specs.class_program.Views.{program_of};
    ghost use Rattle.abs_turns.specs.Turns.{Here};

    ghost Value = { Here };

    ghost view = { λ s. record {
      program = program_of s.program.now;
      state = s.state.now;
      frame = s.frame.now;
      below = reverse s.below.now;
      places = (types_of s.types.now).stack;
      next = s.next;
    } };

    ghost invariant = { λ s. IsSound (world_types_of (program_of s.program.now).world) s.state.now };
}

/// All ints.
pub fn all_ints() -> Interval
    ensures { result ≡ all_ints }
{
    match Interval::new(i32::MIN, i32::MAX) {
        Some(interval) => interval,
        None => unreachable!(),
    }
}

/// The ids of a list as a stack, the last one on the top.
pub fn stacked(alloc: Global, ids: &[Id]) -> Result<Stack<Id>, AllocError>
    ensures { IfOk result (λ stack. stack.0 ≡ reverse ids.now) }
{
    let mut stack = Stack::new(alloc);
    for id in ids {
        stack.push(*id)?;
    }
    Ok(stack)
}

/// The frame of a method at a place, with a stack.
fn frame_with(
    alloc: Global,
    method: u32,
    place: u16,
    locals: Seq<Option<Id>>,
    stack: &Stack<Id>,
) -> Result<AbsFrame, AllocError>
    ensures { IfOk result (λ frame. frame ≡ record { method = method; pc = place; locals = locals; stack = stack.now.0 }) }
{
    let entries = Seq::from_slice(alloc, stack.as_slice())?;
    Ok(AbsFrame::new(method, place, locals, entries))
}

/// The id of a local, if it is there and has one.
fn local_in(locals: &[Option<Id>], n: usize) -> Option<Id>
    ensures { result ≡ option_and_then (λ local. local) (slice_get locals.now n) }
{
    match locals.get(n) {
        Some(local) => *local,
        None => None,
    }
}

/// The ints of a cell, if it is an int's.
fn ints_of(cell: &Cell) -> Option<Interval>
    ensures { MatchOption result (interval_in (Some cell.now) ≡ all_ints) (λ interval. interval_in (Some cell.now) ≡ interval) }
{
    match cell {
        Cell::Int(interval) => Some(*interval),
        _ => None,
    }
}

/// The ints of an id, or None where it has no cell, or one that is no int's.
fn ints_at(cells: &[(Id, Cell)], id: Id) -> Option<Interval>
    requires { AreIdsRising 0 cells.now }
    ensures { MatchOption result (interval_in (cell_in cells.now id) ≡ all_ints)
        (λ interval. interval_in (cell_in cells.now id) ≡ interval) }
{
    ints_of(cell_of(cells, id)?)
}

/// A frame with an id in a local, if it has that.
///
/// # Errors
///
/// Want of memory.
pub fn with_local(alloc: Global, frame: &AbsFrame, n: usize, id: Id) -> Result<AbsFrame, AllocError>
    ensures { IfOk result (λ made. made ≡ record frame.now { locals = slice_set frame.now.locals n (Some id) }) }
{
    let mut locals = Seq::from_slice(alloc, frame.locals())?;
    if n < locals.len() {
        *locals.at_mut(n) = Some(id);
    }
    let stack = Seq::from_slice(alloc, frame.stack())?;
    Ok(AbsFrame::new(frame.method(), frame.pc(), locals, stack))
}

/// The last of some frames, and those before it; None where there are none.
fn last_split(frames: &[AbsFrame]) -> Option<(&AbsFrame, &[AbsFrame])>
    ensures { MatchOption result (reverse frames.now ≡ []) (λ r. reverse frames.now ≡ r.0.now ∷ reverse r.1.now) }
{
    if frames.is_empty() {
        return None;
    }
    let last = frames.len() - 1;
    Some((&frames[last], &frames[..last]))
}

/// How many locals the method of a number has; 0 where there is no such method.
fn locals_of(program: &Program<'_>, number: u32) -> u16
    ensures { result ≡ locals_of_method (program_of program.now) number }
{
    match program.methods.get(number as usize) {
        Some(method) => method.max_locals,
        None => 0,
    }
}

impl<'a, 'p, P: Pairs> Spot<'a, 'p, P> {
    /// A state at its running frame.
    pub fn new(
        program: &'a Program<'p>,
        state: &'a AbsState<P>,
        frame: &'a AbsFrame,
        below: &'a [AbsFrame],
        types: &'a FrameType,
        next: u16,
    ) -> Spot<'a, 'p, P>
        requires { IsSound (world_types_of (program_of program.now).world) state.now }
        ensures { result ≡ record {
          program = program_of program.now;
          state = state.now;
          frame = frame.now;
          below = reverse
              below.now;
          places = (types_of types.now).stack;
          next = next;
        } }
    {
        Spot {
            program,
            state,
            frame,
            below,
            types,
            next,
        }
    }

    /// The place of the next instruction.
    pub fn next(&self) -> u16
        ensures { result ≡ self.now.next }
    {
        self.next
    }

    /// The place of the instruction.
    pub fn place(&self) -> u16
        ensures { result ≡ self.now.frame.pc }
    {
        self.frame.pc()
    }

    /// The running frame's stack.
    pub fn stack(&self, alloc: Global) -> Result<Stack<Id>, AllocError>
        ensures { IfOk result (λ stack. stack.0 ≡ self.now.frame.stack) }
    {
        stacked(alloc, self.frame.stack())
    }

    /// The id of a local of the running frame, if it is there and has one.
    pub fn local(&self, n: u16) -> Option<Id>
        ensures { result ≡ local_here self.now n }
    {
        local_in(self.frame.locals(), usize::from(n))
    }

    /// The ints of an id; all, where it has no cell, or one that is no int's.
    pub fn interval_of(&self, id: Id) -> Interval
        ensures { result ≡ interval_of_id self.now.state id }
    {
        match ints_at(self.state.cells(), id) {
            Some(interval) => interval,
            None => all_ints(),
        }
    }

    /// The frames at a place with other locals and another stack, the running call's last.
    pub fn frames_at(
        &self,
        alloc: Global,
        place: u16,
        locals: Seq<Option<Id>>,
        stack: &Stack<Id>,
    ) -> Result<Seq<AbsFrame>, AllocError>
        ensures { IfOk result (λ frames. reverse frames ≡ frames_at self.now place locals stack.now.0) }
    {
        let mut frames = copied_frames(alloc, self.below)?;
        frames.push(frame_with(alloc, self.frame.method(), place, locals, stack)?)?;
        Ok(frames)
    }

    /// The frames at a place with another stack, the running call's last.
    pub fn with_stack(
        &self,
        alloc: Global,
        place: u16,
        stack: &Stack<Id>,
    ) -> Result<Seq<AbsFrame>, AllocError>
        ensures { IfOk result (λ frames. reverse frames ≡ with_stack self.now place stack.now.0) }
    {
        let locals = Seq::from_slice(alloc, self.frame.locals())?;
        self.frames_at(alloc, place, locals, stack)
    }

    /// The locals of the running frame, one of them another id.
    pub fn locals_with(&self, alloc: Global, n: u16, id: Id) -> Result<Seq<Option<Id>>, AllocError>
        ensures { IfOk result (λ locals. locals ≡ slice_set self.now.frame.locals n (Some id)) }
    {
        let mut locals = Seq::from_slice(alloc, self.frame.locals())?;
        if (n as usize) < locals.len() {
            *locals.at_mut(n as usize) = Some(id);
        }
        Ok(locals)
    }

    /// The program.
    pub fn program(&self) -> &'a Program<'p>
        ensures { program_of result.now ≡ self.now.program }
    {
        self.program
    }

    /// The caller's frame, and the frames below it, the lowest first; None where the running frame has no caller.
    pub fn caller(&self) -> Option<(&'a AbsFrame, &'a [AbsFrame])>
        ensures { MatchOption result (self.now.below ≡ []) (λ r. self.now.below ≡ r.0.now ∷ reverse r.1.now) }
    {
        last_split(self.below)
    }

    /// The world has classes. It does nothing when it runs.
    pub fn has_classes(&self)
        ensures { 0 < length self.now.program.world }
    {
        self.program.is_good();
    }

    /// The cell of an id, if it has one.
    pub fn cell(&self, id: Id) -> Option<&Cell>
        ensures is { option_map (λ cell. cell.now) result ≡ cell_at self.now.state id }
        ensures sound { IfSome result (λ cell. IsSoundCell (world_types_of self.now.program.world) self.now.state cell.now) }
    {
        cell_of(self.state.cells(), id)
    }

    /// Whether an id may be null, or an object.
    pub fn may_be_null(&self, id: Id) -> bool
        ensures { result ≡ may_be_null (cell_at self.now.state id) }
    {
        match self.cell(id) {
            Some(Cell::Unk(_, nullable, _)) => *nullable,
            _ => false,
        }
    }

    /// Whether an id is an object whose class isn't known.
    pub fn is_unknown(&self, id: Id) -> bool
        ensures { result ≡ is_unknown (cell_at self.now.state id) }
    {
        match self.cell(id) {
            Some(Cell::Unk(_, nullable, _)) => !*nullable,
            _ => false,
        }
    }

    /// Whether an id is null.
    pub fn is_null(&self, id: Id) -> bool
        ensures { result ≡ is_null_here self.now id }
    {
        matches!(self.cell(id), Some(Cell::Null))
    }

    /// The type that the typing gives the entry of the stack under so many others.
    pub fn place_under(&self, depth: usize) -> PlaceType
        ensures { result ≡ place_under self.now depth }
    {
        if depth < self.types.stack.len() {
            *self.types.stack.at(depth)
        } else {
            PlaceType::Unset
        }
    }

    /// Whether two ids are a pair of one object.
    pub fn may_be_one(&self, a: Id, b: Id) -> bool
        ensures { result ≡ has a b self.now.state.eq }
    {
        is_pair(self.state.eq(), a, b)
    }

    /// Whether an id is known, and may be the same object as another one.
    fn is_known_partner(&self, id: Id, other: Id) -> bool
        ensures { result ≡ (is_of_sort is_known (cell_at self.now.state other) && has id other self.now.state.eq) }
    {
        match self.cell(other) {
            Some(cell) => cell.is_known() && self.may_be_one(id, other),
            None => false,
        }
    }

    /// The least known id that may be the same object as an id.
    pub fn known_partner(&self, id: Id) -> Option<Id>
        ensures { result ≡ known_partner self.now.state id }
    {
        let cells = self.state.cells();
        for (other, _cell) in cells {
            if self.is_known_partner(id, *other) {
                return Some(*other);
            }
        }
        None
    }

    /// The bottom frame.
    pub fn bottom(&self) -> &'a AbsFrame
        ensures { result.now ≡ bottom_of self.now }
    {
        if self.below.is_empty() {
            self.frame
        } else {
            &self.below[0]
        }
    }

    /// The local of the bottom frame that has the id of a static field.
    pub fn static_local(&self, place: u32) -> usize
        ensures { result ≡ static_local self.now place }
    {
        usize::from(locals_of(self.program, self.bottom().method())) + place as usize
    }

    /// The id of a static field.
    pub fn static_id(&self, place: u32) -> Option<Id>
        ensures { result ≡ option_and_then (λ local. local) (slice_get (bottom_of self.now).locals (static_local self.now place)) }
    {
        local_in(self.bottom().locals(), self.static_local(place))
    }

    /// How many of so many operands there are, with their places' types.
    pub fn depth_of(&self, count: usize, stack: &Stack<Id>) -> usize
        ensures { result ≡ min count (min (length self.now.places) (length stack.now.0)) }
    {
        count.min(self.types.stack.len().min(stack.len()))
    }
}
