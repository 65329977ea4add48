//! The abstract state that a description begins with.
ghost use Rattle.std.specs.Prelude.{◌≡◌, ◌+◌, ◌≤◌, ◌++◌, ◌-◌, ◌∷◌, All, IfOk, OnOk, [], length, replicate, None, filter};
ghost use Rattle.class_world.specs.Worlds.{classes_of};
ghost use Rattle.class_world.specs.Types.{is_sub};
ghost use Rattle.abs_cells.specs.Cells.{are_compatible};
ghost use Rattle.class_program.specs.Views.{program_of};
ghost use Rattle.input_desc.specs.Pairs.{IsPairBelow};
ghost use Rattle.input_desc.specs.Descs.{IsGoodDesc};
ghost use Rattle.input_desc.specs.Initial.{cell_of, cells_from, with_pairs, are_alike, given_from, initial_locals, initial_of};

use crate::desc::{Desc, Input};
use abs_cells::{AbsFrame, AbsState, Cell, Id, Pairs};
use class_program::Program;
use class_world::World;
use jvm_values::Types;
use list_views::Seq;
use std::alloc::{AllocError, Global};

/// What an abstract state knows of an input.
fn cell_of(input: &Input) -> Cell
    ensures { result ≡ cell_of input.now }
{
    match input {
        Input::Int(interval) => Cell::Int(*interval),
        Input::Ref(t, null, shape) => Cell::Unk(*t, *null, *shape),
    }
}

/// The cells of inputs, each under its input's number.
fn cells_of(alloc: Global, inputs: &[Input]) -> Result<Seq<(Id, Cell)>, AllocError>
    requires { length inputs.now ≤ 2048 }
    ensures { IfOk result (λ cells. cells ≡ cells_from 0 inputs.now) }
{
    let mut cells = Seq::new(alloc);
    for (n, input) in inputs.iter().enumerate() {
        cells.push((n as u16, cell_of(input)))?;
    }
    Ok(cells)
}

/// Puts ids behind locals, so many from a number on.
fn give(locals: &mut Seq<Option<Id>>, from: usize, count: usize) -> Result<(), AllocError>
    requires { from + count ≤ 2048 }
    ensures { OnOk result (locals.new ≡ locals.old ++ given_from from count) }
{
    for n in 0..count {
        locals.push(Some((from + n) as u16))?;
    }
    Ok(())
}

/// Puts unset places behind locals, so many.
fn leave(locals: &mut Seq<Option<Id>>, count: usize) -> Result<(), AllocError>
    ensures { OnOk result (locals.new ≡ locals.old ++ replicate count None) }
{
    for _ in 0..count {
        locals.push(None)?;
    }
    Ok(())
}

/// The locals of the entry method at its start, and behind them the ids of the static fields.
fn initial_locals(
    alloc: Global,
    places: usize,
    params: usize,
    statics: usize,
) -> Result<Seq<Option<Id>>, AllocError>
    requires { params + statics ≤ 2048 }
    ensures { IfOk result (λ locals. locals ≡ initial_locals places params statics) }
{
    let mut locals = Seq::new(alloc);
    give(&mut locals, 0, params)?;
    leave(&mut locals, places.saturating_sub(params))?;
    give(&mut locals, params, statics)?;
    Ok(locals)
}

/// The frame of the entry method at its start, alone.
fn initial_frames(
    alloc: Global,
    places: usize,
    params: usize,
    statics: usize,
) -> Result<Seq<AbsFrame>, AllocError>
    requires { params + statics ≤ 2048 }
    ensures { IfOk result
        (λ frames. frames ≡ record { method = 0; pc = 0; locals = initial_locals places params statics; stack = [] } ∷ []) }
{
    let locals = initial_locals(alloc, places, params, statics)?;
    let mut frames = Seq::new(alloc);
    frames.push(AbsFrame::new(0, 0, locals, Seq::new(alloc)))?;
    Ok(frames)
}

/// Adds pairs.
fn add_pairs<P: Pairs>(pairs: &mut P, more: &[(u32, u32)]) -> Result<(), AllocError>
    requires { All (IsPairBelow 2048) more.now }
    ensures { OnOk result (P.pairs pairs.new ≡ with_pairs (P.pairs pairs.old) more.now) }
{
    for pair in more {
        pairs.add(pair.0 as u16, pair.1 as u16)?;
    }
    Ok(())
}

/// The pairs that share: those of `same` and those of `share`.
fn sharing<P: Pairs>(
    alloc: Global,
    same: &[(u32, u32)],
    share: &[(u32, u32)],
) -> Result<P, AllocError>
    requires same { All (IsPairBelow 2048) same.now }
    requires share { All (IsPairBelow 2048) share.now }
    ensures { IfOk result (λ pairs. P.pairs pairs ≡ with_pairs (with_pairs [] same.now) share.now) }
{
    let mut pairs = P::empty(alloc);
    add_pairs(&mut pairs, same)?;
    add_pairs(&mut pairs, share)?;
    Ok(pairs)
}

/// Whether two inputs may be one object, by their types.
fn are_compatible(world: &World<'_>, a: &Input, b: &Input) -> bool
    ensures { result ≡ are_compatible (is_sub (classes_of world.now)) (cell_of a.now) (cell_of b.now) }
{
    match a {
        Input::Int(_) => false,
        Input::Ref(s, _, _) => match b {
            Input::Int(_) => false,
            Input::Ref(t, _, _) => world.sub(*s, *t) || world.sub(*t, *s),
        },
    }
}

/// Whether the inputs of a pair may be one object, by their types.
fn are_alike(world: &World<'_>, inputs: &[Input], pair: (u32, u32)) -> bool
    ensures { result ≡ are_alike (classes_of world.now) inputs.now pair }
{
    match inputs.get(pair.0 as usize) {
        Some(a) => match inputs.get(pair.1 as usize) {
            Some(b) => are_compatible(world, a, b),
            None => false,
        },
        None => false,
    }
}

/// Adds the pairs of inputs that may be one object by their types.
fn add_alike<P: Pairs>(
    pairs: &mut P,
    world: &World<'_>,
    inputs: &[Input],
    more: &[(u32, u32)],
) -> Result<(), AllocError>
    requires { All (IsPairBelow 2048) more.now }
    ensures { OnOk result
        (P.pairs pairs.new ≡ with_pairs (P.pairs pairs.old) (filter (are_alike (classes_of world.now) inputs.now) more.now)) }
{
    for pair in more {
        if are_alike(world, inputs, *pair) {
            pairs.add(pair.0 as u16, pair.1 as u16)?;
        }
    }
    Ok(())
}

/// The abstract state that a description begins with: the entry method at its start, where each input has its number as its id.
///
/// # Errors
///
/// Want of memory.
#[tactic(auto, using(crate::proofs::GoodDescs::same_below, crate::proofs::GoodDescs::share_below, crate::proofs::GoodDescs::inputs_few), unfolding(crate::specs::Initial::initial_of))]
pub fn initial<P: Pairs>(
    alloc: Global,
    desc: &Desc,
    program: &Program<'_>,
) -> Result<AbsState<P>, AllocError>
    requires { IsGoodDesc (program_of program.now) desc.now }
    ensures { IfOk result (λ state. state ≡ initial_of (program_of program.now) desc.now) }
{
    program.is_good();
    let method = program.methods.at(0);
    let frames = initial_frames(
        alloc,
        usize::from(method.max_locals),
        method.params.len(),
        program.statics.len(),
    )?;
    let inputs = desc.inputs.as_slice();
    let same = desc.same.as_slice();
    let shared = desc.share.as_slice();
    let mut eq = P::empty(alloc);
    add_alike(&mut eq, &program.world, inputs, same)?;
    let share = sharing(alloc, same, shared)?;
    let cells = cells_of(alloc, inputs)?;
    Ok(AbsState::new(frames, None, cells, eq, share))
}
