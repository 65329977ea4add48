//! States as they stand in a case.
use crate::json_cases::{
    count, field, flag, id, id_pairs, int, integer, item, natural, number, word,
};
use crate::state_cases::types::ty;
use abs_cells::{AbsFrame, AbsState, Cell, Id, Ids, Pairs};
use anyhow::{Context, Result, bail};
use class_world::World;
use json_view::View;
use jvm_values::{Kind, Shape};
use lin_core::Interval;
use list_views::Seq;
use std::alloc::Global;

/// The state that a value says, its pairs held in some form.
pub fn state<P: Pairs>(
    alloc: Global,
    world: &World<'_>,
    view: &View<'_, '_>,
) -> Result<AbsState<P>> {
    let throwing = Id::try_from(number(alloc, view, "throw")?).ok();
    let eq = pairs(alloc, view, "eq")?;
    let share = pairs(alloc, view, "share")?;
    with_pairs(alloc, world, view, throwing, eq, share)
}

fn with_pairs<P: Pairs>(
    alloc: Global,
    world: &World<'_>,
    view: &View<'_, '_>,
    throwing: Option<Id>,
    eq: P,
    share: P,
) -> Result<AbsState<P>> {
    let frames = frames(alloc, &field(alloc, view, "frames")?)?;
    let cells = cells(alloc, world, &field(alloc, view, "cells")?)?;
    Ok(AbsState::new(frames, throwing, cells, eq, share))
}

fn frames(alloc: Global, list: &View<'_, '_>) -> Result<Seq<AbsFrame>> {
    let mut frames = Seq::new(alloc);
    for n in 0..count(alloc, list)? {
        frames.push(frame(alloc, &item(alloc, list, n)?)?)?;
    }
    Ok(frames)
}

fn frame(alloc: Global, view: &View<'_, '_>) -> Result<AbsFrame> {
    let method = natural(alloc, view, 0)?;
    let pc = id(alloc, view, 1)?;
    let locals = locals(alloc, &item(alloc, view, 2)?)?;
    let stack = stack(alloc, &item(alloc, view, 3)?)?;
    Ok(AbsFrame::new(method, pc, locals, stack))
}

fn locals(alloc: Global, list: &View<'_, '_>) -> Result<Seq<Option<Id>>> {
    let mut locals = Seq::new(alloc);
    for n in 0..count(alloc, list)? {
        locals.push(Id::try_from(integer(alloc, list, n)?).ok())?;
    }
    Ok(locals)
}

fn stack(alloc: Global, list: &View<'_, '_>) -> Result<Seq<Id>> {
    let mut stack = Seq::new(alloc);
    for n in 0..count(alloc, list)? {
        stack.push(id(alloc, list, n)?)?;
    }
    Ok(stack)
}

fn cells(alloc: Global, world: &World<'_>, list: &View<'_, '_>) -> Result<Seq<(Id, Cell)>> {
    let mut cells = Seq::new(alloc);
    for n in 0..count(alloc, list)? {
        cells.push(named_cell(alloc, world, &item(alloc, list, n)?)?)?;
    }
    Ok(cells)
}

fn named_cell(alloc: Global, world: &World<'_>, view: &View<'_, '_>) -> Result<(Id, Cell)> {
    let name = id(alloc, view, 0)?;
    Ok((name, cell(alloc, world, view)?))
}

fn cell(alloc: Global, world: &World<'_>, view: &View<'_, '_>) -> Result<Cell> {
    match word(alloc, view, 1)? {
        "int" => interval(alloc, view),
        "null" => Ok(Cell::Null),
        "obj" => obj(alloc, view),
        "nums" => nums(alloc, view),
        "refs" => refs(alloc, world, view),
        "unk" => unk(alloc, world, view),
        _ => bail!("the cell is not known"),
    }
}

fn obj(alloc: Global, view: &View<'_, '_>) -> Result<Cell> {
    let class = natural(alloc, view, 2)?;
    Ok(Cell::Obj(class, ids(alloc, &item(alloc, view, 3)?)?))
}

fn nums(alloc: Global, view: &View<'_, '_>) -> Result<Cell> {
    let kind = kind(alloc, view)?;
    Ok(Cell::Nums(kind, id(alloc, view, 3)?))
}

fn refs(alloc: Global, world: &World<'_>, view: &View<'_, '_>) -> Result<Cell> {
    let element = ty(world, word(alloc, view, 2)?)?;
    let len = id(alloc, view, 3)?;
    Ok(Cell::Refs(element, len, shape(word(alloc, view, 4)?)?))
}

fn unk(alloc: Global, world: &World<'_>, view: &View<'_, '_>) -> Result<Cell> {
    let bound = ty(world, word(alloc, view, 2)?)?;
    let nullable = flag(alloc, view, 3)?;
    Ok(Cell::Unk(bound, nullable, shape(word(alloc, view, 4)?)?))
}

fn kind(alloc: Global, view: &View<'_, '_>) -> Result<Kind> {
    let code = u8::try_from(natural(alloc, view, 2)?)
        .ok()
        .context("the kind is not known")?;
    Kind::of_code(code).context("the kind is not known")
}

fn interval(alloc: Global, view: &View<'_, '_>) -> Result<Cell> {
    let interval = Interval::new(int(alloc, view, 2)?, int(alloc, view, 3)?);
    Ok(Cell::Int(interval.context("the interval is empty")?))
}

fn ids(alloc: Global, list: &View<'_, '_>) -> Result<Ids> {
    let mut ids = Ids::new(alloc);
    for n in 0..count(alloc, list)? {
        ids.push(id(alloc, list, n)?)?;
    }
    Ok(ids)
}

fn shape(word: &str) -> Result<Shape> {
    match word {
        "tree" => Ok(Shape::Tree),
        "dag" => Ok(Shape::Dag),
        "any" => Ok(Shape::Any),
        _ => bail!("the shape is not known"),
    }
}

/// The pairs in the field `name` of a state.
fn pairs<P: Pairs>(alloc: Global, view: &View<'_, '_>, name: &str) -> Result<P> {
    let listed = id_pairs(alloc, &field(alloc, view, name)?)?;
    pairs_of(alloc, listed.as_slice())
}

fn pairs_of<P: Pairs>(alloc: Global, listed: &[(Id, Id)]) -> Result<P> {
    let mut pairs = P::empty(alloc);
    for (a, b) in listed {
        put_pair(&mut pairs, *a, *b)?;
    }
    Ok(pairs)
}

fn put_pair<P: Pairs>(pairs: &mut P, a: Id, b: Id) -> Result<()> {
    if a == b || a >= 2048 || b >= 2048 {
        bail!("two low ids are wanted");
    }
    pairs.add(a, b)?;
    Ok(())
}
