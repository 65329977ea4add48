//! States that break one rule each of well-formed states.
use abs_cells::{AbsFrame, AbsState, Cell, Id, Ids, PackedPairs, Pairs, well_formed};
use jvm_values::{Base, Kind, Shape, Ty};
use lin_core::Interval;
use list_views::Seq;
use std::alloc::{AllocError, Global};
use std::test::Fail;

/// The cell of the id `id`: 0 is an instance with the fields 1 and 2, 1 and 3 are of any type, 2 is an int, 4 is null, 5 an
/// array of ints whose length is 2.
fn cell(alloc: Global, id: Id) -> Result<Cell, AllocError> {
    Ok(match id {
        0 => Cell::Obj(15, Ids::from_slice(alloc, &[1, 2])?),
        2 => int_cell(),
        4 => Cell::Null,
        5 => Cell::Nums(Kind::Int, 2),
        _ => Cell::Unk(
            Ty {
                dims: 0,
                base: Base::Class(0),
            },
            true,
            Shape::Tree,
        ),
    })
}

/// The cell of an int from 0 to 7.
fn int_cell() -> Cell {
    match Interval::new(0, 7) {
        Some(interval) => Cell::Int(interval),
        None => Cell::Null,
    }
}

/// Some pairs, of which each has two ids below 2,048.
fn pairs(alloc: Global, listed: &[(Id, Id)]) -> Result<PackedPairs, AllocError> {
    let mut pairs = PackedPairs::empty(alloc);
    for (a, b) in listed {
        if *a != *b && *a < 2048 && *b < 2048 {
            pairs.add(*a, *b)?;
        }
    }
    Ok(pairs)
}

fn cells_of(alloc: Global, ids: &[Id]) -> Result<Seq<(Id, Cell)>, AllocError> {
    let mut cells = Seq::new(alloc);
    for id in ids {
        push_cell(&mut cells, *id, cell(alloc, *id)?)?;
    }
    Ok(cells)
}

fn frames_of(alloc: Global, locals: &[Option<Id>]) -> Result<Seq<AbsFrame>, AllocError> {
    let locals = Seq::from_slice(alloc, locals)?;
    let mut frames = Seq::new(alloc);
    push_frame(&mut frames, AbsFrame::new(0, 0, locals, Seq::new(alloc)))?;
    Ok(frames)
}

/// Whether the state of these ids, of a frame with these locals and of these pairs is well-formed.
fn is_good(
    alloc: Global,
    ids: &[Id],
    locals: &[Option<Id>],
    eq: &[(Id, Id)],
    share: &[(Id, Id)],
) -> Result<bool, AllocError> {
    let frames = frames_of(alloc, locals)?;
    is_good_with(alloc, frames, cells_of(alloc, ids)?, eq, share)
}

fn is_good_with(
    alloc: Global,
    frames: Seq<AbsFrame>,
    cells: Seq<(Id, Cell)>,
    eq: &[(Id, Id)],
    share: &[(Id, Id)],
) -> Result<bool, AllocError> {
    let eq = pairs(alloc, eq)?;
    let share = pairs(alloc, share)?;
    let state = AbsState::new(frames, None, cells, eq, share);
    Ok(well_formed(&state))
}

fn push_cell(cells: &mut Seq<(Id, Cell)>, id: Id, cell: Cell) -> Result<(), AllocError> {
    cells.push((id, cell)).map_err(|_| AllocError)
}

fn push_frame(frames: &mut Seq<AbsFrame>, frame: AbsFrame) -> Result<(), AllocError> {
    frames.push(frame).map_err(|_| AllocError)
}

#[test]
fn a_state_whose_ids_break_a_rule_is_not(rt: HostRuntime) -> Result<(), Fail> {
    let alloc = rt.alloc();
    let without_cell = is_good(alloc, &[0, 1, 2, 3, 4, 5], &[Some(6)], &[], &[])?;
    assert!(rt; !without_cell);
    let field_without_cell = is_good(alloc, &[0, 1], &[Some(0)], &[], &[])?;
    assert!(rt; !field_without_cell);
    let falling = is_good(alloc, &[1, 0, 2], &[], &[], &[])?;
    assert!(rt; !falling);
    let twice = is_good(alloc, &[1, 1], &[], &[], &[])?;
    assert!(rt; !twice);
    let too_large = is_good(alloc, &[1, 2048], &[], &[], &[])?;
    assert!(rt; !too_large);
    Ok(())
}

#[test]
fn a_state_whose_pairs_break_a_rule_is_not(rt: HostRuntime) -> Result<(), Fail> {
    let alloc = rt.alloc();
    let ids = [0, 1, 2, 3, 4, 5];
    let unshared = is_good(alloc, &ids, &[], &[(1, 3)], &[(0, 3)])?;
    assert!(rt; !unshared);
    let of_an_int = is_good(alloc, &ids, &[], &[], &[(1, 2)])?;
    assert!(rt; !of_an_int);
    let of_null = is_good(alloc, &ids, &[], &[], &[(4, 3)])?;
    assert!(rt; !of_null);
    let of_none = is_good(alloc, &ids, &[], &[], &[(3, 7)])?;
    assert!(rt; !of_none);
    let both_known = is_good(alloc, &ids, &[], &[], &[(0, 5)])?;
    assert!(rt; !both_known);
    Ok(())
}

#[test]
fn a_state_taken_apart_and_put_together_is_as_before(rt: HostRuntime) -> Result<(), Fail> {
    let alloc = rt.alloc();
    let frames = frames_of(alloc, &[Some(0), None])?;
    let cells = cells_of(alloc, &[0, 1, 2, 3])?;
    let share = pairs(alloc, &[(0, 3), (1, 3)])?;
    let state = AbsState::new(frames, Some(1), cells, pairs(alloc, &[(1, 3)])?, share);
    let parts = state.into_parts();
    let again = AbsState::new(
        parts.frames,
        parts.throwing,
        parts.cells,
        parts.eq,
        parts.share,
    );
    assert!(rt; well_formed(&again));
    assert!(rt; again.throwing() == Some(1));
    assert!(rt; again.cells().len() == 4);
    assert!(rt; again.eq().has(1, 3) && !again.eq().has(0, 3));
    assert!(rt; again.share().has(0, 3) && again.share().has(1, 3));
    Ok(())
}
