//! States, links and children in words.
use crate::entry_cases::{kind_letter, put_class, put_descriptor};
use crate::{put_comma, put_count, put_number, put_numbered};
use abs_cells::{AbsFrame, AbsState, Cell, Id, Pairs};
use class_world::World;
use jvm_values::{Base, Shape, Ty};
use lin_core::RowKind;
use std::alloc::{AllocError, Global};
use term_graph::{Child, Link, LinkRow, Side};

/// The children, each with its link and its state.
pub fn children<P: Pairs>(
    alloc: Global,
    world: &World<'_>,
    children: &[Child<P>],
) -> Result<String, AllocError> {
    let mut line = String::from_str(alloc, "Children ")?;
    put_count(&mut line, children.len())?;
    for child in children {
        put_child(&mut line, world, child)?;
    }
    Ok(line)
}

/// A child: its link and its state, behind a stroke.
pub fn put_child<P: Pairs>(
    line: &mut String,
    world: &World<'_>,
    child: &Child<P>,
) -> Result<(), AllocError> {
    line.push_str(" | ")?;
    put_link(line, child.link())?;
    line.push(' ')?;
    put_state(line, world, child.state())
}

fn put_link(line: &mut String, link: &Link) -> Result<(), AllocError> {
    line.push_str(if link.step { "step" } else { "stay" })?;
    if let Some((goes, stays)) = link.merged {
        put_merged(line, goes, stays)?;
    }
    for row in link.rows.as_slice() {
        put_row(line, row)?;
    }
    Ok(())
}

fn put_merged(line: &mut String, goes: Id, stays: Id) -> Result<(), AllocError> {
    put_numbered(line, " merged=", i64::from(goes))?;
    put_numbered(line, ",", i64::from(stays))
}

fn put_row(line: &mut String, row: &LinkRow) -> Result<(), AllocError> {
    let kind = match row.kind {
        RowKind::AtLeastZero => " ge:",
        RowKind::IsZero => " eq:",
    };
    put_numbered(line, kind, row.constant)?;
    line.push(':')?;
    let terms = row.terms.as_slice();
    let some = put_side(line, terms, Side::Before, 'b', false)?;
    put_side(line, terms, Side::After, 'a', some)?;
    Ok(())
}

/// The terms of a side by rising id, each id once, and none whose coefficients have the sum 0. The answer is whether there is a term so far.
fn put_side(
    line: &mut String,
    terms: &[(Side, Id, i64)],
    side: Side,
    letter: char,
    before: bool,
) -> Result<bool, AllocError> {
    let mut some = before;
    let mut from = 0u32;
    for _ in 0..terms.len() {
        let Some(id) = least_id(terms, side, from) else {
            break;
        };
        let times = sum_of(terms, side, id);
        if times != 0 {
            put_comma(line, usize::from(some))?;
            put_term(line, letter, id, times)?;
            some = true;
        }
        from = u32::from(id) + 1;
    }
    Ok(some)
}

fn put_term(line: &mut String, letter: char, id: Id, times: i64) -> Result<(), AllocError> {
    line.push(letter)?;
    put_number(line, i64::from(id))?;
    put_numbered(line, "*", times)
}

/// The least id of a side from a number on.
fn least_id(terms: &[(Side, Id, i64)], side: Side, from: u32) -> Option<Id> {
    let mut least: Option<Id> = None;
    for (other, id, _) in terms {
        if *other == side && u32::from(*id) >= from {
            least = match least {
                Some(lower) if lower <= *id => Some(lower),
                _ => Some(*id),
            };
        }
    }
    least
}

/// The sum of the coefficients of an id of a side.
fn sum_of(terms: &[(Side, Id, i64)], side: Side, id: Id) -> i64 {
    let mut sum = 0i64;
    for (other, name, times) in terms {
        if *other == side && *name == id {
            sum = sum.saturating_add(*times);
        }
    }
    sum
}

/// A state as compact JSON.
pub fn put_state<P: Pairs>(
    line: &mut String,
    world: &World<'_>,
    state: &AbsState<P>,
) -> Result<(), AllocError> {
    put_cells(line, "{\"cells\":[", world, state.cells())?;
    put_pairs(line, ",\"eq\":[", state.eq())?;
    put_frames(line, ",\"frames\":[", state.frames())?;
    put_pairs(line, ",\"share\":[", state.share())?;
    put_numbered(line, ",\"throw\":", number_of(state.throwing()))?;
    line.push('}')
}

/// An id as a number, and -1 for none.
fn number_of(id: Option<Id>) -> i64 {
    match id {
        Some(id) => i64::from(id),
        None => -1,
    }
}

/// A comma in front of each item of a list but the first.
fn comma_before(place: usize) -> &'static str {
    if place > 0 { "," } else { "" }
}

/// The bracket that opens an item, behind a comma for each item but the first.
fn bracket_before(place: usize) -> &'static str {
    if place > 0 { ",[" } else { "[" }
}

fn put_frames(line: &mut String, head: &str, frames: &[AbsFrame]) -> Result<(), AllocError> {
    line.push_str(head)?;
    for (place, frame) in frames.iter().enumerate() {
        put_frame(line, bracket_before(place), frame)?;
    }
    line.push(']')
}

fn put_frame(line: &mut String, head: &str, frame: &AbsFrame) -> Result<(), AllocError> {
    put_numbered(line, head, i64::from(frame.method()))?;
    put_numbered(line, ",", i64::from(frame.pc()))?;
    put_locals(line, frame.locals())?;
    put_ids(line, frame.stack())?;
    line.push(']')
}

/// A comma and the locals.
fn put_locals(line: &mut String, locals: &[Option<Id>]) -> Result<(), AllocError> {
    line.push_str(",[")?;
    for (place, local) in locals.iter().enumerate() {
        put_numbered(line, comma_before(place), number_of(*local))?;
    }
    line.push(']')
}

/// A comma and the ids.
fn put_ids(line: &mut String, ids: &[Id]) -> Result<(), AllocError> {
    line.push_str(",[")?;
    for (place, id) in ids.iter().enumerate() {
        put_numbered(line, comma_before(place), i64::from(*id))?;
    }
    line.push(']')
}

fn put_pairs<P: Pairs>(line: &mut String, head: &str, pairs: &P) -> Result<(), AllocError> {
    line.push_str(head)?;
    for n in 0..usize::MAX {
        match pairs.nth(n) {
            Some((a, b)) => put_pair(line, bracket_before(n), a, b)?,
            None => break,
        }
    }
    line.push(']')
}

fn put_pair(line: &mut String, head: &str, a: Id, b: Id) -> Result<(), AllocError> {
    put_numbered(line, head, i64::from(a))?;
    put_numbered(line, ",", i64::from(b))?;
    line.push(']')
}

fn put_cells(
    line: &mut String,
    head: &str,
    world: &World<'_>,
    cells: &[(Id, Cell)],
) -> Result<(), AllocError> {
    line.push_str(head)?;
    for (place, (id, cell)) in cells.iter().enumerate() {
        put_numbered(line, bracket_before(place), i64::from(*id))?;
        put_cell(line, world, cell)?;
    }
    line.push(']')
}

/// What follows the id of a cell, with the bracket behind it.
fn put_cell(line: &mut String, world: &World<'_>, cell: &Cell) -> Result<(), AllocError> {
    match cell {
        Cell::Int(ints) => put_two(line, ",\"int\",", ints.lo(), ints.hi()),
        Cell::Null => line.push_str(",\"null\"]"),
        Cell::Obj(class, ids) => put_obj(line, *class, ids.as_slice()),
        Cell::Nums(kind, len) => {
            put_two(line, ",\"nums\",", i32::from(kind.code()), i32::from(*len))
        }
        Cell::Refs(element, len, shape) => put_refs(line, world, *element, *len, *shape),
        Cell::Unk(bound, nullable, shape) => put_unk(line, world, *bound, *nullable, *shape),
    }
}

fn put_two(line: &mut String, word: &str, first: i32, second: i32) -> Result<(), AllocError> {
    put_numbered(line, word, i64::from(first))?;
    put_numbered(line, ",", i64::from(second))?;
    line.push(']')
}

fn put_obj(line: &mut String, class: u32, ids: &[Id]) -> Result<(), AllocError> {
    put_numbered(line, ",\"obj\",", i64::from(class))?;
    put_ids(line, ids)?;
    line.push(']')
}

fn put_refs(
    line: &mut String,
    world: &World<'_>,
    element: Ty,
    len: Id,
    shape: Shape,
) -> Result<(), AllocError> {
    line.push_str(",\"refs\",\"")?;
    put_type(line, world, element)?;
    put_numbered(line, "\",", i64::from(len))?;
    line.push_str(shape_word(shape))
}

fn put_unk(
    line: &mut String,
    world: &World<'_>,
    bound: Ty,
    nullable: bool,
    shape: Shape,
) -> Result<(), AllocError> {
    line.push_str(",\"unk\",\"")?;
    put_type(line, world, bound)?;
    line.push_str(if nullable { "\",true" } else { "\",false" })?;
    line.push_str(shape_word(shape))
}

/// A shape behind a comma, with the bracket behind it.
fn shape_word(shape: Shape) -> &'static str {
    match shape {
        Shape::Tree => ",\"tree\"]",
        Shape::Dag => ",\"dag\"]",
        Shape::Any => ",\"any\"]",
    }
}

/// The word of a type: the name of a class, or the descriptor of an array type.
fn put_type(line: &mut String, world: &World<'_>, t: Ty) -> Result<(), AllocError> {
    if t.dims > 0 {
        return put_descriptor(line, world, t);
    }
    match t.base {
        Base::Num(kind) => line.push(kind_letter(kind)),
        Base::Class(class) => put_class(line, world, class),
    }
}
