//! States.
ghost use Rattle.std.specs.Prelude.{◌≡◌, [], IfOk};
ghost use Rattle.serde_json.specs.View.{view};
ghost use Rattle.abs_cells.specs.declared.cells.Cell.TheVariants as cells;
ghost use Rattle.cert_form.specs.cert_write.Data.{cell, pairs, state};

use crate::cert_write::lists::{Written, list, maybe_id, together, word};
use crate::cert_write::types::{Words, shape_word, type_word};
use abs_cells::{AbsFrame, AbsState, Cell, Id, Pairs};
use jvm_values::{Kind, Shape, Ty};
use lin_core::Interval;
use serde_json::{Map, Value, put};
use std::alloc::{AllocError, Global};

impl Written<Words<'_>> for (Id, Cell) {
    ghost use Rattle.cert_form.specs.cert_write.Data.{cell};

    ghost written = { λ words. cell words.names.now };

    fn value(&self, alloc: Global, words: &Words<'_>) -> Result<Value, AllocError> {
        let id = self.0;
        match &self.1 {
            Cell::Int(bounds) => int_cell(alloc, id, *bounds),
            Cell::Null => null_cell(alloc, id),
            Cell::Obj(class, ids) => obj_cell(alloc, id, *class, ids.as_slice()),
            Cell::Nums(kind, length) => nums_cell(alloc, id, *kind, *length),
            Cell::Refs(element, length, shape) => {
                refs_cell(alloc, words, id, *element, *length, *shape)
            }
            Cell::Unk(bound, nullable, shape) => {
                unk_cell(alloc, words, id, *bound, *nullable, *shape)
            }
        }
    }
}

/// An int.
fn int_cell(alloc: Global, id: Id, bounds: Interval) -> Result<Value, AllocError>
    ensures { IfOk result (λ v. view v ≡ cell [] (id, cells.Int bounds)) }
{
    let kind = word(alloc, "int")?;
    together(
        alloc,
        [
            Value::from(id),
            kind,
            Value::from(bounds.lo()),
            Value::from(bounds.hi()),
        ],
    )
}

/// Null.
fn null_cell(alloc: Global, id: Id) -> Result<Value, AllocError>
    ensures { IfOk result (λ v. view v ≡ cell [] (id, cells.Null)) }
{
    let kind = word(alloc, "null")?;
    together(alloc, [Value::from(id), kind])
}

/// An instance of exactly one class.
fn obj_cell(alloc: Global, id: Id, class: u32, ids: &[Id]) -> Result<Value, AllocError>
    ensures { IfOk result (λ v. view v ≡ cell [] (id, cells.Obj class ids.now)) }
{
    let ids = list(alloc, &(), ids)?;
    let kind = word(alloc, "obj")?;
    together(alloc, [Value::from(id), kind, Value::from(class), ids])
}

/// An array of numbers.
fn nums_cell(alloc: Global, id: Id, kind: Kind, length: Id) -> Result<Value, AllocError>
    ensures { IfOk result (λ v. view v ≡ cell [] (id, cells.Nums kind length)) }
{
    let items = word(alloc, "nums")?;
    together(
        alloc,
        [
            Value::from(id),
            items,
            Value::from(kind.code()),
            Value::from(length),
        ],
    )
}

/// An array of references.
fn refs_cell(
    alloc: Global,
    words: &Words<'_>,
    id: Id,
    element: Ty,
    length: Id,
    shape: Shape,
) -> Result<Value, AllocError>
    ensures { IfOk result (λ v. view v ≡ cell words.now.names.now (id, cells.Refs element length shape)) }
{
    let kind = word(alloc, "refs")?;
    let element = Value::String(type_word(alloc, words, element)?);
    let shape = word(alloc, shape_word(shape))?;
    together(
        alloc,
        [Value::from(id), kind, element, Value::from(length), shape],
    )
}

/// Some object, or null.
fn unk_cell(
    alloc: Global,
    words: &Words<'_>,
    id: Id,
    bound: Ty,
    nullable: bool,
    shape: Shape,
) -> Result<Value, AllocError>
    ensures { IfOk result (λ v. view v ≡ cell words.now.names.now (id, cells.Unk bound nullable shape)) }
{
    let kind = word(alloc, "unk")?;
    let bound = Value::String(type_word(alloc, words, bound)?);
    let shape = word(alloc, shape_word(shape))?;
    together(
        alloc,
        [Value::from(id), kind, bound, Value::Bool(nullable), shape],
    )
}

impl Written<()> for AbsFrame {
    ghost use Rattle.cert_form.specs.cert_write.Data.{frame};

    ghost written = { λ _. frame };

    fn value(&self, alloc: Global, _: &()) -> Result<Value, AllocError> {
        let locals = list(alloc, &(), self.locals())?;
        let stack = list(alloc, &(), self.stack())?;
        together(
            alloc,
            [
                Value::from(self.method()),
                Value::from(self.pc()),
                locals,
                stack,
            ],
        )
    }
}

/// The pairs of a set, as a list.
fn pairs<P: Pairs>(alloc: Global, set: &P) -> Result<Value, AllocError>
    ensures { IfOk result (λ v. view v ≡ pairs (P.pairs set.now)) }
{
    let listed = set.list(alloc)?;
    list(alloc, &(), &listed)
}

/// A state.
pub(crate) fn state<P: Pairs>(
    alloc: Global,
    words: &Words<'_>,
    abs: &AbsState<P>,
) -> Result<Value, AllocError>
    ensures { IfOk result (λ v. view v ≡ state words.now.names.now abs.now) }
{
    let mut members = Map::new(alloc);
    let cells = list(alloc, words, abs.cells())?;
    put(&mut members, alloc, "cells", cells)?;
    let eq = pairs(alloc, abs.eq())?;
    put(&mut members, alloc, "eq", eq)?;
    let frames = list(alloc, &(), abs.frames())?;
    put(&mut members, alloc, "frames", frames)?;
    let share = pairs(alloc, abs.share())?;
    put(&mut members, alloc, "share", share)?;
    put(&mut members, alloc, "throw", maybe_id(abs.throwing()))?;
    Ok(Value::Object(members))
}
