//! Cells.
ghost use Rattle.std.specs.Prelude.{◌≡◌, ◌<◌};
ghost use Rattle.json_view.specs.Located.{located};
ghost use Rattle.json_view.specs.Reading.{item_count, flag_of};
ghost use Rattle.cert_form.specs.Answers.{Says, json};
ghost use Rattle.cert_form.specs.Fields.{nth, of_length, next_key};
ghost use Rattle.cert_form.specs.Cells.{cell_length, up_to, int_cell, ids_of, obj_cell, nums_cell, refs_cell, unk_cell, cell_of};
ghost use Rattle.cert_form.specs.Cells.{keyed_cell, cell_in};

use crate::fault::CertFault;
use crate::lists::{Said, list};
use crate::names::ClassNames;
use crate::numbers::{int, nth_id, nth_int, nth_number, ordered};
use crate::types::{nth_kind, nth_shape, nth_type};
use crate::values::{flag, items, out, wrong};
use crate::words::{Word, word_in};
use abs_cells::{Cell, Id, Ids};
use json_view::View;
use lin_core::Interval;
use list_views::Seq;
use std::alloc::Global;

/// The words of cells.
#[derive(Clone, Copy, PartialEq, Eq)]
pub(crate) enum CellWord {
    /// An int.
    Int,
    /// Null.
    Null,
    /// An instance of exactly one class.
    Obj,
    /// An array of numbers.
    Nums,
    /// An array of references.
    Refs,
    /// Some object, or null.
    Unk,
}

impl Word for CellWord {
    ghost use Rattle.cert_form.specs.Cells.{cell_word};

    ghost means = { cell_word };

    fn of(word: &str) -> Option<CellWord> {
        match word {
            "int" => Some(CellWord::Int),
            "null" => Some(CellWord::Null),
            "obj" => Some(CellWord::Obj),
            "nums" => Some(CellWord::Nums),
            "refs" => Some(CellWord::Refs),
            "unk" => Some(CellWord::Unk),
            _ => None,
        }
    }
}

impl CellWord {
    /// How many entries a cell of the word has.
    fn length(self) -> usize
        ensures { result ≡ cell_length self }
    {
        match self {
            CellWord::Int => 4,
            CellWord::Null => 2,
            CellWord::Obj => 4,
            CellWord::Nums => 4,
            CellWord::Refs => 5,
            CellWord::Unk => 5,
        }
    }
}

/// The interval from an int on.
#[tactic(auto, unfolding(crate::specs::Cells::up_to))]
fn up_to(alloc: Global, view: &View<'_, '_>, lo: i32) -> Result<Cell, CertFault>
    ensures { Says result (up_to lo (located view.now)) }
{
    let hi = int(alloc, view)?;
    match Interval::new(lo, hi) {
        Some(interval) => Ok(Cell::Int(interval)),
        None => out(alloc, view),
    }
}

/// Entry `n` of a list as the end of an interval.
#[tactic(auto, unfolding(crate::specs::Fields::nth))]
fn nth_up_to(alloc: Global, view: &View<'_, '_>, n: usize, lo: i32) -> Result<Cell, CertFault>
    requires { n < item_count (located view.now).value }
    ensures { Says result (nth n (up_to lo) (located view.now)) }
{
    up_to(alloc, &view.item(n), lo)
}

/// What stands behind the word of an int.
#[tactic(auto, unfolding(crate::specs::Cells::int_cell))]
fn int_cell(alloc: Global, view: &View<'_, '_>) -> Result<Cell, CertFault>
    requires { item_count (located view.now).value ≡ 4 }
    ensures { Says result (int_cell (located view.now)) }
{
    let lo = nth_int(alloc, view, 2)?;
    nth_up_to(alloc, view, 3, lo)
}

/// A list of ids.
#[tactic(auto, unfolding(crate::specs::Cells::ids_of, crate::specs::Fields::nth))]
pub(crate) fn nth_ids(alloc: Global, view: &View<'_, '_>, n: usize) -> Result<Seq<Id>, CertFault>
    requires { n < item_count (located view.now).value }
    ensures { Says result (nth n ids_of (located view.now)) }
{
    list(alloc, &(), &view.item(n))
}

/// What stands behind the word of an instance.
#[tactic(auto, unfolding(crate::specs::Cells::obj_cell))]
fn obj_cell(alloc: Global, view: &View<'_, '_>) -> Result<Cell, CertFault>
    requires { item_count (located view.now).value ≡ 4 }
    ensures { Says result (obj_cell (located view.now)) }
{
    let class = nth_number(alloc, view, 2)?;
    let ids = nth_ids(alloc, view, 3)?;
    Ok(Cell::Obj(class, Ids::from_slice(alloc, ids.as_slice())?))
}

/// What stands behind the word of an array of numbers.
#[tactic(auto, unfolding(crate::specs::Cells::nums_cell))]
fn nums_cell(alloc: Global, view: &View<'_, '_>) -> Result<Cell, CertFault>
    requires { item_count (located view.now).value ≡ 4 }
    ensures { Says result (nums_cell (located view.now)) }
{
    let kind = nth_kind(alloc, view, 2)?;
    let length = nth_id(alloc, view, 3)?;
    Ok(Cell::Nums(kind, length))
}

/// What stands behind the word of an array of references.
#[tactic(auto, unfolding(crate::specs::Cells::refs_cell))]
fn refs_cell(alloc: Global, names: &ClassNames, view: &View<'_, '_>) -> Result<Cell, CertFault>
    requires { item_count (located view.now).value ≡ 5 }
    ensures { Says result (refs_cell names.now (located view.now)) }
{
    let element = nth_type(alloc, names, view, 2)?;
    let length = nth_id(alloc, view, 3)?;
    let shape = nth_shape(alloc, view, 4)?;
    Ok(Cell::Refs(element, length, shape))
}

/// A truth value.
#[tactic(auto, unfolding(crate::specs::Fields::nth))]
fn nth_flag(alloc: Global, view: &View<'_, '_>, n: usize) -> Result<bool, CertFault>
    requires { n < item_count (located view.now).value }
    ensures { Says result (nth n (λ there. json (flag_of there)) (located view.now)) }
{
    flag(alloc, &view.item(n))
}

/// What stands behind the word of some object.
#[tactic(auto, unfolding(crate::specs::Cells::unk_cell))]
fn unk_cell(alloc: Global, names: &ClassNames, view: &View<'_, '_>) -> Result<Cell, CertFault>
    requires { item_count (located view.now).value ≡ 5 }
    ensures { Says result (unk_cell names.now (located view.now)) }
{
    let bound = nth_type(alloc, names, view, 2)?;
    let nullable = nth_flag(alloc, view, 3)?;
    let shape = nth_shape(alloc, view, 4)?;
    Ok(Cell::Unk(bound, nullable, shape))
}

/// What stands behind the word.
fn cell(
    alloc: Global,
    names: &ClassNames,
    word: CellWord,
    view: &View<'_, '_>,
) -> Result<Cell, CertFault>
    requires { item_count (located view.now).value ≡ cell_length word }
    ensures { Says result (cell_of names.now word (located view.now)) }
{
    match word {
        CellWord::Int => int_cell(alloc, view),
        CellWord::Null => Ok(Cell::Null),
        CellWord::Obj => obj_cell(alloc, view),
        CellWord::Nums => nums_cell(alloc, view),
        CellWord::Refs => refs_cell(alloc, names, view),
        CellWord::Unk => unk_cell(alloc, names, view),
    }
}

/// The least id that may come next.
fn next_id(front: &[(Id, Cell)]) -> usize
    ensures { result ≡ next_key front.now }
{
    match front.get(front.len().saturating_sub(1)) {
        Some(last) => last.0 as usize + 1,
        None => 0,
    }
}

/// A cell with its id.
#[tactic(auto, unfolding(crate::specs::Cells::keyed_cell))]
fn keyed_cell(
    alloc: Global,
    names: &ClassNames,
    front: &[(Id, Cell)],
    word: CellWord,
    view: &View<'_, '_>,
) -> Result<(Id, Cell), CertFault>
    requires { item_count (located view.now).value ≡ cell_length word }
    ensures { Says result (keyed_cell names.now front.now word (located view.now)) }
{
    let id = nth_id(alloc, view, 0)?;
    ordered(alloc, view, next_id(front) <= id as usize)?;
    let cell = cell(alloc, names, word, view)?;
    Ok((id, cell))
}

impl Said<ClassNames> for (Id, Cell) {
    ghost use Rattle.cert_form.specs.Cells.{cell_in};

    ghost reader = { cell_in };

    #[tactic(auto, unfolding(crate::specs::Cells::cell_in, crate::specs::Fields::of_length))]
    fn read(
        alloc: Global,
        names: &ClassNames,
        front: &[(Id, Cell)],
        view: &View<'_, '_>,
    ) -> Result<(Id, Cell), CertFault> {
        let word: CellWord = word_in(alloc, view, 1)?;
        if items(alloc, view)? == word.length() {
            keyed_cell(alloc, names, front, word, view)
        } else {
            wrong(alloc, view)
        }
    }
}
