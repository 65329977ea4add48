//! Patterns of ids: `term`.
ghost use Rattle.std.specs.Prelude.{not, IsTrue};
ghost use Rattle.abs_cells.specs.Cells.{is_int, HasCell};
ghost use Rattle.abs_cells.specs.Sound.{AreIdsRising, IsWellFormed};

use crate::states::ids::id;
use abs_cells::{AbsState, Id, Pairs, well_formed};
use abs_reach::{Marks, cell_of};
use anyhow::{Result, bail};
use class_world::World;
use std::alloc::{AllocError, Global};
use table_cases::state_cases::{StateAnswers, state_in};
use table_cases::{Case, put_comma, put_number, put_numbered, said};
use term_enc::{PatternTerm, encode};

/// The cases of patterns.
pub struct Patterns;

impl StateAnswers for Patterns {
    fn answer<P: Pairs>(alloc: Global, world: &World<'_>, case: &Case<'_>) -> Result<String> {
        let state = state_in::<P>(alloc, world, case.text(1)?)?;
        of_state(alloc, &state, case.text(0)?)
    }
}

fn of_state<P: Pairs>(alloc: Global, state: &AbsState<P>, word: &str) -> Result<String> {
    if !well_formed(state) {
        bail!("the state is not well-formed");
    }
    told(alloc, state, word)
}

/// The pattern of the id that a word says.
fn told<P: Pairs>(alloc: Global, state: &AbsState<P>, word: &str) -> Result<String>
    requires { IsWellFormed state.now }
{
    let x = id(state, word)?;
    if !is_no_int(state, x) {
        bail!("the id is an int's");
    }
    of_id(alloc, state, x)
}

/// Whether an id's cell is none of an int.
fn is_no_int<P: Pairs>(state: &AbsState<P>, x: Id) -> bool
    requires { AreIdsRising 0 state.now.cells }
    ensures { IsTrue result → HasCell (λ cell. not (is_int cell)) state.now x }
{
    match cell_of(state.cells(), x) {
        Some(cell) => !cell.is_int(),
        None => false,
    }
}

fn of_id<P: Pairs>(alloc: Global, state: &AbsState<P>, x: Id) -> Result<String>
    requires good { IsWellFormed state.now }
    requires there { HasCell (λ cell. not (is_int cell)) state.now x }
{
    let mut marks = Marks::new(alloc)?;
    match encode(alloc, state, x, &mut marks)? {
        None => said(alloc, "None"),
        Some(term) => Ok(text_of(alloc, &term)?),
    }
}

fn text_of(alloc: Global, term: &PatternTerm) -> Result<String, AllocError> {
    let mut text = String::new(alloc);
    put_pattern(&mut text, term)?;
    Ok(text)
}

/// Adds a pattern.
fn put_pattern(text: &mut String, term: &PatternTerm) -> Result<(), AllocError> {
    match term {
        PatternTerm::Null => text.push_str("null"),
        PatternTerm::Leaf => text.push_str("leaf"),
        PatternTerm::Var(id) => put_numbered(text, "x", i64::from(*id)),
        PatternTerm::Node(class, children) => {
            put_number(text, i64::from(*class))?;
            text.push('(')?;
            for (place, child) in children.iter().enumerate() {
                put_comma(text, place)?;
                put_pattern(text, child)?;
            }
            text.push(')')
        }
    }
}
