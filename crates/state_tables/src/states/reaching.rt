//! The five tests: `known`, `meet`, `in`, `tree` and `finite`.
ghost use Rattle.std.specs.Prelude.{true};
ghost use Rattle.abs_cells.specs.Cells.{HasCell};
ghost use Rattle.abs_cells.specs.Sound.{IsWellFormed};

use crate::states::ids::id;
use abs_cells::{AbsState, Id, Pairs, well_formed};
use abs_reach::{Marks, is_finite, is_tree, known_from, may_be_in, may_meet};
use anyhow::{Result, bail};
use class_world::World;
use std::alloc::{AllocError, Global};
use table_cases::state_cases::{StateAnswers, state_in};
use table_cases::{Case, put_number, said};

/// The cases of the five tests.
pub struct Reaching;

impl StateAnswers for Reaching {
    fn answer<P: Pairs>(alloc: Global, world: &World<'_>, case: &Case<'_>) -> Result<String> {
        let state = state_in::<P>(alloc, world, case.text(1)?)?;
        of_state(alloc, case.table(), &state, case.text(0)?)
    }
}

fn of_state<P: Pairs>(
    alloc: Global,
    test: &str,
    state: &AbsState<P>,
    words: &str,
) -> Result<String> {
    if !well_formed(state) {
        bail!("the state is not well-formed");
    }
    told(alloc, test, state, words)
}

/// The answer to a test of a state.
fn told<P: Pairs>(alloc: Global, test: &str, state: &AbsState<P>, words: &str) -> Result<String>
    requires { IsWellFormed state.now }
{
    match words.split_once(' ') {
        Some((first, second)) => told_of_two(alloc, test, state, first, second),
        None => one(alloc, test, state, id(state, words)?),
    }
}

fn told_of_two<P: Pairs>(
    alloc: Global,
    test: &str,
    state: &AbsState<P>,
    first: &str,
    second: &str,
) -> Result<String>
    requires { IsWellFormed state.now }
{
    let x = id(state, first)?;
    let y = id(state, second)?;
    two(alloc, test, state, x, y)
}

/// The answer to a test of one id.
fn one<P: Pairs>(alloc: Global, test: &str, state: &AbsState<P>, x: Id) -> Result<String>
    requires good { IsWellFormed state.now }
    requires there { HasCell (λ _. true) state.now x }
{
    let mut marks = Marks::new(alloc)?;
    match test {
        "known" => Ok(known(alloc, state, x, &mut marks)?),
        "tree" => told_truth(alloc, is_tree(state, x, &mut marks)),
        "finite" => told_truth(alloc, is_finite(state, x, &mut marks)),
        _ => bail!("the test is not known"),
    }
}

/// The answer to a test of two ids.
fn two<P: Pairs>(alloc: Global, test: &str, state: &AbsState<P>, x: Id, y: Id) -> Result<String>
    requires good { IsWellFormed state.now }
    requires first { HasCell (λ _. true) state.now x }
    requires second { HasCell (λ _. true) state.now y }
{
    let mut marks = Marks::new(alloc)?;
    match test {
        "meet" => told_truth(alloc, may_meet(state, x, y, &mut marks)),
        "in" => told_truth(alloc, may_be_in(state, x, y, &mut marks)),
        _ => bail!("the test is not known"),
    }
}

/// The ids that known cells lead to, rising.
fn known<P: Pairs>(
    alloc: Global,
    state: &AbsState<P>,
    x: Id,
    marks: &mut Marks,
) -> Result<String, AllocError>
    requires good { IsWellFormed state.now }
    requires there { HasCell (λ _. true) state.now x }
{
    known_from(state, x, marks);
    let mut text = String::new(alloc);
    for (id, _cell) in state.cells() {
        if marks.has(*id) {
            put_word(&mut text, *id)?;
        }
    }
    Ok(text)
}

/// An id, behind a space if it is not the first.
fn put_word(text: &mut String, id: Id) -> Result<(), AllocError> {
    if !text.is_empty() {
        text.push(' ')?;
    }
    put_number(text, i64::from(id))
}

fn told_truth(alloc: Global, answer: bool) -> Result<String> {
    said(alloc, if answer { "yes" } else { "no" })
}
