//! `instance`: a state, another one and a map; the answer is OK, or the first clause that fails and the least id of which it
//! doesn't hold. `find`: two states; the answer is a map that passes, or None.
ghost use Rattle.std.specs.Prelude.{ℕ, true};
ghost use Rattle.abs_cells.specs.Cells.{HasCell};
ghost use Rattle.abs_cells.specs.Sound.{IsWellFormed};
ghost use Rattle.abs_reach.specs.Reached.{IsReached};

use abs_cells::{AbsState, Id, Pairs, well_formed};
use abs_match::{MatchFault, dropped_states_reach_all, find_map, instance};
use abs_reach::{Marks, drop_unreached};
use anyhow::{Result, bail};
use class_world::World;
use json_view::View;
use std::alloc::{AllocError, Global};
use table_cases::json_cases::{id_pairs, value};
use table_cases::state_cases::{StateAnswers, state_in};
use table_cases::{Case, numbered, put_comma, put_numbered, said};

/// The cases of instances and of maps that are found.
pub struct Matches;

impl StateAnswers for Matches {
    fn answer<P: Pairs>(alloc: Global, world: &World<'_>, case: &Case<'_>) -> Result<String> {
        let a = state_in::<P>(alloc, world, case.text(0)?)?;
        of_first(alloc, world, case, &a)
    }
}

fn of_first<P: Pairs>(
    alloc: Global,
    world: &World<'_>,
    case: &Case<'_>,
    a: &AbsState<P>,
) -> Result<String> {
    of_states(
        alloc,
        world,
        case,
        a,
        state_in::<P>(alloc, world, case.text(1)?)?,
    )
}

fn of_states<P: Pairs>(
    alloc: Global,
    world: &World<'_>,
    case: &Case<'_>,
    a: &AbsState<P>,
    b: AbsState<P>,
) -> Result<String> {
    if !well_formed(a) {
        bail!("the first state is not well-formed");
    }
    match case.table() {
        "instance" => of_map(alloc, world, a, &b, case.text(2)?),
        "find" => of_search(alloc, world, a, b),
        _ => bail!("the word is not known"),
    }
}

fn of_map<P: Pairs>(
    alloc: Global,
    world: &World<'_>,
    a: &AbsState<P>,
    b: &AbsState<P>,
    map: &str,
) -> Result<String>
    requires { IsWellFormed a.now }
{
    let map = value(alloc, map)?;
    let entries = id_pairs(alloc, &View::root(&map))?;
    matched(alloc, world, a, b, entries.as_slice())
}

fn matched<P: Pairs>(
    alloc: Global,
    world: &World<'_>,
    a: &AbsState<P>,
    b: &AbsState<P>,
    entries: &[(Id, Id)],
) -> Result<String>
    requires { IsWellFormed a.now }
{
    let mut marks = Marks::new(alloc)?;
    told(alloc, instance(world, a, b, entries, &mut marks))
}

fn of_search<P: Pairs>(
    alloc: Global,
    world: &World<'_>,
    a: &AbsState<P>,
    b: AbsState<P>,
) -> Result<String>
    requires { IsWellFormed a.now }
{
    if !well_formed(&b) {
        bail!("the second state is not well-formed");
    }
    let mut marks = Marks::new(alloc)?;
    let count = b.cells().len();
    let all = drop_unreached(b, &mut marks);
    dropped_states_reach_all();
    searched(alloc, world, a, &all, count, &mut marks)
}

/// The answer for a state that reaches all its ids, if they are as many as before.
fn searched<P: Pairs>(
    alloc: Global,
    world: &World<'_>,
    a: &AbsState<P>,
    b: &AbsState<P>,
    count: usize,
    marks: &mut Marks,
) -> Result<String>
    requires good { IsWellFormed a.now }
    requires reached { (id : ℕ) → HasCell (λ _. true) b.now id → IsReached b.now id }
{
    if b.cells().len() != count {
        bail!("some id of the second state is not reached");
    }
    told_map(alloc, &find_map(alloc, world, a, b, marks)?)
}

fn told(alloc: Global, answer: std::result::Result<(), MatchFault>) -> Result<String> {
    match answer {
        Ok(()) => said(alloc, "OK"),
        Err(fault) => Ok(fault_line(alloc, fault)?),
    }
}

fn fault_line(alloc: Global, fault: MatchFault) -> Result<String, AllocError> {
    let mut line = numbered(alloc, "Match clause=", i64::from(fault.clause))?;
    put_numbered(&mut line, " id=", i64::from(fault.id))?;
    Ok(line)
}

fn told_map(alloc: Global, found: &Option<Vec<(Id, Id)>>) -> Result<String> {
    match found {
        None => said(alloc, "None"),
        Some(map) => Ok(map_line(alloc, map.as_slice())?),
    }
}

fn map_line(alloc: Global, map: &[(Id, Id)]) -> Result<String, AllocError> {
    let mut line = String::from_str(alloc, "Some [")?;
    for (place, (id, image)) in map.iter().enumerate() {
        put_entry(&mut line, place, *id, *image)?;
    }
    line.push(']')?;
    Ok(line)
}

fn put_entry(line: &mut String, place: usize, id: Id, image: Id) -> Result<(), AllocError> {
    put_comma(line, place)?;
    put_numbered(line, "[", i64::from(id))?;
    put_numbered(line, ",", i64::from(image))?;
    line.push(']')
}
