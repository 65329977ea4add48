//! The calls of the heap, each with its arguments as words.
ghost use Rattle.abs_cells.specs.Sound.{IsWellFormed};

use crate::states::heap_words::{
    array, equals, nullable, object, slot, told, told_split_fault, told_with,
};
use crate::states::ids::id;
use abs_cells::{AbsState, Pairs, well_formed};
use abs_heap::{
    load_ref, new_array, new_object, put_field, refine_class, refine_equal, refine_null, store_ref,
};
use anyhow::{Context, Result, bail};
use class_world::World;
use jvm_values::Types;
use std::alloc::Global;
use table_cases::state_cases::{StateAnswers, children, state_in, ty};
use table_cases::{Case, natural};

/// The cases of the calls.
pub struct HeapCalls;

impl StateAnswers for HeapCalls {
    fn answer<P: Pairs>(alloc: Global, world: &World<'_>, case: &Case<'_>) -> Result<String> {
        let state = state_in::<P>(alloc, world, case.text(0)?)?;
        of_state(alloc, world, &state, case.table())
    }
}

fn of_state<P: Pairs>(
    alloc: Global,
    world: &World<'_>,
    state: &AbsState<P>,
    words: &str,
) -> Result<String> {
    if !well_formed(state) {
        bail!("the state is not well-formed");
    }
    of_words(alloc, world, state, words)
}

fn of_words<P: Pairs>(
    alloc: Global,
    world: &World<'_>,
    state: &AbsState<P>,
    words: &str,
) -> Result<String>
    requires { IsWellFormed state.now }
{
    let (call, words) = words.split_once(' ').context("a call has arguments")?;
    match words.split_once(' ') {
        Some((first, rest)) => called(alloc, world, state, call, first, rest),
        None => called(alloc, world, state, call, words, ""),
    }
}

/// The answer of a call.
fn called<P: Pairs>(
    alloc: Global,
    world: &World<'_>,
    state: &AbsState<P>,
    call: &str,
    first: &str,
    rest: &str,
) -> Result<String>
    requires { IsWellFormed state.now }
{
    match call {
        "refine_null" => split_by_null(alloc, world, state, first),
        "refine_class" => split_by_class(alloc, world, state, first, rest),
        "refine_equal" => split_by_pair(alloc, world, state, first, rest),
        "put_field" => field_put(alloc, world, state, first, rest),
        "store_ref" => item_put(alloc, world, state, first, rest),
        "load_ref" => item_read(alloc, world, state, first),
        "new_object" => object_made(alloc, world, state, first),
        "new_array" => array_made(alloc, world, state, first, rest),
        _ => bail!("the call is not known"),
    }
}

fn split_by_null<P: Pairs>(
    alloc: Global,
    world: &World<'_>,
    state: &AbsState<P>,
    x: &str,
) -> Result<String>
    requires { IsWellFormed state.now }
{
    let x = nullable(state, x)?;
    let list = refine_null(alloc, state, x)?;
    Ok(children(alloc, world, list.as_slice())?)
}

fn split_by_class<P: Pairs>(
    alloc: Global,
    world: &World<'_>,
    state: &AbsState<P>,
    x: &str,
    wanted: &str,
) -> Result<String>
    requires { IsWellFormed state.now }
{
    let x = object(state, x)?;
    let wanted = ty(world, wanted)?;
    match refine_class(alloc, world, state, x, wanted) {
        Ok(list) => Ok(children(alloc, world, list.as_slice())?),
        Err(fault) => told_split_fault(alloc, fault),
    }
}

fn split_by_pair<P: Pairs>(
    alloc: Global,
    world: &World<'_>,
    state: &AbsState<P>,
    x: &str,
    y: &str,
) -> Result<String>
    requires { IsWellFormed state.now }
{
    let (x, y) = equals(state, x, y)?;
    let list = refine_equal(alloc, world, state, x, y)?;
    Ok(children(alloc, world, list.as_slice())?)
}

fn field_put<P: Pairs>(
    alloc: Global,
    world: &World<'_>,
    state: &AbsState<P>,
    k: &str,
    rest: &str,
) -> Result<String>
    requires { IsWellFormed state.now }
{
    let (place, w) = rest
        .split_once(' ')
        .context("a place and an id are wanted")?;
    let field = natural(place)?;
    let k = id(state, k)?;
    let w = id(state, w)?;
    told(alloc, world, &put_field(alloc, state, k, field, w))
}

fn item_put<P: Pairs>(
    alloc: Global,
    world: &World<'_>,
    state: &AbsState<P>,
    k: &str,
    w: &str,
) -> Result<String>
    requires { IsWellFormed state.now }
{
    let k = id(state, k)?;
    let w = id(state, w)?;
    told(alloc, world, &store_ref(alloc, state, k, w))
}

fn item_read<P: Pairs>(
    alloc: Global,
    world: &World<'_>,
    state: &AbsState<P>,
    k: &str,
) -> Result<String>
    requires { IsWellFormed state.now }
{
    let k = array(state, k)?;
    told_with(alloc, world, &load_ref(alloc, world, state, k))
}

fn object_made<P: Pairs>(
    alloc: Global,
    world: &World<'_>,
    state: &AbsState<P>,
    class: &str,
) -> Result<String>
    requires { IsWellFormed state.now }
{
    let class = natural(class)?;
    if class >= world.classes() {
        bail!("the class is not known");
    }
    told_with(alloc, world, &new_object(alloc, world, state, class))
}

fn array_made<P: Pairs>(
    alloc: Global,
    world: &World<'_>,
    state: &AbsState<P>,
    element: &str,
    len: &str,
) -> Result<String>
    requires { IsWellFormed state.now }
{
    let element = slot(alloc, world, element)?;
    let len = id(state, len)?;
    told_with(alloc, world, &new_array(alloc, world, state, element, len))
}
