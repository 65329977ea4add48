//! Answers that do not depend on the form of pairs.
use crate::Case;
use crate::entry_cases::{class_files, linked};
use crate::json_cases::value;
use crate::state_cases::states::state;
use abs_cells::{AbsState, ListPairs, PackedPairs, Pairs};
use anyhow::{Result, bail};
use class_world::World;
use json_view::View;
use std::alloc::Global;

/// What answers cases over states, whose pairs are held in some form.
pub trait StateAnswers {
    /// The answer to a case.
    fn answer<P: Pairs>(alloc: Global, world: &World<'_>, case: &Case<'_>) -> Result<String>;
}

/// The answer to a case that both forms of pairs give, over the world of the class files in all fields from `first` on.
pub fn answer_by_both<A: StateAnswers>(
    alloc: Global,
    case: &Case<'_>,
    first: usize,
) -> Result<String> {
    let files = class_files(alloc, case, first)?;
    let world = linked(alloc, files.as_slice())?;
    answer_in_world::<A>(alloc, &world, case)
}

fn answer_in_world<A: StateAnswers>(
    alloc: Global,
    world: &World<'_>,
    case: &Case<'_>,
) -> Result<String> {
    let listed = A::answer::<ListPairs>(alloc, world, case)?;
    agreed(listed, A::answer::<PackedPairs>(alloc, world, case)?)
}

/// The answer of both forms of pairs, which is one.
pub fn agreed(listed: String, packed: String) -> Result<String> {
    if listed != packed {
        bail!("the two forms of pairs answer differently");
    }
    Ok(listed)
}

/// The state that a text says, its pairs held in some form.
pub fn state_in<P: Pairs>(alloc: Global, world: &World<'_>, text: &str) -> Result<AbsState<P>> {
    let value = value(alloc, text)?;
    state(alloc, world, &View::root(&value))
}
