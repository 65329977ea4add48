//! Two states; the answer is the first one's widening by the second one, or that it has too many ids.
ghost use Rattle.abs_cells.specs.Sound.{IsSound};
ghost use Rattle.abs_widen.specs.Widening.{AreAlike};
ghost use Rattle.class_world.specs.WorldTypes.{types_of};

use abs_cells::{AbsState, Pairs};
use abs_reach::Marks;
use abs_reach::abs_sound::is_sound;
use abs_widen::{WidenFault, stand_alike, widen};
use anyhow::{Result, bail};
use class_world::World;
use std::alloc::{AllocError, Global};
use table_cases::state_cases::{StateAnswers, put_state, state_in};
use table_cases::{Case, said};

/// The cases of widenings.
pub struct Widenings;

impl StateAnswers for Widenings {
    fn answer<P: Pairs>(alloc: Global, world: &World<'_>, case: &Case<'_>) -> Result<String> {
        let a = state_in::<P>(alloc, world, case.text(0)?)?;
        let b = state_in::<P>(alloc, world, case.text(1)?)?;
        of_states(alloc, world, &a, &b)
    }
}

/// The answer for two states.
fn of_states<P: Pairs>(
    alloc: Global,
    world: &World<'_>,
    a: &AbsState<P>,
    b: &AbsState<P>,
) -> Result<String> {
    if !is_sound(world, a) {
        bail!("the first state is not sound");
    }
    after_sound(alloc, world, a, b)
}

/// The same where the first is sound.
fn after_sound<P: Pairs>(
    alloc: Global,
    world: &World<'_>,
    a: &AbsState<P>,
    b: &AbsState<P>,
) -> Result<String>
    requires { IsSound (types_of world.now.roster.classes) a.now }
{
    if !is_sound(world, b) {
        bail!("the second state is not sound");
    }
    of_sound(alloc, world, a, b)
}

/// The same where both are sound.
fn of_sound<P: Pairs>(
    alloc: Global,
    world: &World<'_>,
    a: &AbsState<P>,
    b: &AbsState<P>,
) -> Result<String>
    requires first { IsSound (types_of world.now.roster.classes) a.now }
    requires second { IsSound (types_of world.now.roster.classes) b.now }
{
    if !stand_alike(a, b) {
        bail!("the two states don't stand alike");
    }
    of_alike(alloc, world, a, b)
}

/// The same where they stand alike too.
fn of_alike<P: Pairs>(
    alloc: Global,
    world: &World<'_>,
    a: &AbsState<P>,
    b: &AbsState<P>,
) -> Result<String>
    requires first { IsSound (types_of world.now.roster.classes) a.now }
    requires second { IsSound (types_of world.now.roster.classes) b.now }
    requires alike { AreAlike a.now b.now }
{
    let mut marks = Marks::new(alloc)?;
    let wide = widen(alloc, world, a, b, &mut marks);
    told(alloc, world, &wide)
}

/// An answer in words.
fn told<P: Pairs>(
    alloc: Global,
    world: &World<'_>,
    answer: &std::result::Result<AbsState<P>, WidenFault>,
) -> Result<String> {
    match answer {
        Ok(wide) => Ok(state_line(alloc, world, wide)?),
        Err(WidenFault::TooManyIds) => said(alloc, "TooManyIds"),
        Err(WidenFault::Memory) => bail!("want of memory"),
    }
}

fn state_line<P: Pairs>(
    alloc: Global,
    world: &World<'_>,
    state: &AbsState<P>,
) -> Result<String, AllocError> {
    let mut line = String::new(alloc);
    put_state(&mut line, world, state)?;
    Ok(line)
}
