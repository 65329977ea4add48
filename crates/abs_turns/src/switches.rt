//! The steps of a switch.
ghost use Rattle.std.specs.Prelude.{◌≡◌, ◌≤ℤ◌, ◌-ℤ◌, ◌++◌, ◌∷◌, [], ℤ, pos, negsuc, map, IfOk, Some};
ghost use Rattle.std.specs.Option.{option_map, option_and_then, option_to_list};
ghost use Rattle.std.specs.List.{filter_map};
ghost use Rattle.abs_cells.specs.lin_core.Intervals.{interval_of};
ghost use Rattle.abs_cells.specs.declared.cells.Cell.TheVariants as cells;
ghost use Rattle.abs_ints.specs.IntIntervals.{just, meet_of};
ghost use Rattle.abs_turns.specs.Plans.{no_rows};
ghost use Rattle.abs_turns.specs.Turns.{with_stack, narrows, switch_turn};
ghost use Rattle.abs_turns.specs.Switches.{table_keys, lookup_keys, parts_of};
ghost use Rattle.abs_turns.specs.PlansSeen.{turn_seen};

use crate::plans::{Rows, Turn};
use crate::spot::Spot;
use crate::turns::{narrows, one_narrowed, put};
use abs_cells::lin_core::Interval;
use abs_cells::list_views::{Seq, Stack};
use abs_cells::{Id, Pairs};
use jvm_step::code_forms::Case;
use std::alloc::{AllocError, Global};

/// The numbers of an interval from one number to another one, if any.
fn part_of(ints: Interval, low: &i64, high: &i64) -> Option<Interval>
    ensures { result ≡ meet_of ints (record { lo = low.now; hi = high.now }) }
{
    let lo = i64::from(ints.lo()).max(*low);
    let hi = i64::from(ints.hi()).min(*high);
    if lo <= hi {
        Interval::new(lo as i32, hi as i32)
    } else {
        None
    }
}

/// The numbers of an interval between two ends, if any.
fn between(ints: Interval, low: &i64, high: &i64) -> Option<Interval>
    ensures { result ≡ option_and_then (meet_of ints) (interval_of low.now high.now) }
{
    if *low > *high {
        return None;
    }
    part_of(ints, low, high)
}

/// A key as an interval, where it is a number of one.
fn key_in(ints: Interval, key: &i64) -> Option<Interval>
    ensures { result ≡ meet_of ints (just key.now) }
{
    part_of(ints, key, key)
}

/// The step to a place with an operand that is narrowed; None where it is narrowed to nothing.
fn narrowed_turn<P: Pairs>(
    alloc: Global,
    spot: &Spot<'_, '_, P>,
    x: Id,
    stack: &Stack<Id>,
    ints: Option<Interval>,
    place: u16,
) -> Result<Option<Turn>, AllocError>
    ensures { IfOk result
        (λ turn. option_map turn_seen turn ≡ option_map
        (λ both. narrows ((x, cells.Int both) ∷ []) (with_stack spot.now place stack.now.0) no_rows) ints) }
{
    let Some(both) = ints else {
        return Ok(None);
    };
    let narrowed = one_narrowed(alloc, x, both)?;
    let frames = spot.with_stack(alloc, place, stack)?;
    Ok(Some(narrows(narrowed, frames, Rows::Nothing)))
}

/// The numbers of a gap, which lead to a place.
fn put_gap<P: Pairs>(
    alloc: Global,
    spot: &Spot<'_, '_, P>,
    x: Id,
    stack: &Stack<Id>,
    low: &i64,
    high: &i64,
    place: u16,
    turns: &mut Seq<Turn>,
) -> Result<(), AllocError>
    ensures { IfOk result
        (λ _. map turn_seen turns.new ≡ map turn_seen turns.old ++ option_to_list
        (switch_turn spot.now x stack.now.0 (interval_of low.now high.now, place))) }
{
    let ints = between(spot.interval_of(x), low, high);
    put(turns, narrowed_turn(alloc, spot, x, stack, ints, place)?)
}

/// A key, which leads to a place.
fn put_one<P: Pairs>(
    alloc: Global,
    spot: &Spot<'_, '_, P>,
    x: Id,
    stack: &Stack<Id>,
    key: &i64,
    place: u16,
    turns: &mut Seq<Turn>,
) -> Result<(), AllocError>
    ensures { IfOk result
        (λ _. map turn_seen turns.new ≡ map turn_seen turns.old ++ option_to_list
        (switch_turn spot.now x stack.now.0 (Some (just key.now), place))) }
{
    let ints = key_in(spot.interval_of(x), key);
    put(turns, narrowed_turn(alloc, spot, x, stack, ints, place)?)
}

/// The gap before a key, and the key.
fn put_key<P: Pairs>(
    alloc: Global,
    spot: &Spot<'_, '_, P>,
    x: Id,
    stack: &Stack<Id>,
    default: u16,
    low: &i64,
    key: &i64,
    place: u16,
    turns: &mut Seq<Turn>,
) -> Result<(), AllocError>
    requires { negsuc 2147483647 ≤ℤ key.now }
    ensures { IfOk result (λ _. map turn_seen turns.new ≡ map turn_seen turns.old ++ filter_map (switch_turn spot.now x stack.now.0)
        ((interval_of low.now (key.now -ℤ pos 1), default) ∷ (Some (just key.now), place) ∷ [])) }
{
    let before = *key - 1;
    put_gap(alloc, spot, x, stack, low, &before, default, turns)?;
    put_one(alloc, spot, x, stack, key, place, turns)
}

/// The steps of a table of keys that follow one another.
pub fn table_turns<P: Pairs>(
    alloc: Global,
    spot: &Spot<'_, '_, P>,
    x: Id,
    stack: &Stack<Id>,
    default: u16,
    first: &i32,
    targets: &[u16],
) -> Result<Seq<Turn>, AllocError>
    ensures { IfOk result
        (λ turns. map turn_seen turns ≡ filter_map (switch_turn spot.now x stack.now.0)
        (parts_of default (table_keys first.now targets.now))) }
{
    let mut turns = Seq::new(alloc);
    let mut low = i64::from(i32::MIN);
    for i in 0..targets.len() {
        let key = i64::from(*first) + i as i64;
        put_key(
            alloc, spot, x, stack, default, &low, &key, targets[i], &mut turns,
        )?;
        low = key + 1;
    }
    put_gap(
        alloc,
        spot,
        x,
        stack,
        &low,
        &i64::from(i32::MAX),
        default,
        &mut turns,
    )?;
    Ok(turns)
}

/// The steps of listed keys.
pub fn lookup_turns<P: Pairs>(
    alloc: Global,
    spot: &Spot<'_, '_, P>,
    x: Id,
    stack: &Stack<Id>,
    default: u16,
    cases: &[Case],
) -> Result<Seq<Turn>, AllocError>
    ensures { IfOk result
        (λ turns. map turn_seen turns ≡ filter_map (switch_turn spot.now x stack.now.0) (parts_of default (lookup_keys cases.now))) }
{
    let mut turns = Seq::new(alloc);
    let mut low = i64::from(i32::MIN);
    for case in cases {
        let key = i64::from(case.key);
        put_key(
            alloc,
            spot,
            x,
            stack,
            default,
            &low,
            &key,
            case.target,
            &mut turns,
        )?;
        low = key + 1;
    }
    put_gap(
        alloc,
        spot,
        x,
        stack,
        &low,
        &i64::from(i32::MAX),
        default,
        &mut turns,
    )?;
    Ok(turns)
}
