//! Rules, with the slots of their ends.
ghost use Rattle.std.specs.Prelude.{◌≡◌, ◌<◌, ◌≤◌, IfOk};
ghost use Rattle.its_front.specs.Reading.{slot_of, slots_of, rule_of};

use crate::reading::OpenRule;
use descent::{PathRule, Place, SlotForm};
use list_views::Seq;
use std::alloc::{AllocError, Global};

/// The one place of a slot.
fn places_of(alloc: Global, number: u32) -> Result<Seq<Place>, AllocError>
    ensures { IfOk result (λ places. places ≡ (slot_of 0 number).places) }
{
    Seq::from_slice(
        alloc,
        &[Place {
            frame: 0,
            stack: false,
            index: number,
        }],
    )
}

/// The slot of a variable, whose value is a variable of the rows by itself.
fn slot_of(alloc: Global, from: u32, number: u32) -> Result<SlotForm, AllocError>
    requires from { from ≤ 256 }
    requires number { number < 256 }
    ensures { IfOk result (λ slot. slot ≡ slot_of from number) }
{
    Ok(SlotForm {
        id: number as u16,
        size: false,
        places: places_of(alloc, number)?,
        terms: Seq::from_slice(alloc, &[(from + number, 1)])?,
        constant: 0,
        weights: Seq::new(alloc),
    })
}

/// The slots of all variables.
#[tactic(auto, using(crate::proofs::Walking::slots_more))]
fn slots_of(alloc: Global, count: u32, from: u32) -> Result<Seq<SlotForm>, AllocError>
    requires count { count ≤ 256 }
    requires from { from ≤ 256 }
    ensures { IfOk result (λ slots. slots ≡ slots_of count from) }
{
    let mut slots = Seq::with_capacity(alloc, count as usize)?;
    for number in 0..count {
        slots.push(slot_of(alloc, from, number)?)?;
    }
    Ok(slots)
}

/// The rule that is ended, over so many variables.
///
/// # Errors
///
/// Want of memory.
pub(crate) fn rule_of(alloc: Global, count: u32, unended: OpenRule) -> Result<PathRule, AllocError>
    requires { count ≤ 256 }
    ensures { IfOk result (λ rule. rule ≡ rule_of count unended) }
{
    Ok(PathRule {
        from: unended.from,
        to: unended.to,
        vars: count + count,
        rows: unended.rows,
        first: slots_of(alloc, count, 0)?,
        last: slots_of(alloc, count, count)?,
    })
}
