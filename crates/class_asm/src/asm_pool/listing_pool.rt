//! The pool of a listing, and the lines that its count and its texts don't fit.

ghost use Rattle.std.specs.Prelude.{◌≡◌, OnOk, IfOk, map};
ghost use Rattle.std.specs.List.{flat_map};
ghost use Rattle.asm_lines.specs.Firsts.{with_faults};
ghost use Rattle.class_asm.specs.asm_pool.Entries.{seen};
ghost use Rattle.class_asm.specs.asm_pool.Pools.{need_faults, count_faults, numbered, firsts_in, pool_in, pool_faults};

use crate::asm_pool::entry::Entry;
use crate::asm_pool::needs::Needs;
use crate::asm_pool::pool::{Firsts, Pool, check_count, numbers_of};
use asm_lines::First;
use std::alloc::{AllocError, Global};

/// The entries that are needed, each with the line that first needs it.
fn firsts_of<'a>(
    alloc: Global,
    first: &mut First,
    needs: &[(Entry<'a>, usize)],
) -> Result<Firsts<'a>, AllocError>
    ensures firsts { IfOk result (λ f. f ≡ firsts_in (map (λ e. (seen e.0, e.1)) needs.now)) }
    ensures faults { OnOk result
        (first.new.fault ≡ with_faults first.old.fault (flat_map need_faults (map (λ e. (seen e.0, e.1)) needs.now))) }
{
    let mut firsts = Firsts::new(alloc);
    for need in needs {
        firsts.need(first, need.1, need.0)?;
    }
    Ok(firsts)
}

/// The pool of these entries.
#[tactic(auto, using(crate::proofs::Numbered::numbered_is))]
fn numbered<'a>(
    alloc: Global,
    first: &mut First,
    firsts: Firsts<'a>,
) -> Result<Pool<'a>, AllocError>
    ensures pool { IfOk result (λ p. p ≡ numbered (map (λ n. n.0) firsts.entry)) }
    ensures faults { OnOk result (first.new.fault ≡ with_faults first.old.fault (count_faults 1 firsts.entry)) }
{
    let list = firsts.list(alloc)?;
    check_count(first, list.as_slice());
    let numbers = numbers_of(alloc, list.as_slice())?;
    Ok(firsts.with_numbers(numbers))
}

/// The pool of these needs; `first` takes in the lines that first need an entry past the pool's count, and those that need a
/// text of more than 65,535 bytes.
///
/// # Errors
///
/// Want of memory.
#[tactic(auto, using(asm_lines::proofs::Faults::in_turn))]
pub fn pool_of<'a>(
    alloc: Global,
    first: &mut First,
    needs: &Needs<'a>,
) -> Result<Pool<'a>, AllocError>
    ensures pool { IfOk result (λ p. p ≡ pool_in needs.now) }
    ensures faults { OnOk result (first.new.fault ≡ with_faults first.old.fault (pool_faults needs.now)) }
{
    let firsts = firsts_of(alloc, first, needs.as_slice())?;
    numbered(alloc, first, firsts)
}
