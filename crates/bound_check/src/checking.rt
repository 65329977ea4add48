//! The check of a bound.
ghost use Rattle.std.specs.Prelude.{◌≡◌, ◌≤◌, ◌<◌, ◌^◌, ◌-◌, All, IfOk, length};
ghost use Rattle.abs_cells.specs.Sound.{IsWellFormed};
ghost use Rattle.descent.specs.Conditions.{AreRules, AreSteps};
ghost use Rattle.bound_text.specs.Limits.{AreLimited};
ghost use Rattle.bound_check.specs.Entries.{bound_fault};
ghost use Rattle.bound_check.specs.Bounds.{IsBound};
ghost use Rattle.bound_check.specs.Laws.{BoundsOf};
ghost use Rattle.bound_check.specs.inner.Checking.{are_many};

use crate::bound::Bound;
use crate::entries;
use crate::fault::BoundFault;
use crate::forms::terms;
use crate::parts::{added, count_of, given_sets, untaken};
use crate::walks::most_steps;
use abs_cells::{AbsState, Pairs};
use bound_text::{BoundEntry, BoundText};
use descent::{PathRule, Proof, ProofStep, Scratch, most_variables};
use std::alloc::{AllocError, Global};
use term_graph::{Links, NodeSource};

/// The first fault of the entries of a bound.
fn fault_of(
    alloc: Global,
    rules: &[PathRule],
    steps: &[ProofStep],
    entries: &[BoundEntry],
) -> Result<Option<BoundFault>, AllocError>
    requires rules { AreRules rules.now }
    requires count { length rules.now ≤ 4294967295 }
    requires steps { AreSteps steps.now }
    requires step_count { length steps.now ≤ 4294967295 }
    requires entries { AreLimited entries.now }
    requires few { length entries.now ≤ 4294967295 }
    ensures { IfOk result (λ fault. fault ≡ bound_fault rules.now steps.now entries.now) }
{
    let given = given_sets(alloc, rules.len() as u32, steps)?;
    let mut scratch = Scratch::new(alloc, most_variables(rules))?;
    entries::bound_fault(alloc, rules, steps, given.as_slice(), entries, &mut scratch)
}

/// The bound that entries without a fault give.
#[tactic(auto, using(crate::proofs::Sizes::sized_ids))]
fn bound_of<P: Pairs, S: NodeSource<P>>(
    alloc: Global,
    source: &mut S,
    root: &AbsState<P>,
    links: &Links,
    cuts: &[u32],
    steps: &[ProofStep],
    entries: &[BoundEntry],
) -> Result<Bound, AllocError>
    requires root { IsWellFormed root.now }
    requires cuts { All (λ cut. cut < length (S.graph source.old)) cuts.now }
    requires few { length (S.graph source.old) ≤ 2 ^ 32 - 16 }
    requires step_count { length steps.now ≤ 4294967295 }
    ensures bound { IfOk result
        (IsBound (S.graph source.old) links.now.nodes cuts.now root.now steps.now entries.now) }
    ensures same { S.graph source.new ≡ S.graph source.old }
{
    let most = most_steps(alloc, source, links, cuts)?;
    let counts = untaken(alloc, steps)?;
    let constant = added(1, count_of(counts.as_slice(), 0))?;
    let terms = terms(alloc, root, steps, counts.as_slice(), entries)?;
    Ok(Bound {
        steps: most,
        constant,
        terms,
    })
}

/// Whether one of the numbers is more than 32 bits count.
fn are_many(rules: usize, steps: usize, entries: usize) -> bool
    ensures { result ≡ are_many rules steps entries }
{
    rules > u32::MAX as usize || steps > u32::MAX as usize || entries > u32::MAX as usize
}

/// The bound that a text gives for a certificate: beside links, rules and a proof that hold for it. It costs as many steps as the
/// proof's check, and the rules outside the set of each rank step with their multipliers.
///
/// # Errors
///
/// The first fault of the text's entries: for each in order, that it names no rank step above that of the entry before; that a list of it
/// doesn't rise or names what belongs to the step; and for the rules outside the step's set, in order, the multipliers' fault or that the
/// whole form isn't shown never to rise; and after all entries the least rank step without one. Want of memory, which also answers more
/// rules, steps or entries than 32 bits count, and counts that pass 64 bits.
pub fn check_bound<P: Pairs, S: NodeSource<P>>(
    alloc: Global,
    source: &mut S,
    root: &AbsState<P>,
    links: &Links,
    cuts: &[u32],
    rules: &[PathRule],
    proof: &Proof,
    text: &BoundText,
) -> Result<Bound, BoundFault>
    requires root { IsWellFormed root.now }
    requires cuts { All (λ cut. cut < length (S.graph source.old)) cuts.now }
    requires few { length (S.graph source.old) ≤ 2 ^ 32 - 16 }
    requires rules { AreRules rules.now }
    requires steps { AreSteps proof.now.steps }
    requires text { AreLimited text.now.ranks }
    ensures bounds { BoundsOf (S.graph source.old) links.now.nodes cuts.now root.now rules.now proof.now.steps text.now.ranks result }
    ensures same { S.graph source.new ≡ S.graph source.old }
{
    let steps = proof.steps.as_slice();
    let entries = text.ranks.as_slice();
    if are_many(rules.len(), steps.len(), entries.len()) {
        return Err(BoundFault::Memory);
    }
    if let Some(fault) = fault_of(alloc, rules, steps, entries)? {
        return Err(fault);
    }
    Ok(bound_of(alloc, source, root, links, cuts, steps, entries)?)
}
