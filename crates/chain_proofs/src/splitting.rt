//! The sets that steps are given, and steps that divide a set.
ghost use Rattle.std.specs.Prelude.{◌≡◌, ◌<◌, ◌≤◌, ◌∷◌, [], false, All, Some, IfOk, IsTrue, length, slice_get};
ghost use Rattle.descent.specs.Components.{AreClasses};
ghost use Rattle.descent.specs.Steps.{give, given_first, set_of};
ghost use Rattle.chain_proofs.specs.Dealt.{is_dealt, Rises};
ghost use Rattle.chain_proofs.specs.inner.Dealt.{AreSets, HasRoom};
ghost use Rattle.chain_proofs.specs.inner.Sets.{AreAt, IsApart, IsHanded, IsTurned, is_alone};
ghost use Rattle.chain_proofs.specs.Sets.{AreOwn};

use descent::{PathRule, ProofStep, given_first, set_of, within};
use list_views::Seq;
use std::alloc::{AllocError, Global};

/// The sets that steps are given, by the steps' numbers, and the first step that has none yet: they are dealt out in the steps' order.
#[derive(Drop)]
pub(crate) struct Sets {
    pub(crate) given: Vec<Option<Seq<u32>>>,
    pub(crate) next: u32,
    ghost dealt: { IsTrue (is_dealt given.items next) },
    ghost short: { length given.items ≤ 4294967295 },
}

impl Sets {
    /// Step 0 has all rules, and the others, below a number, have no set yet.
    #[tactic(auto, using(crate::proofs::Closing::dealt_first, crate::proofs::Closing::short_first))]
    pub(crate) fn first(alloc: Global, rules: u32, below: u32) -> Result<Sets, AllocError>
        requires { 1 ≤ below }
        ensures { IfOk result (λ sets. sets.given.items ≡ given_first rules below) }
    {
        Ok(Sets {
            given: given_first(alloc, rules, below as usize)?,
            next: 1,
        })
    }

    /// A copy of the set that a step was given, if it was given one.
    pub(crate) fn of(&self, alloc: Global, number: u32) -> Result<Option<Seq<u32>>, AllocError>
        ensures { IfOk result (λ set. set ≡ set_of (slice_get self.now.given.items number)) }
    {
        set_of(alloc, &self.given, number)
    }

    /// Gives a set to the next step that has none, and says which it is.
    #[tactic(auto, using(crate::proofs::Closing::dealt_more, crate::proofs::Closing::length_given))]
    pub(crate) fn hand(&mut self, number: u32, set: Seq<u32>) -> u32
        requires later { number < self.old.next }
        requires room { self.old.next < length self.old.given.items }
        ensures { give number ((result, set) ∷ []) self.old.given.items ≡ Some self.new.given.items }
    {
        let step = self.next;
        self.given[step as usize] = Some(set);
        self.next = step + 1;
        step
    }
}

/// Whether a class is one rule that doesn't follow itself.
pub(crate) fn is_alone(own: &[PathRule], class: &[u32]) -> bool
    ensures { result ≡ is_alone own.now class.now }
{
    let Some((only, rest)) = class.split_first() else {
        return false;
    };
    if !rest.is_empty() {
        return false;
    }
    match own.get(*only as usize) {
        Some(rule) => rule.to != rule.from,
        None => true,
    }
}

/// The number at a place of a set.
pub(crate) fn number_at(set: &[u32], place: u32) -> u32
    requires { place < length set.now }
    ensures { slice_get set.now place ≡ Some result }
{
    set[place as usize]
}

/// The numbers at places of a set.
fn part_of(alloc: Global, set: &[u32], class: &[u32]) -> Result<Seq<u32>, AllocError>
    requires { All (λ place. place < length set.now) class.now }
    ensures { IfOk result (AreAt set.now class.now) }
{
    let mut part = Seq::with_capacity(alloc, class.len())?;
    for place in class {
        part.push(number_at(set, *place))?;
    }
    Ok(part)
}

/// The step that takes a part, to which it is given; none where it is one rule that doesn't follow itself.
fn step_of(
    alloc: Global,
    own: &[PathRule],
    set: &[u32],
    class: &[u32],
    part: &[u32],
    number: u32,
    sets: &mut Sets,
) -> Result<Option<u32>, AllocError>
    requires later { number < sets.old.next }
    requires room { is_alone own.now class.now ≡ false → sets.old.next < length sets.old.given.items }
    ensures { IfOk result (λ step. IsHanded own.now set.now class.now part.now number sets.old.given.items step sets.new.given.items) }
{
    if is_alone(own, class) {
        return Ok(None);
    }
    let kept = within(alloc, part, set)?;
    Ok(Some(sets.hand(number, kept)))
}

/// The step that divides a set into classes of rules that reach each other, and gives each class to a step of its own.
pub(crate) fn split(
    alloc: Global,
    rules: &[PathRule],
    own: &[PathRule],
    set: &[u32],
    classes: &[Seq<u32>],
    number: u32,
    sets: &mut Sets,
) -> Result<ProofStep, AllocError>
    requires own { AreOwn rules.now set.now own.now }
    requires rise { Rises 0 set.now }
    requires classes { AreClasses own.now classes.now }
    requires apart { IsApart own.now classes.now }
    requires given { set_of (slice_get sets.old.given.items number) ≡ Some set.now }
    requires sets { AreSets (length rules.now) sets.old.given.items }
    requires room { HasRoom number sets.old.given.items }
    ensures { IfOk result (λ step. IsTurned rules.now number sets.old.given.items step sets.new.given.items) }
{
    let mut parts = Seq::with_capacity(alloc, classes.len())?;
    let mut steps = Seq::with_capacity(alloc, classes.len())?;
    for class in classes {
        let part = part_of(alloc, set, class.as_slice())?;
        let step = step_of(
            alloc,
            own,
            set,
            class.as_slice(),
            part.as_slice(),
            number,
            sets,
        )?;
        parts.push(part)?;
        steps.push(step)?;
    }
    Ok(ProofStep::Split { parts, steps })
}
