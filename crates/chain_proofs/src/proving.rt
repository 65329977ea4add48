//! Proofs that no chain of rules is infinite, class by class.
ghost use Rattle.std.specs.Prelude.{◌≡◌, ◌≤◌, ◌<◌, ◌+◌, ◌*◌, false, All, Some, IfOk, IsTrue, length, slice_get};
ghost use Rattle.descent.specs.Components.{AreClasses};
ghost use Rattle.rank_forms.specs.Graphs.{ArePlainRules};
ghost use Rattle.descent.specs.Steps.{set_of, weak_ones, if_weak};
ghost use Rattle.chain_proofs.specs.Answers.{ProvesOr, ProvesOrBy, IsClosed, IsLean};
ghost use Rattle.chain_proofs.specs.inner.Dealt.{AreSets, HasRoom, IsSet};
ghost use Rattle.chain_proofs.specs.Sets.{AreOwn, IsAsked};
ghost use Rattle.chain_proofs.specs.inner.Sets.{AreJoined, IsApart, TurnsOr};

use crate::copying::{left_rules, own_rules};
use crate::forms::{Forms, PathForms};
use crate::ranking::rank_step;
use crate::splitting::{Sets, is_alone, split};
use descent::{PathRule, Proof, ProofStep, RankRule, components};
use list_views::Seq;
use std::alloc::{AllocError, Global};

/// A rule that is left, by its number, with the cuts at its ends.
#[derive(Clone, Copy, PartialEq, Eq)]
pub struct LeftRule {
    /// The rule's number.
    pub rule: u32,
    /// The cut at which it starts.
    pub from: u32,
    /// The cut at which it ends.
    pub to: u32,
}

/// What becomes of a step's set.
#[derive(Drop)]
pub(crate) enum Turn {
    /// The step for it.
    Step(ProofStep),
    /// Its rules reach each other, and no form ranks them.
    Left(Seq<LeftRule>),
}

/// What becomes of all rules.
#[derive(Drop)]
pub enum Proved {
    /// A proof whose steps are all there: it is closed.
    Whole(Proof),
    /// The steps so far, and the rules that they leave: these reach each other, and the search says that no form ranks them.
    Stuck(Proof, Seq<LeftRule>),
}

/// The rule that is listed as weak.
fn if_weak(listed: &RankRule) -> Option<u32>
    ensures { result ≡ if_weak listed.now }
{
    match listed {
        RankRule::Weak { rule, .. } => Some(*rule),
        RankRule::Strict { .. } => None,
    }
}

/// The rules that are listed as weak.
fn weak_ones(alloc: Global, listed: &[RankRule]) -> Result<Seq<u32>, AllocError>
    ensures { IfOk result (λ set. set ≡ weak_ones listed.now) }
{
    let mut set = Seq::new(alloc);
    for one in listed {
        if let Some(rule) = if_weak(one) {
            set.push(rule)?;
        }
    }
    Ok(set)
}

/// Whether the classes are a single one, whose rules reach each other and themselves; else there are several, or one rule that doesn't
/// follow itself.
#[tactic(auto, using(crate::proofs::Joining::joined, crate::proofs::Joining::apart))]
fn are_joined(own: &[PathRule], classes: &[Seq<u32>]) -> bool
    requires { AreClasses own.now classes.now }
    ensures joined { IsTrue result → AreJoined own.now }
    ensures apart { result ≡ false → IsApart own.now classes.now }
{
    match classes.split_first() {
        Some((class, rest)) => rest.is_empty() && !is_alone(own, class.as_slice()),
        None => false,
    }
}

/// What becomes of rules that reach each other.
#[tactic(auto, using(crate::proofs::Joining::stuck_at))]
fn ranked<F: Forms>(
    alloc: Global,
    forms: &F,
    rules: &[PathRule],
    own: &[PathRule],
    set: &[u32],
    number: u32,
    sets: &mut Sets,
) -> Result<Turn, AllocError>
    requires asked { IsAsked F.asks rules.now }
    requires own { AreOwn rules.now set.now own.now }
    requires is_set { IsSet (length rules.now) set.now }
    requires joined { AreJoined own.now }
    requires given { set_of (slice_get sets.old.given.items number) ≡ Some set.now }
    requires sets { AreSets (length rules.now) sets.old.given.items }
    requires room { HasRoom number sets.old.given.items }
    ensures { IfOk result (λ turn. TurnsOr F.none rules.now number set.now sets.old.given.items turn sets.new.given.items) }
{
    match rank_step(alloc, forms, rules, set, own)? {
        Some(step) => {
            let weak = weak_ones(alloc, step.rules.as_slice())?;
            let rest = sets.hand(number, weak);
            Ok(Turn::Step(ProofStep::Rank { step, rest }))
        }
        None => Ok(Turn::Left(left_rules(alloc, rules, set)?)),
    }
}

/// What becomes of a step's set.
fn taken<F: Forms>(
    alloc: Global,
    forms: &F,
    rules: &[PathRule],
    set: &[u32],
    number: u32,
    sets: &mut Sets,
) -> Result<Turn, AllocError>
    requires asked { IsAsked F.asks rules.now }
    requires is_set { IsSet (length rules.now) set.now }
    requires given { set_of (slice_get sets.old.given.items number) ≡ Some set.now }
    requires sets { AreSets (length rules.now) sets.old.given.items }
    requires room { HasRoom number sets.old.given.items }
    ensures { IfOk result (λ turn. TurnsOr F.none rules.now number set.now sets.old.given.items turn sets.new.given.items) }
{
    if set.is_empty() {
        return Ok(Turn::Step(ProofStep::Empty));
    }
    let copies = own_rules(alloc, rules, set)?;
    let own = copies.as_slice();
    let found = components(alloc, own)?;
    let classes = found.as_slice();
    if are_joined(own, classes) {
        return ranked(alloc, forms, rules, own, set, number, sets);
    }
    let step = split(alloc, rules, own, set, classes, number, sets)?;
    Ok(Turn::Step(step))
}

/// How many rules there are.
fn count_of(rules: &[PathRule]) -> u32
    requires { length rules.now ≤ 536870912 }
    ensures { result ≡ length rules.now }
{
    rules.len() as u32
}

/// How many steps a proof for so many rules has at most, with room to spare: each divides a set, takes a rule away or ends a set.
fn most_steps(rules: u32) -> u32
    requires { rules ≤ 536870912 }
    ensures { result ≡ 4 * rules + 4 }
{
    4 * rules + 4
}

/// A closed proof that no chain of the rules is infinite, class by class; or the steps up to rules that reach each other, of which the search
/// for forms says that none ranks them.
///
/// # Errors
///
/// Want of memory.
#[tactic(auto, using(crate::proofs::Starting::proof_first, crate::proofs::Turning::unproved, crate::proofs::Turning::is_lean, crate::proofs::Turning::never_over, crate::proofs::Closing::closed))]
pub fn prove_by<F: Forms>(
    alloc: Global,
    forms: &F,
    rules: &[PathRule],
) -> Result<Proved, AllocError>
    requires { IsAsked F.asks rules.now }
    ensures found { IfOk result (ProvesOrBy F.none rules.now) }
    ensures closed { IfOk result (IsClosed rules.now) }
    ensures lean { IfOk result (IsLean rules.now) }
{
    let count = count_of(rules);
    let below = most_steps(count);
    let mut sets = Sets::first(alloc, count, below)?;
    let mut steps = Seq::new(alloc);
    for number in 0..below {
        let Some(set) = sets.of(alloc, number)? else {
            return Ok(Proved::Whole(Proof { steps }));
        };
        match taken(alloc, forms, rules, set.as_slice(), number, &mut sets)? {
            Turn::Step(step) => steps.push(step)?,
            Turn::Left(left) => return Ok(Proved::Stuck(Proof { steps }, left)),
        }
    }
    unreachable!()
}

/// The same by plain forms and by linear ones: where rules are left, neither a plain nor a stepwise form ranks them.
///
/// # Errors
///
/// Want of memory.
pub fn prove(alloc: Global, rules: &[PathRule]) -> Result<Proved, AllocError>
    requires { ArePlainRules rules.now }
    ensures found { IfOk result (ProvesOr rules.now) }
    ensures closed { IfOk result (IsClosed rules.now) }
    ensures lean { IfOk result (IsLean rules.now) }
{
    prove_by(alloc, &PathForms, rules)
}
