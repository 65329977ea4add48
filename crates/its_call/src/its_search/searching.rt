//! Proofs for systems of rules.
ghost use Rattle.std.specs.Prelude.{IfOk};
ghost use Rattle.descent.specs.Conditions.{AreRules, AreSteps};
ghost use Rattle.descent.specs.Steps.{Closed};
ghost use Rattle.its_front.specs.Systems.{AreSystemRules};
ghost use Rattle.its_call.specs.its_search.Found.{Finds};

use crate::its_search::system_forms::SystemForms;
use chain_proofs::{LeftRule, Proved, prove_by};
use descent::{PathRule, Proof, StepFault, check_proof};
use list_views::Seq;
use std::alloc::{AllocError, Global};

/// What is found for the rules of a system.
#[derive(Drop)]
pub enum ItsFound {
    /// A closed proof that no chain of them is infinite.
    Proof(Proof),
    /// The steps so far, and the rules that they leave, each with its locations: these reach each other, and no variable, no negative of
    /// one and no difference of two ranks them, nor a stepwise form.
    Left {
        /// The steps, which hold.
        proof: Proof,
        /// The rules that are left, rising.
        rules: Seq<LeftRule>,
    },
}

/// The proof, which is checked: it is closed, so nothing but want of memory keeps it from passing.
fn checked(alloc: Global, rules: &[PathRule], proof: Proof) -> Result<ItsFound, AllocError>
    requires rules { AreRules rules.now }
    requires steps { AreSteps proof.steps }
    requires closed { Closed rules.now proof }
    ensures { IfOk result (Finds rules.now) }
{
    match check_proof(alloc, rules, &proof) {
        Ok(()) => Ok(ItsFound::Proof(proof)),
        Err(StepFault::Memory) => Err(AllocError),
        Err(StepFault::At { .. }) => unreachable!(),
    }
}

/// A closed proof that no chain of a system's rules is infinite; or the steps up to rules that reach each other, which no plain form ranks.
///
/// # Errors
///
/// Want of memory.
#[tactic(auto, using(crate::proofs::Asked::are_rules, crate::proofs::Asked::all_asked))]
pub fn its_search(alloc: Global, rules: &[PathRule]) -> Result<ItsFound, AllocError>
    requires { AreSystemRules rules.now }
    ensures { IfOk result (Finds rules.now) }
{
    match prove_by(alloc, &SystemForms, rules)? {
        Proved::Whole(proof) => checked(alloc, rules, proof),
        Proved::Stuck(proof, rules) => Ok(ItsFound::Left { proof, rules }),
    }
}
