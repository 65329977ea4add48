//! The search for forms that rank rules of a system.
ghost use Rattle.std.specs.Prelude.{◌≡◌, ◌≤◌, length};
ghost use Rattle.its_front.specs.Systems.{AreSystemRules};
ghost use Rattle.its_call.specs.its_search.inner.Tried.{IsCounted};

use crate::its_search::plain_forms::plain_form;
use crate::its_search::ranking::step_of;
use chain_proofs::Forms;
use descent::{PathRule, RankStep};
use rank_search::linear;
use std::alloc::{AllocError, Global};

/// The number of variables of a rule.
fn slot_count(rule: &PathRule) -> u32
    requires { length rule.now.first ≤ 256 }
    ensures { result ≡ length rule.now.first }
{
    rule.first.len() as u32
}

/// The number of variables of a system, of whose rules these are some; 0 where there is no rule.
#[tactic(auto, using(crate::proofs::Asked::counted, crate::proofs::Asked::none_counted))]
fn count_of(rules: &[PathRule]) -> u32
    requires { AreSystemRules rules.now }
    ensures { IsCounted rules.now result }
{
    match rules.split_first() {
        Some((rule, _)) => slot_count(rule),
        None => 0,
    }
}

/// Plain forms of systems, and where none ranks the rules, linear ones.
#[derive(Clone, Copy)]
pub(crate) struct SystemForms;

impl Forms for SystemForms {
    ghost use Rattle.its_front.specs.Systems.{AreSystemRules};
    ghost use Rattle.its_call.specs.its_search.Forms.{HasNoForm};
    ghost use Rattle.chain_proofs.specs.lemmas.Few.{few_enough};

    ghost asks = { λ rules. AreSystemRules rules };

    ghost none = { λ rules. HasNoForm rules };

    ghost few = { λ rules are. few_enough (length rules) are.few };

    #[tactic(auto, using(crate::proofs::Asked::are_path_rules, crate::proofs::Asked::plain_found, crate::proofs::Asked::linear_found, crate::proofs::Trying::none_plain))]
    fn step(&self, alloc: Global, rules: &[PathRule]) -> Result<Option<RankStep>, AllocError> {
        let count = count_of(rules);
        match plain_form(alloc, count, rules)? {
            Some(form) => Ok(Some(step_of(alloc, count, rules, form.as_slice())?)),
            None => linear(alloc, rules),
        }
    }
}
