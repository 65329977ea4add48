//! Which forms are looked for.
ghost use Rattle.std.specs.Prelude.{◌≤◌, List, IfOk, length};
ghost use Rattle.descent.specs.declared.rules.PathRule.{PathRule};
ghost use Rattle.descent.specs.Conditions.{AreRules};
ghost use Rattle.rank_forms.specs.Graphs.{ArePathRules};
ghost use Rattle.rank_search.specs.Plain.{NoPlainForm};
ghost use Rattle.chain_proofs.specs.Stuck.{HasNoForm};
ghost use Rattle.chain_proofs.specs.Sets.{RanksOwn};

use cut_search::by_rows;
use descent::{PathRule, RankStep};
use rank_search::{linear, plain};
use std::alloc::{AllocError, Global};

/// A search for forms that rank rules.
pub trait Forms {
    /// What the search asks of rules.
    ghost asks: { List PathRule → Type 0 };

    /// What it says of rules that none ranks them.
    ghost none: { List PathRule → Type 0 };

    /// It is asked for at most 2^29 rules.
    ghost few: { (rules : List PathRule) → asks rules → length rules ≤ 536870912 };

    /// A rank step for the rules, which names them by their places, holds for them, and has a rule on which its form falls and forms
    /// of their cuts alone; None only where no form ranks the rules, as the search says it.
    ///
    /// # Errors
    ///
    /// Want of memory.
    fn step(&self, alloc: Global, rules: &[PathRule]) -> Result<Option<RankStep>, AllocError>
        requires { asks rules.now }
        ensures { IfOk result (RanksOwn none rules.now) };
}

/// A step of a form that may differ from cut to cut, where no plain form and no stepwise one ranks the rules.
fn other_step(alloc: Global, rules: &[PathRule]) -> Result<Option<RankStep>, AllocError>
    requires rules { AreRules rules.now }
    requires none { HasNoForm rules.now }
    ensures { IfOk result (RanksOwn HasNoForm rules.now) }
{
    match by_rows(alloc, rules)? {
        Some(step) => Ok(Some(step)),
        None => Ok(None),
    }
}

/// A step of a linear form, where no plain form ranks the rules: of one that is the same at every cut, else of one that may differ.
fn linear_step(alloc: Global, rules: &[PathRule]) -> Result<Option<RankStep>, AllocError>
    requires rules { ArePathRules rules.now }
    requires plain { NoPlainForm rules.now }
    ensures { IfOk result (RanksOwn HasNoForm rules.now) }
{
    match linear(alloc, rules)? {
        Some(step) => Ok(Some(step)),
        None => other_step(alloc, rules),
    }
}

/// Plain forms, and where none ranks the rules, linear ones: stepwise ones, then sums of what falls that are the same at every cut, then
/// forms that may differ from cut to cut.
#[derive(Clone, Copy)]
pub struct PathForms;

impl Forms for PathForms {
    ghost use Rattle.rank_forms.specs.Graphs.{ArePlainRules};
    ghost use Rattle.chain_proofs.specs.Stuck.{HasNoForm};
    ghost use Rattle.chain_proofs.specs.lemmas.Few.{few_enough};

    ghost asks = { λ rules. ArePlainRules rules };

    ghost none = { λ rules. HasNoForm rules };

    ghost few = { λ rules are. few_enough (length rules) are.paths.few };

    fn step(&self, alloc: Global, rules: &[PathRule]) -> Result<Option<RankStep>, AllocError> {
        match plain(alloc, rules)? {
            Some(step) => Ok(Some(step)),
            None => linear_step(alloc, rules),
        }
    }
}
