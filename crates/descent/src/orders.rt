//! Orders: forms of cuts with values that rules may lower.
ghost use Rattle.std.specs.Prelude.{◌≡◌, ◌≤◌, true, false, []};
ghost use Rattle.std.specs.Result.{result_err};
ghost use Rattle.lin_core.specs.Sums.{variables};
ghost use Rattle.lin_core.specs.Weights.{AreWeights};
ghost use Rattle.descent.specs.declared.faults.DescentFault.{DescentFault};
ghost use Rattle.descent.specs.declared.rules.PathRule.{PathRule};
ghost use Rattle.descent.specs.Conditions.{AreForms, AreFew, IsRule};
ghost use Rattle.descent.specs.Orders.{OrderLaws, Says, Worth};
ghost use Rattle.descent.specs.Rankings.{weak_fault, strict_fault, bounded_fault};

use crate::faults::DescentFault;
use crate::needs::Ranks;
use crate::proof::CutForm;
use crate::rules::PathRule;
use lin_core::Scratch;

/// An order of the states at cuts, by forms: each call tells whether multipliers of a rule's rows show a row that the form
/// needs on the rule, whose number is for the fault. The scratch is for at least the rule's variables.
///
/// # Errors
///
/// The call's own fault where a form has a multiple of an id without a slot; else [`DescentFault::Lin`] where the
/// multipliers are refused; else the call's own fault where the row isn't shown. What is left in the scratch says nothing.
pub trait Order {
    /// The order's lists are within their limits.
    ghost is_ready: { Self → Type 0 };

    /// The fault of a weak rule.
    ghost weak_says: { Self → Says };

    /// The fault of a strict rule.
    ghost strict_says: { Self → Says };

    /// The fault of a bounded rule.
    ghost bounded_says: { Self → Says };

    /// Each id of the form at a rule's start has a slot there.
    ghost start_taken: { Self → PathRule → Type 0 };

    /// Each id of the form at a rule's end has a slot there.
    ghost end_taken: { Self → PathRule → Type 0 };

    /// The form's value where a rule starts.
    ghost start: { Self → Worth };

    /// The form's value where a rule ends.
    ghost finish: { Self → Worth };

    /// That the form at the rule's start minus the form at its end is at least 0.
    fn weak(
        &self,
        number: u32,
        rule: &PathRule,
        multipliers: &[(u32, i64)],
        scratch: &mut Scratch,
    ) -> Result<(), DescentFault>
        requires ready { is_ready self.now }
        requires rule { IsRule rule.now }
        requires few { AreFew multipliers.now }
        requires room { rule.now.vars ≤ variables scratch.old }
        ensures fault { result_err result ≡ weak_says self.now number rule.now multipliers.now }
        ensures over { variables scratch.new ≡ variables scratch.old };

    /// That the form at the rule's start minus the form at its end is at least 1.
    fn strict(
        &self,
        number: u32,
        rule: &PathRule,
        multipliers: &[(u32, i64)],
        scratch: &mut Scratch,
    ) -> Result<(), DescentFault>
        requires ready { is_ready self.now }
        requires rule { IsRule rule.now }
        requires few { AreFew multipliers.now }
        requires room { rule.now.vars ≤ variables scratch.old }
        ensures fault { result_err result ≡ strict_says self.now number rule.now multipliers.now }
        ensures over { variables scratch.new ≡ variables scratch.old };

    /// That the form at the rule's start is at least 0.
    fn bounded(
        &self,
        number: u32,
        rule: &PathRule,
        multipliers: &[(u32, i64)],
        scratch: &mut Scratch,
    ) -> Result<(), DescentFault>
        requires ready { is_ready self.now }
        requires rule { IsRule rule.now }
        requires few { AreFew multipliers.now }
        requires room { rule.now.vars ≤ variables scratch.old }
        ensures fault { result_err result ≡ bounded_says self.now number rule.now multipliers.now }
        ensures over { variables scratch.new ≡ variables scratch.old };

    /// A weak rule never raises the form, a strict one lowers it by at least 1, a bounded one starts at 0 or above, and the
    /// form keeps its value from one rule to the next.
    ghost laws: { (order : Self) → is_ready order → OrderLaws (weak_says order) (strict_says order) (bounded_says order) (start_taken order) (end_taken order) (start order) (finish order) };
}

/// The order by forms of ints alone. Multiples of sizes in its forms count nothing, and no class has a weight.
#[derive(Drop)]
pub struct LinearOrder<'a> {
    /// The forms; the first of a cut counts, and a cut without one has 0.
    pub forms: &'a [CutForm],
}

/// The order by forms of ints and sizes, where classes have the listed weights.
#[derive(Drop)]
pub struct SizeOrder<'a> {
    /// Classes with their weights, from 0 to 65,535; the first of a class counts, and a class without one has 0.
    pub weights: &'a [(u32, i64)],
    /// The forms; the first of a cut counts, and a cut without one has 0.
    pub forms: &'a [CutForm],
}

impl Order for LinearOrder<'_> {
    ghost use Rattle.descent.specs.Laws.{linear_ranking, start_value, end_value};
    ghost use Rattle.descent.specs.lemmas.RankingLaws.{ranking_laws, no_weights};
    ghost use Rattle.descent.specs.Rankings.{takes_start, takes_end};

    ghost is_ready = { λ order. AreForms order.forms.now };

    ghost weak_says = { λ order. weak_fault (linear_ranking order.forms.now) };

    ghost strict_says = { λ order. strict_fault (linear_ranking order.forms.now) };

    ghost bounded_says = { λ order. bounded_fault (linear_ranking order.forms.now) };

    ghost start_taken = { λ order rule. takes_start (linear_ranking order.forms.now) rule ≡ true };

    ghost end_taken = { λ order rule. takes_end (linear_ranking order.forms.now) rule ≡ true };

    ghost start = { λ order. start_value (linear_ranking order.forms.now) };

    ghost finish = { λ order. end_value (linear_ranking order.forms.now) };

    ghost laws = { λ order ready. ranking_laws (linear_ranking order.forms.now) no_weights };

    fn weak(
        &self,
        number: u32,
        rule: &PathRule,
        multipliers: &[(u32, i64)],
        scratch: &mut Scratch,
    ) -> Result<(), DescentFault> {
        Ranks::new(self.forms, &[], false).falls(
            DescentFault::NotWeak { rule: number },
            &0,
            rule,
            multipliers,
            scratch,
        )
    }

    fn strict(
        &self,
        number: u32,
        rule: &PathRule,
        multipliers: &[(u32, i64)],
        scratch: &mut Scratch,
    ) -> Result<(), DescentFault> {
        Ranks::new(self.forms, &[], false).falls(
            DescentFault::NotStrict { rule: number },
            &1,
            rule,
            multipliers,
            scratch,
        )
    }

    fn bounded(
        &self,
        number: u32,
        rule: &PathRule,
        multipliers: &[(u32, i64)],
        scratch: &mut Scratch,
    ) -> Result<(), DescentFault> {
        Ranks::new(self.forms, &[], false).starts(
            DescentFault::NotBounded { rule: number },
            rule,
            multipliers,
            scratch,
        )
    }
}

impl Order for SizeOrder<'_> {
    ghost use Rattle.descent.specs.Laws.{size_ranking, start_value, end_value};
    ghost use Rattle.descent.specs.lemmas.RankingLaws.{ranking_laws, no_weights};
    ghost use Rattle.descent.specs.Rankings.{takes_start, takes_end};

    ghost is_ready = { λ order. AreForms order.forms.now × AreWeights order.weights.now };

    ghost weak_says = { λ order. weak_fault (size_ranking order.weights.now order.forms.now) };

    ghost strict_says = { λ order. strict_fault (size_ranking order.weights.now order.forms.now) };

    ghost bounded_says = { λ order. bounded_fault (size_ranking order.weights.now order.forms.now) };

    ghost start_taken = { λ order rule. takes_start (size_ranking order.weights.now order.forms.now) rule ≡ true };

    ghost end_taken = { λ order rule. takes_end (size_ranking order.weights.now order.forms.now) rule ≡ true };

    ghost start = { λ order. start_value (size_ranking order.weights.now order.forms.now) };

    ghost finish = { λ order. end_value (size_ranking order.weights.now order.forms.now) };

    ghost laws = { λ order ready. ranking_laws (size_ranking order.weights.now order.forms.now) ready.1 };

    fn weak(
        &self,
        number: u32,
        rule: &PathRule,
        multipliers: &[(u32, i64)],
        scratch: &mut Scratch,
    ) -> Result<(), DescentFault> {
        Ranks::new(self.forms, self.weights, true).falls(
            DescentFault::NotWeak { rule: number },
            &0,
            rule,
            multipliers,
            scratch,
        )
    }

    fn strict(
        &self,
        number: u32,
        rule: &PathRule,
        multipliers: &[(u32, i64)],
        scratch: &mut Scratch,
    ) -> Result<(), DescentFault> {
        Ranks::new(self.forms, self.weights, true).falls(
            DescentFault::NotStrict { rule: number },
            &1,
            rule,
            multipliers,
            scratch,
        )
    }

    fn bounded(
        &self,
        number: u32,
        rule: &PathRule,
        multipliers: &[(u32, i64)],
        scratch: &mut Scratch,
    ) -> Result<(), DescentFault> {
        Ranks::new(self.forms, self.weights, true).starts(
            DescentFault::NotBounded { rule: number },
            rule,
            multipliers,
            scratch,
        )
    }
}
