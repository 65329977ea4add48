//! What is to be shown of a form on a rule.
ghost use Rattle.std.specs.Prelude.{◌≡◌, ◌≤◌, ◌-ℤ◌, ◌^◌, ℤ, pos, negsuc, true, false, [], IsTrue, ◌↔◌, ◌&&◌, None, Some, OnOk};
ghost use Rattle.std.specs.Prelude.{MatchResult, unsigned_abs, if◌then◌else◌};
ghost use Rattle.std.specs.Result.{result_err};
ghost use Rattle.lin_core.specs.Combination.{Shows, IsSumOf, first_fault};
ghost use Rattle.lin_core.specs.Sums.{variables, IsWithin};
ghost use Rattle.lin_core.specs.Weights.{AreWeights, weight_in, rows_under};
ghost use Rattle.descent.specs.Conditions.{AreForms, AreFew, AreSlots, IsRule};
ghost use Rattle.descent.specs.inner.Lines.{AddsLine};
ghost use Rattle.descent.specs.Rankings.{Ranking, weigh_of, form_at, ints_of, sizes_of, base_of, is_taken, takes_start, takes_end};
ghost use Rattle.descent.specs.Rankings.{line_of, beyond_base, start_of, fall_of, need, refuses, dead_fault};

use crate::faults::DescentFault;
use crate::proof::CutForm;
use crate::ranking::{add_entries, form_at, have_slots};
use crate::rules::{PathRule, SlotForm};
use lin_core::{Scratch, combine};
use std::marker::Model;

/// The first number, less the second.
fn difference(number: &i64, other: &i64) -> i128
    ensures value { result ≡ number.now -ℤ other.now }
    ensures bound { unsigned_abs result ≤ 2 ^ 64 }
{
    i128::from(*number) - i128::from(*other)
}

/// The number, less a fall.
fn fallen(number: &i128, fall: &i64) -> i128
    requires { unsigned_abs number.now ≤ 2 ^ 64 }
    ensures { result ≡ number.now -ℤ fall.now }
{
    *number - i128::from(*fall)
}

/// What an order ranks by: forms of cuts, the weights of classes, and whether sizes count.
#[derive(Drop)]
pub(crate) struct Ranks<'a> {
    pub(crate) forms: &'a [CutForm],
    pub(crate) weights: &'a [(u32, i64)],
    pub(crate) sizes: bool,
}

impl<'a> Model for Ranks<'a> {
    ghost use Rattle.descent.specs.Rankings.{Ranking};

    ghost Value = { Ranking };

    ghost view = { λ ranks. record { forms = ranks.forms.now; weights = ranks.weights.now; sizes = ranks.sizes } };
}

impl<'a> Ranks<'a> {
    /// The forms, the weights of classes, and whether sizes count.
    pub(crate) fn new(forms: &'a [CutForm], weights: &'a [(u32, i64)], sizes: bool) -> Ranks<'a>
        ensures { result ≡ record { forms = forms.now; weights = weights.now; sizes = sizes } }
    {
        Ranks {
            forms,
            weights,
            sizes,
        }
    }

    /// The multiples of ints in the form of a cut.
    fn ints(&self, cut: u32) -> &'a [(u16, i64)]
        ensures { result.now ≡ ints_of (form_at self.now.forms cut) }
    {
        match form_at(self.forms, cut) {
            Some(form) => form.ints.as_slice(),
            None => &[],
        }
    }

    /// The multiples of sizes in the form of a cut, where they count.
    fn sizes(&self, cut: u32) -> &'a [(u16, i64)]
        ensures { result.now ≡ sizes_of self.now.sizes (form_at self.now.forms cut) }
    {
        if !self.sizes {
            return &[];
        }
        match form_at(self.forms, cut) {
            Some(form) => form.sizes.as_slice(),
            None => &[],
        }
    }

    /// The constant of the form of a cut.
    fn base(&self, cut: u32) -> i64
        ensures { result ≡ base_of (form_at self.now.forms cut) }
    {
        match form_at(self.forms, cut) {
            Some(form) => form.constant,
            None => 0,
        }
    }

    /// Whether each id of the form of a cut has a slot.
    fn takes(&self, cut: u32, slots: &[SlotForm]) -> bool
        ensures { result ≡ is_taken self.now (form_at self.now.forms cut) slots.now }
    {
        have_slots(slots, false, self.ints(cut)) && have_slots(slots, true, self.sizes(cut))
    }
    /// Whether each id of the forms at both ends of a rule has a slot.
    fn takes_both(&self, rule: &PathRule) -> bool
        ensures { result ≡ (takes_start self.now rule.now && takes_end self.now rule.now) }
    {
        self.takes(rule.from, rule.first.as_slice()) && self.takes(rule.to, rule.last.as_slice())
    }

    /// Adds the form of a cut to a sum, its constant aside, or takes it away.
    fn add_line(&self, scratch: &mut Scratch, cut: u32, slots: &[SlotForm], negative: bool)
        requires weights { AreWeights self.now.weights }
        requires forms { AreForms self.now.forms }
        requires slots { AreSlots (variables scratch.old) slots.now }
        requires room { IsWithin (2 ^ 112) scratch.old }
        ensures { AddsLine (2 ^ 111) (line_of self.now (form_at self.now.forms cut) slots.now).terms
            (beyond_base self.now (form_at self.now.forms cut) slots.now) (if negative then negsuc 0 else pos 1) scratch.old
            scratch.new }
    {
        add_entries(
            scratch,
            self.weights,
            slots,
            false,
            self.ints(cut),
            negative,
        );
        add_entries(
            scratch,
            self.weights,
            slots,
            true,
            self.sizes(cut),
            negative,
        );
    }

    /// Whether a sum shows that the form at a rule's start minus the form at its end is at least `fall`. The sum is used up.
    fn leaves_fall(&self, fall: &i64, rule: &PathRule, scratch: &mut Scratch) -> bool
        requires weights { AreWeights self.now.weights }
        requires forms { AreForms self.now.forms }
        requires rule { IsRule rule.now }
        requires vars { rule.now.vars ≤ variables scratch.old }
        requires room { IsWithin (2 ^ 110) scratch.old }
        ensures shown { IsTrue result ↔ Shows scratch.old (fall_of self.now fall.now rule.now) }
        ensures over { variables scratch.new ≡ variables scratch.old }
    {
        self.add_line(scratch, rule.from, rule.first.as_slice(), true);
        self.add_line(scratch, rule.to, rule.last.as_slice(), false);
        let most = difference(&self.base(rule.from), &self.base(rule.to));
        scratch.leaves(&fallen(&most, fall))
    }

    /// Whether a sum shows that the form at a rule's start is at least 0. The sum is used up.
    fn leaves_start(&self, rule: &PathRule, scratch: &mut Scratch) -> bool
        requires weights { AreWeights self.now.weights }
        requires forms { AreForms self.now.forms }
        requires rule { IsRule rule.now }
        requires vars { rule.now.vars ≤ variables scratch.old }
        requires room { IsWithin (2 ^ 110) scratch.old }
        ensures shown { IsTrue result ↔ Shows scratch.old (start_of self.now rule.now) }
        ensures over { variables scratch.new ≡ variables scratch.old }
    {
        self.add_line(scratch, rule.from, rule.first.as_slice(), true);
        scratch.leaves(&i128::from(self.base(rule.from)))
    }

    /// That the form at a rule's start minus the form at its end is at least `fall`, else what is missing.
    pub(crate) fn falls(
        &self,
        missing: DescentFault,
        fall: &i64,
        rule: &PathRule,
        multipliers: &[(u32, i64)],
        scratch: &mut Scratch,
    ) -> Result<(), DescentFault>
        requires weights { AreWeights self.now.weights }
        requires forms { AreForms self.now.forms }
        requires rule { IsRule rule.now }
        requires few { AreFew multipliers.now }
        requires vars { rule.now.vars ≤ variables scratch.old }
        ensures fault { result_err result ≡ (if takes_start self.now rule.now && takes_end self.now rule.now then need missing
            (weigh_of self.now) rule.now (fall_of self.now fall.now rule.now) multipliers.now else Some missing) }
        ensures over { variables scratch.new ≡ variables scratch.old }
    {
        if !self.takes_both(rule) {
            return Err(missing);
        }
        combined(rule, self.weights, multipliers, scratch)?;
        if self.leaves_fall(fall, rule, scratch) {
            Ok(())
        } else {
            Err(missing)
        }
    }

    /// That the form at a rule's start is at least 0, else what is missing.
    pub(crate) fn starts(
        &self,
        missing: DescentFault,
        rule: &PathRule,
        multipliers: &[(u32, i64)],
        scratch: &mut Scratch,
    ) -> Result<(), DescentFault>
        requires weights { AreWeights self.now.weights }
        requires forms { AreForms self.now.forms }
        requires rule { IsRule rule.now }
        requires few { AreFew multipliers.now }
        requires vars { rule.now.vars ≤ variables scratch.old }
        ensures fault { result_err result ≡ (if takes_start self.now rule.now then need missing (weigh_of self.now) rule.now
            (start_of self.now rule.now) multipliers.now else Some missing) }
        ensures over { variables scratch.new ≡ variables scratch.old }
    {
        if !self.takes(rule.from, rule.first.as_slice()) {
            return Err(missing);
        }
        combined(rule, self.weights, multipliers, scratch)?;
        if self.leaves_start(rule, scratch) {
            Ok(())
        } else {
            Err(missing)
        }
    }
}

/// The sum of a rule's rows by the multipliers, where these weights are listed.
fn combined(
    rule: &PathRule,
    weights: &[(u32, i64)],
    multipliers: &[(u32, i64)],
    scratch: &mut Scratch,
) -> Result<(), DescentFault>
    requires weights { AreWeights weights.now }
    requires rule { IsRule rule.now }
    requires few { AreFew multipliers.now }
    requires vars { rule.now.vars ≤ variables scratch.old }
    ensures fault { MatchResult result (λ _. first_fault (rows_under (weight_in weights.now) rule.now.rows) multipliers.now ≡ None)
        (λ e. refuses e (first_fault (rows_under (weight_in weights.now) rule.now.rows) multipliers.now)) }
    ensures sum { OnOk result (IsSumOf (variables scratch.old) (rows_under (weight_in weights.now) rule.now.rows) multipliers.now
        scratch.new) }
    ensures within { IsWithin (2 ^ 110) scratch.new }
    ensures over { variables scratch.new ≡ variables scratch.old }
{
    match combine(rule.rows.as_slice(), weights, multipliers, scratch) {
        Ok(()) => Ok(()),
        Err(fault) => Err(DescentFault::Lin(fault)),
    }
}

/// That a rule can never be taken: its rows show that -1 is at least 0, where no class has a weight.
pub(crate) fn dead(
    number: u32,
    rule: &PathRule,
    multipliers: &[(u32, i64)],
    scratch: &mut Scratch,
) -> Result<(), DescentFault>
    requires rule { IsRule rule.now }
    requires few { AreFew multipliers.now }
    requires vars { rule.now.vars ≤ variables scratch.old }
    ensures fault { result_err result ≡ dead_fault number rule.now multipliers.now }
    ensures over { variables scratch.new ≡ variables scratch.old }
{
    combined(rule, &[], multipliers, scratch)?;
    if scratch.leaves(&-1) {
        Ok(())
    } else {
        Err(DescentFault::NotStrict { rule: number })
    }
}
