//! Forms, rules and entries.
ghost use Rattle.std.specs.Prelude.{◌≡◌, ◌<◌};
ghost use Rattle.json_view.specs.Located.{located};
ghost use Rattle.json_view.specs.Reading.{item_count};
ghost use Rattle.input_text.specs.Answers.{Says};
ghost use Rattle.bound_text.specs.Texts.{nth, row_parts, multipliers_of, multiple_parts, multiples_of, form_parts, forms_of, rule_parts};
ghost use Rattle.bound_text.specs.Texts.{rules_of, entry_parts, ranks_of};

use crate::lists::{Said, list};
use crate::numbers::{nth_constant, nth_id, nth_multiple, nth_number};
use crate::texts::{BoundEntry, BoundRule};
use descent::CutForm;
use json_view::{JsonFault, View};
use list_views::Seq;
use std::alloc::Global;

/// A row and its multiplier.
#[tactic(auto, unfolding(crate::specs::Texts::row_parts))]
fn row_parts(alloc: Global, view: &View<'_, '_>) -> Result<(u32, i64), JsonFault>
    requires { item_count (located view.now).value ≡ 2 }
    ensures { Says result (row_parts (located view.now)) }
{
    let row = nth_number(alloc, view, 0)?;
    let multiplier = nth_multiple(alloc, view, 1)?;
    Ok((row, multiplier))
}

impl Said for (u32, i64) {
    ghost use Rattle.bound_text.specs.Texts.{row_of};

    ghost reader = { row_of };

    #[tactic(auto, unfolding(crate::specs::Texts::row_of, crate::specs::Texts::of_length))]
    fn read(alloc: Global, view: &View<'_, '_>) -> Result<(u32, i64), JsonFault> {
        if view.items(alloc)? == 2 {
            row_parts(alloc, view)
        } else {
            Err(view.wrong_kind(alloc))
        }
    }
}

/// A list of multipliers.
#[tactic(auto, unfolding(crate::specs::Texts::multipliers_of, crate::specs::Texts::at_most))]
fn multipliers(alloc: Global, view: &View<'_, '_>) -> Result<Seq<(u32, i64)>, JsonFault>
    ensures { Says result (multipliers_of (located view.now)) }
{
    if view.items(alloc)? > 65536 {
        Err(view.out_of_range(alloc))
    } else {
        list(alloc, view)
    }
}

/// Entry 1 of a list as a list of multipliers.
#[tactic(auto, unfolding(crate::specs::Texts::nth))]
fn nth_multipliers(
    alloc: Global,
    view: &View<'_, '_>,
    n: usize,
) -> Result<Seq<(u32, i64)>, JsonFault>
    requires { n < item_count (located view.now).value }
    ensures { Says result (nth n multipliers_of (located view.now)) }
{
    multipliers(alloc, &view.item(n))
}

/// An id and its multiple.
#[tactic(auto, unfolding(crate::specs::Texts::multiple_parts))]
fn multiple_parts(alloc: Global, view: &View<'_, '_>) -> Result<(u16, i64), JsonFault>
    requires { item_count (located view.now).value ≡ 2 }
    ensures { Says result (multiple_parts (located view.now)) }
{
    let id = nth_id(alloc, view, 0)?;
    let multiple = nth_multiple(alloc, view, 1)?;
    Ok((id, multiple))
}

impl Said for (u16, i64) {
    ghost use Rattle.bound_text.specs.Texts.{multiple_of};

    ghost reader = { multiple_of };

    #[tactic(auto, unfolding(crate::specs::Texts::multiple_of, crate::specs::Texts::of_length))]
    fn read(alloc: Global, view: &View<'_, '_>) -> Result<(u16, i64), JsonFault> {
        if view.items(alloc)? == 2 {
            multiple_parts(alloc, view)
        } else {
            Err(view.wrong_kind(alloc))
        }
    }
}

/// Entry `n` of a list as a list of multiples.
#[tactic(auto, unfolding(crate::specs::Texts::nth, crate::specs::Texts::multiples_of))]
fn nth_multiples(alloc: Global, view: &View<'_, '_>, n: usize) -> Result<Seq<(u16, i64)>, JsonFault>
    requires { n < item_count (located view.now).value }
    ensures { Says result (nth n multiples_of (located view.now)) }
{
    list(alloc, &view.item(n))
}

/// The form of a cut.
#[tactic(auto, unfolding(crate::specs::Texts::form_parts))]
fn form_parts(alloc: Global, view: &View<'_, '_>) -> Result<CutForm, JsonFault>
    requires { item_count (located view.now).value ≡ 4 }
    ensures { Says result (form_parts (located view.now)) }
{
    let cut = nth_number(alloc, view, 0)?;
    let constant = nth_constant(alloc, view, 1)?;
    let ints = nth_multiples(alloc, view, 2)?;
    let sizes = nth_multiples(alloc, view, 3)?;
    Ok(CutForm {
        cut,
        constant,
        ints,
        sizes,
    })
}

impl Said for CutForm {
    ghost use Rattle.bound_text.specs.Texts.{form_of};

    ghost reader = { form_of };

    #[tactic(auto, unfolding(crate::specs::Texts::form_of, crate::specs::Texts::of_length))]
    fn read(alloc: Global, view: &View<'_, '_>) -> Result<CutForm, JsonFault> {
        if view.items(alloc)? == 4 {
            form_parts(alloc, view)
        } else {
            Err(view.wrong_kind(alloc))
        }
    }
}

/// Entry `n` of a list as a list of forms.
#[tactic(auto, unfolding(crate::specs::Texts::nth, crate::specs::Texts::forms_of))]
fn nth_forms(alloc: Global, view: &View<'_, '_>, n: usize) -> Result<Seq<CutForm>, JsonFault>
    requires { n < item_count (located view.now).value }
    ensures { Says result (nth n forms_of (located view.now)) }
{
    list(alloc, &view.item(n))
}

/// A rule and its multipliers.
#[tactic(auto, unfolding(crate::specs::Texts::rule_parts))]
fn rule_parts(alloc: Global, view: &View<'_, '_>) -> Result<BoundRule, JsonFault>
    requires { item_count (located view.now).value ≡ 2 }
    ensures { Says result (rule_parts (located view.now)) }
{
    let rule = nth_number(alloc, view, 0)?;
    let fall = nth_multipliers(alloc, view, 1)?;
    Ok(BoundRule { rule, fall })
}

impl Said for BoundRule {
    ghost use Rattle.bound_text.specs.Texts.{rule_of};

    ghost reader = { rule_of };

    #[tactic(auto, unfolding(crate::specs::Texts::rule_of, crate::specs::Texts::of_length))]
    fn read(alloc: Global, view: &View<'_, '_>) -> Result<BoundRule, JsonFault> {
        if view.items(alloc)? == 2 {
            rule_parts(alloc, view)
        } else {
            Err(view.wrong_kind(alloc))
        }
    }
}

/// Entry `n` of a list as a list of rules.
#[tactic(auto, unfolding(crate::specs::Texts::nth, crate::specs::Texts::rules_of))]
fn nth_rules(alloc: Global, view: &View<'_, '_>, n: usize) -> Result<Seq<BoundRule>, JsonFault>
    requires { n < item_count (located view.now).value }
    ensures { Says result (nth n rules_of (located view.now)) }
{
    list(alloc, &view.item(n))
}

/// What is added to a step.
#[tactic(auto, unfolding(crate::specs::Texts::entry_parts))]
fn entry_parts(alloc: Global, view: &View<'_, '_>) -> Result<BoundEntry, JsonFault>
    requires { item_count (located view.now).value ≡ 3 }
    ensures { Says result (entry_parts (located view.now)) }
{
    let step = nth_number(alloc, view, 0)?;
    let forms = nth_forms(alloc, view, 1)?;
    let rules = nth_rules(alloc, view, 2)?;
    Ok(BoundEntry { step, forms, rules })
}

impl Said for BoundEntry {
    ghost use Rattle.bound_text.specs.Texts.{entry_of};

    ghost reader = { entry_of };

    #[tactic(auto, unfolding(crate::specs::Texts::entry_of, crate::specs::Texts::of_length))]
    fn read(alloc: Global, view: &View<'_, '_>) -> Result<BoundEntry, JsonFault> {
        if view.items(alloc)? == 3 {
            entry_parts(alloc, view)
        } else {
            Err(view.wrong_kind(alloc))
        }
    }
}

/// The entries of a text.
#[tactic(auto, unfolding(crate::specs::Texts::ranks_of))]
pub(crate) fn ranks(alloc: Global, view: &View<'_, '_>) -> Result<Seq<BoundEntry>, JsonFault>
    ensures { Says result (ranks_of (located view.now)) }
{
    list(alloc, view)
}
