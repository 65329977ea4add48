//! Whether rules are within the limits of proofs.
ghost use Rattle.std.specs.Prelude.{◌≤◌, ◌^◌, IsTrue, All, unsigned_abs};
ghost use Rattle.lin_core.specs.Rows.{RiseFrom};
ghost use Rattle.lin_core.specs.Weights.{AreRows, IsRow, total_size};
ghost use Rattle.descent.specs.Conditions.{AreRules, AreSlots, IsRule, IsSlot};

use descent::{PathRule, SlotForm};
use lin_core::WRow;
use list_views::Seq;

/// Whether the variables of a sum rise and are below `end`.
fn rise_below(end: u32, terms: &[(u32, i64)]) -> bool
    ensures { IsTrue result → RiseFrom 0 end terms.now }
{
    let mut low = 0;
    for (variable, _) in terms {
        if *variable < low || *variable >= end {
            return false;
        }
        low = *variable + 1;
    }
    true
}

/// Whether no class is listed.
fn has_no_weights(weights: &Seq<(u32, i64)>) -> bool
    ensures { IsTrue result → total_size weights.now ≤ 2 ^ 40 }
{
    weights.is_empty()
}

/// Whether a row without weights is one over the variables below `end`.
fn is_row(end: u32, row: &WRow) -> bool
    ensures { IsTrue result → IsRow end row.now }
{
    has_no_weights(&row.weights)
        && row.constant.unsigned_abs() <= 1 << 40
        && rise_below(end, row.terms.as_slice())
}

fn are_rows(end: u32, rows: &[WRow]) -> bool
    ensures { IsTrue result → AreRows end rows.now }
{
    rows.iter().all(|row| is_row(end, row))
}

/// Whether a slot without weights is one over the variables below `end`.
fn is_slot(end: u32, slot: &SlotForm) -> bool
    ensures { IsTrue result → IsSlot end slot.now }
{
    has_no_weights(&slot.weights)
        && slot.constant.unsigned_abs() <= 1 << 40
        && rise_below(end, slot.terms.as_slice())
}

fn are_slots(end: u32, slots: &[SlotForm]) -> bool
    ensures { IsTrue result → AreSlots end slots.now }
{
    slots.iter().all(|slot| is_slot(end, slot))
}

fn is_rule(rule: &PathRule) -> bool
    ensures { IsTrue result → IsRule rule.now }
{
    are_rows(rule.vars, rule.rows.as_slice())
        && are_slots(rule.vars, rule.first.as_slice())
        && are_slots(rule.vars, rule.last.as_slice())
}

/// Whether rules without weights are within the limits of proofs.
pub(crate) fn are_rules(rules: &[PathRule]) -> bool
    ensures { IsTrue result → AreRules rules.now }
{
    rules.iter().all(|rule| is_rule(rule))
}
