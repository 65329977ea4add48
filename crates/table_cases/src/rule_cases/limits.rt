//! Tests of what proofs and searches ask of rules.
ghost use Rattle.std.specs.Prelude.{◌≤◌, ◌^◌, IsTrue};
ghost use Rattle.lin_core.specs.Rows.{RiseFrom};
ghost use Rattle.lin_core.specs.Weights.{AreRows, IsRow, total_size};
ghost use Rattle.descent.specs.Conditions.{AreRules, AreSlots, IsRule, IsSlot};

use descent::{PathRule, SlotForm, WRow};

/// Whether the first numbers rise and are below `end`.
fn rise(terms: &[(u32, i64)], end: u32) -> bool
    ensures { IsTrue result → RiseFrom 0 end terms.now }
{
    let mut low = 0;
    for (variable, _) in terms {
        if *variable < low || *variable >= end {
            return false;
        }
        low = *variable + 1;
    }
    true
}

/// Whether the sizes of the second numbers add up to at most 2^40.
fn are_light(terms: &[(u32, i64)]) -> bool
    ensures { IsTrue result → total_size terms.now ≤ 2 ^ 40 }
{
    let mut room: u64 = 1 << 40;
    for (_, multiple) in terms {
        let size = multiple.unsigned_abs();
        if size > room {
            return false;
        }
        room -= size;
    }
    true
}

fn is_row(row: &WRow, vars: u32) -> bool
    ensures { IsTrue result → IsRow vars row.now }
{
    rise(row.terms.as_slice(), vars)
        && row.constant.unsigned_abs() <= 1 << 40
        && are_light(row.weights.as_slice())
}

fn are_rows(rows: &[WRow], vars: u32) -> bool
    ensures { IsTrue result → AreRows vars rows.now }
{
    rows.iter().all(|row| is_row(row, vars))
}

fn is_slot(slot: &SlotForm, vars: u32) -> bool
    ensures { IsTrue result → IsSlot vars slot.now }
{
    rise(slot.terms.as_slice(), vars)
        && slot.constant.unsigned_abs() <= 1 << 40
        && are_light(slot.weights.as_slice())
}

fn are_slots(slots: &[SlotForm], vars: u32) -> bool
    ensures { IsTrue result → AreSlots vars slots.now }
{
    slots.iter().all(|slot| is_slot(slot, vars))
}

/// Whether the rows and slots of the rule are within the limits.
pub fn is_rule(rule: &PathRule) -> bool
    ensures { IsTrue result → IsRule rule.now }
{
    are_rows(rule.rows.as_slice(), rule.vars)
        && are_slots(rule.first.as_slice(), rule.vars)
        && are_slots(rule.last.as_slice(), rule.vars)
}

/// Whether the rows and slots of the rules are within the limits.
pub fn are_rules(rules: &[PathRule]) -> bool
    ensures { IsTrue result → AreRules rules.now }
{
    rules.iter().all(|rule| is_rule(rule))
}
