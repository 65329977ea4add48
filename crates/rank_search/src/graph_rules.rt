//! Whether rules are as a graph's paths have them.
ghost use Rattle.std.specs.Prelude.{◌≡◌, ◌≤◌, IsTrue, All, true, unsigned_abs};
ghost use Rattle.lin_core.specs.Rows.{RiseFrom};
ghost use Rattle.descent.specs.Conditions.{AreRules};
ghost use Rattle.rank_forms.specs.Graphs.{AreNamed, ArePathRules, ArePlainRules, AreSizeTerms, HasClose, IsCloseInt, IsOneKind};
ghost use Rattle.rank_forms.specs.Graphs.{IsPathRule, IsPlainRule, IsShort, IsSizeSlot, head_of, heads, ids_of};
ghost use Rattle.rank_search.specs.inner.Heads.{AreShort, HasHeads, has_size, is_size};

use descent::{PathRule, Place, SlotForm};
use lin_core::WRow;
use rank_forms::rule_links::{has_zero, is_bound, is_inequality, is_place, same, variable_of};
use rank_forms::{close_row, slots_for};

/// Whether the ids of a kind rise.
fn ids_rise(slots: &[SlotForm], size: bool) -> bool
    ensures { IsTrue result → RiseFrom 0 65536 (ids_of size slots.now) }
{
    let mut low = 0;
    for slot in slots {
        if same(slot.size, size) {
            if u32::from(slot.id) < low {
                return false;
            }
            low = u32::from(slot.id) + 1;
        }
    }
    true
}

/// Whether the ids of both kinds rise.
fn are_named(slots: &[SlotForm]) -> bool
    ensures { IsTrue result → AreNamed slots.now }
{
    ids_rise(slots, false) && ids_rise(slots, true)
}

/// Whether a rule has few enough rows and variables, and the ids of both ends rise.
fn is_path_rule(rule: &PathRule) -> bool
    ensures { IsTrue result → IsPathRule rule.now }
{
    rule.rows.len() <= 65536
        && rule.vars <= 65536
        && are_named(rule.first.as_slice())
        && are_named(rule.last.as_slice())
}

/// Whether the places are the same ones.
fn same_places(one: &[Place], other: &[Place]) -> bool
    ensures { IsTrue result → one.now ≡ other.now }
{
    match one.split_first() {
        None => other.is_empty(),
        Some((place, rest)) => match other.split_first() {
            None => false,
            Some((again, more)) => is_place(place, again) && same_places(rest, more),
        },
    }
}

/// Whether two slots have one id, one kind and the same places.
fn same_head(one: &SlotForm, other: &SlotForm) -> bool
    ensures { IsTrue result → head_of one.now ≡ head_of other.now }
{
    one.id == other.id
        && same(one.size, other.size)
        && same_places(one.places.as_slice(), other.places.as_slice())
}

/// Whether slots have the same ids, kinds and places.
fn same_heads(one: &[SlotForm], other: &[SlotForm]) -> bool
    ensures { IsTrue result → heads one.now ≡ heads other.now }
{
    match one.split_first() {
        None => other.is_empty(),
        Some((slot, rest)) => match other.split_first() {
            None => false,
            Some((again, more)) => same_head(slot, again) && same_heads(rest, more),
        },
    }
}

/// Whether both ends of a rule have the heads of the first ends at their cuts.
fn has_heads(rules: &[PathRule], rule: &PathRule) -> bool
    ensures { IsTrue result → HasHeads rules.now rule.now }
{
    same_heads(rule.first.as_slice(), slots_for(rules, rule.from))
        && same_heads(rule.last.as_slice(), slots_for(rules, rule.to))
}

/// Whether each rule has few enough rows and variables, and rising ids.
fn all_path_rules(rules: &[PathRule]) -> bool
    ensures { IsTrue result → All IsPathRule rules.now }
{
    rules.iter().all(|rule| is_path_rule(rule))
}

/// Whether all ends have the heads of the first ends at their cuts.
fn all_have_heads(rules: &[PathRule]) -> bool
    ensures { IsTrue result → All (HasHeads rules.now) rules.now }
{
    rules.iter().all(|rule| has_heads(rules, rule))
}

/// Whether rules are as a graph's paths have them: at most 4,096, each with at most 65,536 rows and variables; the ids of a kind rise
/// at each end, and ends at one cut have the same ids, kinds and places.
#[tactic(auto, using(crate::proofs::Headed::path_rules))]
fn are_path_rules(rules: &[PathRule]) -> bool
    requires { AreRules rules.now }
    ensures { IsTrue result → ArePathRules rules.now }
{
    rules.len() <= 4096 && all_path_rules(rules) && all_have_heads(rules)
}

/// Whether a variable stands for a size: no row bounds it from above.
fn is_size(rows: &[WRow], variable: u32) -> bool
    ensures { result ≡ is_size rows.now variable }
{
    for row in rows {
        if is_bound(row, variable, &-1) {
            return false;
        }
    }
    true
}

/// Whether a row bounds a variable on a side with a constant of at most 2^31 in size.
#[tactic(auto, using(crate::proofs::PlainChecked::close_has))]
fn has_close(rows: &[WRow], variable: u32, times: &i64) -> bool
    ensures { IsTrue result → HasClose rows.now variable times.now }
{
    close_row(rows, variable, times).is_some()
}

/// Whether an int that is one variable is bounded on both sides.
#[tactic(auto, using(crate::proofs::PlainChecked::close_int, crate::proofs::PlainChecked::no_int))]
fn is_close_int(rows: &[WRow], slot: &SlotForm) -> bool
    ensures { IsTrue result → IsCloseInt rows.now slot.now }
{
    if slot.size {
        return true;
    }
    match variable_of(slot) {
        Some(variable) => has_close(rows, variable, &1) && has_close(rows, variable, &-1),
        None => true,
    }
}

fn are_close_ints(rows: &[WRow], slots: &[SlotForm]) -> bool
    ensures { IsTrue result → All (IsCloseInt rows.now) slots.now }
{
    slots.iter().all(|slot| is_close_int(rows, slot))
}

/// Whether a coefficient is at most 4,096 in size.
fn is_short_term(term: &(u32, i64)) -> bool
    ensures { IsTrue result → unsigned_abs term.now.1 ≤ 4096 }
{
    term.1.unsigned_abs() <= 4096
}

/// Whether three terms have coefficients of at most 4,096 in size.
fn are_short(terms: &[(u32, i64)]) -> bool
    ensures { IsTrue result → AreShort terms.now }
{
    match terms {
        [a, b, c] => is_short_term(a) && is_short_term(b) && is_short_term(c),
        _ => true,
    }
}

/// Whether an equation of three variables has coefficients of at most 4,096 in size.
#[tactic(auto, using(crate::proofs::PlainChecked::no_equation, crate::proofs::PlainChecked::short_three))]
fn is_short(row: &WRow) -> bool
    ensures { IsTrue result → IsShort row.now }
{
    if is_inequality(row.kind) {
        return true;
    }
    are_short(row.terms.as_slice())
}

fn are_short_rows(rows: &[WRow]) -> bool
    ensures { IsTrue result → All IsShort rows.now }
{
    rows.iter().all(|row| is_short(row))
}

/// Whether a size slot that is one variable has a size, which is at least 0 by a row.
#[tactic(auto, using(crate::proofs::PlainChecked::size_slot, crate::proofs::PlainChecked::no_size_slot))]
fn is_size_slot(rows: &[WRow], slot: &SlotForm) -> bool
    ensures { IsTrue result → IsSizeSlot rows.now (is_size rows.now) slot.now }
{
    if !slot.size {
        return true;
    }
    match variable_of(slot) {
        Some(variable) => is_size(rows, variable) && has_zero(variable, rows),
        None => true,
    }
}

fn are_size_slots(rows: &[WRow], slots: &[SlotForm]) -> bool
    ensures { IsTrue result → All (IsSizeSlot rows.now (is_size rows.now)) slots.now }
{
    slots.iter().all(|slot| is_size_slot(rows, slot))
}

/// Whether some term is a size.
fn has_size(rows: &[WRow], terms: &[(u32, i64)]) -> bool
    ensures { result ≡ has_size rows.now terms.now }
{
    for term in terms {
        if is_size(rows, term.0) {
            return true;
        }
    }
    false
}

fn is_size_term(rows: &[WRow], term: &(u32, i64)) -> bool
    ensures { IsTrue result → (is_size rows.now term.now.0 ≡ true) × (unsigned_abs term.now.1 ≤ 4096) }
{
    is_size(rows, term.0) && is_short_term(term)
}

fn are_size_terms(rows: &[WRow], terms: &[(u32, i64)]) -> bool
    ensures { IsTrue result → AreSizeTerms (is_size rows.now) terms.now }
{
    terms.iter().all(|term| is_size_term(rows, term))
}

/// Whether an equation that has a size has sizes alone.
#[tactic(auto, using(crate::proofs::PlainChecked::other_kind, crate::proofs::PlainChecked::no_kind, crate::proofs::PlainChecked::one_kind))]
fn is_one_kind(rows: &[WRow], row: &WRow) -> bool
    ensures { IsTrue result → IsOneKind (is_size rows.now) row.now }
{
    if is_inequality(row.kind) {
        return true;
    }
    if !has_size(rows, row.terms.as_slice()) {
        return true;
    }
    are_size_terms(rows, row.terms.as_slice())
}

fn are_one_kind(rows: &[WRow], all: &[WRow]) -> bool
    ensures { IsTrue result → All (IsOneKind (is_size rows.now)) all.now }
{
    all.iter().all(|row| is_one_kind(rows, row))
}

/// Whether a rule is as plain forms ask.
fn is_plain_rule(rule: &PathRule) -> bool
    ensures { IsTrue result → IsPlainRule rule.now }
{
    let rows = rule.rows.as_slice();
    let slots = rule.first.as_slice();
    if !are_close_ints(rows, slots) {
        return false;
    }
    if !are_short_rows(rows) {
        return false;
    }
    if !are_size_slots(rows, slots) {
        return false;
    }
    are_one_kind(rows, rows)
}

fn all_plain_rules(rules: &[PathRule]) -> bool
    ensures { IsTrue result → All IsPlainRule rules.now }
{
    rules.iter().all(|rule| is_plain_rule(rule))
}

/// Whether rules are as plain forms ask: as a graph's paths have them; an int slot of a rule's start that is one variable is bounded on
/// both sides with constants of at most 2^31 in size; a size slot of a rule's start that is one variable has one that no row bounds from
/// above and that is at least 0 by a row; in equations, variables that no row bounds from above stand with such alone, with coefficients
/// of at most 4,096 in size, as an equation of three variables without weights has.
#[tactic(auto, using(crate::proofs::PlainChecked::plain_rules))]
pub fn are_plain_rules(rules: &[PathRule]) -> bool
    requires { AreRules rules.now }
    ensures { IsTrue result → ArePlainRules rules.now }
{
    are_path_rules(rules) && all_plain_rules(rules)
}
