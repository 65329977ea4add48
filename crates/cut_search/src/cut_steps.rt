//! The rank step of a form that differs from cut to cut.
use crate::reducing::Reduced;
use crate::stop::Stop;
use crate::sums::{Sum, added, count_at, plus_times, sum_at, times_of};
use crate::tables::share_of;
use crate::unknowns::{Unknown, bound_of, sign_of};
use descent::{CutForm, PathRule, RankRule, RankStep, SlotForm};
use list_views::Seq;
use rank_forms::{ones, slots_for};
use std::alloc::{AllocError, Global};

/// What a rule says of a sum: it is at least a number, by its rows, each some times.
#[derive(Drop)]
struct Reason {
    least: i64,
    rows: Seq<(u32, i64)>,
}

/// Why a form doesn't rise along a rule, and, where it falls and is bounded, why it is.
#[derive(Drop)]
struct Grounds {
    fall: Reason,
    bound: Option<Reason>,
}

/// What the unknowns add to the fall of a rule, so many times each, bounds aside.
fn fall_sum(
    alloc: Global,
    rule: &Reduced,
    n: usize,
    unknowns: &[Unknown],
    counts: &[i64],
) -> Result<Sum, Stop> {
    let mut sum = Vec::new(alloc);
    for (k, unknown) in unknowns.iter().enumerate() {
        let times = count_at(counts, k);
        if times != 0 {
            let share = share_of(alloc, rule, n, unknown)?;
            sum = added(alloc, sum.as_slice(), share.as_slice(), times)?;
        }
    }
    Ok(sum)
}

/// The form where a rule starts, without its constant.
fn start_sum(
    alloc: Global,
    rule: &Reduced,
    unknowns: &[Unknown],
    counts: &[i64],
) -> Result<Sum, Stop> {
    let mut sum = Vec::new(alloc);
    for (k, unknown) in unknowns.iter().enumerate() {
        if let Unknown::Slot { cut, slot, times } = unknown {
            if *cut == rule.from {
                let often = plus_times(0, *times, count_at(counts, k)).ok_or(Stop::NoForm)?;
                sum = added(
                    alloc,
                    sum.as_slice(),
                    sum_at(rule.first.as_slice(), *slot),
                    often,
                )?;
            }
        }
    }
    Ok(sum)
}

/// The sum without its variables: for each, the row that bounds it is taken off.
fn without(alloc: Global, rule: &Reduced, sum: &[(usize, i64)]) -> Result<Sum, Stop> {
    let mut left = added(alloc, sum, &[], 0)?;
    for entry in sum {
        if entry.0 < rule.vars {
            let sign = sign_of(entry.1);
            let row = bound_of(rule, entry.0, sign).ok_or(Stop::NoForm)?;
            let size = entry.1.checked_mul(sign).ok_or(Stop::NoForm)?;
            let less = size.checked_neg().ok_or(Stop::NoForm)?;
            left = added(
                alloc,
                left.as_slice(),
                sum_at(rule.rows.as_slice(), row),
                less,
            )?;
        }
    }
    Ok(left)
}

/// The row that a number stands for.
fn row_of(number: usize, vars: usize) -> Option<u32> {
    u32::try_from(number.checked_sub(vars)?.checked_sub(1)?).ok()
}

/// The rows that a sum without variables counts, each as often as it is taken off.
fn taken_rows(alloc: Global, sum: &[(usize, i64)], vars: usize) -> Result<Seq<(u32, i64)>, Stop> {
    let mut rows = Seq::new(alloc);
    for entry in sum {
        if entry.0 > vars {
            let row = row_of(entry.0, vars).ok_or(Stop::NoForm)?;
            rows.push((row, entry.1.checked_neg().ok_or(Stop::NoForm)?))?;
        }
    }
    Ok(rows)
}

/// Why a sum is at least a number.
fn reason_of(alloc: Global, rule: &Reduced, sum: &[(usize, i64)]) -> Result<Reason, Stop> {
    let left = without(alloc, rule, sum)?;
    let rows = taken_rows(alloc, left.as_slice(), rule.vars)?;
    Ok(Reason {
        least: times_of(left.as_slice(), rule.vars),
        rows,
    })
}

/// Why the form is at least a number where a rule starts; None where the rule's bounds don't say so.
fn bound_reason(
    alloc: Global,
    rule: &Reduced,
    unknowns: &[Unknown],
    counts: &[i64],
) -> Result<Option<Reason>, Stop> {
    let start = start_sum(alloc, rule, unknowns, counts)?;
    match reason_of(alloc, rule, start.as_slice()) {
        Ok(reason) => Ok(Some(reason)),
        Err(Stop::NoForm) => Ok(None),
        Err(Stop::Memory) => Err(Stop::Memory),
    }
}

/// Why the form doesn't rise along a rule, and, where it falls and is bounded, why it is.
fn grounds_of(
    alloc: Global,
    rule: &Reduced,
    n: usize,
    unknowns: &[Unknown],
    counts: &[i64],
) -> Result<Grounds, Stop> {
    let sum = fall_sum(alloc, rule, n, unknowns, counts)?;
    let fall = reason_of(alloc, rule, sum.as_slice())?;
    let bound = if fall.least > 0 {
        bound_reason(alloc, rule, unknowns, counts)?
    } else {
        None
    };
    Ok(Grounds { fall, bound })
}

/// The constant of a cut.
fn constant_of(cut: u32, unknowns: &[Unknown], counts: &[i64]) -> Option<i64> {
    let mut sum: i64 = 0;
    for (k, unknown) in unknowns.iter().enumerate() {
        if let Unknown::Constant { cut: own, times } = unknown {
            if *own == cut {
                sum = plus_times(sum, *times, count_at(counts, k))?;
            }
        }
    }
    Some(sum)
}

/// How often a slot of a cut counts.
fn slot_count(cut: u32, place: usize, unknowns: &[Unknown], counts: &[i64]) -> Option<i64> {
    let mut sum: i64 = 0;
    for (k, unknown) in unknowns.iter().enumerate() {
        if let Unknown::Slot {
            cut: own,
            slot,
            times,
        } = unknown
        {
            if *own == cut && *slot == place {
                sum = plus_times(sum, *times, count_at(counts, k))?;
            }
        }
    }
    Some(sum)
}

/// What has to be added to the constants so that the form is at least 0 where it falls; None where it falls nowhere.
fn more_of(left: &[Reduced], all: &[Grounds], unknowns: &[Unknown], counts: &[i64]) -> Option<i64> {
    let mut most: Option<i64> = None;
    for (n, grounds) in all.iter().enumerate() {
        if let Some(bound) = &grounds.bound {
            let own = constant_of(left.get(n)?.from, unknowns, counts)?;
            let need = own.checked_add(bound.least)?.checked_neg()?;
            if most.is_none() || most < Some(need) {
                most = Some(need);
            }
        }
    }
    most
}

/// The multiples of a cut's slots of a kind.
fn multiples_of(
    alloc: Global,
    cut: u32,
    slots: &[SlotForm],
    size: bool,
    unknowns: &[Unknown],
    counts: &[i64],
) -> Result<Seq<(u16, i64)>, Stop> {
    let mut list = Seq::new(alloc);
    for (n, slot) in slots.iter().enumerate() {
        let times = slot_count(cut, n, unknowns, counts).ok_or(Stop::NoForm)?;
        if slot.size == size && times != 0 {
            list.push((slot.id, times))?;
        }
    }
    Ok(list)
}

/// The forms of all cuts.
fn forms_of(
    alloc: Global,
    rules: &[PathRule],
    cuts: &[u32],
    more: i64,
    unknowns: &[Unknown],
    counts: &[i64],
) -> Result<Seq<CutForm>, Stop> {
    let mut forms = Seq::new(alloc);
    for cut in cuts {
        let slots = slots_for(rules, *cut);
        let own = constant_of(*cut, unknowns, counts).ok_or(Stop::NoForm)?;
        forms.push(CutForm {
            cut: *cut,
            constant: own.checked_add(more).ok_or(Stop::NoForm)?,
            ints: multiples_of(alloc, *cut, slots, false, unknowns, counts)?,
            sizes: multiples_of(alloc, *cut, slots, true, unknowns, counts)?,
        })?;
    }
    Ok(forms)
}

/// A rule as it is listed.
fn listed(rule: u32, grounds: Grounds) -> RankRule {
    let Grounds { fall, bound } = grounds;
    match bound {
        Some(above) => RankRule::Strict {
            rule,
            fall: fall.rows,
            bound: above.rows,
        },
        None => RankRule::Weak {
            rule,
            fall: fall.rows,
        },
    }
}

/// The rules as they are listed.
fn list_all(alloc: Global, all: Vec<Grounds>) -> Result<Seq<RankRule>, AllocError> {
    let mut rules = Seq::new(alloc);
    let mut rule: u32 = 0;
    for grounds in all {
        rules.push(listed(rule, grounds))?;
        rule = rule.saturating_add(1);
    }
    Ok(rules)
}

/// Whether a rule has a size at an end.
fn has_size(rule: &PathRule) -> bool {
    rule.first.as_slice().iter().any(|slot| slot.size)
        || rule.last.as_slice().iter().any(|slot| slot.size)
}

/// The rank step of what counts how often.
pub(crate) fn cut_step(
    alloc: Global,
    rules: &[PathRule],
    cuts: &[u32],
    left: &[Reduced],
    unknowns: &[Unknown],
    counts: &[i64],
) -> Result<RankStep, Stop> {
    let mut all = Vec::new(alloc);
    for (n, rule) in left.iter().enumerate() {
        all.push(grounds_of(alloc, rule, n, unknowns, counts)?)?;
    }
    let more = more_of(left, all.as_slice(), unknowns, counts).ok_or(Stop::NoForm)?;
    let forms = forms_of(alloc, rules, cuts, more, unknowns, counts)?;
    let weights = ones(alloc, rules)?;
    Ok(RankStep {
        size: !weights.is_empty() || rules.iter().any(|rule| has_size(rule)),
        weights,
        forms,
        rules: list_all(alloc, all)?,
    })
}
