//! A bound for a certificate, where a form of each rank step gives one.
use crate::bound_search::carrying::{all_carried, joined};
use crate::bound_search::falls::fall_of;
use crate::bound_search::lines::form_at;
use crate::bound_search::stop::Stop;
use bound_check::given_sets;
use bound_text::{BoundEntry, BoundRule};
use descent::{CutForm, PathRule, ProofStep, RankStep};
use list_views::Seq;
use std::alloc::{AllocError, Global};

/// A number of 32 bits.
fn number_of(number: usize) -> Result<u32, Stop> {
    match u32::try_from(number) {
        Ok(number) => Ok(number),
        Err(_) => Err(Stop::None),
    }
}

/// Whether a rule of a set starts or ends at a cut.
fn ends_at(rules: &[PathRule], set: &[u32], cut: u32) -> bool {
    for number in set {
        if let Some(rule) = rules.get(*number as usize) {
            if rule.from == cut || rule.to == cut {
                return true;
            }
        }
    }
    false
}

/// Adds a cut, if it is none of a step's own and isn't there yet.
fn add_cut(
    cuts: &mut Vec<u32>,
    rules: &[PathRule],
    set: &[u32],
    step: &RankStep,
    cut: u32,
) -> Result<(), AllocError> {
    let own = form_at(step.forms.as_slice(), cut).is_some() || ends_at(rules, set, cut);
    if !own && !cuts.as_slice().contains(&cut) {
        cuts.push(cut)?;
    }
    Ok(())
}

/// The cuts of the rules that are none of a step's own, rising.
fn other_cuts(
    alloc: Global,
    rules: &[PathRule],
    set: &[u32],
    step: &RankStep,
) -> Result<Vec<u32>, AllocError> {
    let mut cuts = Vec::new(alloc);
    for rule in rules {
        add_cut(&mut cuts, rules, set, step, rule.from)?;
        add_cut(&mut cuts, rules, set, step, rule.to)?;
    }
    cuts.sort_by_key(|cut| *cut)?;
    Ok(cuts)
}

/// The multipliers for all rules outside a set, where the whole form never rises on any of them.
fn all_falls(
    alloc: Global,
    rules: &[PathRule],
    set: &[u32],
    step: &RankStep,
    forms: &[CutForm],
) -> Result<Seq<BoundRule>, Stop> {
    let mut listed = Seq::new(alloc);
    for (number, rule) in rules.iter().enumerate() {
        let number = number_of(number)?;
        if set.contains(&number) {
            continue;
        }
        let fall = fall_of(alloc, rule, step, forms)?;
        if !fall.is_empty() {
            listed.push(BoundRule { rule: number, fall })?;
        }
    }
    Ok(listed)
}

/// The entry of a step with these forms at other cuts.
fn with_forms(
    alloc: Global,
    rules: &[PathRule],
    number: u32,
    set: &[u32],
    step: &RankStep,
    forms: Seq<CutForm>,
) -> Result<BoundEntry, Stop> {
    let whole = joined(alloc, step.forms.as_slice(), forms.as_slice())?;
    let rules = all_falls(alloc, rules, set, step, whole.as_slice())?;
    Ok(BoundEntry {
        step: number,
        forms,
        rules,
    })
}

/// The entry of a step with one of its forms at all other cuts.
fn with_form(
    alloc: Global,
    rules: &[PathRule],
    number: u32,
    set: &[u32],
    step: &RankStep,
    cuts: &[u32],
    form: &CutForm,
) -> Result<BoundEntry, Stop> {
    let forms = all_carried(alloc, rules, form, cuts)?;
    with_forms(alloc, rules, number, set, step, forms)
}

/// The entry of a step: with no form at other cuts, or else with the first of its own that does.
fn entry_of(
    alloc: Global,
    rules: &[PathRule],
    number: u32,
    set: &[u32],
    step: &RankStep,
) -> Result<BoundEntry, Stop> {
    match with_forms(alloc, rules, number, set, step, Seq::new(alloc)) {
        Err(Stop::None) => {}
        answer => return answer,
    }
    let cuts = other_cuts(alloc, rules, set, step)?;
    for form in step.forms.as_slice() {
        match with_form(alloc, rules, number, set, step, cuts.as_slice(), form) {
            Err(Stop::None) => {}
            answer => return answer,
        }
    }
    Err(Stop::None)
}

/// The set of a step.
fn set_at(given: &[Option<Seq<u32>>], number: usize) -> &[u32] {
    match given.get(number) {
        Some(Some(set)) => set.as_slice(),
        _ => &[],
    }
}

/// The entries of all rank steps.
fn entries(
    alloc: Global,
    rules: &[PathRule],
    steps: &[ProofStep],
) -> Result<Seq<BoundEntry>, Stop> {
    let given = given_sets(alloc, number_of(rules.len())?, steps)?;
    let mut list = Seq::new(alloc);
    for (n, step) in steps.iter().enumerate() {
        if let ProofStep::Rank { step, .. } = step {
            let set = set_at(given.as_slice(), n);
            list.push(entry_of(alloc, rules, number_of(n)?, set, step)?)?;
        }
    }
    Ok(list)
}

/// The entries of a bound for the rules and the steps of a proof, where for each rank step one of its own forms gives one: at other cuts
/// the form is 0, or what stands at the same places. None where the search finds none; nothing is claimed of what it finds.
///
/// # Errors
///
/// Want of memory.
pub fn find(
    alloc: Global,
    rules: &[PathRule],
    steps: &[ProofStep],
) -> Result<Option<Seq<BoundEntry>>, AllocError> {
    match entries(alloc, rules, steps) {
        Ok(entries) => Ok(Some(entries)),
        Err(Stop::None) => Ok(None),
        Err(Stop::Memory) => Err(AllocError),
    }
}
