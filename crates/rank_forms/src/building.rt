//! The rank step that parts make.
ghost use Rattle.descent.specs.Conditions.{AreRules};

use crate::cut_forms::forms_by_parts;
use crate::gathering::{Gathered, gather};
use crate::rule_links::{Part, counts_size};
use crate::weights::ones;
use descent::{PathRule, RankRule, RankStep};
use list_views::Seq;
use std::alloc::{AllocError, Global};

/// Whether some part is a size.
fn has_size(parts: &[Part]) -> bool {
    for part in parts {
        if counts_size(part.course) {
            return true;
        }
    }
    false
}

/// What is gathered of each rule; None where a part isn't followed along one.
fn gather_all(
    alloc: Global,
    rules: &[PathRule],
    sizes: bool,
    parts: &[Part],
) -> Result<Option<Vec<Gathered>>, AllocError>
    requires { AreRules rules.now }
{
    let mut all = Vec::new(alloc);
    for rule in rules {
        match gather(alloc, rule, sizes, parts)? {
            Some(gathered) => all.push(gathered)?,
            None => return Ok(None),
        }
    }
    Ok(Some(all))
}

/// The greater of a number that may be there and another one.
fn greater(one: Option<i64>, other: i64) -> i64 {
    match one {
        Some(number) => { if number > other { number } else { other } }
        None => other,
    }
}

/// The constant by which the form is at least 0 where it falls.
fn constant_for(all: &[Gathered]) -> i64 {
    let mut most = None;
    for gathered in all {
        if let Some(base) = gathered.base() {
            most = Some(greater(most, base));
        }
    }
    match most {
        Some(constant) => constant,
        None => 0,
    }
}

/// The rules as they are listed; None where a multiplier was lost.
fn list_gathered(alloc: Global, all: &[Gathered]) -> Result<Option<Seq<RankRule>>, AllocError> {
    let mut listed = Seq::new(alloc);
    for (n, gathered) in all.iter().enumerate() {
        let Ok(rule) = u32::try_from(n) else {
            return Ok(None);
        };
        match gathered.listed(alloc, rule)? {
            Some(one) => listed.push(one)?,
            None => return Ok(None),
        }
    }
    Ok(Some(listed))
}

/// The step of these listed rules.
fn step_of(
    alloc: Global,
    rules: &[PathRule],
    size: bool,
    parts: &[Part],
    constant: i64,
    listed: Seq<RankRule>,
) -> Result<Option<RankStep>, AllocError> {
    let Some(forms) = forms_by_parts(alloc, rules, parts, constant)? else {
        return Ok(None);
    };
    let weights = if size {
        ones(alloc, rules)?
    } else {
        Seq::new(alloc)
    };
    Ok(Some(RankStep {
        size,
        weights,
        forms,
        rules: listed,
    }))
}

/// The rank step whose form is the sum of these parts at every cut; None where a part isn't followed along a rule, a cut has no slot
/// at its place, or a number of the step would be past 64 bits.
///
/// # Errors
///
/// Want of memory, which also answers a number of more than 64 bits that comes up while a part is followed.
pub fn build(
    alloc: Global,
    rules: &[PathRule],
    parts: &[Part],
) -> Result<Option<RankStep>, AllocError>
    requires { AreRules rules.now }
{
    let size = has_size(parts);
    let Some(all) = gather_all(alloc, rules, size, parts)? else {
        return Ok(None);
    };
    let constant = constant_for(all.as_slice());
    let Some(listed) = list_gathered(alloc, all.as_slice())? else {
        return Ok(None);
    };
    step_of(alloc, rules, size, parts, constant, listed)
}
