//! Rules that nothing can take, since their rows contradict each other.
use crate::cycles::falling_cycle;
use crate::edges::{Edge, edges_of};
use crate::numbers::number_of;
use descent::{PathRule, RankRule};
use list_views::Seq;
use std::alloc::{AllocError, Global};

/// Counts the rows of an edge.
fn count_rows(sums: &mut Vec<i64>, edge: &Edge) {
    for (row, times) in edge.shown.as_slice() {
        let place = *row as usize;
        if place < sums.len() {
            sums[place] = sums[place].wrapping_add(*times);
        }
    }
}

/// The rows that count, with how often.
fn listed(alloc: Global, sums: &[i64]) -> Result<Seq<(u32, i64)>, AllocError> {
    let mut multipliers = Seq::new(alloc);
    for (row, times) in sums.iter().enumerate() {
        if *times != 0 {
            multipliers.push((number_of(row), *times))?;
        }
    }
    Ok(multipliers)
}

/// The rows of these edges together.
fn rows_of(
    alloc: Global,
    edges: &[Edge],
    cycle: &[u32],
    rows: usize,
) -> Result<Seq<(u32, i64)>, AllocError> {
    let mut sums = vec![in alloc; 0; rows]?;
    for number in cycle {
        if let Some(edge) = edges.get(*number as usize) {
            count_rows(&mut sums, edge);
        }
    }
    listed(alloc, &sums)
}

/// Multipliers by which a rule's rows may say that a number below 0 is at least 0.
fn contradiction(alloc: Global, rule: &PathRule) -> Result<Option<Seq<(u32, i64)>>, AllocError> {
    let edges = edges_of(alloc, rule)?;
    let edges = edges.as_slice();
    match falling_cycle(alloc, edges, rule.vars.saturating_add(1))? {
        Some(cycle) => Ok(Some(rows_of(alloc, edges, cycle.as_slice(), rule.rows.len())?)),
        None => Ok(None),
    }
}

/// Each rule as one on which a form that is 0 everywhere falls, where its rows contradict each other, else as one on which it stays;
/// None where no rule's rows do.
pub(crate) fn dead_rules(
    alloc: Global,
    rules: &[PathRule],
) -> Result<Option<Seq<RankRule>>, AllocError> {
    let mut rows = Seq::new(alloc);
    let mut some = false;
    for (number, rule) in rules.iter().enumerate() {
        let rule_number = number_of(number);
        match contradiction(alloc, rule)? {
            Some(fall) => {
                some = true;
                rows.push(RankRule::Strict {
                    rule: rule_number,
                    fall,
                    bound: Seq::new(alloc),
                })?;
            }
            None => rows.push(RankRule::Weak {
                rule: rule_number,
                fall: Seq::new(alloc),
            })?,
        }
    }
    if some { Ok(Some(rows)) } else { Ok(None) }
}
