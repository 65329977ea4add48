//! The rules that each rule reaches.
ghost use Rattle.std.specs.Prelude.{◌≡◌, ◌<◌, true, false, None, Some, [], get_or, slice_set, length, IfOk, OnOk};
ghost use Rattle.descent.specs.inner.Inserting.{IsRow, IsTable};
ghost use Rattle.descent.specs.inner.Spreading.{first_from, all_from, next_of, group_at, groups_of, noted, spread};

use crate::rules::PathRule;
use list_views::Seq;
use std::alloc::{AllocError, Global};

/// The first rule that starts at a cut.
fn first_from(rules: &[PathRule], cut: u32) -> Option<usize>
    ensures { result ≡ first_from cut 0 rules.now }
{
    for (n, rule) in rules.iter().enumerate() {
        if rule.from == cut {
            return Some(n);
        }
    }
    None
}

/// The rules that start at a cut.
fn all_from(alloc: Global, rules: &[PathRule], cut: u32) -> Result<Seq<usize>, AllocError>
    ensures { IfOk result (λ all. all ≡ all_from cut 0 rules.now) }
{
    let mut all = Seq::new(alloc);
    for (n, rule) in rules.iter().enumerate() {
        if rule.from == cut {
            all.push(n)?;
        }
    }
    Ok(all)
}

/// For each rule the first of those that start where it ends.
fn next_of(alloc: Global, rules: &[PathRule]) -> Result<Seq<Option<usize>>, AllocError>
    ensures { IfOk result (λ next. next ≡ next_of rules.now rules.now) }
{
    let mut next = Seq::new(alloc);
    for rule in rules {
        next.push(first_from(rules, rule.to))?;
    }
    Ok(next)
}

/// Rule `n`, which starts at the cut, with those that start there too, if it is the first of them.
fn group_at(
    alloc: Global,
    rules: &[PathRule],
    n: usize,
    rule: &PathRule,
) -> Result<Seq<usize>, AllocError>
    ensures { IfOk result (λ group. group ≡ group_at rules.now n rule.now) }
{
    match first_from(rules, rule.from) {
        Some(first) => {
            if first == n {
                all_from(alloc, rules, rule.from)
            } else {
                Ok(Seq::new(alloc))
            }
        }
        None => Ok(Seq::new(alloc)),
    }
}

/// For the first rule at each cut all rules that start there, and none for the other rules.
fn groups_of(alloc: Global, rules: &[PathRule]) -> Result<Seq<Seq<usize>>, AllocError>
    ensures { IfOk result (λ groups. groups ≡ groups_of rules.now 0 rules.now) }
{
    let mut groups = Seq::new(alloc);
    for (n, rule) in rules.iter().enumerate() {
        groups.push(group_at(alloc, rules, n, rule)?)?;
    }
    Ok(groups)
}

/// Sets the mark at a number, if the marks reach so far.
fn set_mark(marks: &mut Vec<bool>, number: usize)
    ensures { marks.new.items ≡ slice_set marks.old.items number true }
{
    if number < marks.len() {
        marks[number] = true;
    }
}

/// The group that comes after a rule.
fn after(next: &[Option<usize>], rule: usize) -> Option<usize>
    ensures { result ≡ get_or next.now rule None }
{
    match next.get(rule) {
        Some(group) => *group,
        None => None,
    }
}

/// Notes a group that is come to, where it is there and isn't noted yet.
fn note(group: Option<usize>, seen: &mut Vec<bool>, todo: &mut Seq<usize>) -> Result<(), AllocError>
    ensures { OnOk result ((seen.new.items, todo.new) ≡ noted group (seen.old.items, todo.old)) }
{
    if let Some(number) = group {
        if number < seen.len() && !seen[number] {
            seen[number] = true;
            todo.push(number)?;
        }
    }
    Ok(())
}

/// Marks the rules of a group, and notes the groups that come after them.
fn go_on(
    next: &[Option<usize>],
    group: &[usize],
    marks: &mut Vec<bool>,
    seen: &mut Vec<bool>,
    todo: &mut Seq<usize>,
) -> Result<(), AllocError>
    ensures { OnOk result
        ((marks.new.items, (seen.new.items, todo.new)) ≡ spread next.now group.now (marks.old.items, (seen.old.items, todo.old))) }
{
    for rule in group {
        set_mark(marks, *rule);
        note(after(next, *rule), seen, todo)?;
    }
    Ok(())
}

/// The rules of a group.
fn group_of(groups: &[Seq<usize>], number: usize) -> &[usize]
    ensures { result.now ≡ get_or groups.now number [] }
{
    match groups.get(number) {
        Some(group) => group.as_slice(),
        None => &[],
    }
}

/// A mark for each rule that a rule reaches.
fn row(
    alloc: Global,
    rules: &[PathRule],
    next: &[Option<usize>],
    groups: &[Seq<usize>],
    rule: usize,
) -> Result<Seq<bool>, AllocError>
    requires rule { rule < length rules.now }
    requires next { next.now ≡ next_of rules.now rules.now }
    requires groups { groups.now ≡ groups_of rules.now 0 rules.now }
    ensures { IfOk result (λ row. IsRow rules.now rule row) }
{
    let mut marks = vec![in alloc; false; rules.len()]?;
    let mut seen = vec![in alloc; false; rules.len()]?;
    let mut todo = Seq::new(alloc);
    go_on(next, &[rule], &mut marks, &mut seen, &mut todo)?;
    while let Some(group) = todo.pop() {
        go_on(
            next,
            group_of(groups, group),
            &mut marks,
            &mut seen,
            &mut todo,
        )?;
    }
    Ok(Seq::from_vec(marks))
}

/// For each rule a mark for each rule that it reaches. It costs as many steps as there are pairs of rules.
///
/// # Errors
///
/// Want of memory.
pub(crate) fn table(alloc: Global, rules: &[PathRule]) -> Result<Seq<Seq<bool>>, AllocError>
    ensures { IfOk result (λ table. IsTable rules.now table) }
{
    let next = next_of(alloc, rules)?;
    let groups = groups_of(alloc, rules)?;
    rows(alloc, rules, next.as_slice(), groups.as_slice())
}

/// A row for each rule.
fn rows(
    alloc: Global,
    rules: &[PathRule],
    next: &[Option<usize>],
    groups: &[Seq<usize>],
) -> Result<Seq<Seq<bool>>, AllocError>
    requires next { next.now ≡ next_of rules.now rules.now }
    requires groups { groups.now ≡ groups_of rules.now 0 rules.now }
    ensures { IfOk result (λ table. IsTable rules.now table) }
{
    let mut table = Seq::new(alloc);
    for rule in 0..rules.len() {
        table.push(row(alloc, rules, next, groups, rule)?)?;
    }
    Ok(table)
}
