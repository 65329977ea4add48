//! The classes of rules that reach each other.
ghost use Rattle.std.specs.Prelude.{◌≡◌, ◌<◌, ◌≤◌, true, false, [], length, IfOk, OnOk};
ghost use Rattle.descent.specs.Components.{AreClasses};
ghost use Rattle.descent.specs.inner.Inserting.{tells, head_of, first_at, joins, put_at, insert_into, insert_all};

use crate::reaching::table;
use crate::rules::PathRule;
use list_views::Seq;
use std::alloc::{AllocError, Global};

/// Whether one rule reaches another.
fn tells(table: &[Seq<bool>], rule: u32, other: u32) -> bool
    ensures { result ≡ tells table.now rule other }
{
    match table.get(rule as usize) {
        Some(row) => match row.as_slice().get(other as usize) {
            Some(mark) => *mark,
            None => false,
        },
        None => false,
    }
}

/// The first rule of a class.
fn head_of(class: &[u32]) -> u32
    ensures { result ≡ head_of class.now }
{
    match class.first() {
        Some(rule) => *rule,
        None => 0,
    }
}

/// The first class whose first rule the rule reaches, or the number of classes.
fn first_at(table: &[Seq<bool>], rule: u32, classes: &[Seq<u32>]) -> usize
    ensures place { result ≡ first_at table.now rule classes.now }
    ensures bound { result ≤ length classes.now }
{
    for (n, class) in classes.iter().enumerate() {
        if tells(table, rule, head_of(class.as_slice())) {
            return n;
        }
    }
    classes.len()
}

/// Whether class `n` is there, and its first rule reaches the rule.
fn joins(table: &[Seq<bool>], rule: u32, classes: &[Seq<u32>], n: usize) -> bool
    ensures { result ≡ joins table.now rule classes.now n }
{
    match classes.get(n) {
        Some(class) => tells(table, head_of(class.as_slice()), rule),
        None => false,
    }
}

/// Puts a rule at the end of class `n`.
fn add_to(rule: u32, n: usize, classes: &mut Vec<Seq<u32>>) -> Result<(), AllocError>
    requires { n < length classes.old.items }
    ensures { OnOk result (classes.new.items ≡ put_at true rule n classes.old.items) }
{
    let mut class = classes.remove(n);
    class.push(rule)?;
    classes.insert(n, class)?;
    Ok(())
}

/// Puts a rule before class `n`, as a class of its own.
fn add_before(
    alloc: Global,
    rule: u32,
    n: usize,
    classes: &mut Vec<Seq<u32>>,
) -> Result<(), AllocError>
    requires { n ≤ length classes.old.items }
    ensures { OnOk result (classes.new.items ≡ put_at false rule n classes.old.items) }
{
    let mut class = Seq::new(alloc);
    class.push(rule)?;
    classes.insert(n, class)?;
    Ok(())
}

/// Puts a rule into the class of the rules that it reaches and that reach it, or makes it a class before those that it reaches.
fn put_in(
    alloc: Global,
    table: &[Seq<bool>],
    rule: u32,
    classes: &mut Vec<Seq<u32>>,
) -> Result<(), AllocError>
    ensures { OnOk result (classes.new.items ≡ insert_into table.now rule classes.old.items) }
{
    let n = first_at(table, rule, classes.as_slice());
    if joins(table, rule, classes.as_slice(), n) {
        add_to(rule, n, classes)
    } else {
        add_before(alloc, rule, n, classes)
    }
}

/// Puts the rules into classes, one after another.
fn put_all(alloc: Global, table: &[Seq<bool>]) -> Result<Seq<Seq<u32>>, AllocError>
    requires { length table.now ≤ 4294967295 }
    ensures { IfOk result (λ classes. classes ≡ insert_all table.now 0 (length table.now) []) }
{
    let mut classes = Vec::new(alloc);
    for rule in 0..table.len() {
        put_in(alloc, table, rule as u32, &mut classes)?;
    }
    Ok(Seq::from_vec(classes))
}

/// The classes of rules that reach each other, in an order in which no rule is followed by one of an earlier class; in a class
/// the rules rise. It costs as many steps as there are pairs of rules.
///
/// # Errors
///
/// Want of memory, which also answers more rules than 32 bits count.
pub fn components(alloc: Global, rules: &[PathRule]) -> Result<Seq<Seq<u32>>, AllocError>
    ensures { IfOk result (λ classes. AreClasses rules.now classes) }
{
    if rules.len() > u32::MAX as usize {
        return Err(AllocError);
    }
    let table = table(alloc, rules)?;
    put_all(alloc, table.as_slice())
}
