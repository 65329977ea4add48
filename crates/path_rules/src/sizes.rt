//! Rows and slots of sizes: multiples of the weights of a pattern's classes, and of the sizes of its variables.
ghost use Rattle.std.specs.Prelude.{◌≡◌, ◌≤◌, ◌+◌, ◌^◌, ◌++◌, map, length, OnOk, IfOk, unsigned_abs};
ghost use Rattle.lin_core.specs.Weights.{total_size};
ghost use Rattle.abs_cells.specs.Patterns.{count_in};
ghost use Rattle.term_enc.specs.Encoding.{pattern_of};
ghost use Rattle.term_enc.specs.Sizes.{variables_in, classes_in, collected, each_times, size_row, size_terms, size_weights};
ghost use Rattle.path_rules.specs.Rules.{rows_of_size, variable_of};
ghost use Rattle.path_rules.specs.Sizing.{size_at};

use crate::stops::Stop;
use crate::terms::with_term;
use abs_cells::{Id, Pairs};
use abs_reach::Marks;
use lin_core::{RowKind, WRow};
use list_views::Seq;
use std::alloc::{AllocError, Global};
use term_enc::PatternTerm;

/// Adds the variables of a pattern, by their numbers at a stop.
fn push_variables<P: Pairs>(
    names: &mut Seq<u32>,
    stop: &Stop<P>,
    pattern: &PatternTerm,
) -> Result<(), AllocError>
    ensures { OnOk result
        (names.new ≡ names.old ++ map (variable_of stop.now.first stop.now.node.state) (variables_in (pattern_of pattern.now))) }
{
    match pattern {
        PatternTerm::Null | PatternTerm::Leaf => Ok(()),
        PatternTerm::Var(id) => Ok(names.push(stop.variable(*id))?),
        PatternTerm::Node(_, children) => {
            for child in children {
                push_variables(names, stop, child)?;
            }
            Ok(())
        }
    }
}

/// Adds the classes of a pattern's nodes.
fn push_classes(names: &mut Seq<u32>, pattern: &PatternTerm) -> Result<(), AllocError>
    ensures { OnOk result (names.new ≡ names.old ++ classes_in (pattern_of pattern.now)) }
{
    match pattern {
        PatternTerm::Null | PatternTerm::Leaf | PatternTerm::Var(_) => Ok(()),
        PatternTerm::Node(class, children) => {
            names.push(*class)?;
            for child in children {
                push_classes(names, child)?;
            }
            Ok(())
        }
    }
}

/// So much of a name.
fn term_of(name: u32, number: &i64) -> (u32, i64)
    ensures { result ≡ (name, number.now) }
{
    (name, *number)
}

/// So much of each name, collected into rising terms.
#[tactic(auto, using(crate::proofs::Adding::none_added))]
fn added(alloc: Global, number: &i64, names: &[u32]) -> Result<Seq<(u32, i64)>, AllocError>
    requires few { length names.now ≤ 65536 }
    requires unit { unsigned_abs number.now ≤ 1 }
    ensures sum { IfOk result (λ sum. sum ≡ collected (each_times number.now names.now)) }
    ensures small { IfOk result (λ sum. total_size sum ≤ length names.now) }
{
    let mut sum = Seq::new(alloc);
    let mut left = names.len();
    while left > 0 {
        left -= 1;
        let term = term_of(names[left], number);
        sum = with_term(alloc, sum.as_slice(), &term)?;
    }
    Ok(sum)
}

/// So much of each variable of a pattern.
#[tactic(auto, using(crate::proofs::Adding::few_names))]
pub(crate) fn variable_terms<P: Pairs>(
    alloc: Global,
    number: &i64,
    stop: &Stop<P>,
    pattern: &PatternTerm,
) -> Result<Seq<(u32, i64)>, AllocError>
    requires small { count_in (pattern_of pattern.now) ≤ 4096 }
    requires unit { unsigned_abs number.now ≤ 1 }
    ensures sum { IfOk result
        (λ sum. sum ≡ collected
        (each_times number.now (map (variable_of stop.now.first stop.now.node.state) (variables_in (pattern_of pattern.now))))) }
    ensures small { IfOk result (λ sum. total_size sum ≤ 4096) }
{
    let mut names = Seq::new(alloc);
    push_variables(&mut names, stop, pattern)?;
    added(alloc, number, names.as_slice())
}

/// So much of the weight of each class of a pattern.
#[tactic(auto, using(crate::proofs::Adding::few_classes))]
pub(crate) fn class_terms(
    alloc: Global,
    number: &i64,
    pattern: &PatternTerm,
) -> Result<Seq<(u32, i64)>, AllocError>
    requires small { count_in (pattern_of pattern.now) ≤ 4096 }
    requires unit { unsigned_abs number.now ≤ 1 }
    ensures { IfOk result (λ sum. sum ≡ collected (each_times number.now (classes_in (pattern_of pattern.now)))) }
{
    let mut names = Seq::new(alloc);
    push_classes(&mut names, pattern)?;
    added(alloc, number, names.as_slice())
}

/// A variable is the size of a pattern.
fn size_row<P: Pairs>(
    alloc: Global,
    variable: u32,
    stop: &Stop<P>,
    pattern: &PatternTerm,
) -> Result<WRow, AllocError>
    requires small { count_in (pattern_of pattern.now) ≤ 4096 }
    ensures { IfOk result (λ row. row ≡ size_row variable (variable_of stop.now.first stop.now.node.state) (pattern_of pattern.now)) }
{
    let terms = variable_terms(alloc, &-1, stop, pattern)?;
    Ok(WRow {
        kind: RowKind::IsZero,
        terms: with_term(alloc, terms.as_slice(), &(variable, 1))?,
        constant: 0,
        weights: class_terms(alloc, &-1, pattern)?,
    })
}

/// Adds the row that says that a variable is the size of an id of a stop, if the id is sized.
#[tactic(auto, using(crate::proofs::Sized::size_small))]
pub(crate) fn push_size<P: Pairs>(
    alloc: Global,
    rows: &mut Seq<WRow>,
    variable: u32,
    stop: &Stop<P>,
    id: Id,
    marks: &mut Marks,
) -> Result<(), AllocError>
    ensures { OnOk result (rows.new ≡ rows.old ++ rows_of_size variable stop.now.first stop.now.node.state
        (size_at stop.now.node.state id)) }
{
    if let Some(pattern) = stop.pattern(alloc, id, marks)? {
        rows.push(size_row(alloc, variable, stop, &pattern)?)?;
    }
    Ok(())
}
