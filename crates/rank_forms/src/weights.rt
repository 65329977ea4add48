//! The weights of classes for sizes: 1 for each class that a row names.
ghost use Rattle.std.specs.Prelude.{◌≡◌, ◌++◌, ◌≤◌, ℕ, IfOk, OnOk};
ghost use Rattle.std.specs.List.Sorted.{IsNonDecreasingBy, IsPermutation};
ghost use Rattle.lin_core.specs.Rows.{Rise};
ghost use Rattle.rank_forms.specs.Weighing.{AreOnes, all_classes, classes_of, row_classes};
ghost use Rattle.rank_forms.specs.inner.Weighing.{next_low, one_at, ones_from};

use descent::PathRule;
use lin_core::WRow;
use list_views::Seq;
use std::alloc::{AllocError, Global};

/// Adds the classes of multiples.
fn add_classes(weights: &[(u32, i64)], classes: &mut Seq<u32>) -> Result<(), AllocError>
    ensures { OnOk result (classes.new ≡ classes.old ++ classes_of weights.now) }
{
    for (class, _) in weights {
        classes.push(*class)?;
    }
    Ok(())
}

/// Adds the classes of rows.
fn add_rows(rows: &[WRow], classes: &mut Seq<u32>) -> Result<(), AllocError>
    ensures { OnOk result (classes.new ≡ classes.old ++ row_classes rows.now) }
{
    for row in rows {
        add_classes(row.weights.as_slice(), classes)?;
    }
    Ok(())
}

/// The classes that the rows of rules name.
fn all_classes(alloc: Global, rules: &[PathRule]) -> Result<Seq<u32>, AllocError>
    ensures { IfOk result (λ classes. classes ≡ all_classes rules.now) }
{
    let mut classes = Seq::new(alloc);
    for rule in rules {
        add_rows(rule.rows.as_slice(), &mut classes)?;
    }
    Ok(classes)
}

/// Puts classes into their order.
fn sort_classes(classes: &mut Vec<u32>) -> Result<(), AllocError>
    ensures order { OnOk result (IsNonDecreasingBy (λ (class : ℕ). class) classes.new.items) }
    ensures same { IsPermutation classes.old.items classes.new.items }
{
    classes.sort_by_key(|class| *class)?;
    Ok(())
}

/// Adds a class that isn't below a number, and gives the number from which the next one counts.
fn add_one(class: u32, low: u64, weights: &mut Seq<(u32, i64)>) -> Result<u64, AllocError>
    requires { low ≤ 4294967296 }
    ensures one { OnOk result (weights.new ≡ weights.old ++ one_at class low) }
    ensures next { IfOk result (λ next. next ≡ next_low class low) }
    ensures small { IfOk result (λ next. next ≤ 4294967296) }
{
    if u64::from(class) < low {
        return Ok(low);
    }
    weights.push((class, 1))?;
    Ok(u64::from(class) + 1)
}

/// Each class once, with the weight 1.
fn ones_of(alloc: Global, classes: &[u32]) -> Result<Seq<(u32, i64)>, AllocError>
    ensures ones { IfOk result (λ weights. weights ≡ ones_from 0 classes.now) }
    ensures rise { IfOk result (λ weights. Rise 4294967296 weights) }
{
    let mut weights = Seq::new(alloc);
    let mut low: u64 = 0;
    for class in classes {
        low = add_one(*class, low, &mut weights)?;
    }
    Ok(weights)
}

/// The weight 1 for each class that a row of the rules names.
///
/// # Errors
///
/// Want of memory.
pub fn ones(alloc: Global, rules: &[PathRule]) -> Result<Seq<(u32, i64)>, AllocError>
    ensures { IfOk result (λ weights. AreOnes rules.now weights) }
{
    let mut classes = all_classes(alloc, rules)?.into_vec();
    sort_classes(&mut classes)?;
    ones_of(alloc, classes.as_slice())
}
