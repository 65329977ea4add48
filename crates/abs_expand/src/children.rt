//! The children of steps: each step done, and the ids dropped that nothing reaches.
ghost use Rattle.std.specs.Prelude.{◌≡◌, ◌≤◌, ◌≤ℤ◌, ◌+◌, ◌+ℤ◌, ◌*ℤ◌, ◌++◌, pos, negsuc, length, IfOk, IsTrue, Err};
ghost use Rattle.abs_cells.specs.Limits.{most_ids};
ghost use Rattle.abs_cells.specs.Sound.{IsWellFormed};
ghost use Rattle.abs_heap.specs.declared.fault.HeapFault.TheVariants.{TooManyIds};
ghost use Rattle.class_program.specs.Views.{program_of};
ghost use Rattle.class_program.specs.class_world.WorldTypes.{types_of};
ghost use Rattle.abs_plans.specs.abs_turns.Plans.{ids_made};
ghost use Rattle.abs_plans.specs.abs_turns.GoodPlans.{IsGoodTurn};
ghost use Rattle.abs_plans.specs.abs_turns.OperandsSeen.{operand_seen};
ghost use Rattle.abs_plans.specs.abs_turns.PlansSeen.{rows_seen, turn_seen};
ghost use Rattle.abs_plans.specs.abs_turns.ShortRows.{is_small_factor, is_short_row, are_short};
ghost use Rattle.abs_plans.specs.abs_turns.Turns.{term_of, terms_of, constant_of, row_over, rows_over};
ghost use Rattle.abs_expand.specs.inner.Building.{IsLeanState, IsChildOf};
ghost use Rattle.abs_expand.specs.Children.{IsLean};

use crate::making::whole_state;
use abs_cells::{AbsState, Id, Pairs};
use abs_heap::HeapFault;
use abs_ints::{Few, ShortRow};
use abs_plans::abs_turns::{Operand, Rows, RowsOver, Turn};
use abs_reach::{Marks, drop_unreached};
use class_program::Program;
use list_views::Seq;
use std::alloc::{AllocError, Global};
use term_graph::{Child, Link, LinkRow, Side};

/// What an operand adds to the terms of a row.
fn put_term(
    terms: &mut Seq<(Side, Id, i64)>,
    side: Side,
    id: Id,
    times: &i64,
) -> Result<(), AllocError>
    ensures { IfOk result (λ _. terms.new ≡ terms.old ++ term_of side id times.now) }
{
    if *times != 0 {
        terms.push((side, id, *times))?;
    }
    Ok(())
}

/// What an operand before the step adds to the terms of a row.
fn put_operand(
    terms: &mut Seq<(Side, Id, i64)>,
    operand: Operand,
    times: &i64,
) -> Result<(), AllocError>
    ensures { IfOk result (λ _. terms.new ≡ terms.old ++ terms_of (operand_seen operand) times.now) }
{
    match operand {
        Operand::Known(_) => Ok(()),
        Operand::Id(id) => put_term(terms, Side::Before, id, times),
    }
}

/// A number of an instruction, taken once, minus once or not at all.
fn multiple(times: &i64, n: i32) -> i64
    requires { IsTrue (is_small_factor times.now) }
    ensures is { result ≡ times.now *ℤ n }
    ensures low { negsuc 2147483647 ≤ℤ result }
    ensures high { result ≤ℤ pos 2147483648 }
{
    if *times == 0 {
        0
    } else if *times == 1 {
        i64::from(n)
    } else {
        -i64::from(n)
    }
}

/// A constant beside a number of an instruction.
fn beside(constant: &i64, times: &i64, n: i32) -> i64
    requires factor { IsTrue (is_small_factor times.now) }
    requires low { negsuc 1099511627775 ≤ℤ constant.now }
    requires high { constant.now ≤ℤ pos 1099511627776 }
    ensures left { result ≡ constant.now +ℤ (times.now *ℤ n +ℤ pos 0) }
    ensures right { result ≡ constant.now +ℤ (pos 0 +ℤ times.now *ℤ n) }
{
    *constant + multiple(times, n)
}

/// The constant of a row over operands.
fn constant_over(left: Operand, right: Operand, row: &ShortRow) -> i64
    requires { IsTrue (is_short_row (operand_seen left) (operand_seen right) row.now) }
    ensures { result ≡ row.now.constant +ℤ (constant_of (operand_seen left) row.now.left +ℤ constant_of (operand_seen right)
        row.now.right) }
{
    match (left, right) {
        (Operand::Id(_), Operand::Id(_)) => row.constant,
        (Operand::Id(_), Operand::Known(n)) => beside(&row.constant, &row.right, n),
        (Operand::Known(m), Operand::Id(_)) => beside(&row.constant, &row.left, m),
        (Operand::Known(_), Operand::Known(_)) => unreachable!(),
    }
}

/// The row of a case over ids.
fn row_over(
    alloc: Global,
    left: Operand,
    right: Operand,
    fresh: Id,
    row: &ShortRow,
) -> Result<LinkRow, AllocError>
    requires { IsTrue (is_short_row (operand_seen left) (operand_seen right) row.now) }
    ensures { IfOk result (λ made. made ≡ row_over (operand_seen left) (operand_seen right) fresh row.now) }
{
    let constant = constant_over(left, right, row);
    let mut terms = Seq::new(alloc);
    put_operand(&mut terms, left, &row.left)?;
    put_operand(&mut terms, right, &row.right)?;
    put_term(&mut terms, Side::After, fresh, &row.result)?;
    Ok(LinkRow {
        kind: row.kind,
        terms,
        constant,
    })
}

/// The rows of a step over operands.
fn rows_over(
    alloc: Global,
    left: Operand,
    right: Operand,
    mut short: Few<ShortRow>,
    fresh: Id,
) -> Result<Seq<LinkRow>, AllocError>
    requires { IsTrue (are_short (operand_seen left) (operand_seen right) short) }
    ensures { IfOk result (λ made. made ≡ rows_over (operand_seen left) (operand_seen right) short fresh) }
{
    let mut made = Seq::new(alloc);
    while let Some(row) = short.take_first() {
        made.push(row_over(alloc, left, right, fresh, &row)?)?;
    }
    Ok(made)
}

/// The rows of a step.
fn link_rows(alloc: Global, rows: Rows, fresh: Id) -> Result<Seq<LinkRow>, AllocError>
    ensures { IfOk result (λ made. made ≡ rows_seen rows fresh) }
{
    match rows {
        Rows::Nothing => Ok(Seq::new(alloc)),
        Rows::Over(RowsOver { left, right, rows }) => rows_over(alloc, left, right, rows, fresh),
    }
}

/// A state without the ids that nothing reaches.
fn lean<P: Pairs>(whole: AbsState<P>, marks: &mut Marks) -> AbsState<P>
    requires { IsWellFormed whole }
    ensures { IsLeanState whole result }
{
    let part = drop_unreached(whole, marks);
    part.eq().rise();
    part.share().rise();
    part
}

/// A child without the ids that nothing reaches.
pub(crate) fn lean_child<P: Pairs>(child: Child<P>, marks: &mut Marks) -> Child<P>
    requires { IsWellFormed child.state }
    ensures { IsLean child result }
{
    let (whole, link) = child.into_parts();
    Child::new(lean(whole, marks), link)
}

/// The child of a step.
pub(crate) fn child<P: Pairs>(
    alloc: Global,
    program: &Program<'_>,
    state: &AbsState<P>,
    turn: Turn,
    marks: &mut Marks,
) -> Result<Child<P>, HeapFault>
    requires good { IsWellFormed state.now }
    requires few { length state.now.cells + ids_made (types_of (program_of program.now).world) (turn_seen turn).act ≤ most_ids }
    requires turn { IsGoodTurn (types_of (program_of program.now).world) state.now (turn_seen turn) }
    ensures child { IfOk result (λ child. IsChildOf (types_of (program_of program.now).world) state.now (turn_seen turn) child) }
    ensures never { result ≡ Err TooManyIds → ⊥ }
{
    let Turn {
        changed,
        frames,
        throwing,
        act,
        goal,
        rows,
    } = turn;
    let (whole, id) = whole_state(
        alloc,
        &program.world,
        state,
        changed.as_slice(),
        frames,
        throwing,
        act,
        goal,
    )?;
    let link = Link {
        rows: link_rows(alloc, rows, id)?,
        merged: None,
        step: true,
    };
    Ok(Child::new(lean(whole, marks), link))
}
