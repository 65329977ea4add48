//! Steps, and the cases of ints.
ghost use Rattle.std.specs.Prelude.{◌≡◌, ◌++◌, ◌∷◌, [], map, reverse, IfOk, IsTrue, Some, None};
ghost use Rattle.std.specs.Option.{option_map, option_to_list};
ghost use Rattle.abs_cells.specs.declared.cells.Cell.TheVariants as cells;
ghost use Rattle.abs_ints.specs.IntIntervals.{just};
ghost use Rattle.abs_ints.specs.Operating.{operated};
ghost use Rattle.abs_turns.specs.Plans.{on_stack, Turn as PlannedTurn};
ghost use Rattle.abs_turns.specs.Stops.{narrowed_to};
ghost use Rattle.abs_turns.specs.Turns.{id, with_stack, moves, goes_on, pushes, throws_after, throws, are_one, interval_at};
ghost use Rattle.abs_turns.specs.Turns.{narrowings, rows_over, turn_of_result, turn_of_case, turns_of, turn_narrowing};
ghost use Rattle.abs_turns.specs.Turns.{turns_narrowing, is_taken, rows_if, narrows, branch_of_case, branches};
ghost use Rattle.abs_turns.specs.ShortRows.{are_short, have_short_rows, takes_operands, are_ids_if};
ghost use Rattle.abs_turns.specs.OperandsSeen.{operand_seen};
ghost use Rattle.abs_turns.specs.PlansSeen.{goal_seen, rows_seen, turn_seen};

use crate::operands::Operand;
use crate::plans::{Act, Goal, Rows, Turn};
use crate::short_rows::RowsOver;
use crate::spot::{Spot, stacked};
use abs_cells::lin_core::Interval;
use abs_cells::list_views::{Seq, Stack};
use abs_cells::{AbsFrame, Cell, Id, Ids, Pairs};
use abs_ints::{Few, IntCase, ShortRow, Way, compare, operate};
use jvm_step::class_world::built_ins::ARITHMETIC_EXCEPTION;
use jvm_values::{Cond, IntOp, Kind};
use std::alloc::{AllocError, Global};

/// Frames change, and nothing else.
pub fn moves(alloc: Global, frames: Seq<AbsFrame>) -> Turn
    ensures { turn_seen result ≡ moves (reverse frames) }
{
    Turn {
        changed: Seq::new(alloc),
        frames,
        throwing: None,
        act: Act::Nothing,
        goal: Goal::Nowhere,
        rows: Rows::Nothing,
    }
}

/// The running frame goes on at a place with another stack.
pub fn goes_on<P: Pairs>(
    alloc: Global,
    spot: &Spot<'_, '_, P>,
    place: u16,
    stack: &Stack<Id>,
) -> Result<Turn, AllocError>
    ensures { IfOk result (λ turn. turn_seen turn ≡ goes_on spot.now place stack.now.0) }
{
    let frames = spot.with_stack(alloc, place, stack)?;
    Ok(moves(alloc, frames))
}

/// A fresh id with a cell goes on the stack.
pub fn pushes<P: Pairs>(
    alloc: Global,
    spot: &Spot<'_, '_, P>,
    cell: Cell,
    stack: &Stack<Id>,
) -> Result<Turn, AllocError>
    ensures { IfOk result (λ turn. turn_seen turn ≡ pushes spot.now cell stack.now.0) }
{
    let frames = spot.with_stack(alloc, spot.next(), stack)?;
    Ok(Turn {
        changed: Seq::new(alloc),
        frames,
        throwing: None,
        act: Act::Makes(cell),
        goal: Goal::OnStack,
        rows: Rows::Nothing,
    })
}

/// An object of a built-in class is thrown, after ids are narrowed.
pub fn throws_after<P: Pairs>(
    alloc: Global,
    spot: &Spot<'_, '_, P>,
    narrowed: Seq<(Id, Cell)>,
    rows: Rows,
    class: u32,
) -> Result<Turn, AllocError>
    ensures { IfOk result (λ turn. turn_seen turn ≡ throws_after spot.now narrowed (rows_seen rows) class) }
{
    let stack = Stack::new(alloc);
    let place = spot.place();
    let frames = spot.with_stack(alloc, place, &stack)?;
    Ok(Turn {
        changed: narrowed,
        frames,
        throwing: None,
        act: Act::Makes(Cell::Obj(class, Ids::new(alloc))),
        goal: Goal::Thrown,
        rows,
    })
}

/// An object of a built-in class is thrown.
pub fn throws<P: Pairs>(
    alloc: Global,
    spot: &Spot<'_, '_, P>,
    class: u32,
) -> Result<Turn, AllocError>
    ensures { IfOk result (λ turn. turn_seen turn ≡ throws spot.now class) }
{
    throws_after(alloc, spot, Seq::new(alloc), Rows::Nothing, class)
}

/// The ints of an operand.
fn interval_at<P: Pairs>(spot: &Spot<'_, '_, P>, operand: Operand) -> Interval
    ensures { result ≡ interval_at spot.now.state (operand_seen operand) }
{
    match operand {
        Operand::Known(n) => just(n),
        Operand::Id(id) => spot.interval_of(id),
    }
}

/// The interval of one number.
pub fn just(n: i32) -> Interval
    ensures { result ≡ just n }
{
    match Interval::new(n, n) {
        Some(interval) => interval,
        None => unreachable!(),
    }
}

/// Whether two operands are one id.
fn are_one(left: Operand, right: Operand) -> bool
    ensures { result ≡ are_one (operand_seen left) (operand_seen right) }
{
    match (left, right) {
        (Operand::Id(x), Operand::Id(y)) => x == y,
        _ => false,
    }
}

/// One id with the ints that it is narrowed to.
pub fn one_narrowed(alloc: Global, id: Id, ints: Interval) -> Result<Seq<(Id, Cell)>, AllocError>
    ensures { IfOk result (λ list. list ≡ (id, cells.Int ints) ∷ []) }
{
    let mut list = Seq::new(alloc);
    list.push((id, Cell::Int(ints)))?;
    Ok(list)
}

/// Two ids with the ints that they are narrowed to; one that is both has the ints of both.
fn two_narrowed(
    alloc: Global,
    x: Id,
    left: Interval,
    y: Id,
    right: Interval,
) -> Result<Option<Seq<(Id, Cell)>>, AllocError>
    ensures { IfOk result (λ list. list ≡ narrowings (id x) left (id y) right) }
{
    if x == y {
        let Some(both) = left.meet(right) else {
            return Ok(None);
        };
        return Ok(Some(one_narrowed(alloc, x, both)?));
    }
    let mut list = one_narrowed(alloc, x, left)?;
    list.push((y, Cell::Int(right)))?;
    Ok(Some(list))
}

/// The ids of two operands with the ints that they are narrowed to; None where there are none.
pub fn narrowings(
    alloc: Global,
    left: Operand,
    left_ints: Interval,
    right: Operand,
    right_ints: Interval,
) -> Result<Option<Seq<(Id, Cell)>>, AllocError>
    ensures { IfOk result (λ list. list ≡ narrowings (operand_seen left) left_ints (operand_seen right) right_ints) }
{
    match (left, right) {
        (Operand::Known(_), Operand::Known(_)) => Ok(Some(Seq::new(alloc))),
        (Operand::Id(x), Operand::Known(_)) => Ok(Some(one_narrowed(alloc, x, left_ints)?)),
        (Operand::Known(_), Operand::Id(y)) => Ok(Some(one_narrowed(alloc, y, right_ints)?)),
        (Operand::Id(x), Operand::Id(y)) => two_narrowed(alloc, x, left_ints, y, right_ints),
    }
}

/// The step of a case of an operator whose operands are narrowed: its result goes to a goal, or the division by 0 throws.
fn turn_of_result<P: Pairs>(
    alloc: Global,
    spot: &Spot<'_, '_, P>,
    stack: &Stack<Id>,
    goal: Goal,
    narrowed: Seq<(Id, Cell)>,
    rows: Rows,
    ints: Option<Interval>,
) -> Result<Turn, AllocError>
    ensures { IfOk result (λ turn. turn_seen turn ≡ turn_of_result spot.now (with_stack spot.now spot.now.next stack.now.0)
        (goal_seen goal) narrowed (rows_seen rows) ints) }
{
    match ints {
        None => throws_after(alloc, spot, narrowed, rows, ARITHMETIC_EXCEPTION),
        Some(ints) => {
            let frames = spot.with_stack(alloc, spot.next(), stack)?;
            Ok(Turn {
                changed: narrowed,
                frames,
                throwing: None,
                act: Act::Makes(Cell::Int(ints)),
                goal,
                rows,
            })
        }
    }
}

/// The step of a case of an operator; None where an operand is narrowed to nothing.
fn turn_of_case<P: Pairs>(
    alloc: Global,
    spot: &Spot<'_, '_, P>,
    left: Operand,
    right: Operand,
    stack: &Stack<Id>,
    goal: Goal,
    case: IntCase,
) -> Result<Option<Turn>, AllocError>
    requires { IsTrue (are_short (operand_seen left) (operand_seen right) case.rows) }
    ensures { IfOk result (λ turn. option_map turn_seen turn ≡ turn_of_case spot.now (operand_seen left) (operand_seen right)
        (with_stack spot.now spot.now.next stack.now.0) (goal_seen goal) case) }
{
    let IntCase {
        left: left_ints,
        right: right_ints,
        result: ints,
        rows,
        way: _,
    } = case;
    let Some(narrowed) = narrowings(alloc, left, left_ints, right, right_ints)? else {
        return Ok(None);
    };
    let rows = Rows::Over(RowsOver { left, right, rows });
    let turn = turn_of_result(alloc, spot, stack, goal, narrowed, rows, ints)?;
    Ok(Some(turn))
}

/// Adds a step, if there is one.
pub fn put(turns: &mut Seq<Turn>, turn: Option<Turn>) -> Result<(), AllocError>
    ensures { IfOk result (λ _. map turn_seen turns.new ≡ map turn_seen turns.old ++ option_to_list (option_map turn_seen turn)) }
{
    if let Some(turn) = turn {
        turns.push(turn)?;
    }
    Ok(())
}

/// The cases of an operator, whose rows are short.
fn short_cases(
    op: IntOp,
    left: Operand,
    right: Operand,
    left_ints: Interval,
    right_ints: Interval,
) -> Few<IntCase>
    requires { IsTrue (takes_operands op (operand_seen left) (operand_seen right)) }
    ensures cases { result ≡ operated op left_ints right_ints }
    ensures short { IsTrue (have_short_rows (operand_seen left) (operand_seen right) result) }
{
    operate(op, left_ints, right_ints)
}

/// The steps of an operator in the order of its cases. The result goes to a goal of the frames at the next instruction.
pub fn turns_of<P: Pairs>(
    alloc: Global,
    spot: &Spot<'_, '_, P>,
    op: IntOp,
    left: Operand,
    right: Operand,
    stack: &Stack<Id>,
    goal: Goal,
) -> Result<Seq<Turn>, AllocError>
    requires { IsTrue (takes_operands op (operand_seen left) (operand_seen right)) }
    ensures { IfOk result (λ turns. map turn_seen turns ≡ turns_of spot.now op (operand_seen left) (operand_seen right)
        (with_stack spot.now spot.now.next stack.now.0) (goal_seen goal)) }
{
    let mut turns = Seq::new(alloc);
    let mut cases = short_cases(
        op,
        left,
        right,
        interval_at(spot, left),
        interval_at(spot, right),
    );
    while let Some(case) = cases.take_first() {
        let turn = turn_of_case(alloc, spot, left, right, stack, goal, case)?;
        put(&mut turns, turn)?;
    }
    Ok(turns)
}

/// The step of a narrowing to a kind: with the operand's own id, or with a fresh one.
fn turn_narrowing<P: Pairs>(
    alloc: Global,
    spot: &Spot<'_, '_, P>,
    x: Id,
    stack: &Stack<Id>,
    ints: Option<Interval>,
) -> Result<Turn, AllocError>
    ensures { IfOk result (λ turn. turn_seen turn ≡ turn_narrowing (goes_on spot.now spot.now.next (x ∷ stack.now.0))
        (with_stack spot.now spot.now.next stack.now.0) on_stack ints) }
{
    match ints {
        None => {
            let mut kept = copied_stack(alloc, stack)?;
            kept.push(x)?;
            goes_on(alloc, spot, spot.next(), &kept)
        }
        Some(ints) => pushes(alloc, spot, Cell::Int(ints), stack),
    }
}

/// The same stack once more.
fn copied_stack(alloc: Global, stack: &Stack<Id>) -> Result<Stack<Id>, AllocError>
    ensures { IfOk result (λ copy. copy.0 ≡ stack.now.0) }
{
    stacked(alloc, stack.as_slice())
}

/// The steps of a narrowing to a kind, of the top entry of a stack.
pub fn turns_narrowing<P: Pairs>(
    alloc: Global,
    spot: &Spot<'_, '_, P>,
    kind: Kind,
    x: Id,
    stack: &Stack<Id>,
) -> Result<Seq<Turn>, AllocError>
    ensures { IfOk result
        (λ turns. map turn_seen turns ≡ turns_narrowing spot.now kind x (goes_on spot.now spot.now.next (x ∷ stack.now.0))
        (with_stack spot.now spot.now.next stack.now.0) on_stack) }
{
    let mut turns = Seq::new(alloc);
    let ints = spot.interval_of(x);
    let mut cases = operate(IntOp::Narrow(kind), ints, ints);
    while let Some(case) = cases.take_first() {
        turns.push(turn_narrowing(alloc, spot, x, stack, case.result)?)?;
    }
    Ok(turns)
}

/// Whether a condition holds in a case.
pub fn is_taken(way: Way) -> bool
    ensures { result ≡ is_taken way }
{
    matches!(way, Way::Taken)
}

/// What an int becomes in a narrowing to a kind; None where it stays as it is.
pub fn narrowed_to(kind: Kind, ints: Interval) -> Option<Interval>
    ensures { result ≡ narrowed_to kind ints }
{
    let mut cases = operate(IntOp::Narrow(kind), ints, ints);
    match cases.take_first() {
        Some(case) => case.result,
        None => None,
    }
}

/// A fresh int goes to a goal.
pub fn pushes_to<P: Pairs>(
    alloc: Global,
    spot: &Spot<'_, '_, P>,
    ints: Interval,
    stack: &Stack<Id>,
    goal: Goal,
) -> Result<Turn, AllocError>
    ensures { (kept : PlannedTurn)
        → IfOk result (λ turn. turn_seen turn ≡ turn_narrowing kept (with_stack spot.now spot.now.next stack.now.0)
        (goal_seen goal) (Some ints)) }
{
    let mut turn = pushes(alloc, spot, Cell::Int(ints), stack)?;
    turn.goal = goal;
    Ok(turn)
}

/// The frames change, and ids are narrowed.
pub fn narrows(narrowed: Seq<(Id, Cell)>, frames: Seq<AbsFrame>, rows: Rows) -> Turn
    ensures { turn_seen result ≡ narrows narrowed (reverse frames) (rows_seen rows) }
{
    Turn {
        changed: narrowed,
        frames,
        throwing: None,
        act: Act::Nothing,
        goal: Goal::Nowhere,
        rows,
    }
}

/// The rows of a case over its operands, where they are wanted.
fn rows_if(with_rows: bool, left: Operand, right: Operand, rows: Few<ShortRow>) -> Rows
    requires { IsTrue (are_ids_if with_rows (operand_seen left) (operand_seen right)) }
    ensures { rows_seen result ≡ rows_if with_rows (rows_over (operand_seen left) (operand_seen right) rows) }
{
    if with_rows {
        Rows::Over(RowsOver { left, right, rows })
    } else {
        Rows::Nothing
    }
}

/// The step of a case of a comparison; None where an operand is narrowed to nothing.
fn branch_of_case<P: Pairs>(
    alloc: Global,
    spot: &Spot<'_, '_, P>,
    left: Operand,
    right: Operand,
    place: u16,
    stack: &Stack<Id>,
    with_rows: bool,
    case: IntCase,
) -> Result<Option<Turn>, AllocError>
    requires { IsTrue (are_ids_if with_rows (operand_seen left) (operand_seen right)) }
    ensures { IfOk result (λ turn. option_map turn_seen turn ≡ branch_of_case spot.now (operand_seen left) (operand_seen right)
        place stack.now.0 with_rows case) }
{
    let IntCase {
        left: left_ints,
        right: right_ints,
        result: _,
        rows,
        way,
    } = case;
    let Some(narrowed) = narrowings(alloc, left, left_ints, right, right_ints)? else {
        return Ok(None);
    };
    let to = if is_taken(way) { place } else { spot.next() };
    let frames = spot.with_stack(alloc, to, stack)?;
    let rows = rows_if(with_rows, left, right, rows);
    Ok(Some(narrows(narrowed, frames, rows)))
}

/// The steps of a comparison in the order of its cases; comparing with 0 gives no rows.
pub fn branches<P: Pairs>(
    alloc: Global,
    spot: &Spot<'_, '_, P>,
    cond: Cond,
    left: Operand,
    right: Operand,
    place: u16,
    stack: &Stack<Id>,
    with_rows: bool,
) -> Result<Seq<Turn>, AllocError>
    requires { IsTrue (are_ids_if with_rows (operand_seen left) (operand_seen right)) }
    ensures { IfOk result (λ turns. map turn_seen turns ≡ branches spot.now cond (operand_seen left) (operand_seen right) place
        stack.now.0 with_rows) }
{
    let mut turns = Seq::new(alloc);
    let one = are_one(left, right);
    let mut cases = compare(cond, one, interval_at(spot, left), interval_at(spot, right));
    while let Some(case) = cases.take_first() {
        let turn = branch_of_case(alloc, spot, left, right, place, stack, with_rows, case)?;
        put(&mut turns, turn)?;
    }
    Ok(turns)
}
