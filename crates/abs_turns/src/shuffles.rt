//! Reorderings of a stack of ids.
ghost use Rattle.std.specs.Prelude.{◌≡◌, ◌<◌, ◌≤◌, ◌∷◌, Some, None, length, drop, IfOk, MatchBool};
ghost use Rattle.jvm_step.specs.op_forms.declared.form.Shuffle.TheVariants as shuffles;
ghost use Rattle.jvm_step.specs.op_forms.Forms.{shuffled};

use abs_cells::Id;
use abs_cells::list_views::Stack;
use jvm_step::op_forms::Shuffle;
use std::alloc::AllocError;

/// Takes so many ids from the top.
fn take(stack: &mut Stack<Id>, count: usize)
    requires { count ≤ length stack.old.0 }
    ensures { stack.new.0 ≡ drop count stack.old.0 }
{
    let left = stack.len() - count;
    stack.truncate(left);
}

/// Pushes two ids, the second one first.
fn push_two(stack: &mut Stack<Id>, a: Id, b: Id) -> Result<(), AllocError>
    ensures { IfOk result (λ _. stack.new.0 ≡ a ∷ b ∷ stack.old.0) }
{
    stack.push(b)?;
    stack.push(a)?;
    Ok(())
}

/// Puts three ids in the place of so many on the top.
fn put_three(stack: &mut Stack<Id>, count: usize, a: Id, b: Id, c: Id) -> Result<(), AllocError>
    requires { count ≤ length stack.old.0 }
    ensures { IfOk result (λ _. stack.new.0 ≡ a ∷ b ∷ c ∷ drop count stack.old.0) }
{
    take(stack, count);
    stack.push(c)?;
    push_two(stack, a, b)
}

/// Takes the top id.
fn pop(stack: &mut Stack<Id>) -> bool
    ensures { MatchBool result (shuffled shuffles.Pop stack.old.0 ≡ Some stack.new.0) (shuffled shuffles.Pop stack.old.0 ≡ None) }
{
    if stack.is_empty() {
        return false;
    }
    take(stack, 1);
    true
}

/// Takes the two top ids.
fn pop2(stack: &mut Stack<Id>) -> bool
    ensures { MatchBool result (shuffled shuffles.Pop2 stack.old.0 ≡ Some stack.new.0) (shuffled shuffles.Pop2 stack.old.0 ≡ None) }
{
    if stack.len() < 2 {
        return false;
    }
    take(stack, 2);
    true
}

/// Lets the two top ids change places.
fn swap(stack: &mut Stack<Id>) -> Result<bool, AllocError>
    ensures { IfOk result
        (λ done. MatchBool done (shuffled shuffles.Swap stack.old.0 ≡ Some stack.new.0) (shuffled shuffles.Swap stack.old.0 ≡ None)) }
{
    let Some((a, b)) = stack.top_two() else {
        return Ok(false);
    };
    take(stack, 2);
    push_two(stack, b, a)?;
    Ok(true)
}

/// Puts a copy of the top id above it.
fn dup(stack: &mut Stack<Id>) -> Result<bool, AllocError>
    ensures { IfOk result
        (λ done. MatchBool done (shuffled shuffles.Dup stack.old.0 ≡ Some stack.new.0) (shuffled shuffles.Dup stack.old.0 ≡ None)) }
{
    if stack.is_empty() {
        return Ok(false);
    }
    let a = *stack.at(0);
    stack.push(a)?;
    Ok(true)
}

/// Puts a copy of the top id below the second one.
fn dup_x1(stack: &mut Stack<Id>) -> Result<bool, AllocError>
    ensures { IfOk result (λ done. MatchBool done (shuffled shuffles.DupX1 stack.old.0 ≡ Some stack.new.0)
        (shuffled shuffles.DupX1 stack.old.0 ≡ None)) }
{
    let Some((a, b)) = stack.top_two() else {
        return Ok(false);
    };
    put_three(stack, 2, a, b, a)?;
    Ok(true)
}

/// Puts a copy of the top id below the third one.
fn dup_x2(stack: &mut Stack<Id>) -> Result<bool, AllocError>
    ensures { IfOk result (λ done. MatchBool done (shuffled shuffles.DupX2 stack.old.0 ≡ Some stack.new.0)
        (shuffled shuffles.DupX2 stack.old.0 ≡ None)) }
{
    let Some((a, b, c)) = stack.top_three() else {
        return Ok(false);
    };
    put_three(stack, 3, b, c, a)?;
    stack.push(a)?;
    Ok(true)
}

/// Puts copies of the two top ids above them.
fn dup2(stack: &mut Stack<Id>) -> Result<bool, AllocError>
    ensures { IfOk result
        (λ done. MatchBool done (shuffled shuffles.Dup2 stack.old.0 ≡ Some stack.new.0) (shuffled shuffles.Dup2 stack.old.0 ≡ None)) }
{
    let Some((a, b)) = stack.top_two() else {
        return Ok(false);
    };
    push_two(stack, a, b)?;
    Ok(true)
}

/// Puts copies of the two top ids below the third one.
fn dup2_x1(stack: &mut Stack<Id>) -> Result<bool, AllocError>
    ensures { IfOk result (λ done. MatchBool done (shuffled shuffles.Dup2X1 stack.old.0 ≡ Some stack.new.0)
        (shuffled shuffles.Dup2X1 stack.old.0 ≡ None)) }
{
    let Some((a, b, c)) = stack.top_three() else {
        return Ok(false);
    };
    put_three(stack, 3, c, a, b)?;
    push_two(stack, a, b)?;
    Ok(true)
}

/// Puts copies of the two top ids below the fourth one.
fn dup2_x2(stack: &mut Stack<Id>) -> Result<bool, AllocError>
    ensures { IfOk result (λ done. MatchBool done (shuffled shuffles.Dup2X2 stack.old.0 ≡ Some stack.new.0)
        (shuffled shuffles.Dup2X2 stack.old.0 ≡ None)) }
{
    let Some((a, b, c, d)) = stack.top_four() else {
        return Ok(false);
    };
    put_three(stack, 4, d, a, b)?;
    stack.push(c)?;
    push_two(stack, a, b)?;
    Ok(true)
}

/// Reorders the top of a stack; false, and nothing done, where it has too few ids.
pub fn shuffle(stack: &mut Stack<Id>, reordering: Shuffle) -> Result<bool, AllocError>
    ensures { IfOk result
        (λ done. MatchBool done (shuffled reordering stack.old.0 ≡ Some stack.new.0) (shuffled reordering stack.old.0 ≡ None)) }
{
    match reordering {
        Shuffle::Pop => Ok(pop(stack)),
        Shuffle::Pop2 => Ok(pop2(stack)),
        Shuffle::Dup => dup(stack),
        Shuffle::DupX1 => dup_x1(stack),
        Shuffle::DupX2 => dup_x2(stack),
        Shuffle::Dup2 => dup2(stack),
        Shuffle::Dup2X1 => dup2_x1(stack),
        Shuffle::Dup2X2 => dup2_x2(stack),
        Shuffle::Swap => swap(stack),
    }
}
