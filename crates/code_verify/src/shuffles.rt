//! Reorderings of the operand stack's types (JVM specification, section 6.5, pop to swap). Every value has one word.
ghost use Rattle.std.specs.Prelude.{◌≡◌, ◌∷◌, Some, None, IfOk, OnOk, MatchBool, MatchOption};
ghost use Rattle.op_forms.specs.declared.form.Shuffle.TheVariants.{Pop, Pop2, Dup, DupX1, DupX2, Dup2, Dup2X1, Dup2X2, Swap};
ghost use Rattle.op_forms.specs.Forms.{shuffled};

use jvm_values::PlaceType;
use list_views::Stack;
use op_forms::Shuffle;
use std::alloc::AllocError;

/// Takes the top entry, where there is one, and says so.
fn pop(stack: &mut Stack<PlaceType>) -> bool
    ensures { MatchBool result (shuffled Pop stack.old.0 ≡ Some stack.new.0) (shuffled Pop stack.old.0 ≡ None) }
{
    stack.pop().is_some()
}

/// The two top entries, the top first, which are taken; None where there are fewer.
fn take2(stack: &mut Stack<PlaceType>) -> Option<(PlaceType, PlaceType)>
    ensures { MatchOption result (shuffled Pop2 stack.old.0 ≡ None) (λ x. stack.old.0 ≡ x.0 ∷ x.1 ∷ stack.new.0) }
{
    let a = stack.pop()?;
    let b = stack.pop()?;
    Some((a, b))
}

fn pop2(stack: &mut Stack<PlaceType>) -> bool
    ensures { MatchBool result (shuffled Pop2 stack.old.0 ≡ Some stack.new.0) (shuffled Pop2 stack.old.0 ≡ None) }
{
    take2(stack).is_some()
}

fn dup(stack: &mut Stack<PlaceType>) -> Result<bool, AllocError>
    ensures { IfOk result (λ ok. MatchBool ok (shuffled Dup stack.old.0 ≡ Some stack.new.0) (shuffled Dup stack.old.0 ≡ None)) }
{
    match stack.pop() {
        Some(a) => {
            stack.push(a)?;
            stack.push(a)?;
            Ok(true)
        }
        None => Ok(false),
    }
}

fn dup_x1(stack: &mut Stack<PlaceType>) -> Result<bool, AllocError>
    ensures { IfOk result (λ ok. MatchBool ok (shuffled DupX1 stack.old.0 ≡ Some stack.new.0) (shuffled DupX1 stack.old.0 ≡ None)) }
{
    match take2(stack) {
        Some((a, b)) => {
            stack.push(a)?;
            stack.push(b)?;
            stack.push(a)?;
            Ok(true)
        }
        None => Ok(false),
    }
}

/// The three top entries, the top first, which are taken; None where there are fewer.
fn take3(stack: &mut Stack<PlaceType>) -> Option<(PlaceType, PlaceType, PlaceType)>
    ensures { MatchOption result (shuffled DupX2 stack.old.0 ≡ None) (λ x. stack.old.0 ≡ x.0 ∷ x.1 ∷ x.2 ∷ stack.new.0) }
{
    let a = stack.pop()?;
    let b = stack.pop()?;
    let c = stack.pop()?;
    Some((a, b, c))
}

fn dup_x2(stack: &mut Stack<PlaceType>) -> Result<bool, AllocError>
    ensures { IfOk result (λ ok. MatchBool ok (shuffled DupX2 stack.old.0 ≡ Some stack.new.0) (shuffled DupX2 stack.old.0 ≡ None)) }
{
    match take3(stack) {
        Some((a, b, c)) => {
            stack.push(a)?;
            stack.push(c)?;
            stack.push(b)?;
            stack.push(a)?;
            Ok(true)
        }
        None => Ok(false),
    }
}

fn dup2(stack: &mut Stack<PlaceType>) -> Result<bool, AllocError>
    ensures { IfOk result (λ ok. MatchBool ok (shuffled Dup2 stack.old.0 ≡ Some stack.new.0) (shuffled Dup2 stack.old.0 ≡ None)) }
{
    match take2(stack) {
        Some((a, b)) => {
            stack.push(b)?;
            stack.push(a)?;
            stack.push(b)?;
            stack.push(a)?;
            Ok(true)
        }
        None => Ok(false),
    }
}

/// Puts the two top entries, given the top first, on a stack.
fn push2(stack: &mut Stack<PlaceType>, a: PlaceType, b: PlaceType) -> Result<(), AllocError>
    ensures { OnOk result (stack.new.0 ≡ a ∷ b ∷ stack.old.0) }
{
    stack.push(b)?;
    stack.push(a)?;
    Ok(())
}

fn dup2_x1(stack: &mut Stack<PlaceType>) -> Result<bool, AllocError>
    ensures { IfOk result (λ ok. MatchBool ok (shuffled Dup2X1 stack.old.0 ≡ Some stack.new.0) (shuffled Dup2X1 stack.old.0 ≡ None)) }
{
    match take3(stack) {
        Some((a, b, c)) => {
            push2(stack, a, b)?;
            stack.push(c)?;
            push2(stack, a, b)?;
            Ok(true)
        }
        None => Ok(false),
    }
}

/// The four top entries, the top first, which are taken; None where there are fewer.
fn take4(stack: &mut Stack<PlaceType>) -> Option<(PlaceType, PlaceType, PlaceType, PlaceType)>
    ensures { MatchOption result (shuffled Dup2X2 stack.old.0 ≡ None) (λ x. stack.old.0 ≡ x.0 ∷ x.1 ∷ x.2 ∷ x.3 ∷ stack.new.0) }
{
    let a = stack.pop()?;
    let b = stack.pop()?;
    let c = stack.pop()?;
    let d = stack.pop()?;
    Some((a, b, c, d))
}

fn dup2_x2(stack: &mut Stack<PlaceType>) -> Result<bool, AllocError>
    ensures { IfOk result (λ ok. MatchBool ok (shuffled Dup2X2 stack.old.0 ≡ Some stack.new.0) (shuffled Dup2X2 stack.old.0 ≡ None)) }
{
    match take4(stack) {
        Some((a, b, c, d)) => {
            push2(stack, a, b)?;
            push2(stack, c, d)?;
            push2(stack, a, b)?;
            Ok(true)
        }
        None => Ok(false),
    }
}

fn swap(stack: &mut Stack<PlaceType>) -> Result<bool, AllocError>
    ensures { IfOk result (λ ok. MatchBool ok (shuffled Swap stack.old.0 ≡ Some stack.new.0) (shuffled Swap stack.old.0 ≡ None)) }
{
    match take2(stack) {
        Some((a, b)) => {
            push2(stack, b, a)?;
            Ok(true)
        }
        None => Ok(false),
    }
}

/// Reorders the top of a stack, where there is enough on it, and says so.
pub(crate) fn shuffle(shuffle: Shuffle, stack: &mut Stack<PlaceType>) -> Result<bool, AllocError>
    ensures { IfOk result (λ ok. MatchBool ok (shuffled shuffle stack.old.0 ≡ Some stack.new.0) (shuffled shuffle stack.old.0 ≡ None)) }
{
    match shuffle {
        Shuffle::Pop => Ok(pop(stack)),
        Shuffle::Pop2 => Ok(pop2(stack)),
        Shuffle::Dup => dup(stack),
        Shuffle::DupX1 => dup_x1(stack),
        Shuffle::DupX2 => dup_x2(stack),
        Shuffle::Dup2 => dup2(stack),
        Shuffle::Dup2X1 => dup2_x1(stack),
        Shuffle::Dup2X2 => dup2_x2(stack),
        Shuffle::Swap => swap(stack),
    }
}
