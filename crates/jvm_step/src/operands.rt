//! Operands on a stack.
ghost use Rattle.std.specs.Prelude.{◌≡◌, ◌+◌, ◌<◌, ◌≤◌, ◌∷◌, length, drop};
ghost use Rattle.std.specs.Option.{option_map};
ghost use Rattle.jvm_step.specs.Operands.{int_of, reference_of, top, top_int, top_reference};

use jvm_values::Value;
use list_views::Stack;

/// The int that a value is.
pub(crate) fn int_of(value: Value) -> Option<i32>
    ensures { result ≡ int_of value }
{
    match value {
        Value::Int(n) => Some(n),
        Value::Null => None,
        Value::Ref(_) => None,
    }
}

/// The reference that a value is.
pub(crate) fn reference_of(value: Value) -> Option<Value>
    ensures { result ≡ reference_of value }
{
    match value {
        Value::Int(_) => None,
        Value::Null => Some(Value::Null),
        Value::Ref(r) => Some(Value::Ref(r)),
    }
}

/// The value under so many others.
pub(crate) fn value_at(stack: &Stack<Value>, depth: usize) -> Option<Value>
    ensures { option_map (λ v. (v, drop (depth + 1) stack.now.0)) result ≡ top (drop depth stack.now.0) }
{
    if depth < stack.len() {
        Some(*stack.at(depth))
    } else {
        None
    }
}

/// The int under so many other values.
pub(crate) fn int_at(stack: &Stack<Value>, depth: usize) -> Option<i32>
    ensures { option_map (λ n. (n, drop (depth + 1) stack.now.0)) result ≡ top_int (drop depth stack.now.0) }
{
    match value_at(stack, depth) {
        Some(value) => int_of(value),
        None => None,
    }
}

/// The reference under so many other values.
pub(crate) fn reference_at(stack: &Stack<Value>, depth: usize) -> Option<Value>
    ensures { option_map (λ r. (r, drop (depth + 1) stack.now.0)) result ≡ top_reference (drop depth stack.now.0) }
{
    match value_at(stack, depth) {
        Some(value) => reference_of(value),
        None => None,
    }
}

/// Takes so many values from the top.
pub(crate) fn take(stack: &mut Stack<Value>, count: usize)
    requires { count ≤ length stack.old.0 }
    ensures items { stack.new.0 ≡ drop count stack.old.0 }
    ensures room { stack.new.1 ≡ stack.old.1 }
{
    let left = stack.len() - count;
    stack.truncate(left);
}

/// Puts a value in the place of so many values on the top and of the one below them.
#[tactic(auto, using(crate::proofs::Stacks::set_top))]
pub(crate) fn replace(stack: &mut Stack<Value>, count: usize, value: Value)
    requires { count < length stack.old.0 }
    ensures items { stack.new.0 ≡ value ∷ drop (count + 1) stack.old.0 }
    ensures room { stack.new.1 ≡ stack.old.1 }
{
    take(stack, count);
    *stack.at_mut(0) = value;
}
