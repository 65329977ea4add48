//! Instructions that change their frame alone.
ghost use Rattle.std.specs.Prelude.{◌≡◌, ◌-ℤ◌, ◌<◌, ◌≤◌, length, true, false, OnErr};
ghost use Rattle.jvm_values.specs.declared.heap.Value.TheVariants as values;
ghost use Rattle.jvm_values.specs.States.{frame_of};
ghost use Rattle.jvm_step.specs.Acts.{Acts, Tries};
ghost use Rattle.jvm_step.specs.Operands.{same_reference, is_null};
ghost use Rattle.jvm_step.specs.Effects.{target_at, int_of_local, reference_of_local, constant_effect, iload_effect, aload_effect};
ghost use Rattle.jvm_step.specs.Effects.{istore_effect, astore_effect, iinc_effect, arith_effect, ineg_effect, narrow_effect};
ghost use Rattle.jvm_step.specs.Effects.{if_effect, if_icmp_effect, if_acmp_effect, if_null_effect, goto_effect, target_of};
ghost use Rattle.jvm_step.specs.Effects.{tableswitch_effect, lookupswitch_effect};

use crate::after::After;
use crate::built_ins::ARITHMETIC_EXCEPTION;
use crate::operands::{int_at, int_of, reference_at, reference_of, replace, take};
use class_program::code_forms::Case;
use jvm_values::{Cond, Frame, IntOp, Kind, Value};
use list_views::Seq;
use std::alloc::{AllocError, AllocFailed};

/// Pushes a value.
#[tactic(auto, unfolding(crate::specs::Effects::constant_effect))]
pub fn push(frame: &mut Frame, value: Value) -> Result<After, AllocError>
    ensures effect { Tries (constant_effect value (frame_of frame.old)) result (frame_of frame.old) (frame_of frame.new) }
    ensures room { frame.old.stack.1 ≤ frame.new.stack.1 }
    ensures method { frame.new.method ≡ frame.old.method }
    ensures memory { OnErr result (frame.old.stack.1 ≤ length frame.old.stack.0) }
{
    match frame.stack.push(value) {
        Ok(()) => Ok(After::Next),
        Err(_) => Err(AllocError),
    }
}

/// The int of a local.
#[tactic(auto, unfolding(crate::specs::Effects::int_of_local))]
fn int_in(locals: &Seq<Option<Value>>, n: u16) -> Option<i32>
    ensures { result ≡ int_of_local locals.now n }
{
    if (n as usize) < locals.len() {
        int_of((*locals.at(n as usize))?)
    } else {
        None
    }
}

/// The reference of a local.
#[tactic(auto, unfolding(crate::specs::Effects::reference_of_local))]
fn reference_in(locals: &Seq<Option<Value>>, n: u16) -> Option<Value>
    ensures { result ≡ reference_of_local locals.now n }
{
    if (n as usize) < locals.len() {
        reference_of((*locals.at(n as usize))?)
    } else {
        None
    }
}

/// Pushes the int of a local.
#[tactic(auto, unfolding(crate::specs::Effects::iload_effect, crate::specs::Effects::constant_effect))]
pub fn iload(frame: &mut Frame, n: u16) -> Result<After, AllocError>
    ensures effect { Tries (iload_effect n (frame_of frame.old)) result (frame_of frame.old) (frame_of frame.new) }
    ensures room { frame.old.stack.1 ≤ frame.new.stack.1 }
    ensures method { frame.new.method ≡ frame.old.method }
    ensures memory { OnErr result (frame.old.stack.1 ≤ length frame.old.stack.0) }
{
    match int_in(&frame.locals, n) {
        Some(number) => push(frame, Value::Int(number)),
        None => Ok(After::Next),
    }
}

/// Pushes the reference of a local.
#[tactic(auto, unfolding(crate::specs::Effects::aload_effect, crate::specs::Effects::constant_effect))]
pub fn aload(frame: &mut Frame, n: u16) -> Result<After, AllocError>
    ensures effect { Tries (aload_effect n (frame_of frame.old)) result (frame_of frame.old) (frame_of frame.new) }
    ensures room { frame.old.stack.1 ≤ frame.new.stack.1 }
    ensures method { frame.new.method ≡ frame.old.method }
    ensures memory { OnErr result (frame.old.stack.1 ≤ length frame.old.stack.0) }
{
    match reference_in(&frame.locals, n) {
        Some(reference) => push(frame, reference),
        None => Ok(After::Next),
    }
}

/// Takes an int into a local.
#[tactic(auto, unfolding(crate::specs::Effects::istore_effect))]
pub fn istore(frame: &mut Frame, n: u16) -> After
    ensures effect { Acts (istore_effect n (frame_of frame.old)) result (frame_of frame.old) (frame_of frame.new) }
    ensures room { frame.new.stack.1 ≡ frame.old.stack.1 }
    ensures method { frame.new.method ≡ frame.old.method }
{
    let Some(number) = int_at(&frame.stack, 0) else {
        return After::Next;
    };
    if (n as usize) < frame.locals.len() {
        *frame.locals.at_mut(n as usize) = Some(Value::Int(number));
        take(&mut frame.stack, 1);
    }
    After::Next
}

/// Takes a reference into a local.
#[tactic(auto, unfolding(crate::specs::Effects::astore_effect))]
pub fn astore(frame: &mut Frame, n: u16) -> After
    ensures effect { Acts (astore_effect n (frame_of frame.old)) result (frame_of frame.old) (frame_of frame.new) }
    ensures room { frame.new.stack.1 ≡ frame.old.stack.1 }
    ensures method { frame.new.method ≡ frame.old.method }
{
    let Some(reference) = reference_at(&frame.stack, 0) else {
        return After::Next;
    };
    if (n as usize) < frame.locals.len() {
        *frame.locals.at_mut(n as usize) = Some(reference);
        take(&mut frame.stack, 1);
    }
    After::Next
}

/// Adds a number to the int of a local.
#[tactic(auto, unfolding(crate::specs::Effects::iinc_effect), using(std::proofs::lemmas::Int::wrapping_add_is))]
pub fn iinc(frame: &mut Frame, n: u16, by: i16) -> After
    ensures effect { Acts (iinc_effect n by (frame_of frame.old)) result (frame_of frame.old) (frame_of frame.new) }
    ensures room { frame.new.stack.1 ≡ frame.old.stack.1 }
    ensures method { frame.new.method ≡ frame.old.method }
{
    let Some(number) = int_in(&frame.locals, n) else {
        return After::Next;
    };
    if (n as usize) < frame.locals.len() {
        *frame.locals.at_mut(n as usize) = Some(Value::Int(number.wrapping_add(i32::from(by))));
    }
    After::Next
}

/// An operator on the two top ints.
#[tactic(auto, unfolding(crate::specs::Effects::arith_effect))]
pub fn arith(frame: &mut Frame, op: IntOp) -> After
    ensures effect { Acts (arith_effect op (frame_of frame.old)) result (frame_of frame.old) (frame_of frame.new) }
    ensures room { frame.new.stack.1 ≡ frame.old.stack.1 }
    ensures method { frame.new.method ≡ frame.old.method }
{
    let Some(right) = int_at(&frame.stack, 0) else {
        return After::Next;
    };
    let Some(left) = int_at(&frame.stack, 1) else {
        return After::Next;
    };
    match op.apply(left, right) {
        Some(result) => {
            replace(&mut frame.stack, 1, Value::Int(result));
            After::Next
        }
        None => After::Raise(ARITHMETIC_EXCEPTION),
    }
}

/// Zero minus the top int.
#[tactic(auto, unfolding(crate::specs::Effects::ineg_effect))]
pub fn ineg(frame: &mut Frame) -> After
    ensures effect { Acts (ineg_effect (frame_of frame.old)) result (frame_of frame.old) (frame_of frame.new) }
    ensures room { frame.new.stack.1 ≡ frame.old.stack.1 }
    ensures method { frame.new.method ≡ frame.old.method }
{
    let Some(value) = int_at(&frame.stack, 0) else {
        return After::Next;
    };
    if let Some(result) = IntOp::Sub.apply(0, value) {
        replace(&mut frame.stack, 0, Value::Int(result));
    }
    After::Next
}

/// Narrows the top int.
#[tactic(auto, unfolding(crate::specs::Effects::narrow_effect))]
pub fn narrow(frame: &mut Frame, kind: Kind) -> After
    ensures effect { Acts (narrow_effect kind (frame_of frame.old)) result (frame_of frame.old) (frame_of frame.new) }
    ensures room { frame.new.stack.1 ≡ frame.old.stack.1 }
    ensures method { frame.new.method ≡ frame.old.method }
{
    let Some(value) = int_at(&frame.stack, 0) else {
        return After::Next;
    };
    replace(&mut frame.stack, 0, Value::Int(kind.narrow(value)));
    After::Next
}

/// A jump where a condition holds between the top int and 0.
#[tactic(auto, unfolding(crate::specs::Effects::if_effect))]
pub fn jump_if(frame: &mut Frame, cond: Cond, place: u16) -> After
    ensures effect { Acts (if_effect cond place (frame_of frame.old)) result (frame_of frame.old) (frame_of frame.new) }
    ensures room { frame.new.stack.1 ≡ frame.old.stack.1 }
    ensures method { frame.new.method ≡ frame.old.method }
{
    let Some(value) = int_at(&frame.stack, 0) else {
        return After::Next;
    };
    take(&mut frame.stack, 1);
    if cond.holds(value, 0) {
        After::Jump(place)
    } else {
        After::Next
    }
}

/// A jump where a condition holds between the two top ints.
#[tactic(auto, unfolding(crate::specs::Effects::if_icmp_effect))]
pub fn jump_if_ints(frame: &mut Frame, cond: Cond, place: u16) -> After
    ensures effect { Acts (if_icmp_effect cond place (frame_of frame.old)) result (frame_of frame.old) (frame_of frame.new) }
    ensures room { frame.new.stack.1 ≡ frame.old.stack.1 }
    ensures method { frame.new.method ≡ frame.old.method }
{
    let Some(right) = int_at(&frame.stack, 0) else {
        return After::Next;
    };
    let Some(left) = int_at(&frame.stack, 1) else {
        return After::Next;
    };
    take(&mut frame.stack, 2);
    if cond.holds(left, right) {
        After::Jump(place)
    } else {
        After::Next
    }
}

/// Whether two references are one.
fn same_reference(a: Value, b: Value) -> bool
    ensures { result ≡ same_reference a b }
{
    match (a, b) {
        (Value::Null, Value::Null) => true,
        (Value::Ref(a), Value::Ref(b)) => a == b,
        _ => false,
    }
}

/// Whether a reference is null.
fn is_null(a: Value) -> bool
    ensures { result ≡ is_null a }
{
    match a {
        Value::Null => true,
        _ => false,
    }
}

/// A jump where it is as wanted whether the two top references are one.
#[tactic(auto, unfolding(crate::specs::Effects::if_acmp_effect))]
pub fn jump_if_same(frame: &mut Frame, wanted: bool, place: u16) -> After
    ensures effect { Acts (if_acmp_effect wanted place (frame_of frame.old)) result (frame_of frame.old) (frame_of frame.new) }
    ensures room { frame.new.stack.1 ≡ frame.old.stack.1 }
    ensures method { frame.new.method ≡ frame.old.method }
{
    let Some(right) = reference_at(&frame.stack, 0) else {
        return After::Next;
    };
    let Some(left) = reference_at(&frame.stack, 1) else {
        return After::Next;
    };
    take(&mut frame.stack, 2);
    if same_reference(left, right) == wanted {
        After::Jump(place)
    } else {
        After::Next
    }
}

/// A jump where it is as wanted whether the top reference is null.
#[tactic(auto, unfolding(crate::specs::Effects::if_null_effect))]
pub fn jump_if_null(frame: &mut Frame, wanted: bool, place: u16) -> After
    ensures effect { Acts (if_null_effect wanted place (frame_of frame.old)) result (frame_of frame.old) (frame_of frame.new) }
    ensures room { frame.new.stack.1 ≡ frame.old.stack.1 }
    ensures method { frame.new.method ≡ frame.old.method }
{
    let Some(value) = reference_at(&frame.stack, 0) else {
        return After::Next;
    };
    take(&mut frame.stack, 1);
    if is_null(value) == wanted {
        After::Jump(place)
    } else {
        After::Next
    }
}

/// How far an int is above another.
fn gap(low: i32, key: i32) -> i64
    ensures { result ≡ key -ℤ low }
{
    i64::from(key) - i64::from(low)
}

/// The target of the item of that number, counted from 0.
fn target_at(default: u16, targets: &[u16], i: &i64) -> u16
    ensures { result ≡ target_at default targets.now i.now }
{
    if *i < 0 {
        return default;
    }
    match targets.get(*i as usize) {
        Some(target) => *target,
        None => default,
    }
}

/// A jump to the target of the top int.
#[tactic(auto, unfolding(crate::specs::Effects::tableswitch_effect))]
pub fn tableswitch(frame: &mut Frame, default: u16, low: i32, targets: &[u16]) -> After
    ensures effect { Acts (tableswitch_effect default low targets.now (frame_of frame.old)) result (frame_of frame.old)
        (frame_of frame.new) }
    ensures room { frame.new.stack.1 ≡ frame.old.stack.1 }
    ensures method { frame.new.method ≡ frame.old.method }
{
    let Some(key) = int_at(&frame.stack, 0) else {
        return After::Next;
    };
    take(&mut frame.stack, 1);
    let i = gap(low, key);
    After::Jump(target_at(default, targets, &i))
}

/// The target of a key.
fn target_of(default: u16, cases: &[Case], key: i32) -> u16
    ensures { result ≡ target_of default cases.now key }
{
    for case in cases {
        if case.key == key {
            return case.target;
        }
    }
    default
}

/// A jump to the target of the top int.
#[tactic(auto, unfolding(crate::specs::Effects::lookupswitch_effect))]
pub fn lookupswitch(frame: &mut Frame, default: u16, cases: &[Case]) -> After
    ensures effect { Acts (lookupswitch_effect default cases.now (frame_of frame.old)) result (frame_of frame.old) (frame_of frame.new) }
    ensures room { frame.new.stack.1 ≡ frame.old.stack.1 }
    ensures method { frame.new.method ≡ frame.old.method }
{
    let Some(key) = int_at(&frame.stack, 0) else {
        return After::Next;
    };
    take(&mut frame.stack, 1);
    After::Jump(target_of(default, cases, key))
}

/// Jumps.
#[tactic(auto, unfolding(crate::specs::Effects::goto_effect))]
pub fn goto(frame: &Frame, place: u16) -> After
    ensures { Acts (goto_effect place (frame_of frame.now)) result (frame_of frame.now) (frame_of frame.now) }
{
    After::Jump(place)
}
