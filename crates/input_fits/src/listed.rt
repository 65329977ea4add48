//! Whether inputs are one object only where they are listed as a pair.
ghost use Rattle.std.specs.Prelude.{◌≡◌, ◌<◌, ◌↔◌, length, IsTrue};
ghost use Rattle.input_desc.specs.Fitting.{IsListed};
ghost use Rattle.input_fits.specs.inner.Words.{IsPairOf, NameOne, AreListedWith, AreListed};

use jvm_values::Value;

/// Whether a pair is of two numbers, in this order.
fn is_pair(pair: (u32, u32), i: usize, j: usize) -> bool
    ensures { IsTrue result ↔ ((pair.0 ≡ i) × (pair.1 ≡ j)) }
{
    pair.0 as usize == i && pair.1 as usize == j
}

/// Whether a pair is of two numbers, in either order.
fn is_pair_of(pair: (u32, u32), i: usize, j: usize) -> bool
    ensures { IsTrue result ↔ IsPairOf i j pair }
{
    is_pair(pair, i, j) || is_pair(pair, j, i)
}

/// Whether two numbers are listed as a pair, in either order.
pub(crate) fn is_listed(pairs: &[(u32, u32)], i: usize, j: usize) -> bool
    ensures { IsTrue result ↔ IsListed i j pairs.now }
{
    for pair in pairs {
        if is_pair_of(*pair, i, j) {
            return true;
        }
    }
    false
}

/// Whether two values name one object.
fn name_one(v: Value, w: Value) -> bool
    ensures { IsTrue result ↔ NameOne v w }
{
    match v {
        Value::Int(_) => false,
        Value::Null => false,
        Value::Ref(a) => match w {
            Value::Int(_) => false,
            Value::Null => false,
            Value::Ref(b) => a == b,
        },
    }
}

/// Whether two values name different objects, or their numbers are listed as a pair.
fn may_be_one(v: Value, w: Value, pairs: &[(u32, u32)], i: usize, j: usize) -> bool
    ensures { IsTrue result ↔ (NameOne v w → IsListed i j pairs.now) }
{
    if name_one(v, w) {
        is_listed(pairs, i, j)
    } else {
        true
    }
}

/// Whether the values before a place name the object that is named there only where they are listed with that place.
fn are_listed_with(values: &[Value], pairs: &[(u32, u32)], i: usize) -> bool
    requires { i < length values.now }
    ensures { IsTrue result ↔ AreListedWith NameOne values.now pairs.now i i }
{
    for j in 0..i {
        if !may_be_one(values[j], values[i], pairs, j, i) {
            return false;
        }
    }
    true
}

/// Whether two values name one object only where they are listed as a pair.
pub(crate) fn are_same_listed(values: &[Value], pairs: &[(u32, u32)]) -> bool
    ensures { IsTrue result ↔ AreListed NameOne values.now pairs.now }
{
    for i in 0..values.len() {
        if !are_listed_with(values, pairs, i) {
            return false;
        }
    }
    true
}
