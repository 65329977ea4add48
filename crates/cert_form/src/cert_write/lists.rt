//! Lists, numbers and pairs as JSON values.
ghost use Rattle.std.specs.Prelude.{◌≡◌, map, IfOk};
ghost use Rattle.serde_json.specs.Data.{Data, string};
ghost use Rattle.serde_json.specs.View.{view};
ghost use Rattle.cert_form.specs.cert_write.Data.{list, maybe};

use serde_json::Value;
use std::alloc::{AllocError, Global};

/// What is written of an entry of a list, in a context `C`.
pub(crate) trait Written<C> {
    ghost written: { C → Self → Data };

    /// The entry as a value.
    fn value(&self, alloc: Global, context: &C) -> Result<Value, AllocError>
        ensures { IfOk result (λ v. view v ≡ written context.now self.now) };
}

/// Entries as a list.
pub(crate) fn list<C, T: Written<C>>(
    alloc: Global,
    context: &C,
    entries: &[T],
) -> Result<Value, AllocError>
    ensures { IfOk result (λ v. view v ≡ list (map (T.written context.now) entries.now)) }
{
    let mut values = Vec::new(alloc);
    for entry in entries {
        values.push(entry.value(alloc, context)?)?;
    }
    Ok(Value::Array(values))
}

/// Values as a list.
pub(crate) fn together<const N: usize>(
    alloc: Global,
    values: [Value; N],
) -> Result<Value, AllocError>
    ensures { IfOk result (λ v. view v ≡ list (map view values.entry)) }
{
    Ok(Value::Array(Vec::from_array(alloc, values)?))
}

/// A word as a value.
pub(crate) fn word(alloc: Global, text: &str) -> Result<Value, AllocError>
    ensures { IfOk result (λ v. view v ≡ string text.now) }
{
    Ok(Value::String(String::from_str(alloc, text)?))
}

impl Written<()> for u32 {
    ghost use Rattle.cert_form.specs.cert_write.Data.{natural};

    ghost written = { λ _. natural };

    fn value(&self, _: Global, _: &()) -> Result<Value, AllocError> {
        Ok(Value::from(*self))
    }
}

impl Written<()> for u16 {
    ghost use Rattle.cert_form.specs.cert_write.Data.{natural};

    ghost written = { λ _. natural };

    fn value(&self, _: Global, _: &()) -> Result<Value, AllocError> {
        Ok(Value::from(*self))
    }
}

/// A number of 32 bits, or -1 for none.
pub(crate) fn maybe(number: Option<u32>) -> Value
    ensures { view result ≡ maybe number }
{
    match number {
        Some(number) => Value::from(number),
        None => Value::from(-1i32),
    }
}

/// An id, or -1 for none.
pub(crate) fn maybe_id(id: Option<u16>) -> Value
    ensures { view result ≡ maybe id }
{
    match id {
        Some(id) => Value::from(id),
        None => Value::from(-1i32),
    }
}

impl Written<()> for Option<u32> {
    ghost use Rattle.cert_form.specs.cert_write.Data.{maybe};

    ghost written = { λ _. maybe };

    fn value(&self, _: Global, _: &()) -> Result<Value, AllocError> {
        Ok(maybe(*self))
    }
}

impl Written<()> for Option<u16> {
    ghost use Rattle.cert_form.specs.cert_write.Data.{maybe};

    ghost written = { λ _. maybe };

    fn value(&self, _: Global, _: &()) -> Result<Value, AllocError> {
        Ok(maybe_id(*self))
    }
}

impl Written<()> for (u16, u16) {
    ghost use Rattle.cert_form.specs.cert_write.Data.{pair};

    ghost written = { λ _. pair };

    fn value(&self, alloc: Global, _: &()) -> Result<Value, AllocError> {
        together(alloc, [Value::from(self.0), Value::from(self.1)])
    }
}

impl Written<()> for (u16, i64) {
    ghost use Rattle.cert_form.specs.cert_write.Data.{entry};

    ghost written = { λ _. entry };

    fn value(&self, alloc: Global, _: &()) -> Result<Value, AllocError> {
        together(alloc, [Value::from(self.0), Value::from(self.1)])
    }
}

impl Written<()> for (u32, i64) {
    ghost use Rattle.cert_form.specs.cert_write.Data.{entry};

    ghost written = { λ _. entry };

    fn value(&self, alloc: Global, _: &()) -> Result<Value, AllocError> {
        together(alloc, [Value::from(self.0), Value::from(self.1)])
    }
}
