//! Values of states.
ghost use Rattle.std.specs.Prelude.{◌≡◌, ℤ, is_some, Err, false};
ghost use Rattle.serde_json.specs.Find.{as_null};
ghost use Rattle.input_text.specs.Fields.{an_int};
ghost use Rattle.json_view.specs.Located.{located};
ghost use Rattle.input_text.specs.Answers.{Says};
ghost use Rattle.input_text.specs.Values.{ref_value, value_of};

use crate::fields;
use crate::lists::Said;
use json_view::{JsonFault, View};
use jvm_values::Value;
use std::alloc::Global;

/// The number of an object, as an object's one field `ref`.
#[tactic(auto, unfolding(crate::specs::Values::ref_value, crate::specs::Fields::field))]
fn reference(alloc: Global, view: &View<'_, '_>) -> Result<Value, JsonFault>
    ensures { Says result (ref_value (located view.now)) }
{
    view.only(alloc, "ref")?;
    let field = view.field(alloc, "ref")?;
    let number = fields::number(alloc, &field)?;
    Ok(Value::Ref(number))
}

/// What a value is that isn't null and no int, where this is the fault of reading it as an int.
fn not_an_int(alloc: Global, view: &View<'_, '_>, fault: JsonFault) -> Result<Value, JsonFault>
    requires not_null { is_some (as_null (located view.now).value) ≡ false }
    requires due { Says {A = ℤ} (Err fault) (an_int (located view.now)) }
    ensures { Says result (value_of (located view.now)) }
{
    match fault {
        JsonFault::WrongKind { .. } => reference(alloc, view),
        other => Err(other),
    }
}

/// A whole number, or else a reference.
fn int_or_reference(alloc: Global, view: &View<'_, '_>) -> Result<Value, JsonFault>
    requires { is_some (as_null (located view.now).value) ≡ false }
    ensures { Says result (value_of (located view.now)) }
{
    match fields::int(alloc, view) {
        Ok(number) => Ok(Value::Int(number)),
        Err(fault) => not_an_int(alloc, view, fault),
    }
}

impl Said for Value {
    ghost use Rattle.input_text.specs.Values.{value_of};

    ghost reader = { value_of };

    fn read(alloc: Global, view: &View<'_, '_>) -> Result<Value, JsonFault> {
        if view.is_null() {
            return Ok(Value::Null);
        }
        if view.has("ref") {
            return reference(alloc, view);
        }
        int_or_reference(alloc, view)
    }
}

impl Said for i32 {
    ghost use Rattle.input_text.specs.Fields.{an_int};

    ghost reader = { an_int };

    fn read(alloc: Global, view: &View<'_, '_>) -> Result<i32, JsonFault> {
        fields::int(alloc, view)
    }
}
