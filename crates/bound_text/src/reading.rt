//! A text of a bound, read.
ghost use Rattle.std.specs.Prelude.{IfOk};
ghost use Rattle.json_view.specs.Located.{located};
ghost use Rattle.input_text.specs.Answers.{Says};
ghost use Rattle.bound_text.specs.Texts.{bound_text_of};
ghost use Rattle.bound_text.specs.Limits.{AreLimited};
ghost use Rattle.bound_text.specs.Reading.{AnswersText};

use crate::forms::ranks;
use crate::texts::BoundText;
use json_view::{JsonFault, View, parse};
use std::alloc::Global;

/// What a value says.
#[tactic(auto, unfolding(crate::specs::Texts::bound_text_of))]
fn bound_text(alloc: Global, view: &View<'_, '_>) -> Result<BoundText, JsonFault>
    ensures { Says result (bound_text_of (located view.now)) }
{
    view.only(alloc, "form ranks")?;
    let form = view.field(alloc, "form")?;
    form.int(alloc, 1, 1)?;
    let field = view.field(alloc, "ranks")?;
    let ranks = ranks(alloc, &field)?;
    Ok(BoundText { ranks })
}

impl BoundText {
    /// The text of a bound that the bytes say. Whether its lists rise is not tested.
    ///
    /// # Errors
    ///
    /// The first fault: the bytes are no JSON that `serde_json` reads; or, in the order of the fields, a value is of another kind,
    /// out of range, missing or not listed. Want of memory.
    pub fn read(alloc: Global, bytes: &[u8]) -> Result<BoundText, JsonFault>
        ensures text { AnswersText bytes.now result }
        ensures within { IfOk result (λ text. AreLimited text.ranks) }
    {
        let value = parse(alloc, bytes)?;
        match bound_text(alloc, &View::root(&value)) {
            Ok(text) => Ok(text),
            Err(fault) => Err(fault),
        }
    }
}
