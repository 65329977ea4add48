//! What is said of a text of rules.
ghost use Rattle.std.specs.Prelude.{◌≡◌, IfOk};
ghost use Rattle.its_front.specs.Faults.{is_memory};
ghost use Rattle.its_front.specs.Systems.{IsSystem};
ghost use Rattle.its_call.specs.its_search.Found.{Finds};
ghost use Rattle.its_call.specs.Answers.{Answers, Tells, SystemEnds};

use crate::its_search::{ItsFound, its_search};
use crate::lines::maybe_text;
use descent::closed_proofs_end;
use its_front::{Its, ItsFault, chains_end_steps, read_rules, steps_end_walks};
use list_views::Seq;
use std::alloc::{AllocError, Global};

/// What is said.
#[derive(Drop)]
pub struct ItsAnswer {
    /// The exit status: 0 for yes, 1 for maybe.
    pub status: u8,
    /// The bytes for the output.
    pub out: Seq<u8>,
    /// What is left, where the answer is maybe.
    pub left: Option<ItsFound>,
}

/// What is said of what was found for a system.
fn told(alloc: Global, its: &Its, found: ItsFound) -> Result<ItsAnswer, AllocError>
    ensures { IfOk result (Tells its.now found) }
{
    match found {
        ItsFound::Proof(_proof) => Ok(ItsAnswer {
            status: 0,
            out: Seq::from_slice(alloc, b"YES\n")?,
            left: None,
        }),
        ItsFound::Left { proof, rules } => Ok(ItsAnswer {
            status: 1,
            out: maybe_text(alloc, its.places.as_slice(), rules.as_slice())?,
            left: Some(ItsFound::Left { proof, rules }),
        }),
    }
}

/// What is said of a text of rules: `YES` where a closed proof shows that no chain of them is infinite; else `MAYBE
/// component` and a line for each rule that is left.
///
/// # Errors
///
/// The first fault of the text; or want of memory.
pub fn its_answer(alloc: Global, text: &[u8]) -> Result<ItsAnswer, ItsFault>
    // Where yes is said, no sequence of the system's steps is infinite.
    ensures headline { SystemEnds text.now result }

    // The cause of each answer.
    ensures answer { Answers text.now result }
{
    closed_proofs_end();
    chains_end_steps();
    steps_end_walks();
    let its = read_rules(alloc, text)?;
    let found = its_search(alloc, its.rules.as_slice())?;
    Ok(told(alloc, &its, found)?)
}
