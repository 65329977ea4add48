//! Words that stand for one of a few things.
ghost use Rattle.std.specs.Prelude.{◌≡◌, ℕ, List, Option};
ghost use Rattle.json_view.specs.Located.{located};
ghost use Rattle.cert_form.specs.Answers.{Says};
ghost use Rattle.cert_form.specs.Fields.{a_word, longer_than, nth};

use crate::fault::CertFault;
use crate::values::{items, text, wrong};
use json_view::View;
use std::alloc::Global;

/// What words stand for.
pub(crate) trait Word: Copy {
    ghost means: { List ℕ → Option Self };

    /// What a word stands for, if it stands for anything.
    fn of(word: &str) -> Option<Self>
        ensures { result ≡ means word.now };
}

/// What a word stands for.
#[tactic(auto, unfolding(crate::specs::Fields::a_word))]
fn word_here<W: Word>(alloc: Global, view: &View<'_, '_>) -> Result<W, CertFault>
    ensures { Says result (a_word W.means (located view.now)) }
{
    let word = text(alloc, view)?;
    match W::of(word) {
        Some(word) => Ok(word),
        None => wrong(alloc, view),
    }
}

/// What the word stands for that is entry `n` of a list, which may be too short.
#[tactic(auto, unfolding(crate::specs::Fields::nth, crate::specs::Fields::longer_than))]
pub(crate) fn word_in<W: Word>(alloc: Global, view: &View<'_, '_>, n: usize) -> Result<W, CertFault>
    ensures { Says result (longer_than n (nth n (a_word W.means)) (located view.now)) }
{
    if items(alloc, view)? > n {
        word_here(alloc, &view.item(n))
    } else {
        wrong(alloc, view)
    }
}
