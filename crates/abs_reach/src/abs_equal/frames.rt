//! Whether two frames are the same.
ghost use Rattle.std.specs.Prelude.{◌≡◌, ◌↔◌, IsTrue};

use abs_cells::{AbsFrame, Id};

/// Whether two ids that may be there are the same, or are both not there.
pub(crate) fn is_same_id(a: Option<Id>, b: Option<Id>) -> bool
    ensures { IsTrue result ↔ (a ≡ b) }
{
    a == b
}

/// Whether two lists of ids are the same.
fn are_same_entries(a: &[Id], b: &[Id]) -> bool
    ensures { IsTrue result ↔ (a.now ≡ b.now) }
{
    a == b
}

/// Whether two lists of locals are the same.
#[tactic(auto, using(crate::proofs::Lists::more_same, crate::proofs::Lists::all_same, crate::proofs::Lists::one_differs))]
fn are_same_locals(a: &[Option<Id>], b: &[Option<Id>]) -> bool
    ensures { IsTrue result ↔ (a.now ≡ b.now) }
{
    if a.len() != b.len() {
        return false;
    }
    for n in 0..a.len() {
        if !is_same_id(a[n], b[n]) {
            return false;
        }
    }
    true
}

/// Whether two frames have the same stack.
fn are_same_stacks(a: &AbsFrame, b: &AbsFrame) -> bool
    ensures { IsTrue result ↔ (a.now.stack ≡ b.now.stack) }
{
    are_same_entries(a.stack(), b.stack())
}

/// Whether two frames have the same method and place.
fn is_same_place(a: &AbsFrame, b: &AbsFrame) -> bool
    ensures { IsTrue result ↔ ((a.now.method ≡ b.now.method) × (a.now.pc ≡ b.now.pc)) }
{
    a.method() == b.method() && a.pc() == b.pc()
}

/// Whether two frames have the same locals and stack.
fn are_same_ids(a: &AbsFrame, b: &AbsFrame) -> bool
    ensures { IsTrue result ↔ ((a.now.locals ≡ b.now.locals) × (a.now.stack ≡ b.now.stack)) }
{
    are_same_locals(a.locals(), b.locals()) && are_same_stacks(a, b)
}

/// Whether two frames have the same method, place, locals and stack.
fn is_same_frame(a: &AbsFrame, b: &AbsFrame) -> bool
    ensures { IsTrue result ↔ (a.now ≡ b.now) }
{
    is_same_place(a, b) && are_same_ids(a, b)
}

/// Whether two lists of frames are the same.
pub(crate) fn are_same_frames(a: &[AbsFrame], b: &[AbsFrame]) -> bool
    ensures { IsTrue result ↔ (a.now ≡ b.now) }
{
    if a.len() != b.len() {
        return false;
    }
    for n in 0..a.len() {
        if !is_same_frame(&a[n], &b[n]) {
            return false;
        }
    }
    true
}
