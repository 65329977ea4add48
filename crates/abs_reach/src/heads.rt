//! Whether states stand at the same places.
ghost use Rattle.std.specs.Prelude.{◌≡◌, ◌↔◌, IsTrue, map};
ghost use Rattle.abs_reach.specs.Instances.{head_of, is_thrown};

use abs_cells::{AbsFrame, Id};

/// Whether two frames have the same method, place and depth of stack.
pub fn is_same_head(a: &AbsFrame, b: &AbsFrame) -> bool
    ensures { IsTrue result ↔ (head_of a.now ≡ head_of b.now) }
{
    a.method() == b.method() && a.pc() == b.pc() && a.stack().len() == b.stack().len()
}

/// Whether frames have the same methods, places and depths of stacks, one by one.
pub fn are_same_heads(a: &[AbsFrame], b: &[AbsFrame]) -> bool
    ensures { IsTrue result ↔ (map head_of a.now ≡ map head_of b.now) }
{
    if a.len() != b.len() {
        return false;
    }
    for (place, frame) in a.iter().enumerate() {
        if !is_same_head(frame, &b[place]) {
            return false;
        }
    }
    true
}

/// Whether an object is thrown in both or in none.
pub fn is_same_mode(x: Option<Id>, y: Option<Id>) -> bool
    ensures { IsTrue result ↔ (is_thrown x ≡ is_thrown y) }
{
    x.is_some() == y.is_some()
}
