//! What a sum shows.
ghost use Rattle.std.specs.Prelude.{◌↔◌, ◌≤ℤ◌, ℕ, ℤ, pos, IsTrue};
ghost use Rattle.lin_core.specs.Combination.{Shows};
ghost use Rattle.lin_core.specs.Rows.{Rise, value_of_target};
ghost use Rattle.lin_core.specs.Sums.{variables, value_of_sum};

use crate::rows::Target;
use crate::sums::{Scratch, count_of, widened};

/// Whether the sum shows the target: every coefficient is equal, and the target's constant is at least the sum's. It
/// costs as many steps as the target has terms, and takes no memory.
pub fn shows(sum: &Scratch, target: &Target) -> bool
    requires { Rise (variables sum.now) target.now.terms }
    ensures shown { IsTrue result ↔ Shows sum.now target.now }
    ensures sound { IsTrue result → (numbers : ℕ → ℤ) → pos 0 ≤ℤ value_of_sum numbers sum.now
        → pos 0 ≤ℤ value_of_target numbers target.now }
{
    let mut found = 0;
    for (variable, coefficient) in target.terms.as_slice() {
        let wanted = widened(coefficient);
        if !sum.has(*variable, &wanted) {
            return false;
        }
        found += count_of(&wanted);
    }
    sum.has_nonzero(found) && sum.is_at_most(&target.constant)
}
