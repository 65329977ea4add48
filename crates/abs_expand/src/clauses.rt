//! The clause that an abstract state breaks.
ghost use Rattle.std.specs.Prelude.{MatchOption};
ghost use Rattle.class_program.specs.Views.{program_of};
ghost use Rattle.abs_plans.specs.abs_turns.code_verify.Typings.{typing_at};
ghost use Rattle.abs_expand.specs.BadStates.{IsGoodState, IsBadState};

use crate::places::{are_below_at_calls, are_placed};
use abs_cells::{AbsState, Pairs};
use abs_plans::abs_turns::code_verify::Typing;
use abs_reach::abs_sound::is_sound;
use class_program::Program;

/// The first clause that a state breaks, or None where it has an expansion. It takes no memory, and as many steps as the state
/// names ids, each with a look-up.
pub fn bad_clause<P: Pairs>(
    program: &Program<'_>,
    typing: &Typing,
    state: &AbsState<P>,
) -> Option<u8>
    ensures { MatchOption result (IsGoodState (program_of program.now) (typing_at typing.now) state.now)
        (λ clause. IsBadState (program_of program.now) (typing_at typing.now) state.now clause) }
{
    if !is_sound(&program.world, state) {
        return Some(1);
    }
    if !are_placed(program, typing, state) {
        return Some(2);
    }
    if !are_below_at_calls(program, state) {
        return Some(3);
    }
    None
}
