//! Laws about the states from which graphs grow. They are calls that do nothing when they run.
ghost use Rattle.grow_laws.specs.Laws.{GrowingChildren, GrowingRoots, GrowingStatesStandAlike, GrowingWidenings};

use abs_match::dropped_states_reach_all;
use abs_widen::widenings_are_sound;
use input_root::roots_are_sound;
use place_sorts::{branches_stay_ints, results_stay_ints};

/// The children of a growing state of a closed program are growing states.
pub fn children_grow()
    ensures { GrowingChildren }
{
    dropped_states_reach_all();
    results_stay_ints();
    branches_stay_ints();
}

/// Growing states at the same positions stand alike, as widening asks.
pub fn growing_states_stand_alike()
    ensures { GrowingStatesStandAlike }
{}

/// A widening of two growing states is a growing state.
pub fn widenings_grow()
    ensures { GrowingWidenings }
{
    dropped_states_reach_all();
    widenings_are_sound();
}

/// The state that a program's own description begins with is a growing state.
pub fn roots_grow()
    ensures { GrowingRoots }
{
    roots_are_sound();
}
