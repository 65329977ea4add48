//! Laws about the states that a description fits, and about the abstract state that it begins with.
ghost use Rattle.input_root.specs.Roots.{FittingStatesAreDescribed, FittingStatesAreTyped, RootsAreSound, RootsHaveFewIds};

/// A state that fits a program's own description has the types of the program's typing.
pub fn fitting_states_are_typed()
    ensures { FittingStatesAreTyped }
{}

/// The initial abstract state of a description describes each state that fits it: each id stands for its input's value.
pub fn fitting_states_are_described()
    ensures { FittingStatesAreDescribed }
{}

/// The initial abstract state of a description is sound for the program's types.
pub fn roots_are_sound()
    ensures { RootsAreSound }
{}

/// The initial abstract state of a description has at most 512 ids.
pub fn roots_have_few_ids()
    ensures { RootsHaveFewIds }
{}
