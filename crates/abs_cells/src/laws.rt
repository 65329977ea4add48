//! Laws about abstract states, for the proofs of other crates. They run nothing.
ghost use Rattle.abs_cells.specs.Laws.{FittingFramesAgree, KnownIdsAreApart, PatternsAreOne};

/// A state that is fitted has as many frames as the machine's.
pub fn fitting_frames_agree()
    ensures { FittingFramesAgree }
{}

/// In a well-formed state that is fitted two known ids stand for different objects.
pub fn known_ids_are_apart()
    ensures { KnownIdsAreApart }
{}

/// An id has at most one pattern.
pub fn patterns_are_one()
    ensures { PatternsAreOne }
{}
