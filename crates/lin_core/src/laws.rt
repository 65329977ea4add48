//! Laws about what is shown, for the proofs of other crates. They run nothing.
ghost use Rattle.lin_core.specs.Laws.{ShownTargetsHold, FaultlessAreAllowed, SumsShow};

/// A target that is shown from some rows is at least 0 wherever the rows hold.
pub fn shown_targets_hold()
    ensures { ShownTargetsHold }
{}

/// Multipliers have no fault exactly where each may stand at its row and none is above 2^31 in size.
pub fn faultless_are_allowed()
    ensures { FaultlessAreAllowed }
{}

/// The sum of some rows shows exactly the targets that are shown from the rows.
pub fn sums_show()
    ensures { SumsShow }
{}
