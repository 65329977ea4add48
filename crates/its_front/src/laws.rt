//! Laws about systems, for the proofs of other crates. They run nothing.
ghost use Rattle.its_front.specs.Steps.{ChainsEndSteps, StepsEndWalks};

/// Where no chain of a system's rules is infinite, its steps end: every standing is accessible.
#[tactic(auto, using(crate::proofs::Walking::chains_end_steps))]
pub fn chains_end_steps()
    ensures { ChainsEndSteps }
{}

/// Where the steps of a system end, no sequence of them is infinite.
#[tactic(auto, using(crate::proofs::Walking::steps_end_walks))]
pub fn steps_end_walks()
    ensures { StepsEndWalks }
{}
