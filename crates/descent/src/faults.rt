//! Why a proof is refused.
ghost use Rattle.std.specs.Prelude.{◌≡◌};
ghost use Rattle.descent.specs.declared.faults.StepFault.TheVariants.{Memory};

use lin_core::LinFault;
use std::alloc::{AllocError, AllocFailed};

/// The rule of proof steps that is broken.
#[derive(Clone, Copy, PartialEq, Eq)]
pub enum DescentFault {
    /// The rule is in the step's set and not covered by the step, or the other way round.
    NotCovered {
        /// The rule.
        rule: u32,
    },
    /// A rule is followed by one of a lower part.
    BackEdge {
        /// The rule.
        from: u32,
        /// The rule of the lower part.
        to: u32,
    },
    /// It is not shown that the form never rises on the rule.
    NotWeak {
        /// The rule.
        rule: u32,
    },
    /// It is not shown that the form falls on the rule, or that the rule can never be taken.
    NotStrict {
        /// The rule.
        rule: u32,
    },
    /// It is not shown that the form is at least 0 where the rule starts.
    NotBounded {
        /// The rule.
        rule: u32,
    },
    /// The rule stands in a part that no step takes, and isn't alone there or follows itself.
    Loops {
        /// The rule.
        rule: u32,
    },
    /// The multipliers of a row that is to be shown are refused.
    Lin(LinFault),
    /// A step names a step that isn't a later one, isn't there or was named before; or no earlier step names it.
    BadStep,
}

/// The first fault of a proof.
#[derive(Clone, Copy, PartialEq, Eq)]
pub enum StepFault {
    /// The step breaks a rule.
    At {
        /// The step.
        step: u32,
        /// The rule that it breaks first.
        fault: DescentFault,
    },
    /// Want of memory.
    Memory,
}

impl From<AllocError> for StepFault {
    ghost from_gives = { λ _ e. e ≡ Memory };

    fn from(_e: AllocError) -> StepFault {
        StepFault::Memory
    }
}

impl<T: Drop> From<AllocFailed<T>> for StepFault {
    ghost from_gives = { λ _ e. e ≡ Memory };

    fn from(_e: AllocFailed<T>) -> StepFault {
        StepFault::Memory
    }
}
