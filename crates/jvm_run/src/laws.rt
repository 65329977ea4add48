//! Laws of typed states: what follows from the definitions. These functions do nothing; their contracts are the laws.
ghost use Rattle.jvm_run.specs.Laws.{StepsAreTyped, RunsAreTyped, RunsAreNeverStuck, StartsAreTyped};

/// In a closed program whose methods have typings, a step from a state with the types of the least typings is not stuck, and
/// where the run goes on, the state has these types too.
pub fn steps_are_typed()
    ensures { StepsAreTyped }
{}

/// So it is after any number of steps.
pub fn runs_are_typed()
    ensures { RunsAreTyped }
{}

/// No number of steps from such a state makes a run stuck.
pub fn runs_are_never_stuck()
    ensures { RunsAreNeverStuck }
{}

/// The state in which a run begins, with arguments, values of static fields and a heap of the right types, is such a state.
pub fn starts_are_typed()
    ensures { StartsAreTyped }
{}
