//! What children of steps describe. The laws are calls that do nothing when they run.
ghost use Rattle.form_steps.specs.Laws.{MovedStatesFit};

/// What fits a state fits it with other frames, where these stand beside the machine's.
pub fn moved_states_fit()
    ensures { MovedStatesFit }
{}
