//! The law of the steps that make no id. It is a call that does nothing when it runs.
ghost use Rattle.steady_plans.specs.Laws.{PlansAreSteady};

/// In the plan of every program and state a step that makes no id sends none anywhere, and its rows name none.
pub fn plans_are_steady()
    ensures { PlansAreSteady }
{}
