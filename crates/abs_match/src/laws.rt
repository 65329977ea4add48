//! Laws about matches, for the proofs of other crates. They run nothing.
ghost use Rattle.abs_match.specs.Laws.{MatchesCarryFitting, DroppedStatesReachAll};

/// Whatever fits a well-formed state fits each state of which it is an instance, each id there having its image's value.
pub fn matches_carry_fitting()
    ensures { MatchesCarryFitting }
{}

/// A state that lost the ids which its positions don't reach reaches all that is left, as `find_map` asks.
pub fn dropped_states_reach_all()
    ensures { DroppedStatesReachAll }
{}
