//! What the definitions of this crate say of rules and walks. The laws are calls that do nothing when they run.
ghost use Rattle.path_rules.specs.RuleLimits.{RulesFit};
ghost use Rattle.path_rules.specs.Walks.{WalksMeetRules};

/// The rules of all paths of a graph that is ready are within the limits of proofs, where the ends of its intervals are at most 2^31 in
/// size.
pub fn rules_fit()
    ensures { RulesFit }
{}

/// Every walk of the machine's states along a path, each of which fits its stop, meets all rows of the path's rule, and the slots of
/// both ends have the values of their ids.
pub fn walks_meet_rules()
    ensures { WalksMeetRules }
{}
