//! Why the rules of a graph's paths are such as the search for plain forms asks for. These are calls that do nothing when they run.
ghost use Rattle.prove_core.specs.PlainRules.{GoodGraphRulesArePlain, LinksAreShort, PathRulesArePlain, SomeRulesArePlain};

/// In each link of an expansion the coefficients of an equation of three terms are together at most 4,096 in size.
pub fn links_are_short()
    ensures { LinksAreShort }
{}

/// The rules of all paths of a graph that is ready are as the search for plain forms asks, where the ends of its intervals are at most
/// 2^31 in size and its links have short equations.
pub fn path_rules_are_plain()
    ensures { PathRulesArePlain }
{}

/// So are the rules of all paths of a good graph that is ready, with the links that its check gives.
pub fn good_graph_rules_are_plain()
    ensures { GoodGraphRulesArePlain }
{}

/// Rules that are all among such rules, and are no more than these, are such.
pub fn some_rules_are_plain()
    ensures { SomeRulesArePlain }
{}
