//! That least typings exist.
ghost use Rattle.code_verify.specs.Typings.{LeastTypingsExist, LeastTypingsAreOne};

/// Where a method of a good program has a typing, it has one that is at most each other one, and no second such: the
/// erased types above one type form a chain, so that types that meet at a place have a least one as wide as both (JVM
/// specification, section 4.10.2.2). It does nothing when it runs.
pub fn least_typings_exist()
    ensures exist { LeastTypingsExist }
    ensures one { LeastTypingsAreOne }
{}
