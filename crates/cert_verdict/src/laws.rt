//! The law of verdicts. It is a call that does nothing when it runs.
ghost use Rattle.cert_verdict.specs.OneVerdict.{VerdictsAreOne};

/// A certificate is valid, or it has one first item that fails, with one cause, and never both: of every program and every graph.
pub fn verdicts_are_one()
    ensures { VerdictsAreOne }
{}
