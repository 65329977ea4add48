//! A law of the answer. It is a call that does nothing when it runs.
ghost use Rattle.cert_calls.specs.bound_call.Laws.{AnswersAreOne};

/// Want of memory aside, a bound, a certificate, a description and class files have one answer.
pub fn answers_are_one()
    ensures { AnswersAreOne }
{}
