//! Laws of the answer. These functions do nothing; their contracts are the laws.
ghost use Rattle.cert_making.specs.migrate_call.Laws.{AnswersAreOne, MigratesWhatIsAccepted};

/// Want of memory aside, a certificate, a description and class files have one answer.
pub fn answers_are_one()
    ensures { AnswersAreOne }
{}

/// There is a new certificate exactly where `check` accepts the old one, and every other answer is that of `check`.
pub fn what_is_accepted_migrates()
    ensures { MigratesWhatIsAccepted }
{}
