//! Laws of the answer. These functions do nothing; their contracts are the laws.
ghost use Rattle.check_call.specs.Laws.{AcceptedEnds, AnswersAreOne};

use cert_check::valid_certificates_end;

/// Want of memory aside, a certificate, a description and class files have one answer.
pub fn answers_are_one()
    ensures { AnswersAreOne }
{}

/// Where an answer is that a certificate is accepted, every state that the description fits ends, and none is stuck: that the files are
/// lists of bytes is all that has to be known besides.
pub fn accepted_ends()
    ensures { AcceptedEnds }
{
    valid_certificates_end();
}
