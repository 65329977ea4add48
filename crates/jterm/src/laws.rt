//! Laws about the answers, for the proofs of other crates and for readers. They run nothing.
ghost use Rattle.jterm.specs.Laws.{AcceptedMigrate, AnswersAreOne, CertificatesAreAccepted, ReasonsAreKept};

use cert_making::migrate_call::what_is_accepted_migrates;

/// For given contents it is determined, up to want of memory, whether a request is refused, with which place and fault,
/// and, but for the commands that search for a proof, else what its verdict is.
pub fn answers_are_one()
    ensures { AnswersAreOne }
{}

/// A verdict keeps a reason, or what is left of rules, exactly where no certificate or no proof is given.
pub fn reasons_are_kept()
    ensures { ReasonsAreKept }
{}

/// Where `prove` says YES, `check` accepts the certificate behind it, for the same files.
pub fn certificates_are_accepted()
    ensures { CertificatesAreAccepted }
{}

/// `migrate` gives a certificate exactly where `check` accepts the one that it has.
pub fn accepted_migrate()
    ensures { AcceptedMigrate }
{
    what_is_accepted_migrates();
}
