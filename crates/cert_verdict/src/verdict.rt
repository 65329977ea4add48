//! What is said of the bytes of a certificate.
use cert_check::Cause;
use cert_form::CertFault;

/// What is said of the bytes of a certificate.
#[derive(Drop)]
pub enum CertVerdict {
    /// They say a certificate that is valid.
    Accepted,
    /// They say one that isn't valid.
    Refused {
        /// The first item that fails, from 1 on.
        item: u64,
        /// What is wrong with it.
        cause: Cause,
    },
    /// They say no certificate, for this fault.
    NoText(CertFault),
}
