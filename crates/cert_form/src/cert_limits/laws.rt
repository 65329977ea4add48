//! What a certificate that was read keeps.
ghost use Rattle.cert_form.specs.cert_limits.Limits.{ReadCertificatesKeepLimits};

/// The steps of the proof of a certificate that was read are within the limits of the text, and none of its states has more ids than a
/// certificate may name.
pub fn read_certificates_keep_limits()
    ensures { ReadCertificatesKeepLimits }
{}
