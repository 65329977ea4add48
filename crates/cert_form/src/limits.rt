//! How long a certificate may be.

/// The most bytes that a certificate may have: 16 MiB.
pub const MOST_CERTIFICATE_BYTES: usize = 1 << 24;
