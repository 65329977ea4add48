//! Why bytes aren't a certificate.
use json_view::JsonFault;
use list_views::Seq;
use std::alloc::{AllocError, AllocFailed};

/// Why bytes aren't a certificate.
#[derive(Drop, PartialEq)]
pub enum CertFault {
    /// The bytes are no JSON, or one of the values is not what a certificate has there.
    Json(JsonFault),
    /// A number or a list passes a limit.
    Limit {
        /// The value's place, as a JSON pointer (RFC 6901).
        place: Seq<u8>,
    },
    /// Want of memory.
    Memory,
}

impl From<JsonFault> for CertFault {
    ghost use Rattle.std.specs.Prelude.{◌≡◌};
    ghost use Rattle.cert_form.specs.Answers.{lifted};

    ghost from_gives = { λ fault e. e ≡ lifted fault };

    fn from(fault: JsonFault) -> CertFault {
        match fault {
            JsonFault::Memory => CertFault::Memory,
            other => CertFault::Json(other),
        }
    }
}

impl From<AllocError> for CertFault {
    ghost use Rattle.std.specs.Prelude.{◌≡◌};
    ghost use Rattle.cert_form.specs.declared.fault.CertFault.TheVariants.{Memory};

    ghost from_gives = { λ _ e. e ≡ Memory };

    fn from(_: AllocError) -> CertFault {
        CertFault::Memory
    }
}

impl<T: Drop> From<AllocFailed<T>> for CertFault {
    ghost use Rattle.std.specs.Prelude.{◌≡◌};
    ghost use Rattle.cert_form.specs.declared.fault.CertFault.TheVariants.{Memory};

    ghost from_gives = { λ _ e. e ≡ Memory };

    fn from(_: AllocFailed<T>) -> CertFault {
        CertFault::Memory
    }
}
