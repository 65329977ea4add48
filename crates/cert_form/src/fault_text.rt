//! The faults of certificates in words.
ghost use Rattle.std.specs.Prelude.{◌≡◌, IfOk};
ghost use Rattle.cert_form.specs.Faults.{fault_name, fault_fields, fault_text};

use crate::fault::CertFault;
use list_views::Seq;
use list_views::fault_words::{bytes_field, joined};
use std::alloc::{AllocError, Global};

impl CertFault {
    /// The fault's name; a fault of the JSON text stands for it.
    pub fn name(&self) -> &'static [u8]
        ensures { result.now ≡ fault_name self.now }
    {
        match self {
            CertFault::Json(fault) => fault.name(),
            CertFault::Limit { .. } => b"Limit",
            CertFault::Memory => b"Memory",
        }
    }

    /// The fault's fields, each as ` name=value`.
    ///
    /// # Errors
    ///
    /// Want of memory.
    pub fn fields(&self, alloc: Global) -> Result<Seq<u8>, AllocError>
        ensures { IfOk result (λ text. text ≡ fault_fields self.now) }
    {
        match self {
            CertFault::Json(fault) => fault.fields(alloc),
            CertFault::Limit { place } => bytes_field(alloc, b"place", place.as_slice()),
            CertFault::Memory => Ok(Seq::new(alloc)),
        }
    }

    /// The fault in words: its name and its fields.
    ///
    /// # Errors
    ///
    /// Want of memory.
    pub fn text(&self, alloc: Global) -> Result<Seq<u8>, AllocError>
        ensures { IfOk result (λ text. text ≡ fault_text self.now) }
    {
        let fields = self.fields(alloc)?;
        joined(alloc, &[self.name(), fields.as_slice()])
    }
}
