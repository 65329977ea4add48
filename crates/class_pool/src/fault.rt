//! Why bytes spell no pool.

ghost use Rattle.std.specs.Prelude.{◌≡◌, IfOk};
ghost use Rattle.class_pool.specs.declared.fault.PoolFault.TheVariants.{Memory};
ghost use Rattle.class_pool.specs.Faults.{fault_name, fault_fields, fault_text};

use list_views::Seq;
use list_views::fault_words::{joined, number_field};
use std::alloc::{AllocError, AllocFailed, Global};

/// The first fault of a pool. Places are counted from the start of the input.
///
/// The first in file order comes, and [`PoolFault::BadIndex`] only where there is no other.
#[derive(Clone, Copy, PartialEq, Eq)]
pub enum PoolFault {
    /// A field doesn't fit into the input; `at` is where it starts.
    Truncated { at: usize },
    /// A byte stands as a tag and is none, or a Long or Double has no second place; `at` is the tag's place.
    BadTag { at: usize },
    /// A byte that no Utf8 entry may have; `at` is its place.
    BadUtf8 { at: usize },
    /// The entry of this number names an entry that isn't there or has another tag.
    BadIndex { entry: u16 },
    /// Want of memory.
    Memory,
}

impl PoolFault {
    /// The fault's name.
    pub fn name(&self) -> &'static [u8]
        ensures { result.now ≡ fault_name self.now }
    {
        match self {
            PoolFault::Truncated { .. } => b"Truncated",
            PoolFault::BadTag { .. } => b"BadTag",
            PoolFault::BadUtf8 { .. } => b"BadUtf8",
            PoolFault::BadIndex { .. } => b"BadIndex",
            PoolFault::Memory => b"Memory",
        }
    }

    /// The fault's fields, each as ` name=value`.
    ///
    /// # Errors
    ///
    /// Want of memory.
    pub fn fields(&self, alloc: Global) -> Result<Seq<u8>, AllocError>
        ensures { IfOk result (λ text. text ≡ fault_fields self.now) }
    {
        match self {
            PoolFault::Truncated { at } => number_field(alloc, b"at", *at),
            PoolFault::BadTag { at } => number_field(alloc, b"at", *at),
            PoolFault::BadUtf8 { at } => number_field(alloc, b"at", *at),
            PoolFault::BadIndex { entry } => number_field(alloc, b"entry", usize::from(*entry)),
            PoolFault::Memory => Ok(Seq::new(alloc)),
        }
    }

    /// The fault in words: its name and its fields.
    ///
    /// # Errors
    ///
    /// Want of memory.
    pub fn text(&self, alloc: Global) -> Result<Seq<u8>, AllocError>
        ensures { IfOk result (λ text. text ≡ fault_text self.now) }
    {
        let fields = self.fields(alloc)?;
        joined(alloc, &[self.name(), fields.as_slice()])
    }
}

impl From<AllocError> for PoolFault {
    ghost from_gives = { λ _ e. e ≡ Memory };

    fn from(_e: AllocError) -> PoolFault {
        PoolFault::Memory
    }
}

impl<T: Drop> From<AllocFailed<T>> for PoolFault {
    ghost from_gives = { λ _ e. e ≡ Memory };

    fn from(_e: AllocFailed<T>) -> PoolFault {
        PoolFault::Memory
    }
}
