//! Why bytes spell no class.

ghost use Rattle.std.specs.Prelude.{◌≡◌, IfOk};
ghost use Rattle.class_read.specs.declared.fault.ClassFault.TheVariants.{Memory};
ghost use Rattle.class_read.specs.Faults.{fault_name, fault_fields, fault_text};

use class_base::list_views::Seq;
use class_base::list_views::fault_words::{joined, number_field};
use class_pool::PoolFault;
use std::alloc::{AllocError, AllocFailed, Global};

/// The first rule that a class file breaks.
///
/// The first in file order comes, the pool before all that follows it. `at` is the place of the field that breaks the
/// rule, counted from the start of the file. An attribute length that isn't its content's counts at the content's end. Of two
/// faults at one place the one on what ends there comes first, else the one that stands first here.
#[derive(Clone, Copy, PartialEq, Eq)]
pub enum ClassFault {
    /// The file doesn't begin with 0xcafebabe.
    BadMagic,
    /// The major version is one that isn't read.
    Version { major: u16 },
    /// The constant pool has a fault.
    Pool(PoolFault),
    /// A field doesn't fit into the file.
    Truncated { at: usize },
    /// A descriptor or a class name is a bad one, or an index outside the pool names no entry or one of the wrong kind.
    BadDescriptor { at: usize },
    /// An earlier field, or an earlier method, has the same name and descriptor. `at` is the later one's descriptor index.
    DuplicateMember { at: usize },
    /// The length of code is 0 or above 65,535, or the length of a `Code` attribute isn't that of its content.
    CodeLength { at: usize },
    /// A method that is neither abstract nor native has no `Code`. `at` is the place after its attributes.
    MissingCode { at: usize },
    /// A second `Code`, or one of an abstract or native method. `at` is the index of the attribute's name.
    ExtraCode { at: usize },
    /// A byte stands after the class.
    TrailingBytes { at: usize },
    /// Want of memory.
    Memory,
}

impl ClassFault {
    /// The fault's name; a pool's fault stands for it.
    pub fn name(&self) -> &'static [u8]
        ensures { result.now ≡ fault_name self.now }
    {
        match self {
            ClassFault::BadMagic => b"BadMagic",
            ClassFault::Version { .. } => b"Version",
            ClassFault::Pool(fault) => fault.name(),
            ClassFault::Truncated { .. } => b"Truncated",
            ClassFault::BadDescriptor { .. } => b"BadDescriptor",
            ClassFault::DuplicateMember { .. } => b"DuplicateMember",
            ClassFault::CodeLength { .. } => b"CodeLength",
            ClassFault::MissingCode { .. } => b"MissingCode",
            ClassFault::ExtraCode { .. } => b"ExtraCode",
            ClassFault::TrailingBytes { .. } => b"TrailingBytes",
            ClassFault::Memory => b"Memory",
        }
    }

    /// The fault's fields, each as ` name=value`.
    ///
    /// # Errors
    ///
    /// Want of memory.
    pub fn fields(&self, alloc: Global) -> Result<Seq<u8>, AllocError>
        ensures { IfOk result (λ text. text ≡ fault_fields self.now) }
    {
        match self {
            ClassFault::BadMagic => Ok(Seq::new(alloc)),
            ClassFault::Version { major } => { number_field(alloc, b"major", usize::from(*major)) }
            ClassFault::Pool(fault) => fault.fields(alloc),
            ClassFault::Truncated { at } => number_field(alloc, b"at", *at),
            ClassFault::BadDescriptor { at } => number_field(alloc, b"at", *at),
            ClassFault::DuplicateMember { at } => number_field(alloc, b"at", *at),
            ClassFault::CodeLength { at } => number_field(alloc, b"at", *at),
            ClassFault::MissingCode { at } => number_field(alloc, b"at", *at),
            ClassFault::ExtraCode { at } => number_field(alloc, b"at", *at),
            ClassFault::TrailingBytes { at } => number_field(alloc, b"at", *at),
            ClassFault::Memory => Ok(Seq::new(alloc)),
        }
    }

    /// The fault in words: its name and its fields.
    ///
    /// # Errors
    ///
    /// Want of memory.
    pub fn text(&self, alloc: Global) -> Result<Seq<u8>, AllocError>
        ensures { IfOk result (λ text. text ≡ fault_text self.now) }
    {
        let fields = self.fields(alloc)?;
        joined(alloc, &[self.name(), fields.as_slice()])
    }
}

impl From<AllocError> for ClassFault {
    ghost from_gives = { λ _ e. e ≡ Memory };

    fn from(_e: AllocError) -> ClassFault {
        ClassFault::Memory
    }
}

impl<T: Drop> From<AllocFailed<T>> for ClassFault {
    ghost from_gives = { λ _ e. e ≡ Memory };

    fn from(_e: AllocFailed<T>) -> ClassFault {
        ClassFault::Memory
    }
}
