//! Entries of a pool.

use list_views::Seq;

/// An entry of a constant pool, as its text says it. Indexes are numbers of other entries.
#[derive(Drop)]
pub enum PoolEntry {
    /// A text: bytes of the class file's own form of UTF-8.
    Utf8(Seq<u8>),
    /// An `int` constant.
    Integer(i32),
    /// The bits of a `float` constant.
    Float(u32),
    /// The bits of a `long` constant. It takes two places.
    Long(u64),
    /// The bits of a `double` constant. It takes two places.
    Double(u64),
    /// A class, by the Utf8 entry that names it.
    Class(u16),
    /// A string constant, by the Utf8 entry of its text.
    Str(u16),
    /// A field (tag 9), a method of a class (10) or of an interface (11): its Class and its NameAndType entry.
    Member {
        tag: u8,
        class: u16,
        name_and_type: u16,
    },
    /// A name and a descriptor, by their Utf8 entries.
    NameAndType(u16, u16),
    /// A method handle: what it does, which isn't compared, and the Fieldref, Methodref or InterfaceMethodref entry.
    MethodHandle {
        kind: u8,
        entry: u16,
    },
    /// A method's type, by the Utf8 entry of its descriptor.
    MethodType(u16),
    /// A call site: a number that isn't compared, and its NameAndType entry.
    InvokeDynamic {
        first: u16,
        name_and_type: u16,
    },
}

/// An entry that stands in the input.
#[derive(Clone, Copy)]
pub(crate) enum EntryView<'a> {
    Utf8(&'a [u8]),
    Integer(i32),
    Float(u32),
    Long(u64),
    Double(u64),
    Class(u16),
    Str(u16),
    Member {
        tag: u8,
        class: u16,
        name_and_type: u16,
    },
    NameAndType(u16, u16),
    MethodHandle {
        kind: u8,
        entry: u16,
    },
    MethodType(u16),
    InvokeDynamic {
        first: u16,
        name_and_type: u16,
    },
}

impl EntryView<'_> {
    ghost use Rattle.std.specs.Prelude.{◌≡◌};
    ghost use Rattle.class_pool.specs.Entry.{tag_of, is_wide};
    ghost use Rattle.class_pool.specs.inner.View.{entry_of};

    pub(crate) fn tag(self) -> u8
        ensures { result ≡ tag_of (entry_of self.entry) }
    {
        match self {
            EntryView::Utf8(_) => 1,
            EntryView::Integer(_) => 3,
            EntryView::Float(_) => 4,
            EntryView::Long(_) => 5,
            EntryView::Double(_) => 6,
            EntryView::Class(_) => 7,
            EntryView::Str(_) => 8,
            EntryView::Member { tag, .. } => tag,
            EntryView::NameAndType(_, _) => 12,
            EntryView::MethodHandle { .. } => 15,
            EntryView::MethodType(_) => 16,
            EntryView::InvokeDynamic { .. } => 18,
        }
    }

    pub(crate) fn is_wide(self) -> bool
        ensures { result ≡ is_wide (entry_of self.entry) }
    {
        matches!(self, EntryView::Long(_) | EntryView::Double(_))
    }
}

impl PoolEntry {
    ghost use Rattle.std.specs.Prelude.{◌≡◌};
    ghost use Rattle.class_pool.specs.inner.View.{entry_of};

    /// The same entry, borrowed.
    pub(crate) fn view(&self) -> EntryView<'_>
        ensures { entry_of result ≡ self.now }
    {
        match self {
            PoolEntry::Utf8(text) => EntryView::Utf8(text.as_slice()),
            PoolEntry::Integer(value) => EntryView::Integer(*value),
            PoolEntry::Float(bits) => EntryView::Float(*bits),
            PoolEntry::Long(bits) => EntryView::Long(*bits),
            PoolEntry::Double(bits) => EntryView::Double(*bits),
            PoolEntry::Class(name) => EntryView::Class(*name),
            PoolEntry::Str(text) => EntryView::Str(*text),
            PoolEntry::Member {
                tag,
                class,
                name_and_type,
            } => EntryView::Member {
                tag: *tag,
                class: *class,
                name_and_type: *name_and_type,
            },
            PoolEntry::NameAndType(name, descriptor) => {
                EntryView::NameAndType(*name, *descriptor)
            }
            PoolEntry::MethodHandle { kind, entry } => EntryView::MethodHandle {
                kind: *kind,
                entry: *entry,
            },
            PoolEntry::MethodType(descriptor) => EntryView::MethodType(*descriptor),
            PoolEntry::InvokeDynamic {
                first,
                name_and_type,
            } => EntryView::InvokeDynamic {
                first: *first,
                name_and_type: *name_and_type,
            },
        }
    }
}
