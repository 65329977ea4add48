//! Entries of a pool by what they say.

ghost use Rattle.std.specs.Prelude.{◌≡◌, length};
ghost use Rattle.class_asm.specs.asm_pool.Entries.{is_short, has_text, width, seen};

/// An entry, without the numbers of the entries that it names.
#[derive(Clone, Copy, PartialEq, Eq, Hash)]
pub enum Entry<'a> {
    /// A text.
    Utf8(&'a [u8]),
    /// An `int`.
    Integer(i32),
    /// The bits of a `float`.
    Float(u32),
    /// The bits of a `long`.
    Long(u64),
    /// The bits of a `double`.
    Double(u64),
    /// A class, by its name.
    Class(&'a [u8]),
    /// A string, by its text.
    Str(&'a [u8]),
    /// A field (tag 9), a method of a class (10) or of an interface (11): its class, its name and its descriptor.
    Member(u8, &'a [u8], &'a [u8], &'a [u8]),
    /// A name and a descriptor.
    NameAndType(&'a [u8], &'a [u8]),
}

fn is_short(text: &[u8]) -> bool
    ensures { result ≡ is_short text.now }
{
    text.len() < 0x1_0000
}

impl<'a> Entry<'a> {
    /// Whether it has a text in a file: the length of each text in it fits its field, and a member's tag is one.
    pub(crate) fn has_text(self) -> bool
        ensures { result ≡ has_text (seen self.entry) }
    {
        match self {
            Entry::Utf8(text) => is_short(text),
            Entry::Class(name) => is_short(name),
            Entry::Str(text) => is_short(text),
            Entry::Member(tag, class, name, desc) => {
                (9 <= tag && tag <= 11) && (is_short(class) && (is_short(name) && is_short(desc)))
            }
            Entry::NameAndType(name, desc) => is_short(name) && is_short(desc),
            _ => true,
        }
    }

    /// How many numbers it takes.
    pub(crate) fn width(self) -> usize
        ensures { result ≡ width (seen self.entry) }
    {
        match self {
            Entry::Long(_) => 2,
            Entry::Double(_) => 2,
            _ => 1,
        }
    }
}
