//! The text of a class file: what its bytes say, with indexes where the file has indexes.

use class_base::Handler;
use class_base::list_views::Seq;
use class_pool::PoolEntry;

/// A class file in all its parts. Names, descriptors, classes and entries are indexes of the pool.
#[derive(Drop)]
pub struct ClassText {
    /// The minor version, which no rule speaks of.
    pub minor: u16,
    /// The major version.
    pub major: u16,
    /// The entries of the constant pool.
    pub pool: Seq<PoolEntry>,
    /// The class's access flags.
    pub flags: u16,
    /// The Class entry of this class.
    pub this_index: u16,
    /// The Class entry of the superclass.
    pub super_index: u16,
    /// The Class entries of the interfaces.
    pub interfaces: Seq<u16>,
    /// The fields.
    pub fields: Seq<MemberText>,
    /// The methods.
    pub methods: Seq<MemberText>,
    /// The attributes of the class itself.
    pub attributes: Seq<AttrText>,
}

/// A field or a method.
#[derive(Drop)]
pub struct MemberText {
    /// The access flags.
    pub flags: u16,
    /// The Utf8 entry of the name.
    pub name: u16,
    /// The Utf8 entry of the descriptor.
    pub desc: u16,
    /// The attributes.
    pub attributes: Seq<AttrText>,
}

/// An attribute.
#[derive(Drop)]
pub enum AttrText {
    /// One that is skipped by its length.
    Skipped {
        name: u16,
        content: Seq<u8>,
    },
    /// A method's code. Its own attributes are a name and a content each.
    Code {
        name: u16,
        max_stack: u16,
        max_locals: u16,
        code: Seq<u8>,
        table: Seq<Handler>,
        attributes: Seq<(u16, Seq<u8>)>,
    },
}
