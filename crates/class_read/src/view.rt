//! The content of a class file, with names and code as slices of the file.

ghost use Rattle.std.specs.Prelude.{◌≡◌, []};
ghost use Rattle.class_read.specs.View.{class_content};

use class_base::Handler;
use class_base::list_views::Seq;
use class_pool::Pool;
use std::alloc::Global;
use std::marker::Model;

/// A class as its file says it. Its value is the content alone: the bytes of names, descriptors and code, and the pool's
/// entries, wherever they lie in memory.
#[derive(Drop)]
pub struct ClassView<'a> {
    /// The major version of the file.
    pub major: u16,
    /// The access flags.
    pub flags: u16,
    /// The name of the class, as `java/lang/String`.
    pub name: &'a [u8],
    /// The name of the superclass.
    pub super_name: &'a [u8],
    /// The names of the interfaces.
    pub interfaces: Seq<&'a [u8]>,
    /// The fields in file order.
    pub fields: Seq<FieldView<'a>>,
    /// The methods in file order.
    pub methods: Seq<MethodView<'a>>,
    /// The constant pool.
    pub pool: Pool<'a>,
}

/// A field.
#[derive(Drop)]
pub struct FieldView<'a> {
    /// The access flags.
    pub flags: u16,
    /// The name.
    pub name: &'a [u8],
    /// The descriptor, as `[I`.
    pub desc: &'a [u8],
}

/// A method.
#[derive(Drop)]
pub struct MethodView<'a> {
    /// The access flags.
    pub flags: u16,
    /// The name.
    pub name: &'a [u8],
    /// The descriptor, as `(I)V`.
    pub desc: &'a [u8],
    /// The code; none exactly where the method is abstract or native.
    pub code: Option<CodeView<'a>>,
}

/// A method's code.
#[derive(Drop)]
pub struct CodeView<'a> {
    /// The most words that the operand stack has.
    pub max_stack: u16,
    /// The words of the local variables.
    pub max_locals: u16,
    /// The instructions, 1 to 65,535 bytes.
    pub code: &'a [u8],
    /// The exception table. What an entry catches is 0 or the index of a Class entry.
    pub table: Seq<Handler>,
}

/// What a class file says before its lists.
#[derive(Clone, Copy)]
pub(crate) struct Front<'a> {
    /// The major version of the file.
    pub major: u16,
    /// The access flags.
    pub flags: u16,
    /// The name of the class.
    pub name: &'a [u8],
    /// The name of the superclass.
    pub super_name: &'a [u8],
}

/// The lists of a class file as far as they are read.
#[derive(Drop)]
pub(crate) struct Lists<'a> {
    /// The names of the interfaces.
    pub interfaces: Seq<&'a [u8]>,
    /// The fields in file order.
    pub fields: Seq<FieldView<'a>>,
    /// The methods in file order.
    pub methods: Seq<MethodView<'a>>,
}

impl<'a> Lists<'a> {
    /// Lists that are empty.
    pub(crate) fn new(alloc: Global) -> Lists<'a>
        ensures interfaces { result.interfaces ≡ [] }
        ensures fields { result.fields ≡ [] }
        ensures methods { result.methods ≡ [] }
    {
        Lists {
            interfaces: Seq::new(alloc),
            fields: Seq::new(alloc),
            methods: Seq::new(alloc),
        }
    }
}

impl<'a> Model for ClassView<'a> {
    ghost use Rattle.class_read.specs.Content.{ClassContent};

    ghost Value = { ClassContent };

    ghost use Rattle.std.specs.Prelude.{map};
    ghost use Rattle.class_read.specs.View.{field_content, method_content};

    ghost view = { λ c. record {
      major = c.major;
      flags = c.flags;
      name = c.name.now;
      super_name = c.super_name.now;
      interfaces = map (λ i. i.now) c.interfaces;
      fields = map field_content c.fields;
      methods = map method_content c.methods;
      pool = c.pool;
    } };
}

/// The class of what its file says.
pub(crate) fn class_view<'a>(front: Front<'a>, lists: Lists<'a>, pool: Pool<'a>) -> ClassView<'a>
    ensures { result ≡ class_content pool.entry front.entry lists.entry }
{
    ClassView {
        major: front.major,
        flags: front.flags,
        name: front.name,
        super_name: front.super_name,
        interfaces: lists.interfaces,
        fields: lists.fields,
        methods: lists.methods,
        pool,
    }
}
