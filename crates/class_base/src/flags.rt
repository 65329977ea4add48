//! Access flags (JVM specification, SE 8, tables 4.1-A, 4.5-A and 4.6-A).
ghost use Rattle.std.specs.Prelude.{◌≡◌};
ghost use Rattle.class_base.specs.Flags.{has_flag};

/// May be named from everywhere.
pub const PUBLIC: u16 = 0x0001;

/// May be named in its own class alone.
pub const PRIVATE: u16 = 0x0002;

/// Belongs to the class and not to its objects.
pub const STATIC: u16 = 0x0008;

/// Has no class below it, is not overridden, or is not written after its class's start.
pub const FINAL: u16 = 0x0010;

/// Of a class: calls of a superclass's method are looked up anew. The same bit as [`SYNCHRONIZED`].
pub const SUPER: u16 = 0x0020;

/// Of a method: it runs under its object's lock. The same bit as [`SUPER`].
pub const SYNCHRONIZED: u16 = 0x0020;

/// Has its body outside of class files.
pub const NATIVE: u16 = 0x0100;

/// Is an interface and no class.
pub const INTERFACE: u16 = 0x0200;

/// Has no body, or no objects of its own.
pub const ABSTRACT: u16 = 0x0400;

/// Whether one of the flag's bits is set.
pub fn has_flag(flags: u16, flag: u16) -> bool
    ensures { result ≡ has_flag flags flag }
{
    flags & flag != 0
}
