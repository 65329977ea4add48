//! The types of fields, array items and references (JVM specification, sections 2.2 to 2.4).
ghost use Rattle.std.specs.Prelude.{◌≡◌, ◌<◌};
ghost use Rattle.std.specs.Int.{w8, w16, int_wrap};
ghost use Rattle.jvm_values.specs.Kinds.{kind_code, kind_of_code, kind_of_letter, least_of, greatest_of, narrowed, IsOfKind};
ghost use Rattle.jvm_values.specs.Slots.{is_reference_slot};
ghost use Rattle.jvm_values.specs.Subtyping.{class_type, array_of, array_of_numbers};

/// The kinds of whole numbers that fields and arrays hold (JVM specification, section 2.3).
///
/// A value on a stack or in a local is always an int.
#[derive(Clone, Copy, PartialEq, Eq)]
pub enum Kind {
    /// 0 or 1.
    Boolean,
    /// 16 bits without a sign.
    Char,
    /// 8 bits with a sign.
    Byte,
    /// 16 bits with a sign.
    Short,
    /// 32 bits with a sign.
    Int,
}

impl Kind {
    /// The number that stands for the kind in `newarray` (JVM specification, section 6.5, `newarray`).
    pub fn code(self) -> u8
        ensures { result ≡ kind_code self }
    {
        match self {
            Kind::Boolean => 4,
            Kind::Char => 5,
            Kind::Byte => 8,
            Kind::Short => 9,
            Kind::Int => 10,
        }
    }

    /// The kind that a number stands for in `newarray`, or None exactly where it stands for none of these.
    pub fn of_code(code: u8) -> Option<Kind>
        ensures { result ≡ kind_of_code code }
    {
        match code {
            4 => Some(Kind::Boolean),
            5 => Some(Kind::Char),
            8 => Some(Kind::Byte),
            9 => Some(Kind::Short),
            10 => Some(Kind::Int),
            _ => None,
        }
    }

    /// The kind of a primitive type's letter in a descriptor (JVM specification, section 4.3.2), or None exactly where it is the letter of none of these.
    pub fn of_letter(letter: u8) -> Option<Kind>
        ensures { result ≡ kind_of_letter letter }
    {
        match letter {
            b'Z' => Some(Kind::Boolean),
            b'C' => Some(Kind::Char),
            b'B' => Some(Kind::Byte),
            b'S' => Some(Kind::Short),
            b'I' => Some(Kind::Int),
            _ => None,
        }
    }

    /// The least number of the kind.
    pub fn least(self) -> i32
        ensures { result ≡ least_of self }
    {
        match self {
            Kind::Boolean => 0,
            Kind::Char => 0,
            Kind::Byte => -128,
            Kind::Short => -32_768,
            Kind::Int => i32::MIN,
        }
    }

    /// The greatest number of the kind.
    pub fn greatest(self) -> i32
        ensures { result ≡ greatest_of self }
    {
        match self {
            Kind::Boolean => 1,
            Kind::Char => 65_535,
            Kind::Byte => 127,
            Kind::Short => 32_767,
            Kind::Int => i32::MAX,
        }
    }

    /// What a field or an array item of the kind keeps of an int (JVM specification, section 6.5, `bastore`,
    /// `castore`, `sastore`, `i2b`, `i2c`, `i2s`): the lowest bit of a boolean, the low bits of the others.
    pub fn narrow(self, value: i32) -> i32
        ensures value { result ≡ narrowed self value }
        ensures in_range { IsOfKind self result }
        ensures kept { IsOfKind self value → result ≡ value }
    {
        match self {
            Kind::Boolean => value.rem_euclid(2),
            Kind::Char => value.rem_euclid(1 << 16),
            Kind::Byte => low_byte(value),
            Kind::Short => low_short(value),
            Kind::Int => value,
        }
    }
}

/// The low eight bits of an int, as a number with a sign.
fn low_byte(value: i32) -> i32
    ensures { result ≡ int_wrap w8 value }
{
    let low = value.rem_euclid(1 << 8);
    i32::from((low as u8).cast_signed())
}

/// The low sixteen bits of an int, as a number with a sign.
fn low_short(value: i32) -> i32
    ensures { result ≡ int_wrap w16 value }
{
    let low = value.rem_euclid(1 << 16);
    i32::from((low as u16).cast_signed())
}

/// What stands under the dimensions of a type.
#[derive(Clone, Copy, PartialEq, Eq)]
pub enum Base {
    /// The class or interface of this number.
    Class(u32),
    /// Numbers of one kind.
    Num(Kind),
}

/// A type: its base under so many array dimensions.
///
/// It is a reference type where `dims` is above 0 or the base is a class.
#[derive(Clone, Copy, PartialEq, Eq)]
pub struct Ty {
    /// The number of array dimensions, 0 where it is no array.
    pub dims: u8,
    /// What the array's innermost items are, or the type itself where there is no dimension.
    pub base: Base,
}

/// A class as a type.
pub fn class_type(class: u32) -> Ty
    ensures { result ≡ class_type class }
{
    Ty {
        dims: 0,
        base: Base::Class(class),
    }
}

/// An array of numbers of a kind, as a type.
pub fn array_of_numbers(kind: Kind) -> Ty
    ensures { result ≡ array_of_numbers kind }
{
    Ty {
        dims: 1,
        base: Base::Num(kind),
    }
}

/// An array whose items are of a type with fewer than 255 dimensions, as a type.
pub fn array_of(t: Ty) -> Ty
    requires { t.dims < 255 }
    ensures { result ≡ array_of t }
{
    Ty {
        dims: t.dims + 1,
        base: t.base,
    }
}

/// What a field, a parameter or an array item holds.
#[derive(Clone, Copy, PartialEq, Eq)]
pub enum Slot {
    /// A number of this kind.
    Num(Kind),
    /// A reference of this type, or null.
    Ref(Ty),
}

impl Slot {
    /// Whether the slot holds references.
    pub fn is_reference(self) -> bool
        ensures { result ≡ is_reference_slot self }
    {
        match self {
            Slot::Num(_) => false,
            Slot::Ref(_) => true,
        }
    }
}
