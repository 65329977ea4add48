//! Names of classes and methods in words.
ghost use Rattle.std.specs.Prelude.{◌<◌};

use class_program::{Method, Program};
use class_world::World;
use jvm_values::{Base, Kind, Ty, Types};
use std::alloc::AllocError;

/// The name of the class of that number, and nothing for a number that no class has.
fn class_name<'w>(world: &'w World<'_>, class: u32) -> &'w [u8] {
    if class < world.classes() {
        world.name_of(class)
    } else {
        &[]
    }
}

/// The name of the class of that number.
pub fn put_class(line: &mut String, world: &World<'_>, class: u32) -> Result<(), AllocError> {
    put_bytes(line, class_name(world, class))
}

/// A method by its class, its name and its descriptor.
pub fn put_method(
    line: &mut String,
    program: &Program<'_>,
    method: &Method<'_>,
) -> Result<(), AllocError> {
    put_class(line, &program.world, method.class)?;
    line.push('.')?;
    put_bytes(line, method.name.as_slice())?;
    put_bytes(line, method.desc.as_slice())
}

/// The descriptor of a type.
pub fn put_descriptor(line: &mut String, world: &World<'_>, t: Ty) -> Result<(), AllocError> {
    for _ in 0..t.dims {
        line.push('[')?;
    }
    match t.base {
        Base::Class(class) => put_named(line, world, class),
        Base::Num(kind) => line.push(kind_letter(kind)),
    }
}

fn put_named(line: &mut String, world: &World<'_>, class: u32) -> Result<(), AllocError> {
    line.push('L')?;
    put_class(line, world, class)?;
    line.push(';')
}

/// The letter of a kind in descriptors.
pub fn kind_letter(kind: Kind) -> char {
    match kind {
        Kind::Boolean => 'Z',
        Kind::Char => 'C',
        Kind::Byte => 'B',
        Kind::Short => 'S',
        Kind::Int => 'I',
    }
}

/// The bytes as text; one outside 0x20 to 0x7e, and a backslash, as `\xNN`.
pub fn put_bytes(line: &mut String, bytes: &[u8]) -> Result<(), AllocError> {
    for b in bytes {
        if 0x20 <= *b && *b <= 0x7e && *b != b'\\' {
            line.push(char::from(*b))?;
        } else {
            line.push_str("\\x")?;
            line.push(digit(*b / 16))?;
            line.push(digit(*b % 16))?;
        }
    }
    Ok(())
}

fn digit(value: u8) -> char {
    match value {
        0 => '0',
        1 => '1',
        2 => '2',
        3 => '3',
        4 => '4',
        5 => '5',
        6 => '6',
        7 => '7',
        8 => '8',
        9 => '9',
        10 => 'a',
        11 => 'b',
        12 => 'c',
        13 => 'd',
        14 => 'e',
        _ => 'f',
    }
}
