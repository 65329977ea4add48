//! Words of types: the name of a class, or the descriptor of an array type.
use anyhow::{Context, Result};
use class_world::World;
use jvm_values::{Base, Kind, Ty};

/// The type that a word says.
pub fn ty(world: &World<'_>, word: &str) -> Result<Ty> {
    let mut rest = word;
    let mut dims = 0u8;
    for n in 0..255u8 {
        match rest.strip_prefix('[') {
            Some(inner) => {
                rest = inner;
                dims = n + 1;
            }
            None => break,
        }
    }
    let base = if dims == 0 {
        class(world, rest)?
    } else {
        item(world, rest)?
    };
    Ok(Ty { dims, base })
}

/// The innermost items of an array type.
fn item(world: &World<'_>, word: &str) -> Result<Base> {
    match word {
        "Z" => Ok(Base::Num(Kind::Boolean)),
        "C" => Ok(Base::Num(Kind::Char)),
        "B" => Ok(Base::Num(Kind::Byte)),
        "S" => Ok(Base::Num(Kind::Short)),
        "I" => Ok(Base::Num(Kind::Int)),
        _ => {
            let name = word
                .strip_prefix('L')
                .and_then(|inner| inner.strip_suffix(';'))
                .context("a descriptor is wanted")?;
            class(world, name)
        }
    }
}

fn class(world: &World<'_>, name: &str) -> Result<Base> {
    let number = world
        .class_of(name.as_bytes())
        .context("the class is not known")?;
    Ok(Base::Class(number))
}
