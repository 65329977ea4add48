//! The way from the root of a JSON value to a value inside it.
ghost use Rattle.std.specs.Prelude.{◌≡◌, ◌++◌, IfOk, OnOk, decimal};
ghost use Rattle.json_view.specs.Place.{escaped, escaped_byte, pointer_of};

use list_views::Seq;
use std::alloc::{AllocError, Global};

/// The way from the root to a value, each step behind the one before it.
///
/// It lends its steps, so that a step costs no memory, and its text is made only for a fault.
#[derive(Clone, Copy)]
pub(crate) enum Place<'a> {
    Root,
    Field(&'a Place<'a>, &'a [u8]),
    Item(&'a Place<'a>, usize),
}

impl Place<'_> {
    /// The place as a JSON pointer (RFC 6901).
    pub(crate) fn pointer(&self, alloc: Global) -> Result<Seq<u8>, AllocError>
        ensures { IfOk result (λ pointer. pointer ≡ pointer_of self.now) }
    {
        let mut pointer = Seq::new(alloc);
        write_pointer(alloc, self, &mut pointer)?;
        Ok(pointer)
    }
}

fn write_pointer(alloc: Global, place: &Place<'_>, pointer: &mut Seq<u8>) -> Result<(), AllocError>
    ensures { OnOk result (pointer.new ≡ pointer.old ++ pointer_of place.now) }
{
    match place {
        Place::Root => Ok(()),
        Place::Field(parent, name) => {
            write_pointer(alloc, parent, pointer)?;
            pointer.push(b'/')?;
            write_escaped(name, pointer)
        }
        Place::Item(parent, index) => {
            write_pointer(alloc, parent, pointer)?;
            pointer.push(b'/')?;
            write_number(alloc, *index, pointer)
        }
    }
}

fn write_number(alloc: Global, number: usize, pointer: &mut Seq<u8>) -> Result<(), AllocError>
    ensures { OnOk result (pointer.new ≡ pointer.old ++ decimal number) }
{
    let text = format!(in alloc; "{number}")?;
    pointer.extend_from_slice(text.as_bytes())
}

fn write_escaped(name: &[u8], pointer: &mut Seq<u8>) -> Result<(), AllocError>
    ensures { OnOk result (pointer.new ≡ pointer.old ++ escaped name.now) }
{
    for byte in name {
        write_escaped_byte(*byte, pointer)?;
    }
    Ok(())
}

fn write_escaped_byte(byte: u8, pointer: &mut Seq<u8>) -> Result<(), AllocError>
    ensures { OnOk result (pointer.new ≡ pointer.old ++ escaped_byte byte) }
{
    match byte {
        b'~' => pointer.extend_from_slice(b"~0"),
        b'/' => pointer.extend_from_slice(b"~1"),
        _ => Ok(pointer.push(byte)?),
    }
}
