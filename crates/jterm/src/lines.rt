//! The lines that say why a call has no output.
ghost use Rattle.std.specs.Prelude.{◌≡◌, IfOk};
ghost use Rattle.jterm.specs.Lines.{memory_line, write_line, file_line, read_line};

use io_ports::FileFault;
use list_views::Seq;
use list_views::fault_words::joined;
use std::alloc::{AllocError, Global};

/// Memory ran out.
pub(crate) fn memory_text() -> &'static [u8]
    ensures { result.now ≡ memory_line }
{
    b"jterm: memory\n"
}

/// The output was not taken.
pub(crate) fn write_text() -> &'static [u8]
    ensures { result.now ≡ write_line }
{
    b"jterm: write: Failed\n"
}

/// This file was not read.
pub(crate) fn read_text(alloc: Global, name: &[u8], fault: FileFault) -> Result<Seq<u8>, AllocError>
    ensures { IfOk result (λ line. line ≡ read_line name.now fault) }
{
    file_line(alloc, name, fault.name())
}

fn file_line(alloc: Global, name: &[u8], cause: &[u8]) -> Result<Seq<u8>, AllocError>
    ensures { IfOk result (λ line. line ≡ file_line name.now cause.now) }
{
    joined(alloc, &[b"jterm: read ", name, b": ", cause, b"\n"])
}
