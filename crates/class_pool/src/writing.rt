//! Pools as bytes.

ghost use Rattle.std.specs.Prelude.{◌≡◌, ◌<◌, ◌^◌, ◌++◌, length, OnOk};
ghost use Rattle.class_pool.specs.Entry.{entry_bytes, HasText};
ghost use Rattle.class_pool.specs.inner.View.{entry_of};
ghost use Rattle.class_pool.specs.Text.{places_of, HasTexts, pool_bytes};

use crate::entry::{EntryView, PoolEntry};
use list_views::Seq;
use std::alloc::AllocError;

fn put_entry(out: &mut Seq<u8>, entry: EntryView<'_>) -> Result<(), AllocError>
    requires { HasText (entry_of entry) }
    ensures { OnOk result (out.new ≡ out.old ++ entry_bytes (entry_of entry.entry)) }
{
    out.push(entry.tag())?;
    match entry {
        EntryView::Utf8(text) => {
            out.extend_from_slice(&(text.len() as u16).to_be_bytes())?;
            out.extend_from_slice(text)
        }
        EntryView::Integer(value) => out.extend_from_slice(&value.to_be_bytes()),
        EntryView::Float(bits) => out.extend_from_slice(&bits.to_be_bytes()),
        EntryView::Long(bits) | EntryView::Double(bits) => {
            out.extend_from_slice(&bits.to_be_bytes())
        }
        EntryView::Class(index) | EntryView::Str(index) => {
            out.extend_from_slice(&index.to_be_bytes())
        }
        EntryView::Member {
            class,
            name_and_type,
            ..
        } => {
            out.extend_from_slice(&class.to_be_bytes())?;
            out.extend_from_slice(&name_and_type.to_be_bytes())
        }
        EntryView::NameAndType(name, descriptor) => {
            out.extend_from_slice(&name.to_be_bytes())?;
            out.extend_from_slice(&descriptor.to_be_bytes())
        }
        EntryView::MethodHandle { kind, entry } => {
            out.push(kind)?;
            out.extend_from_slice(&entry.to_be_bytes())
        }
        EntryView::MethodType(descriptor) => out.extend_from_slice(&descriptor.to_be_bytes()),
        EntryView::InvokeDynamic {
            first,
            name_and_type,
        } => {
            out.extend_from_slice(&first.to_be_bytes())?;
            out.extend_from_slice(&name_and_type.to_be_bytes())
        }
    }
}

/// One more than the number of the last place that these entries take.
pub(crate) fn count_of(entries: &[PoolEntry]) -> usize
    requires { length entries.now < 2 ^ 16 }
    ensures { result ≡ length (places_of entries.now) }
{
    let mut count = 1;
    for entry in entries {
        count += if entry.view().is_wide() { 2 } else { 1 };
    }
    count
}

/// Adds the text of a pool to the end of `out`: the count, and the entries in order.
///
/// # Errors
///
/// Want of memory; then `out` holds a part of the text.
pub fn write_pool(out: &mut Seq<u8>, entries: &[PoolEntry]) -> Result<(), AllocError>
    requires { HasTexts entries.now }
    ensures { OnOk result (out.new ≡ out.old ++ pool_bytes entries.now) }
{
    out.extend_from_slice(&(count_of(entries) as u16).to_be_bytes())?;
    for entry in entries {
        put_entry(out, entry.view())?;
    }
    Ok(())
}
