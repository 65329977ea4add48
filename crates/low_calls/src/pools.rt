//! `class_pool`: what its tables don't show.
use class_pool::{PoolEntry, has_texts, write_pool};
use list_views::Seq;
use std::alloc::{AllocError, Global};
use std::test::Fail;

/// Tags, numbers and places after the table of JVM specification, SE 8, section 4.4.
const POOL: &[u8] =
    b"\x00\x0b\x01\x00\x01\x41\x07\x00\x01\x05\x01\x02\x03\x04\x05\x06\x07\x08\x03\xff\xff\xff\xfe\x01\x00\x01\x66\x01\x00\x03\x28\x29\x49\x0c\x00\x06\x00\x07\x0a\x00\x02\x00\x08\x08\x00\x06";

/// Adds an entry behind the others.
fn put(entries: &mut Seq<PoolEntry>, entry: PoolEntry) -> Result<(), AllocError> {
    entries.push(entry).map_err(|_| AllocError)
}

/// Adds a text behind the others.
fn put_text(alloc: Global, entries: &mut Seq<PoolEntry>, text: &[u8]) -> Result<(), AllocError> {
    put(entries, PoolEntry::Utf8(Seq::from_slice(alloc, text)?))
}

/// Adds the first four entries.
fn put_first(alloc: Global, entries: &mut Seq<PoolEntry>) -> Result<(), AllocError> {
    put_text(alloc, entries, b"A")?;
    put(entries, PoolEntry::Class(1))?;
    put(entries, PoolEntry::Long(0x0102_0304_0506_0708))?;
    put(entries, PoolEntry::Integer(-2))
}

/// Adds the last five entries: a method and what it is made of, and a constant of text.
fn put_last(alloc: Global, entries: &mut Seq<PoolEntry>) -> Result<(), AllocError> {
    put_text(alloc, entries, b"f")?;
    put_text(alloc, entries, b"()I")?;
    put(entries, PoolEntry::NameAndType(6, 7))?;
    let member = PoolEntry::Member {
        tag: 10,
        class: 2,
        name_and_type: 8,
    };
    put(entries, member)?;
    put(entries, PoolEntry::Str(6))
}

fn entries(alloc: Global) -> Result<Seq<PoolEntry>, AllocError> {
    let mut entries = Seq::new(alloc);
    put_first(alloc, &mut entries)?;
    put_last(alloc, &mut entries)?;
    Ok(entries)
}

#[test]
fn a_pool_is_written_as_it_is_read(rt: HostRuntime) -> Result<(), Fail> {
    let entries = entries(rt.alloc())?;
    assert!(rt; has_texts(entries.as_slice()));
    let mut out = Seq::new(rt.alloc());
    write_pool(&mut out, entries.as_slice())?;
    assert!(rt; out.as_slice() == POOL);
    Ok(())
}
