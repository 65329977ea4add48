//! The rules on a pool's entries, as tests.

ghost use Rattle.std.specs.Prelude.{◌↔◌, IsTrue, All};
ghost use Rattle.class_pool.specs.Entry.{HasText};
ghost use Rattle.class_pool.specs.inner.View.{entry_of};
ghost use Rattle.class_pool.specs.Text.{HasTexts};

use crate::entry::{EntryView, PoolEntry};
use crate::writing::count_of;

fn has_text(entry: EntryView<'_>) -> bool
    ensures { IsTrue result ↔ HasText (entry_of entry.entry) }
{
    match entry {
        EntryView::Utf8(text) => text.len() <= 0xffff,
        EntryView::Member { tag, .. } => 9 <= tag && tag <= 11,
        _ => true,
    }
}

fn each_has_text(entries: &[PoolEntry]) -> bool
    ensures { IsTrue result ↔ All HasText entries.now }
{
    entries.iter().all(|entry| has_text(entry.view()))
}

/// Whether each entry has a text and their number fits the count: what [`crate::write_pool`] asks.
pub fn has_texts(entries: &[PoolEntry]) -> bool
    ensures { IsTrue result ↔ HasTexts entries.now }
{
    if entries.len() > 0xffff {
        return false;
    }
    if count_of(entries) > 0xffff {
        return false;
    }
    each_has_text(entries)
}
