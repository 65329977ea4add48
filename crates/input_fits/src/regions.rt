//! Whether inputs reach one object only where they are listed as a pair.
ghost use Rattle.std.specs.Prelude.{◌≡◌, ◌<◌, ◌^◌, ◌↔◌, length, All, Contains, IfOk, IsTrue};
ghost use Rattle.std.specs.List.{AllZip};
ghost use Rattle.jvm_values.specs.Heaps.{IsInHeap, IsClosed};
ghost use Rattle.jvm_heaps.specs.Regions.{RiseFrom, IsRegion};
ghost use Rattle.input_desc.specs.Fitting.{IsListed};
ghost use Rattle.input_fits.specs.inner.Words.{HaveCommon, AreListedWith, AreListed};

use crate::listed::is_listed;
use jvm_heaps::region;
use jvm_values::{Heap, Value};
use list_views::Seq;
use std::alloc::{AllocError, Global};

/// The regions of values, one after another.
pub(crate) fn regions(
    alloc: Global,
    heap: &Heap,
    values: &[Value],
) -> Result<Seq<Seq<u32>>, AllocError>
    requires closed { IsClosed heap.now }
    requires in_heap { All (IsInHeap (length heap.now.objects)) values.now }
    requires count { length heap.now.objects < 2 ^ 32 }
    ensures { IfOk result (λ found. AllZip (IsRegion heap.now) values.now found) }
{
    let mut found = Seq::new(alloc);
    for value in values {
        found.push(region(alloc, heap, *value)?)?;
    }
    Ok(found)
}

/// Whether a number stands among numbers that rise.
fn has(numbers: &[u32], number: u32) -> bool
    requires { RiseFrom 0 numbers.now }
    ensures { IsTrue result ↔ Contains numbers.now number }
{
    numbers.binary_search(&number).is_ok()
}

/// Whether a number stands in both of two lists, of which the second rises.
fn have_common(a: &[u32], b: &[u32]) -> bool
    requires { RiseFrom 0 b.now }
    ensures { IsTrue result ↔ HaveCommon a.now b.now }
{
    for number in a {
        if has(b, *number) {
            return true;
        }
    }
    false
}

/// Whether two lists, of which the second rises, have no number in common, or their own numbers are listed as a pair.
fn may_share(a: &[u32], b: &[u32], pairs: &[(u32, u32)], i: usize, j: usize) -> bool
    requires { RiseFrom 0 b.now }
    ensures { IsTrue result ↔ (HaveCommon a.now b.now → IsListed i j pairs.now) }
{
    if have_common(a, b) {
        is_listed(pairs, i, j)
    } else {
        true
    }
}

/// Whether the lists before a place have a number in common with the list there only where they are listed with that place.
fn are_listed_with(lists: &[Seq<u32>], pairs: &[(u32, u32)], i: usize) -> bool
    requires place { i < length lists.now }
    requires rise { All (RiseFrom 0) lists.now }
    ensures { IsTrue result ↔ AreListedWith HaveCommon lists.now pairs.now i i }
{
    for j in 0..i {
        if !may_share(lists[j].as_slice(), lists[i].as_slice(), pairs, j, i) {
            return false;
        }
    }
    true
}

/// Whether two lists have a number in common only where they are listed as a pair.
pub(crate) fn are_shared_listed(lists: &[Seq<u32>], pairs: &[(u32, u32)]) -> bool
    requires { All (RiseFrom 0) lists.now }
    ensures { IsTrue result ↔ AreListed HaveCommon lists.now pairs.now }
{
    for i in 0..lists.len() {
        if !are_listed_with(lists, pairs, i) {
            return false;
        }
    }
    true
}
