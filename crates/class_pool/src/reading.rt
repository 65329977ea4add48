//! Entries of the input, one after the other.

ghost use Rattle.std.specs.Prelude.{◌≡◌, ◌<◌, ◌+◌, ◌-◌, [], ◌∷◌, ◌++◌, if◌then◌else◌, drop, length, position, IfSome, IfOk, OnOk};
ghost use Rattle.class_pool.specs.Entry.{is_barred};
ghost use Rattle.class_pool.specs.inner.View.{entry_of};
ghost use Rattle.class_pool.specs.Reading.{Answers, Gives, unread, entries_at, content_at, entry_text_at, text_rule, is_wide_tag};
ghost use Rattle.class_pool.specs.Reading.{starts_wide, entry_at_place};
ghost use Rattle.class_pool.specs.inner.Places.{entries_in, Agrees};

use crate::entry::EntryView;
use crate::fault::PoolFault;
use crate::field::{counted_at, handle_at, i32_at, indexes_at, u8_at, u16_at, u32_at, u64_at};
use std::alloc::{AllocError, Global};

/// The content at `next` of an entry whose tag stands at `at`.
#[tactic(auto, unfolding(crate::specs::Reading::content_at))]
fn content(
    bytes: &[u8],
    at: usize,
    tag: u8,
    next: usize,
) -> Result<(EntryView<'_>, usize), PoolFault>
    ensures { Answers (λ x. (entry_of x.0, unread bytes.now x.1)) result (content_at at tag (unread bytes.now next)) }
{
    match tag {
        1 => {
            let (text, next) = counted_at(bytes, next)?;
            Ok((EntryView::Utf8(text), next))
        }
        3 => {
            let (value, next) = i32_at(bytes, next)?;
            Ok((EntryView::Integer(value), next))
        }
        4 => {
            let (bits, next) = u32_at(bytes, next)?;
            Ok((EntryView::Float(bits), next))
        }
        5 => {
            let (bits, next) = u64_at(bytes, next)?;
            Ok((EntryView::Long(bits), next))
        }
        6 => {
            let (bits, next) = u64_at(bytes, next)?;
            Ok((EntryView::Double(bits), next))
        }
        7 => {
            let (name, next) = u16_at(bytes, next)?;
            Ok((EntryView::Class(name), next))
        }
        8 => {
            let (text, next) = u16_at(bytes, next)?;
            Ok((EntryView::Str(text), next))
        }
        9..=11 => {
            let ((class, name_and_type), next) = indexes_at(bytes, next)?;
            let member = EntryView::Member {
                tag,
                class,
                name_and_type,
            };
            Ok((member, next))
        }
        12 => {
            let ((name, descriptor), next) = indexes_at(bytes, next)?;
            Ok((EntryView::NameAndType(name, descriptor), next))
        }
        15 => {
            let ((kind, entry), next) = handle_at(bytes, next)?;
            Ok((EntryView::MethodHandle { kind, entry }, next))
        }
        16 => {
            let (descriptor, next) = u16_at(bytes, next)?;
            Ok((EntryView::MethodType(descriptor), next))
        }
        18 => {
            let ((first, name_and_type), next) = indexes_at(bytes, next)?;
            let site = EntryView::InvokeDynamic {
                first,
                name_and_type,
            };
            Ok((site, next))
        }
        _ => Err(PoolFault::BadTag { at }),
    }
}

/// The entry at `at`, and the place after it.
#[tactic(auto, unfolding(crate::specs::Reading::entry_text_at))]
pub(crate) fn entry_at(bytes: &[u8], at: usize) -> Result<(EntryView<'_>, usize), PoolFault>
    ensures { Answers (λ x. (entry_of x.0, unread bytes.now x.1)) result (entry_text_at (unread bytes.now at)) }
{
    let (tag, next) = u8_at(bytes, at)?;
    content(bytes, at, tag, next)
}

fn is_barred(b: u8) -> bool
    ensures { result ≡ is_barred b }
{
    b == 0 || b >= 0xf0
}

fn first_barred(text: &[u8]) -> Option<usize>
    ensures place { result ≡ position is_barred text.now }
    ensures within { IfSome result (λ k. k < length text.now) }
{
    text.iter().position(|b| is_barred(*b))
}

/// The rule on the bytes of a Utf8 entry, for an entry that ends at `next`.
fn check_text(entry: EntryView<'_>, next: usize) -> Result<(), PoolFault>
    ensures { Answers (λ _. tt) result (text_rule (entry_of entry.entry) next) }
{
    match entry {
        EntryView::Utf8(text) => match first_barred(text) {
            Some(k) => Err(PoolFault::BadUtf8 {
                at: next.saturating_sub(text.len()) + k,
            }),
            None => Ok(()),
        },
        _ => Ok(()),
    }
}

fn is_wide_tag(tag: u8) -> bool
    ensures { result ≡ is_wide_tag tag }
{
    tag == 5 || tag == 6
}

fn starts_wide(bytes: &[u8], at: usize) -> bool
    ensures { result ≡ starts_wide (drop at bytes.now) }
{
    match bytes.get(at) {
        Some(tag) => is_wide_tag(*tag),
        None => false,
    }
}

/// The entry at `at` under the rules on entries, and the place after it. At the last place no wide entry stands.
#[tactic(auto, unfolding(crate::specs::Reading::entry_at_place))]
pub(crate) fn checked_entry_at(
    bytes: &[u8],
    at: usize,
    last: bool,
) -> Result<(EntryView<'_>, usize), PoolFault>
    ensures { Answers (λ x. (entry_of x.0, unread bytes.now x.1)) result (entry_at_place last (unread bytes.now at)) }
{
    if last && starts_wide(bytes, at) {
        return Err(PoolFault::BadTag { at });
    }
    let (entry, next) = entry_at(bytes, at)?;
    check_text(entry, next)?;
    Ok((entry, next))
}

fn push_places(
    places: &mut Vec<usize>,
    place: usize,
    end: usize,
    wide: bool,
) -> Result<(), AllocError>
    ensures { OnOk result (places.new.items ≡ places.old.items ++ (if wide then place ∷ end ∷ [] else place ∷ [])) }
{
    places.push(place)?;
    if wide {
        places.push(end)?;
    }
    Ok(())
}

/// The places of the entries from `at` on, by number, and the place after them. Where no entry begins, as under
/// number 0, the input's length stands.
pub(crate) fn places_at(
    alloc: Global,
    bytes: &[u8],
    at: usize,
    count: u16,
) -> Result<(Vec<usize>, usize), PoolFault>
    ensures read { Gives (λ x. (entries_in bytes.now x.0.items, unread bytes.now x.1)) result
        (entries_at (count - 1) (unread bytes.now at)) }
    ensures agree { IfOk result (λ x. Agrees bytes.now x.0.items) }
    ensures len { IfOk result (λ x. length x.0.items ≡ count - 1 + 1) }
{
    let count = count as usize;
    let mut places = Vec::new(alloc);
    places.push(bytes.len())?;
    let mut next = at;
    while places.len() < count {
        let last = places.len() + 1 == count;
        let (entry, after) = checked_entry_at(bytes, next, last)?;
        push_places(&mut places, next, bytes.len(), entry.is_wide())?;
        next = after;
    }
    Ok((places, next))
}
