//! Numbers, ids and lists of them.
ghost use Rattle.std.specs.Prelude.{◌≡◌, ◌<◌, ◌≤◌, ◌≤ℤ◌, pos};
ghost use Rattle.json_view.specs.Located.{located};
ghost use Rattle.json_view.specs.Reading.{item_count};
ghost use Rattle.cert_form.specs.Answers.{Says};
ghost use Rattle.cert_form.specs.Fields.{nth, in_order, number_to, a_number, a_place, an_id, an_int, id_within, unless_negative};
ghost use Rattle.cert_form.specs.Fields.{maybe_to, maybe_number, maybe_id, maybe_within, long_to, a_multiple, a_constant};

use crate::fault::CertFault;
use crate::lists::Said;
use crate::values::{out, past, whole};
use json_view::View;
use std::alloc::Global;

/// The number of a node, cut, rule, row, step, method or class.
#[tactic(auto, unfolding(crate::specs::Fields::a_number, crate::specs::Fields::number_to))]
pub(crate) fn number(alloc: Global, view: &View<'_, '_>) -> Result<u32, CertFault>
    ensures { Says result (a_number (located view.now)) }
{
    let number = whole(alloc, view, 0, 4_294_967_295)?;
    Ok(number as u32)
}

/// A number of 16 bits.
#[tactic(auto, unfolding(crate::specs::Fields::number_to))]
fn short(alloc: Global, view: &View<'_, '_>) -> Result<u16, CertFault>
    ensures { Says result (number_to 65535 (located view.now)) }
{
    let number = whole(alloc, view, 0, 65535)?;
    Ok(number as u16)
}

/// A number of 8 bits.
#[tactic(auto, unfolding(crate::specs::Fields::number_to))]
pub(crate) fn byte(alloc: Global, view: &View<'_, '_>) -> Result<u8, CertFault>
    ensures { Says result (number_to 255 (located view.now)) }
{
    let number = whole(alloc, view, 0, 255)?;
    Ok(number as u8)
}

/// The place of an instruction.
#[tactic(auto, unfolding(crate::specs::Fields::a_place))]
fn place(alloc: Global, view: &View<'_, '_>) -> Result<u16, CertFault>
    ensures { Says result (a_place (located view.now)) }
{
    short(alloc, view)
}

/// Tests an id.
fn within(alloc: Global, view: &View<'_, '_>, id: u16) -> Result<u16, CertFault>
    ensures { Says result (id_within (located view.now) id) }
{
    if id < 2048 { Ok(id) } else { past(alloc, view) }
}

/// An id.
#[tactic(auto, unfolding(crate::specs::Fields::an_id))]
pub(crate) fn id(alloc: Global, view: &View<'_, '_>) -> Result<u16, CertFault>
    ensures { Says result (an_id (located view.now)) }
{
    let id = short(alloc, view)?;
    within(alloc, view, id)
}

/// An int.
#[tactic(auto, unfolding(crate::specs::Fields::an_int))]
pub(crate) fn int(alloc: Global, view: &View<'_, '_>) -> Result<i32, CertFault>
    ensures { Says result (an_int (located view.now)) }
{
    let number = whole(alloc, view, -2_147_483_648, 2_147_483_647)?;
    Ok(number as i32)
}

/// The number, or None where it is below 0.
fn unless_negative(number: &i64) -> Option<u32>
    requires { number.now ≤ℤ pos 4294967295 }
    ensures { result ≡ unless_negative number.now }
{
    if *number < 0 {
        None
    } else {
        Some(*number as u32)
    }
}

/// The number of a step, or None for -1.
#[tactic(auto, unfolding(crate::specs::Fields::maybe_number, crate::specs::Fields::maybe_to))]
fn maybe_number(alloc: Global, view: &View<'_, '_>) -> Result<Option<u32>, CertFault>
    ensures { Says result (maybe_number (located view.now)) }
{
    let number = whole(alloc, view, -1, 4_294_967_295)?;
    Ok(unless_negative(&number))
}

/// A number of 16 bits, or None for -1.
#[tactic(auto, unfolding(crate::specs::Fields::maybe_to))]
fn maybe_short(alloc: Global, view: &View<'_, '_>) -> Result<Option<u32>, CertFault>
    ensures { Says result (maybe_to 65535 (located view.now)) }
{
    let number = whole(alloc, view, -1, 65535)?;
    Ok(unless_negative(&number))
}

/// Tests an id that may be none.
fn maybe_within(
    alloc: Global,
    view: &View<'_, '_>,
    number: Option<u32>,
) -> Result<Option<u16>, CertFault>
    ensures { Says result (maybe_within (located view.now) number) }
{
    match number {
        Some(id) if id < 2048 => Ok(Some(id as u16)),
        Some(_) => past(alloc, view),
        None => Ok(None),
    }
}

/// An id, or None for -1.
#[tactic(auto, unfolding(crate::specs::Fields::maybe_id))]
pub(crate) fn maybe_id(alloc: Global, view: &View<'_, '_>) -> Result<Option<u16>, CertFault>
    ensures { Says result (maybe_id (located view.now)) }
{
    let number = maybe_short(alloc, view)?;
    maybe_within(alloc, view, number)
}

/// A number of 64 bits whose size is at most `most`.
#[tactic(auto, unfolding(crate::specs::Fields::long_to))]
fn long_to(alloc: Global, view: &View<'_, '_>, most: u64) -> Result<i64, CertFault>
    ensures { Says result (long_to most (located view.now)) }
{
    let number = whole(alloc, view, i64::MIN, i64::MAX)?;
    if number.unsigned_abs() <= most {
        Ok(number)
    } else {
        past(alloc, view)
    }
}

/// A coefficient or a multiplier.
#[tactic(auto, unfolding(crate::specs::Fields::a_multiple))]
fn multiple(alloc: Global, view: &View<'_, '_>) -> Result<i64, CertFault>
    ensures { Says result (a_multiple (located view.now)) }
{
    long_to(alloc, view, 1 << 31)
}

/// The constant of a form.
#[tactic(auto, unfolding(crate::specs::Fields::a_constant))]
fn constant(alloc: Global, view: &View<'_, '_>) -> Result<i64, CertFault>
    ensures { Says result (a_constant (located view.now)) }
{
    long_to(alloc, view, 1 << 40)
}

/// Tests that an entry stands in the order of its list.
pub(crate) fn ordered(alloc: Global, view: &View<'_, '_>, stands: bool) -> Result<(), CertFault>
    ensures { Says result (in_order stands (located view.now)) }
{
    if stands { Ok(()) } else { out(alloc, view) }
}

// ---- entries of lists

/// Entry `n` of a list as a number.
#[tactic(auto, unfolding(crate::specs::Fields::nth))]
pub(crate) fn nth_number(alloc: Global, view: &View<'_, '_>, n: usize) -> Result<u32, CertFault>
    requires { n < item_count (located view.now).value }
    ensures { Says result (nth n a_number (located view.now)) }
{
    number(alloc, &view.item(n))
}

/// Entry `n` of a list as an int.
#[tactic(auto, unfolding(crate::specs::Fields::nth))]
pub(crate) fn nth_int(alloc: Global, view: &View<'_, '_>, n: usize) -> Result<i32, CertFault>
    requires { n < item_count (located view.now).value }
    ensures { Says result (nth n an_int (located view.now)) }
{
    int(alloc, &view.item(n))
}

/// Entry `n` of a list as the place of an instruction.
#[tactic(auto, unfolding(crate::specs::Fields::nth))]
pub(crate) fn nth_place(alloc: Global, view: &View<'_, '_>, n: usize) -> Result<u16, CertFault>
    requires { n < item_count (located view.now).value }
    ensures { Says result (nth n a_place (located view.now)) }
{
    place(alloc, &view.item(n))
}

/// Entry `n` of a list as an id.
#[tactic(auto, unfolding(crate::specs::Fields::nth))]
pub(crate) fn nth_id(alloc: Global, view: &View<'_, '_>, n: usize) -> Result<u16, CertFault>
    requires { n < item_count (located view.now).value }
    ensures { Says result (nth n an_id (located view.now)) }
{
    id(alloc, &view.item(n))
}

/// Entry `n` of a list as a multiple.
#[tactic(auto, unfolding(crate::specs::Fields::nth))]
pub(crate) fn nth_multiple(alloc: Global, view: &View<'_, '_>, n: usize) -> Result<i64, CertFault>
    requires { n < item_count (located view.now).value }
    ensures { Says result (nth n a_multiple (located view.now)) }
{
    multiple(alloc, &view.item(n))
}

/// Entry `n` of a list as a constant.
#[tactic(auto, unfolding(crate::specs::Fields::nth))]
pub(crate) fn nth_constant(alloc: Global, view: &View<'_, '_>, n: usize) -> Result<i64, CertFault>
    requires { n < item_count (located view.now).value }
    ensures { Says result (nth n a_constant (located view.now)) }
{
    constant(alloc, &view.item(n))
}

impl Said<()> for u32 {
    ghost use Rattle.cert_form.specs.Fields.{a_number};

    ghost reader = { λ _ _. a_number };

    fn read(alloc: Global, _: &(), _: &[u32], view: &View<'_, '_>) -> Result<u32, CertFault> {
        number(alloc, view)
    }
}

impl Said<()> for u16 {
    ghost use Rattle.cert_form.specs.Fields.{an_id};

    ghost reader = { λ _ _. an_id };

    fn read(alloc: Global, _: &(), _: &[u16], view: &View<'_, '_>) -> Result<u16, CertFault> {
        id(alloc, view)
    }
}

impl Said<()> for Option<u16> {
    ghost use Rattle.cert_form.specs.Fields.{maybe_id};

    ghost reader = { λ _ _. maybe_id };

    fn read(
        alloc: Global,
        _: &(),
        _: &[Option<u16>],
        view: &View<'_, '_>,
    ) -> Result<Option<u16>, CertFault> {
        maybe_id(alloc, view)
    }
}

impl Said<()> for Option<u32> {
    ghost use Rattle.cert_form.specs.Fields.{maybe_number};

    ghost reader = { λ _ _. maybe_number };

    fn read(
        alloc: Global,
        _: &(),
        _: &[Option<u32>],
        view: &View<'_, '_>,
    ) -> Result<Option<u32>, CertFault> {
        maybe_number(alloc, view)
    }
}
