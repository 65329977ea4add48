//! JSON values, with the faults of certificates.
ghost use Rattle.std.specs.Prelude.{◌≡◌, IfOk};
ghost use Rattle.json_view.specs.Answers.{same, nothing, now_of};
ghost use Rattle.json_view.specs.Located.{located};
ghost use Rattle.json_view.specs.Reading.{only_of, field_of, items_of, int_of, text_of, flag_of, item_count};
ghost use Rattle.cert_form.specs.Answers.{Tells, Says, json, wrong_kind, out_of_range, past_limit};

use crate::fault::CertFault;
use json_view::{JsonFault, View};
use std::alloc::Global;

/// Tests that a value is an object with exactly these fields.
pub(crate) fn only(alloc: Global, view: &View<'_, '_>, names: &str) -> Result<(), CertFault>
    ensures { Tells nothing result (json (only_of names.now (located view.now))) }
{
    match view.only(alloc, names) {
        Ok(()) => Ok(()),
        Err(fault) => Err(CertFault::from(fault)),
    }
}

/// The value of a field.
pub(crate) fn field<'v, 'q>(
    alloc: Global,
    view: &'q View<'v, '_>,
    name: &'q str,
) -> Result<View<'v, 'q>, CertFault>
    ensures { Tells located result (json (field_of name.now (located view.now))) }
{
    match view.field(alloc, name) {
        Ok(field) => Ok(field),
        Err(fault) => Err(CertFault::from(fault)),
    }
}

/// The number of a list's entries.
pub(crate) fn items(alloc: Global, view: &View<'_, '_>) -> Result<usize, CertFault>
    ensures answer { Tells same result (json (items_of (located view.now))) }
    ensures count { IfOk result (λ n. n ≡ item_count (located view.now).value) }
{
    match view.items(alloc) {
        Ok(count) => Ok(count),
        Err(fault) => Err(CertFault::from(fault)),
    }
}

/// A whole number from `low` to `high`.
pub(crate) fn whole(
    alloc: Global,
    view: &View<'_, '_>,
    low: i64,
    high: i64,
) -> Result<i64, CertFault>
    ensures { Says result (json (int_of low high (located view.now))) }
{
    match view.int(alloc, low, high) {
        Ok(number) => Ok(number),
        Err(fault) => Err(CertFault::from(fault)),
    }
}

/// A text.
pub(crate) fn text<'v>(alloc: Global, view: &View<'v, '_>) -> Result<&'v str, CertFault>
    ensures { Tells now_of result (json (text_of (located view.now))) }
{
    match view.text(alloc) {
        Ok(text) => Ok(text),
        Err(fault) => Err(CertFault::from(fault)),
    }
}

/// A truth value.
pub(crate) fn flag(alloc: Global, view: &View<'_, '_>) -> Result<bool, CertFault>
    ensures { Says result (json (flag_of (located view.now))) }
{
    match view.flag(alloc) {
        Ok(flag) => Ok(flag),
        Err(fault) => Err(CertFault::from(fault)),
    }
}

/// The value is of the wrong kind.
pub(crate) fn wrong<T: Drop>(alloc: Global, view: &View<'_, '_>) -> Result<T, CertFault>
    ensures { Says result (wrong_kind (located view.now)) }
{
    match view.wrong_kind(alloc) {
        JsonFault::Memory => Err(CertFault::Memory),
        fault => Err(CertFault::Json(fault)),
    }
}

/// The value is out of range, or out of order.
pub(crate) fn out<T: Drop>(alloc: Global, view: &View<'_, '_>) -> Result<T, CertFault>
    ensures { Says result (out_of_range (located view.now)) }
{
    match view.out_of_range(alloc) {
        JsonFault::Memory => Err(CertFault::Memory),
        fault => Err(CertFault::Json(fault)),
    }
}

/// The value passes a limit.
pub(crate) fn past<T: Drop>(alloc: Global, view: &View<'_, '_>) -> Result<T, CertFault>
    ensures { Says result (past_limit (located view.now)) }
{
    match view.place(alloc) {
        Ok(place) => Err(CertFault::Limit { place }),
        Err(_) => Err(CertFault::Memory),
    }
}
