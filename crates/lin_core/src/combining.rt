//! The sum of rows by multipliers.
ghost use Rattle.std.specs.Prelude.{◌≡◌, ◌≤◌, ◌^◌, ◌<◌, ◌≤ℤ◌, ℕ, ℤ, pos, length, OnOk, OnErr, unsigned_abs, unsigned_abs};
ghost use Rattle.std.specs.Result.{result_err};
ghost use Rattle.lin_core.specs.Combination.{IsSumOf, fault_of_entry, first_fault};
ghost use Rattle.lin_core.specs.Rows.{AllHold};
ghost use Rattle.lin_core.specs.Sums.{variables, zero_sum, value_of_sum, IsWithin};
ghost use Rattle.lin_core.specs.Weights.{total_size, AreRows, AreWeights, weight_in, unweighed, row_under, rows_under};

use crate::faults::LinFault;
use crate::rows::{RowKind, WRow};
use crate::sums::Scratch;
use crate::weighing::weighed;

/// The fault of entry `n`, if it breaks a rule.
fn fault_of_entry(rows: &[WRow], n: u32, index: u32, by: &i64) -> Option<LinFault>
    ensures { result ≡ fault_of_entry (rows_under unweighed rows.now) n (index, by.now) }
{
    if index as usize >= rows.len() {
        return Some(LinFault::BadIndex { n });
    }
    let row = &rows[index as usize];
    if by.unsigned_abs() > 1 << 31 {
        return Some(LinFault::Limit { n });
    }
    match row.kind {
        RowKind::AtLeastZero if *by < 0 => Some(LinFault::NegativeMultiplier { n }),
        _ => None,
    }
}

/// The fault of the first entry that breaks a rule.
fn first_fault(rows: &[WRow], multipliers: &[(u32, i64)]) -> Option<LinFault>
    requires { length multipliers.now ≤ 65536 }
    ensures { result ≡ first_fault (rows_under unweighed rows.now) multipliers.now }
{
    for (n, (index, by)) in multipliers.iter().enumerate() {
        let fault = fault_of_entry(rows, n as u32, *index, by);
        if fault.is_some() {
            return fault;
        }
    }
    None
}

/// The constant of a row, where these weights are listed.
fn constant_of(row: &WRow, weights: &[(u32, i64)]) -> i64
    requires number { unsigned_abs row.now.constant ≤ 2 ^ 40 }
    requires multiples { total_size row.now.weights ≤ 2 ^ 40 }
    requires weights { AreWeights weights.now }
    ensures { result ≡ (row_under (weight_in weights.now) row.now).constant }
{
    row.constant + weighed(row.weights.as_slice(), weights)
}

/// The sum of the rows by the multipliers, in `into`: each entry of `multipliers` names a row by its index, and says how
/// often it is taken. The multiples of class weights in the rows count with the listed `weights`; the first listed weight
/// of a class counts, and a class that isn't listed has 0. Only the named rows are read, nothing is copied, and no memory
/// is taken: it costs as many steps as the named rows have terms, and for each multiple of a weight as many as there are
/// weights.
///
/// # Errors
///
/// The fault of the first entry that breaks a rule; in one entry the index is looked at first, then the size, then the
/// sign. The sum is then 0.
pub fn combine(
    rows: &[WRow],
    weights: &[(u32, i64)],
    multipliers: &[(u32, i64)],
    into: &mut Scratch,
) -> Result<(), LinFault>
    requires rows { AreRows (variables into.old) rows.now }
    requires weights { AreWeights weights.now }
    requires count { length multipliers.now ≤ 65536 }
    ensures fault { result_err result ≡ first_fault (rows_under (weight_in weights.now) rows.now) multipliers.now }
    ensures sum { OnOk result (IsSumOf (variables into.old) (rows_under (weight_in weights.now) rows.now) multipliers.now into.new) }
    ensures within { IsWithin (2 ^ 110) into.new }
    ensures refused { OnErr result (into.new ≡ zero_sum (variables into.old)) }
    ensures over { variables into.new ≡ variables into.old }
    ensures sound { OnOk result ((numbers : ℕ → ℤ) → AllHold numbers (rows_under (weight_in weights.now) rows.now)
        → pos 0 ≤ℤ value_of_sum numbers into.new) }
{
    into.clear();
    if let Some(fault) = first_fault(rows, multipliers) {
        return Err(fault);
    }
    for (index, by) in multipliers {
        let row = &rows[*index as usize];
        into.add(row.terms.as_slice(), &constant_of(row, weights), by);
    }
    Ok(())
}
