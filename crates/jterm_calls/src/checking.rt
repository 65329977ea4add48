//! What `check` says.
ghost use Rattle.std.specs.Prelude.{◌<◌};

use crate::calls::{DESC, NODES, Outcome, REST, checked, comes_to, ended, errs, has_status, says};
use std::alloc::{AllocError, Global};
use std::test::Fail;

// What is said of the certificate of the method that `LISTING` has, where the reads with these numbers fail, and with so much room on the
// two outputs.
fn good(alloc: Global, failing: &[u64], room: usize, lines: usize) -> Result<Outcome, AllocError> {
    let cert = ended(alloc, REST)?;
    checked(alloc, &cert, DESC, failing, room, lines)
}

#[test]
fn a_valid_certificate_is_accepted(rt: HostRuntime) -> Result<(), Fail> {
    let outcome = good(rt.alloc(), &[], 100, 100);
    assert!(rt; comes_to(outcome, 0, b"ACCEPTED\n", b"")?);
    Ok(())
}

#[test]
fn the_first_item_that_fails_is_named(rt: HostRuntime) -> Result<(), Fail> {
    let cert = ended(rt.alloc(), b",\"cuts\":[],\"proof\":[]}")?;
    assert!(rt; says(rt.alloc(), &cert, 2, b"REFUSED item 4: Cuts\n")?);
    Ok(())
}

#[test]
fn a_certificate_may_be_longer_than_other_files(rt: HostRuntime) -> Result<(), Fail> {
    let mut cert = vec![in rt.alloc(); b' '; 1_048_577]?;
    cert.extend_from_slice(NODES)?;
    cert.extend_from_slice(REST)?;
    assert!(rt; says(rt.alloc(), &cert, 0, b"ACCEPTED\n")?);
    Ok(())
}

#[test]
fn a_certificate_past_its_limit_is_named(rt: HostRuntime) -> Result<(), Fail> {
    let cert = vec![in rt.alloc(); b' '; 16_777_217]?;
    let outcome = checked(rt.alloc(), &cert, DESC, &[], 100, 100);
    assert!(rt; errs(outcome, 5, b"jterm: read c: TooLong\n")?);
    Ok(())
}

#[test]
fn a_read_that_fails_is_named_in_a_check(rt: HostRuntime) -> Result<(), Fail> {
    let alloc = rt.alloc();
    assert!(rt; errs(good(alloc, &[0], 100, 100), 5, b"jterm: read c: Failed\n")?);
    assert!(rt; errs(good(alloc, &[1], 100, 100), 5, b"jterm: read d: Failed\n")?);
    let third = good(alloc, &[2], 100, 100);
    assert!(rt; comes_to(third, 5, b"", b"jterm: read a: Failed\n")?);
    Ok(())
}

// Whether a check whose output has so much room, which is too little, puts as much of its line, and says that it failed.
fn is_cut(alloc: Global, room: usize) -> Result<bool, AllocError>
    requires { room < 9 }
{
    comes_to(
        good(alloc, &[], room, 100),
        6,
        &b"ACCEPTED\n"[..room],
        b"jterm: write: Failed\n",
    )
}

#[test]
fn each_room_below_the_line_of_a_check_takes_a_prefix(rt: HostRuntime) -> Result<(), Fail> {
    for room in 0..9 {
        assert!(rt; is_cut(rt.alloc(), room)?);
    }
    Ok(())
}

#[test]
fn errors_that_are_not_taken_change_no_status_of_a_check(rt: HostRuntime) -> Result<(), Fail> {
    let alloc = rt.alloc();
    assert!(rt; has_status(checked(alloc, b"{}", b"{", &[], 100, 0), 3)?);
    assert!(rt; has_status(good(alloc, &[1], 100, 7), 5)?);
    assert!(rt; errs(good(alloc, &[], 0, 0), 6, b"")?);
    Ok(())
}
