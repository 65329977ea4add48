//! Words, files, listings and runs.
use crate::calls::{are_no_commands, assembled, call, comes_to, errs, ran};
use std::test::Fail;

#[test]
fn a_faulty_line_of_a_listing_is_named(rt: HostRuntime) -> Result<(), Fail> {
    let outcome = assembled(rt.alloc(), b"class A\nfield total\n");
    assert!(rt; comes_to(outcome, 3, b"", b"jterm: listing: Syntax line=2\n")?);
    Ok(())
}

#[test]
fn a_file_past_its_limit_is_named(rt: HostRuntime) -> Result<(), Fail> {
    let listing = vec![in rt.alloc(); b' '; 1_048_577]?;
    let outcome = assembled(rt.alloc(), &listing);
    assert!(rt; errs(outcome, 5, b"jterm: read a.listing: TooLong\n")?);
    Ok(())
}

#[test]
fn a_run_returns_an_int(rt: HostRuntime) -> Result<(), Fail> {
    let outcome = ran(rt.alloc(), "2", &[]);
    assert!(rt; comes_to(outcome, 0, b"RETURNED int 7\n", b"")?);
    Ok(())
}

#[test]
fn words_that_break_a_rule_are_no_command(rt: HostRuntime) -> Result<(), Fail> {
    let rows: [&[&str]; 6] = [
        &["run", "01", "s", "a"],
        &["run", "1000000001", "s", "a"],
        &["check", "c", "d"],
        &["generate", "0"],
        &["generate", "101"],
        &["generate", "4", "a"],
    ];
    assert!(rt; are_no_commands(rt.alloc(), &rows)?);
    Ok(())
}

// The class is made, proved and checked.
#[test]
fn a_class_that_is_made_is_proved(rt: HostRuntime) -> Result<(), Fail> {
    let made = call(
        rt.alloc(),
        &["generate", "4"],
        Vec::new(rt.alloc()),
        &[],
        100,
    );
    assert!(rt; comes_to(made, 0, b"blocks 4 answer YES check ACCEPTED\n", b"")?);
    Ok(())
}

// The number of steps is the greatest that words may say.
#[test]
fn a_read_that_fails_is_named_in_a_run(rt: HostRuntime) -> Result<(), Fail> {
    let state = ran(rt.alloc(), "1000000000", &[0]);
    assert!(rt; comes_to(state, 5, b"", b"jterm: read s: Failed\n")?);
    let class = ran(rt.alloc(), "1000000000", &[1]);
    assert!(rt; errs(class, 5, b"jterm: read a: Failed\n")?);
    Ok(())
}
