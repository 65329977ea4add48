//! Integer transition rules.
use crate::calls::{Outcome, are_no_commands, call, comes_to, file};
use std::alloc::{AllocError, Global};
use std::test::Fail;

// What is said of a text of rules.
fn ruled(alloc: Global, text: &[u8]) -> Result<Outcome, AllocError> {
    let mut held = Vec::new(alloc);
    held.push(file(alloc, "r", text)?)?;
    call(alloc, &["its", "r"], held, &[], 100)
}

#[test]
fn a_count_down_to_0_ends(rt: HostRuntime) -> Result<(), Fail> {
    let text = b"vars x\nrule a a\ngeq -1 1 x\neq 1 1 x' -1 x\nend\n";
    assert!(rt; comes_to(ruled(rt.alloc(), text), 0, b"YES\n", b"")?);
    Ok(())
}

#[test]
fn a_count_down_without_an_end_is_left(rt: HostRuntime) -> Result<(), Fail> {
    let text = b"vars x\nrule a a\neq 1 1 x' -1 x\nend\n";
    let left = b"MAYBE component\nrule 0 a a\n";
    assert!(rt; comes_to(ruled(rt.alloc(), text), 1, left, b"")?);
    Ok(())
}

#[test]
fn a_faulty_line_of_rules_is_named(rt: HostRuntime) -> Result<(), Fail> {
    let twice = ruled(rt.alloc(), b"vars x x\n");
    assert!(rt; comes_to(twice, 3, b"", b"jterm: its: DuplicateVariable line=1\n")?);
    let empty = ruled(rt.alloc(), b"");
    assert!(rt; comes_to(empty, 3, b"", b"jterm: its: Syntax line=1\n")?);
    Ok(())
}

#[test]
fn one_text_of_rules_is_named(rt: HostRuntime) -> Result<(), Fail> {
    let rows: [&[&str]; 3] = [&["its"], &["its", "r", "s"], &["its", "-r"]];
    assert!(rt; are_no_commands(rt.alloc(), &rows)?);
    Ok(())
}

#[test]
fn two_counters_end(rt: HostRuntime) -> Result<(), Fail> {
    let text =
        b"# while (i > 0) { j = n; while (j > 0) j--; i--; }\nvars i j n\nrule outer inner\ngeq -1 1 i\n\
          eq 0 1 j' -1 n\neq 0 1 i' -1 i\neq 0 1 n' -1 n\nend\nrule inner inner\ngeq -1 1 j\neq 1 1 j' -1 j\n\
          eq 0 1 i' -1 i\neq 0 1 n' -1 n\nend\nrule inner outer\ngeq -1 1 i\ngeq 0 -1 j\neq 0 1 j' -1 j\n\
          eq 1 1 i' -1 i\neq 0 1 n' -1 n\nend\n";
    assert!(rt; comes_to(ruled(rt.alloc(), text), 0, b"YES\n", b"")?);
    Ok(())
}

#[test]
fn a_count_up_to_another_number_ends(rt: HostRuntime) -> Result<(), Fail> {
    let text =
        b"# while (i < n) i++;\nvars i n\nrule head head\ngeq -1 1 n -1 i\neq -1 1 i' -1 i\neq 0 1 n' -1 n\nend\n";
    assert!(rt; comes_to(ruled(rt.alloc(), text), 0, b"YES\n", b"")?);
    Ok(())
}

#[test]
fn a_count_down_from_below_0_is_left(rt: HostRuntime) -> Result<(), Fail> {
    let text =
        b"# while (i != 0) i--;  with any i\nvars i\nrule head head\ngeq -1 1 i\neq 1 1 i' -1 i\nend\n\
          rule head head\ngeq -1 -1 i\neq 1 1 i' -1 i\nend\n";
    let left = b"MAYBE component\nrule 1 head head\n";
    assert!(rt; comes_to(ruled(rt.alloc(), text), 1, left, b"")?);
    Ok(())
}
