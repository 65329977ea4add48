//! What `throws`, `migrate`, `bound` and `loop` say.
use crate::calls::{
    DESC, LISTING, NODES, Outcome, REST, STATE, are_no_commands, bounded, certified, comes_to,
    ended, errs, looped,
};
use std::alloc::{AllocError, Global};
use std::test::Fail;

/// A static method that never ends.
const HANGING: &[u8] = b"class A\nmethod f ()V static stack 0 locals 0\nh:\ngoto h\nend\n";

/// A description of it.
const VOID_DESC: &[u8] =
    b"{\"form\":1,\"class\":\"A\",\"method\":\"f\",\"desc\":\"()V\",\"params\":[],\"same\":[],\"share\":[]}";

/// A state of it.
const VOID_STATE: &[u8] =
    b"{\"form\":1,\"class\":\"A\",\"method\":\"f\",\"desc\":\"()V\",\"args\":[],\"heap\":[]}";

/// A certificate that it never ends.
const ROUND: &[u8] =
    b"{\"cuts\":[0],\"form\":1,\"nodes\":[{\"by\":[\"expand\",[0]],\"state\":{\"cells\":[],\"eq\":[],\
      \"frames\":[[0,0,[],[]]],\"share\":[],\"throw\":-1}}],\"proof\":[[\"empty\"]]}";

/// A state of a method that the class doesn't have.
const OTHER_STATE: &[u8] =
    b"{\"form\":1,\"class\":\"A\",\"method\":\"g\",\"desc\":\"()I\",\"args\":[],\"heap\":[]}";

/// The certificate of `NODES` and `REST` as `migrate` writes it.
const WRITTEN: &[u8] =
    b"{\"cuts\":[0],\"form\":2,\"nodes\":[{\"by\":[\"expand\",[1]],\"state\":{\"cells\":[],\"eq\":[],\
      \"frames\":[[0,0,[],[]]],\"share\":[],\"throw\":-1}},{\"by\":[\"end\"]}],\"proof\":[[\"empty\"]]}\n";

// What a command over certificates says of that of the method that `LISTING` has, where the reads with these numbers fail.
fn good(alloc: Global, word: &str, failing: &[u64]) -> Result<Outcome, AllocError> {
    let cert = ended(alloc, REST)?;
    certified(alloc, word, &cert, DESC, failing, 1000, 100)
}

// What it says of one that is refused.
fn bad(alloc: Global, word: &str) -> Result<Outcome, AllocError> {
    let cert = ended(alloc, b",\"cuts\":[],\"proof\":[]}")?;
    certified(alloc, word, &cert, DESC, &[], 1000, 100)
}

#[test]
fn the_ways_of_a_valid_certificate_are_put(rt: HostRuntime) -> Result<(), Fail> {
    assert!(rt; comes_to(good(rt.alloc(), "throws", &[]), 0, b"RETURNS\n", b"")?);
    Ok(())
}

#[test]
fn a_valid_certificate_migrates(rt: HostRuntime) -> Result<(), Fail> {
    assert!(rt; comes_to(good(rt.alloc(), "migrate", &[]), 0, WRITTEN, b"")?);
    Ok(())
}

#[test]
fn the_first_item_that_fails_is_named_by_each(rt: HostRuntime) -> Result<(), Fail> {
    assert!(rt; comes_to(bad(rt.alloc(), "throws"), 2, b"REFUSED item 4: Cuts\n", b"")?);
    assert!(rt;
        comes_to(
            bad(rt.alloc(), "migrate"),
            2,
            b"REFUSED item 4: Cuts\n",
            b""
        )?
    );
    Ok(())
}

#[test]
fn a_read_that_fails_is_named_by_each(rt: HostRuntime) -> Result<(), Fail> {
    let alloc = rt.alloc();
    assert!(rt; errs(good(alloc, "throws", &[0]), 5, b"jterm: read c: Failed\n")?);
    assert!(rt; errs(good(alloc, "migrate", &[2]), 5, b"jterm: read a: Failed\n")?);
    Ok(())
}

#[test]
fn the_steps_of_a_bound_are_put(rt: HostRuntime) -> Result<(), Fail> {
    let cert = ended(rt.alloc(), REST)?;
    let outcome = bounded(rt.alloc(), b"{\"form\":1,\"ranks\":[]}", &cert);
    assert!(rt; comes_to(outcome, 0, b"steps 1\nconst 1\n", b"")?);
    Ok(())
}

#[test]
fn a_text_that_is_no_bound_is_refused(rt: HostRuntime) -> Result<(), Fail> {
    let cert = ended(rt.alloc(), REST)?;
    let lacking = bounded(rt.alloc(), b"{\"form\":1}", &cert);
    assert!(rt;
        comes_to(
            lacking,
            2,
            b"REFUSED bound: MissingField place=/ranks\n",
            b""
        )?
    );
    let other = bounded(rt.alloc(), b"{\"form\":1,\"ranks\":[[0,[],[]]]}", &cert);
    assert!(rt; comes_to(other, 2, b"REFUSED bound: NotRank entry=0 step=0\n", b"")?);
    Ok(())
}

// What is said of the method that never ends, where the reads with these numbers fail.
fn hangs(alloc: Global, failing: &[u64]) -> Result<Outcome, AllocError> {
    looped(alloc, HANGING, ROUND, VOID_STATE, VOID_DESC, failing)
}

#[test]
fn a_method_that_never_ends_is_answered_with_no(rt: HostRuntime) -> Result<(), Fail> {
    assert!(rt; comes_to(hangs(rt.alloc(), &[]), 0, b"NO\n", b"")?);
    Ok(())
}

#[test]
fn a_graph_that_has_an_end_is_refused(rt: HostRuntime) -> Result<(), Fail> {
    let cert = ended(rt.alloc(), REST)?;
    let outcome = looped(rt.alloc(), LISTING, &cert, STATE, DESC, &[]);
    assert!(rt; comes_to(outcome, 2, b"REFUSED loop: EndNode node=1\n", b"")?);
    Ok(())
}

#[test]
fn a_state_of_another_method_is_refused(rt: HostRuntime) -> Result<(), Fail> {
    let cert = ended(rt.alloc(), REST)?;
    let outcome = looped(rt.alloc(), LISTING, &cert, OTHER_STATE, DESC, &[]);
    assert!(rt; comes_to(outcome, 3, b"", b"jterm: state: NoMethod\n")?);
    Ok(())
}

#[test]
fn a_read_that_fails_is_named_in_a_loop(rt: HostRuntime) -> Result<(), Fail> {
    assert!(rt; errs(hangs(rt.alloc(), &[1]), 5, b"jterm: read s: Failed\n")?);
    assert!(rt; errs(hangs(rt.alloc(), &[2]), 5, b"jterm: read d: Failed\n")?);
    Ok(())
}

#[test]
fn their_files_are_all_wanted(rt: HostRuntime) -> Result<(), Fail> {
    let rows: [&[&str]; 4] = [
        &["throws", "c", "d"],
        &["migrate", "c", "d"],
        &["bound", "b", "c", "d"],
        &["loop", "c", "s", "d"],
    ];
    assert!(rt; are_no_commands(rt.alloc(), &rows)?);
    Ok(())
}
