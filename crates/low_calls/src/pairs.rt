//! Calls on pairs, in both forms.
use abs_cells::{ListPairs, PackedPairs, PairCall, Pairs, replay};
use std::alloc::{AllocError, Global};
use std::test::Fail;

/// Whether a pair that is added in either order is there in either, and is taken away by either.
fn has_no_order<P: Pairs>(alloc: Global) -> Result<bool, AllocError> {
    let mut pairs = P::empty(alloc);
    let calls = [
        PairCall::Add(1, 2),
        PairCall::Add(2, 1),
        PairCall::Has(2, 1),
        PairCall::Remove(1, 2),
        PairCall::Has(1, 2),
    ];
    let answers = replay(alloc, &mut pairs, &calls)?;
    Ok(answers.as_slice() == [true, false].as_slice())
}

#[test]
fn a_pair_has_no_order(rt: HostRuntime) -> Result<(), Fail> {
    assert!(rt; has_no_order::<ListPairs>(rt.alloc())?);
    assert!(rt; has_no_order::<PackedPairs>(rt.alloc())?);
    Ok(())
}

/// Each number with each that lies seven or more above it, and then some of these without.
fn many<P: Pairs>(alloc: Global) -> Result<P, AllocError> {
    let mut pairs = P::empty(alloc);
    for a in 0..90u16 {
        for b in a + 7..150u16 {
            pairs.add(b, a)?;
        }
    }
    for a in 3..80u16 {
        pairs.remove(a, a + 20);
    }
    Ok(pairs)
}

/// Whether both forms have the same pairs at these places.
fn list_alike(listed: &ListPairs, packed: &PackedPairs) -> bool {
    for n in [0, 1, 142, 143, 5000, 8787, 8788, 20000] {
        if packed.nth(n) != listed.nth(n) {
            return false;
        }
    }
    listed.nth(0) == Some((0, 7))
}

/// Whether a pair that was taken away is missing, and one that was not is there.
fn has_what_was_left<P: Pairs>(pairs: &P) -> bool {
    !pairs.has(23, 3) && pairs.has(24, 3)
}

#[test]
fn both_forms_list_the_same_pairs(rt: HostRuntime) -> Result<(), Fail> {
    let listed = many::<ListPairs>(rt.alloc())?;
    let packed = many::<PackedPairs>(rt.alloc())?;
    let have_left = has_what_was_left(&listed) && has_what_was_left(&packed);
    assert!(rt; have_left && list_alike(&listed, &packed));
    Ok(())
}

/// Whether two lists of pairs have the same at these places.
fn are_alike<P: Pairs>(pairs: &P, others: &P) -> bool {
    for n in [0, 1, 142, 8787, 20000] {
        if pairs.nth(n) != others.nth(n) {
            return false;
        }
    }
    true
}

/// Whether a copy of many pairs has the same at these places.
fn copied_alike<P: Pairs>(alloc: Global) -> Result<bool, AllocError> {
    let pairs = many::<P>(alloc)?;
    let copy = pairs.copied(alloc)?;
    Ok(are_alike(&copy, &pairs))
}

#[test]
fn a_copy_has_the_same_pairs(rt: HostRuntime) -> Result<(), Fail> {
    assert!(rt; copied_alike::<ListPairs>(rt.alloc())?);
    assert!(rt; copied_alike::<PackedPairs>(rt.alloc())?);
    Ok(())
}
