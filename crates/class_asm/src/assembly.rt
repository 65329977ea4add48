//! Listings into class files.

ghost use Rattle.std.specs.Prelude.{◌≡◌, OnOk, IfOk, map, true};
ghost use Rattle.std.specs.List.{AllByRecursion};
ghost use Rattle.class_pool.specs.Entry.{HasText};
ghost use Rattle.class_read.specs.Writing.{HasClassText};
ghost use Rattle.class_asm.specs.asm_pool.Entries.{has_text};
ghost use Rattle.asm_lines.specs.Firsts.{with_faults};
ghost use Rattle.class_asm.specs.asm_pool.Needs.{listing_needs};
ghost use Rattle.class_asm.specs.asm_pool.Pools.{pool_in};
ghost use Rattle.asm_lines.specs.Statements.{Gives};
ghost use Rattle.class_asm.specs.Classes.{method_text, class_of, class_text, all_faults, assembled};

use crate::asm_pool::{Entry, Needs, Pool, pool_of, super_of};
use crate::rules::{check_rules, major_of};
use crate::texts::{attribute_texts, class_flags, class_numbers, field_texts, method_texts};
use asm_lines::{AsmFault, ClassLine, First, Listing, read_listing};
use class_read::{ClassText, MemberText, write_class};
use list_views::Seq;
use std::alloc::{AllocError, Global};

/// The class of these parts.
fn class_text(
    alloc: Global,
    pool: &Pool<'_>,
    class: &ClassLine,
    listing: &Listing,
    methods: Seq<MemberText>,
) -> Result<ClassText, AllocError>
    requires texts { AllByRecursion (λ e. has_text e ≡ true) pool.now.0 }
    requires methods { methods ≡ map (method_text pool.now) listing.now.methods }
    ensures same { IfOk result (λ c. c ≡ class_text pool.now class.now listing.now) }
    ensures texts { IfOk result (λ c. AllByRecursion HasText c.pool) }
{
    let entries = pool.entries(alloc)?;
    let interfaces = class_numbers(alloc, pool, class.interfaces.as_slice())?;
    let fields = field_texts(alloc, pool, listing.fields.as_slice())?;
    let attributes = attribute_texts(alloc, pool, listing.attributes.as_slice())?;
    Ok(ClassText {
        minor: 0,
        major: major_of(class).unwrap_or(0),
        pool: entries,
        flags: class_flags(class),
        this_index: pool.number(Entry::Class(class.name.as_slice())),
        super_index: pool.number(Entry::Class(super_of(class))),
        interfaces,
        fields,
        methods,
        attributes,
    })
}

/// What the class is made of, while faults are gathered.
#[derive(Drop)]
struct Gathered<'a> {
    pool: Pool<'a>,
    methods: Seq<MemberText>,
}

#[tactic(auto, using(crate::proofs::Assembled::in_turns))]
fn gather<'a>(
    alloc: Global,
    first: &mut First,
    line: usize,
    class: &'a ClassLine,
    listing: &'a Listing,
) -> Result<Gathered<'a>, AllocError>
    ensures pool { IfOk result (λ p. p.pool ≡ pool_in (listing_needs line class.now listing.now)) }
    ensures methods { IfOk result (λ p. p.methods ≡ map (method_text (pool_in (listing_needs line class.now listing.now)))
        listing.now.methods) }
    ensures faults { OnOk result (first.new.fault ≡ with_faults first.old.fault (all_faults line class.now listing.now)) }
{
    check_rules(alloc, first, line, class, listing)?;
    let needs = Needs::of(alloc, line, class, listing)?;
    let pool = pool_of(alloc, first, &needs)?;
    let methods = method_texts(alloc, first, &pool, listing.methods.as_slice())?;
    Ok(Gathered { pool, methods })
}

#[tactic(auto, using(asm_lines::proofs::Outcomes::is_fault, crate::proofs::Assembled::faulty, crate::proofs::Assembled::faultless, crate::proofs::Assembled::has_class_text, crate::proofs::PoolBounds::pool_texts))]
fn class_of<'a>(
    alloc: Global,
    line: usize,
    class: &'a ClassLine,
    listing: &'a Listing,
) -> Result<ClassText, AsmFault>
    ensures same { Gives (λ x. x) result (class_of line class.now listing.now) }
    ensures text { IfOk result (λ c. HasClassText c) }
{
    let mut first = listing.first;
    let Gathered { pool, methods } = gather(alloc, &mut first, line, class, listing)?;
    if let Some(fault) = first.fault {
        return Err(fault);
    }
    let text = class_text(alloc, &pool, class, listing, methods)?;
    Ok(text)
}

/// The bytes of the class file of a listing.
///
/// # Errors
///
/// The first line that breaks a rule, and on one line the fault that stands first in [`AsmFault`]. Want of memory.
#[tactic(auto, unfolding(crate::specs::Classes::assembled))]
pub fn assemble(alloc: Global, text: &[u8]) -> Result<Seq<u8>, AsmFault>
    ensures { Gives (λ x. x) result (assembled text.now) }
{
    let (line, class, listing) = read_listing(alloc, text)?;
    let class = class_of(alloc, line, &class, &listing)?;
    Ok(Seq::from_vec(write_class(alloc, &class)?))
}
