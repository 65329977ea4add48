//! Worlds: linked classes.
ghost use Rattle.std.specs.Prelude.{◌≡◌, ◌+◌, ◌-◌, ◌<◌, ◌≤◌, ◌^◌, length, slice_get, IfOk, IfSome, IsTrue};
ghost use Rattle.class_world.specs.World.{world_of, class_of, is_above};
ghost use Rattle.class_world.specs.Linking.{Refuses, CanBeRead, has_few_members, has_short_codes, is_linked, link_fault, later_fault};
ghost use Rattle.std.specs.List.{list_all, AllByRecursion};
ghost use Rattle.class_world.specs.Fields.{fields_of};
ghost use Rattle.class_world.specs.Members.{declared_method, find_method};
ghost use Rattle.class_world.specs.inner.Index.{HasDistinctMembers, IsIndex, has_places};
ghost use Rattle.std.proofs.Props.{props};
ghost use Rattle.class_world.specs.BuiltIns.{IsWorld};
ghost use Rattle.class_world.specs.inner.Once.{AreSought};
ghost use Rattle.class_world.specs.inner.Tables.{above_table, values_to};

use crate::built_in::with_built_ins;
use crate::fault::LinkFault;
use crate::hierarchy::above_table;
use crate::index::MemberIndex;
use crate::linking::{Hierarchy, LinkRule};
use crate::roster::Roster;
use class_read::ClassView;
use code_forms::list_views::Seq;
use jvm_values::Slot;
use std::alloc::{AllocError, Global};

/// A method by its class's number and its place among the class's methods, from 0.
#[derive(Clone, Copy, PartialEq, Eq, Hash)]
pub struct MethodRef {
    /// The class's number.
    pub class: u32,
    /// The method's place in its class file.
    pub index: u32,
}

/// The built-in classes and given ones that keep the rules of linking, each under its number.
///
/// The built-in classes have the numbers 0 to 14, from `java/lang/Object` on; given classes are numbered from 15 in
/// their order.
#[derive(Drop)]
pub struct World<'a> {
    pub(crate) roster: Roster<'a>,
    above: Seq<Seq<bool>>,
    pub(crate) slots: Seq<Seq<Slot>>,
    pub(crate) index: MemberIndex<'a>,
    pub(crate) sought: Seq<Seq<u32>>,
    ghost known: { IsWorld roster.classes } by { Prim.hlevel props },
    ghost few: { IsTrue (list_all has_few_members roster.classes) },
    ghost short: { IsTrue (list_all has_short_codes roster.classes) },
    ghost marked: { above ≡ above_table roster.classes },
    ghost laid_out: { slots ≡ values_to (fields_of roster.classes) (length roster.classes) },
    ghost placed: { IsTrue (list_all has_places slots) },
    ghost indexed: { IsIndex roster.classes index },
    ghost ordered: { AreSought roster.classes (length roster.classes) sought } by { Prim.hlevel props },
}

/// The places of so many fields are numbers of 32 bits.
fn has_places(row: &Seq<Slot>) -> bool
    ensures { result ≡ has_places row.now }
{
    row.len() < 1 << 32
}

fn all_have_places(slots: &[Seq<Slot>]) -> bool
    ensures { result ≡ list_all has_places slots.now }
{
    for row in slots {
        if !has_places(row) {
            return false;
        }
    }
    true
}

/// Every class keeps the rules beside that of the names.
fn keep_rules(alloc: Global, hierarchy: &Hierarchy<'_, '_>) -> Result<(), LinkFault>
    ensures { Refuses result (later_fault hierarchy.now.roster.now.classes) }
{
    hierarchy.keeps(alloc, LinkRule::MissingSuper)?;
    hierarchy.keeps(alloc, LinkRule::CyclicHierarchy)?;
    hierarchy.keeps(alloc, LinkRule::BadSuper)?;
    hierarchy.keeps(alloc, LinkRule::DefaultMethod)
}

/// For each class the marks of those above it, where every class keeps the rules beside that of the names.
fn ruled_above(alloc: Global, roster: &Roster<'_>) -> Result<Seq<Seq<bool>>, LinkFault>
    ensures fault { Refuses result (later_fault roster.now.classes) }
    ensures above { IfOk result (λ above. above ≡ above_table roster.now.classes) }
{
    let above = above_table(alloc, roster)?;
    keep_rules(
        alloc,
        &Hierarchy {
            roster,
            above: above.as_slice(),
        },
    )?;
    Ok(above)
}

/// What the fields of the instances of each class hold.
///
/// # Errors
///
/// Want of memory, of which instances with 2^32 and more fields are one case.
fn placed_slots(alloc: Global, roster: &Roster<'_>) -> Result<Seq<Seq<Slot>>, AllocError>
    ensures laid_out { IfOk result (λ slots. slots ≡ values_to (fields_of roster.now.classes) (length roster.now.classes)) }
    ensures placed { IfOk result (λ slots. IsTrue (list_all has_places slots)) }
{
    let slots = roster.fields_table(alloc)?;
    if !all_have_places(slots.as_slice()) {
        return Err(AllocError);
    }
    Ok(slots)
}

/// What a world knows of the members of its classes beforehand.
#[derive(Drop)]
struct Members<'a> {
    slots: Seq<Seq<Slot>>,
    index: MemberIndex<'a>,
    sought: Seq<Seq<u32>>,
}

/// The members of classes that are linked.
fn members_of<'a>(alloc: Global, roster: &Roster<'a>) -> Result<Members<'a>, AllocError>
    requires differ { AllByRecursion HasDistinctMembers roster.now.classes }
    requires few { IsTrue (list_all has_few_members roster.now.classes) }
    requires linked { IsTrue (is_linked roster.now.classes) }
    ensures laid_out { IfOk result (λ m. m.slots ≡ values_to (fields_of roster.now.classes) (length roster.now.classes)) }
    ensures placed { IfOk result (λ m. IsTrue (list_all has_places m.slots)) }
    ensures indexed { IfOk result (λ m. IsIndex roster.now.classes m.index) }
    ensures ordered { IfOk result (λ m. AreSought roster.now.classes (length roster.now.classes) m.sought) }
{
    let slots = placed_slots(alloc, roster)?;
    let index = MemberIndex::of(alloc, roster)?;
    let sought = roster.sought_table(alloc)?;
    Ok(Members {
        slots,
        index,
        sought,
    })
}

impl<'a> World<'a> {
    /// Links the classes, which are numbered from 15 in their order.
    ///
    /// # Errors
    ///
    /// The first rule that the classes break, rule by rule in the order of [`LinkFault`], and of a rule the first class
    /// by its number; or want of memory, of which instances with 2^32 and more fields are one case.
    pub fn link(alloc: Global, classes: Vec<ClassView<'a>>) -> Result<World<'a>, LinkFault>
        requires count { length classes.items + 15 ≤ 2 ^ 32 - 16 }
        requires read { AllByRecursion CanBeRead classes.items }
        ensures fault { Refuses result (link_fault (world_of classes.entry.items)) }
        ensures world { IfOk result (λ world. world.roster.classes ≡ world_of classes.entry.items) }
    {
        let roster = Roster::enrol(alloc, with_built_ins(alloc, classes)?)?;
        let above = ruled_above(alloc, &roster)?;
        let members = members_of(alloc, &roster)?;
        Ok(World {
            roster,
            above,
            slots: members.slots,
            index: members.index,
            sought: members.sought,
        })
    }

    /// Whether class `b` is above class `a`.
    pub(crate) fn is_above(&self, a: usize, b: usize) -> bool
        requires a { a < length self.now.roster.classes }
        requires b { b < length self.now.roster.classes }
        ensures { result ≡ is_above self.now.roster.classes a b }
    {
        let hierarchy = Hierarchy {
            roster: &self.roster,
            above: self.above.as_slice(),
        };
        hierarchy.is_above(a, b)
    }

    /// The number of the class of that name; None exactly where no class has it.
    pub fn class_of(&self, name: &[u8]) -> Option<u32>
        ensures { result ≡ class_of self.now.roster.classes name.now }
    {
        self.roster.number_of(name)
    }

    /// The class's name.
    pub fn name_of(&self, class: u32) -> &'a [u8]
        requires { class < length self.now.roster.classes }
        ensures { IfSome (slice_get self.now.roster.classes class) (λ c. result.now ≡ c.name) }
    {
        let view = self.roster.classes.at(class as usize);
        view.name
    }

    /// The method that the class of a name declares with that name and descriptor; None exactly where no class of that
    /// name declares it, or its name is `<clinit>`.
    #[tactic(auto, unfolding(crate::specs::Members::find_method))]
    pub fn find(&self, class: &[u8], name: &[u8], desc: &[u8]) -> Option<MethodRef>
        ensures { result ≡ find_method self.now.roster.classes class.now name.now desc.now }
    {
        if name == b"<clinit>".as_slice() {
            return None;
        }
        let class = self.roster.number_of(class)?;
        let index = self.declared_method(class, name, desc)?;
        Some(MethodRef {
            class,
            index: index as u32,
        })
    }

    /// The place of the method that a class declares with that name and descriptor.
    pub fn declared_method(&self, class: u32, name: &[u8], desc: &[u8]) -> Option<usize>
        ensures place { result ≡ declared_method self.now.roster.classes class name.now desc.now }
        ensures within { IfSome result (λ index. index < 65536) }
    {
        match self.index.methods.get(class as usize) {
            Some(names) => names.find(name, desc),
            None => None,
        }
    }
}
