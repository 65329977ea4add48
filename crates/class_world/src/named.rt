//! What classes name, found by name: used once, when the tables of numbers are made.
ghost use Rattle.std.specs.Prelude.{◌≡◌, ◌<◌, ◌^◌, ◌++◌, ◌||◌, [], ◌∷◌, length, IfOk, filter_map, true, false, if◌then◌else◌};
ghost use Rattle.std.specs.List.{list_any};
ghost use Rattle.std.specs.Str.{bytes_eq};
ghost use Rattle.class_world.specs.World.{class_of, super_of, interfaces_of};
ghost use Rattle.class_world.specs.Linking.{Refuses, first_broken, duplicate_class, is_array_interface};
ghost use Rattle.class_world.specs.inner.Once.{once, interfaces_once};
ghost use Rattle.class_world.specs.inner.Tables.{names_of, values_to};

use crate::fault::LinkFault;
use crate::once::once;
use class_read::ClassView;
use code_forms::class_base::NameSet;
use code_forms::list_views::Seq;
use std::alloc::{AllocError, Global};

/// The name is that of an interface that arrays implement in a JVM, which no class has here.
#[tactic(auto, unfolding(crate::specs::Linking::is_array_interface))]
pub(crate) fn is_array_interface(name: &[u8]) -> bool
    ensures { result ≡ is_array_interface name.now }
{
    name == b"java/lang/Cloneable".as_slice() || name == b"java/io/Serializable".as_slice()
}

/// Puts the name of a class behind those of the earlier ones, or answers false where one of these has it, or no class may have it.
fn put_name<'a>(names: &mut NameSet<'a>, name: &'a [u8]) -> Result<bool, AllocError>
    ensures names { IfOk result (λ added. names.new ≡ (if added then names.old ++ name.now ∷ [] else names.old)) }
    ensures taken { IfOk result (λ added. (is_array_interface name.now || list_any (bytes_eq name.now) names.old)
        ≡ (if added then false else true)) }
{
    if is_array_interface(name) {
        return Ok(false);
    }
    names.add(name)
}

/// The names of the classes, or the first class whose name an earlier one has, or no class may have.
pub(crate) fn names_of<'a>(
    alloc: Global,
    classes: &[ClassView<'a>],
) -> Result<NameSet<'a>, LinkFault>
    ensures fault { Refuses result (first_broken (duplicate_class classes.now) 0 classes.now) }
    ensures names { IfOk result (λ names. names ≡ names_of classes.now) }
{
    let mut names = NameSet::new(alloc);
    for class in 0..classes.len() {
        let view = &classes[class];
        if !put_name(&mut names, view.name)? {
            return Err(LinkFault::DuplicateClass {
                name: Seq::from_slice(alloc, view.name)?,
            });
        }
    }
    Ok(names)
}

/// Classes of different names, with the index of the names.
#[derive(Drop)]
pub(crate) struct Named<'a> {
    pub(crate) classes: Seq<ClassView<'a>>,
    pub(crate) names: NameSet<'a>,
    ghost few: { length classes < 2 ^ 32 },
    ghost named: { names ≡ names_of classes },
}

impl<'a> Named<'a> {
    /// The number of the class of that name.
    #[tactic(auto, using(crate::proofs::Tables::values_of_world))]
    fn number_of(&self, name: &[u8]) -> Option<u32>
        ensures { result ≡ class_of self.now.classes name.now }
    {
        self.names.find(name).map(|number| number as u32)
    }

    /// The direct superclass of a class; class 0 has none.
    fn super_of(&self, class: usize) -> Option<u32>
        ensures { result ≡ super_of self.now.classes class }
    {
        if class == 0 {
            return None;
        }
        let view = self.classes.get(class)?;
        self.number_of(view.super_name)
    }

    /// The numbers of the classes of these names, in their order. A name that no class has is passed over.
    fn numbers_of(&self, alloc: Global, wanted: &[&[u8]]) -> Result<Seq<u32>, AllocError>
        ensures { IfOk result (λ found. found ≡ filter_map (λ name. class_of self.now.classes name.now) wanted.now) }
    {
        let mut found = Seq::new(alloc);
        for name in wanted {
            if let Some(number) = self.number_of(*name) {
                found.push(number)?;
            }
        }
        Ok(found)
    }

    /// The direct superinterfaces of a class, in their order.
    fn interfaces_of(&self, alloc: Global, class: usize) -> Result<Seq<u32>, AllocError>
        requires { class < length self.now.classes }
        ensures { IfOk result (λ found. found ≡ interfaces_of self.now.classes class) }
    {
        let view = self.classes.at(class);
        self.numbers_of(alloc, view.interfaces.as_slice())
    }

    /// The direct superinterfaces of a class, each once.
    #[tactic(auto, unfolding(crate::specs::inner::Once::interfaces_once))]
    fn interfaces_once(&self, alloc: Global, class: usize) -> Result<Seq<u32>, AllocError>
        requires { class < length self.now.classes }
        ensures { IfOk result (λ found. found ≡ interfaces_once self.now.classes class) }
    {
        let interfaces = self.interfaces_of(alloc, class)?;
        once(alloc, interfaces.as_slice())
    }

    /// The direct superclass of each class.
    #[tactic(auto, using(crate::proofs::Tables::values_more), unfolding(crate::specs::inner::Tables::values_to))]
    pub(crate) fn supers_table(&self, alloc: Global) -> Result<Seq<Option<u32>>, AllocError>
        ensures { IfOk result (λ table. table ≡ values_to (super_of self.now.classes) (length self.now.classes)) }
    {
        let mut table = Seq::new(alloc);
        for class in 0..self.classes.len() {
            table.push(self.super_of(class))?;
        }
        Ok(table)
    }

    /// The direct superinterfaces of each class, each once.
    #[tactic(auto, using(crate::proofs::Tables::values_more), unfolding(crate::specs::inner::Tables::values_to))]
    pub(crate) fn interfaces_table(&self, alloc: Global) -> Result<Seq<Seq<u32>>, AllocError>
        ensures { IfOk result (λ table. table ≡ values_to (interfaces_once self.now.classes) (length self.now.classes)) }
    {
        let mut table = Seq::new(alloc);
        for class in 0..self.classes.len() {
            table.push(self.interfaces_once(alloc, class)?)?;
        }
        Ok(table)
    }
}
