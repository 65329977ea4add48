//! The classes of a world with the index of their names, and what they extend and implement by numbers.
ghost use Rattle.std.specs.Prelude.{◌≡◌, ◌<◌, ◌^◌, length, slice_get, IfOk};
ghost use Rattle.std.specs.Option.{option_map};
ghost use Rattle.class_world.specs.Fields.{can_be_made};
ghost use Rattle.class_world.specs.World.{class_of, super_of, is_interface_class};
ghost use Rattle.class_world.specs.Linking.{Refuses, first_broken, duplicate_class};
ghost use Rattle.class_world.specs.inner.Once.{interfaces_once, supers_once};
ghost use Rattle.class_world.specs.inner.Tables.{names_of, values_to};

use crate::fault::LinkFault;
use crate::named::{Named, names_of};
use class_read::ClassView;
use code_forms::class_base::{ABSTRACT, INTERFACE, NameSet, has_flag};
use code_forms::list_views::Seq;
use std::alloc::{AllocError, Global};

/// Classes of different names, each under its number, with the numbers of what it extends and implements.
#[derive(Drop)]
pub struct Roster<'a> {
    pub(crate) classes: Seq<ClassView<'a>>,
    names: NameSet<'a>,
    supers: Seq<Option<u32>>,
    interfaces: Seq<Seq<u32>>,
    ghost few: { length classes < 2 ^ 32 },
    ghost named: { names ≡ names_of classes },
    ghost extends: { supers ≡ values_to (super_of classes) (length classes) },
    ghost implements: { interfaces ≡ values_to (interfaces_once classes) (length classes) },
}

impl<'a> Roster<'a> {
    /// Numbers the classes in their order.
    ///
    /// # Errors
    ///
    /// The first class whose name an earlier one has, or want of memory.
    pub(crate) fn enrol(alloc: Global, classes: Seq<ClassView<'a>>) -> Result<Roster<'a>, LinkFault>
        requires { length classes < 2 ^ 32 }
        ensures fault { Refuses result (first_broken (duplicate_class classes.entry) 0 classes.entry) }
        ensures classes { IfOk result (λ roster. roster.classes ≡ classes.entry) }
    {
        let names = names_of(alloc, classes.as_slice())?;
        let named = Named { classes, names };
        let supers = named.supers_table(alloc)?;
        let interfaces = named.interfaces_table(alloc)?;
        let Named { classes, names } = named;
        Ok(Roster {
            classes,
            names,
            supers,
            interfaces,
        })
    }

    /// The number of the class of that name.
    #[tactic(auto, using(crate::proofs::Tables::values_of_world))]
    pub(crate) fn number_of(&self, name: &[u8]) -> Option<u32>
        ensures { result ≡ class_of self.now.classes name.now }
    {
        self.names.find(name).map(|number| number as u32)
    }

    /// The direct superclass of a class; class 0 has none.
    pub(crate) fn super_of(&self, class: usize) -> Option<u32>
        ensures { result ≡ super_of self.now.classes class }
    {
        match self.supers.get(class) {
            Some(over) => *over,
            None => None,
        }
    }

    /// The direct superinterfaces of a class, each once, in the order in which they come first.
    pub(crate) fn interfaces_once(&self, class: usize) -> &[u32]
        ensures { result.now ≡ interfaces_once self.now.classes class }
    {
        match self.interfaces.get(class) {
            Some(row) => row.as_slice(),
            None => &[],
        }
    }

    /// Whether a class of that number is an interface.
    #[tactic(auto, unfolding(crate::specs::World::is_interface_class))]
    pub(crate) fn is_interface(&self, class: u32) -> bool
        ensures { result ≡ is_interface_class self.now.classes class }
    {
        match self.classes.get(class as usize) {
            Some(view) => has_flag(view.flags, INTERFACE),
            None => false,
        }
    }

    /// Whether a class of that number has instances of its own: it is there, and neither abstract nor an interface.
    #[tactic(auto, unfolding(crate::specs::Fields::can_be_made))]
    pub(crate) fn has_instances(&self, class: usize) -> bool
        ensures { result ≡ can_be_made self.now.classes class }
    {
        match self.classes.get(class) {
            Some(view) => !has_flag(view.flags, ABSTRACT) && !has_flag(view.flags, INTERFACE),
            None => false,
        }
    }

    /// The name of a class; None past the classes.
    pub(crate) fn name_at(&self, class: usize) -> Option<&'a [u8]>
        ensures { option_map (λ name. name.now) result ≡ option_map (λ c. c.name) (slice_get self.now.classes class) }
    {
        match self.classes.get(class) {
            Some(view) => Some(view.name),
            None => None,
        }
    }

    /// What a class directly extends or implements, each superinterface once.
    #[tactic(auto, unfolding(crate::specs::inner::Once::supers_once))]
    fn supers_once(&self, alloc: Global, class: usize) -> Result<Seq<u32>, AllocError>
        ensures { IfOk result (λ found. found ≡ supers_once self.now.classes class) }
    {
        let mut found = Seq::new(alloc);
        if let Some(number) = self.super_of(class) {
            found.push(number)?;
        }
        found.extend_from_slice(self.interfaces_once(class))?;
        Ok(found)
    }

    /// What every class directly extends or implements.
    #[tactic(auto, using(crate::proofs::Tables::values_more), unfolding(crate::specs::inner::Tables::values_to))]
    pub(crate) fn supers_table(&self, alloc: Global) -> Result<Seq<Seq<u32>>, AllocError>
        ensures { IfOk result (λ table. table ≡ values_to (supers_once self.now.classes) (length self.now.classes)) }
    {
        let mut table = Seq::new(alloc);
        for class in 0..self.classes.len() {
            table.push(self.supers_once(alloc, class)?)?;
        }
        Ok(table)
    }
}
