//! The superinterfaces of classes, in the order in which members are sought in them.
ghost use Rattle.std.specs.Prelude.{◌≡◌, ◌<◌, ◌++◌, length, reverse, IfOk, OnOk, IsTrue};
ghost use Rattle.std.specs.List.{flat_map};
ghost use Rattle.class_world.specs.World.{line_of};
ghost use Rattle.class_world.specs.declared.resolve.Wanted.TheVariants.{Method};
ghost use Rattle.class_world.specs.Linking.{is_linked};
ghost use Rattle.class_world.specs.inner.Once.{interfaces_once, IsSought, AreSought};
ghost use Rattle.class_world.specs.Resolve.{first_found, superinterfaces_of};
ghost use Rattle.class_world.specs.inner.Seeking.{place_in};

use crate::resolve::Wanted;
use crate::roster::Roster;
use crate::world::World;
use code_forms::list_views::Seq;
use std::alloc::{AllocError, Global};

impl<'a> Roster<'a> {
    /// Puts the direct superinterfaces of a class on the list of what is to be gone through, the first of them last.
    fn put_interfaces(
        &self,
        alloc: Global,
        class: u32,
        todo: &mut Vec<u32>,
    ) -> Result<(), AllocError>
        ensures { OnOk result (reverse todo.new.items ≡ interfaces_once self.now.classes class ++ reverse todo.old.items) }
    {
        let row = self.interfaces_once(class as usize);
        let mut interfaces = Seq::from_slice(alloc, row)?.into_vec();
        while let Some(interface) = interfaces.pop() {
            todo.push(interface)?;
        }
        Ok(())
    }

    /// The direct superinterfaces of the classes along the superclass chain of a class, the first of them last.
    fn interfaces_along(&self, alloc: Global, class: u32) -> Result<Vec<u32>, AllocError>
        ensures { IfOk result (λ todo. reverse todo.items ≡ flat_map (interfaces_once self.now.classes) (line_of self.now.classes class)) }
    {
        let mut line = self.line_of(alloc, class)?.into_vec();
        let mut todo = Vec::new(alloc);
        while let Some(here) = line.pop() {
            self.put_interfaces(alloc, here, &mut todo)?;
        }
        Ok(todo)
    }

    /// The superinterfaces of a class, each once, in the order in which members are sought in them.
    fn sought_in(&self, alloc: Global, class: u32) -> Result<Seq<u32>, AllocError>
        requires { IsTrue (is_linked self.now.classes) }
        ensures { IfOk result (λ row. IsSought self.now.classes class row) }
    {
        let mut seen = vec![in alloc; false; self.classes.len()]?;
        let mut todo = self.interfaces_along(alloc, class)?;
        let mut found = Seq::new(alloc);
        while let Some(interface) = todo.pop() {
            if !seen[interface as usize] {
                seen[interface as usize] = true;
                found.push(interface)?;
                self.put_interfaces(alloc, interface, &mut todo)?;
            }
        }
        Ok(found)
    }

    /// The superinterfaces of each class, in the order in which members are sought in them.
    pub(crate) fn sought_table(&self, alloc: Global) -> Result<Seq<Seq<u32>>, AllocError>
        requires { IsTrue (is_linked self.now.classes) }
        ensures { IfOk result (λ rows. AreSought self.now.classes (length self.now.classes) rows) }
    {
        let mut rows = Seq::new(alloc);
        for class in 0..self.classes.len() {
            rows.push(self.sought_in(alloc, class as u32)?)?;
        }
        Ok(rows)
    }
}

impl<'a> World<'a> {
    /// The superinterfaces of a class, in the order in which members are sought in them.
    fn sought_in(&self, class: u32) -> &[u32]
        ensures { IsSought self.now.roster.classes class result.now }
    {
        match self.sought.get(class as usize) {
            Some(row) => row.as_slice(),
            None => &[],
        }
    }

    /// The first of some interfaces that declares a method of that name and descriptor, with the method's place.
    fn first_in(&self, interfaces: &[u32], name: &[u8], desc: &[u8]) -> Option<(u32, u32)>
        ensures { result ≡ first_found (place_in self.now.roster.classes Method name.now desc.now) interfaces.now }
    {
        for interface in interfaces {
            if let Some(place) = self.place_in(Wanted::Method, *interface, name, desc) {
                return Some((*interface, place));
            }
        }
        None
    }

    /// The first superinterface of a class that declares a method of that name and descriptor, with the method's place.
    pub(crate) fn first_in_interfaces(
        &self,
        class: u32,
        name: &[u8],
        desc: &[u8],
    ) -> Option<(u32, u32)>
        ensures { result ≡ first_found (place_in self.now.roster.classes Method name.now desc.now)
            (superinterfaces_of self.now.roster.classes class) }
    {
        self.first_in(self.sought_in(class), name, desc)
    }
}
