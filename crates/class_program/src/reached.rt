//! Methods by number, found through an index.
ghost use Rattle.std.specs.Prelude.{◌≡◌, ◌≤◌, ◌-◌, [], length, position, slice_get, OnOk};
ghost use Rattle.class_program.specs.Reached.{same_method, with_one};

use class_world::MethodRef;
use indexmap::IndexSet;
use std::alloc::{AllocError, Global};
use std::marker::Model;

/// The most methods that are numbered.
const MOST: usize = 0xffff_fff0;

/// Methods of a world, each once, numbered in the order in which they came. It is seen as their list.
#[derive(Drop)]
pub(crate) struct MethodRefs {
    refs: IndexSet<MethodRef>,
    ghost few: { length refs.keys ≤ 4294967280 },
}

impl Model for MethodRefs {
    ghost use Rattle.std.specs.Prelude.{List};
    ghost use Rattle.class_world.specs.declared.world.MethodRef.{MethodRef};

    ghost Value = { List MethodRef };

    ghost view = { λ s. s.refs.keys };
}

impl MethodRefs {
    pub(crate) fn new(alloc: Global) -> MethodRefs
        ensures { result ≡ [] }
    {
        MethodRefs {
            refs: IndexSet::new(alloc),
        }
    }

    /// The number of methods.
    pub(crate) fn len(&self) -> usize
        ensures { result ≡ length self.now }
    {
        self.refs.len()
    }

    /// The method of a number, or None past the last.
    pub(crate) fn get(&self, number: usize) -> Option<MethodRef>
        ensures { result ≡ slice_get self.now number }
    {
        self.refs.get_index(number).copied()
    }

    /// Puts a method at the end, unless it is there already.
    ///
    /// # Errors
    ///
    /// Want of memory, also where it would be the method behind number 4,294,967,279.
    pub(crate) fn add(&mut self, method: MethodRef) -> Result<(), AllocError>
        ensures { OnOk result (self.new ≡ with_one self.old method) }
    {
        if self.refs.len() >= MOST {
            return Err(AllocError);
        }
        self.refs.insert_full(method)?;
        Ok(())
    }

    /// The number of a method.
    pub(crate) fn number_of(&self, method: MethodRef) -> Option<u32>
        ensures { result ≡ position (same_method method) self.now }
    {
        let number = self.refs.get_index_of(&method)?;
        Some(number as u32)
    }
}
