//! What the classes of a world select, in rows by the methods that calls name.
ghost use Rattle.std.specs.Prelude.{◌≡◌, [], Some, IfOk, OnOk, if◌then◌else◌};
ghost use Rattle.std.specs.Map.{lookup};
ghost use Rattle.std.specs.Option.{option_map_or};
ghost use Rattle.class_world.specs.class_read.View.{method_content};
ghost use Rattle.class_world.specs.declared.world.MethodRef.{MethodRef};
ghost use Rattle.class_world.specs.Worlds.{classes_of};
ghost use Rattle.class_world.specs.Resolve.{method_at};
ghost use Rattle.class_world.specs.Select.{select};
ghost use Rattle.class_program.specs.Reached.{same_method};
ghost use Rattle.class_program.specs.inner.Rows.{IsRow, AreRows};

use class_world::class_read::MethodView;
use class_world::{MethodRef, World};
use indexmap::IndexMap;
use list_views::Seq;
use std::alloc::{AllocError, Global};
use std::marker::Model;

/// For each method that was put in, what each class of a world selects by the method's name and descriptor. It is seen as the
/// list of the rows, each with its method.
#[derive(Drop)]
pub(crate) struct Selections {
    rows: IndexMap<MethodRef, Seq<Option<MethodRef>>>,
}

impl Model for Selections {
    ghost use Rattle.class_program.specs.inner.Rows.{Rows};

    ghost Value = { Rows };

    ghost view = { λ s. s.rows.entries };
}

/// What each class of the world selects, by its number.
fn row_of(
    world: &World<'_>,
    alloc: Global,
    named: &MethodView<'_>,
) -> Result<Seq<Option<MethodRef>>, AllocError>
    ensures { IfOk result (λ row. IsRow (classes_of world.now) (method_content named.now) row) }
{
    let mut row = Seq::with_capacity(alloc, world.len())?;
    for class in 0..world.len() {
        row.push(world.select_in(named.name, named.desc, class as u32))?;
    }
    Ok(row)
}

impl Selections {
    pub(crate) fn new(alloc: Global) -> Selections
        ensures { result ≡ [] }
    {
        Selections {
            rows: IndexMap::new(alloc),
        }
    }

    /// The row of a method; without items where it was not put in.
    pub(crate) fn row(&self, method: MethodRef) -> &[Option<MethodRef>]
        ensures { result.now ≡ option_map_or (λ row. row) (lookup (same_method method) self.now) [] }
    {
        match self.rows.get(&method) {
            Some(row) => row.as_slice(),
            None => &[],
        }
    }

    /// Puts a row in, in the place of the method's own.
    fn put(&mut self, method: MethodRef, row: Seq<Option<MethodRef>>) -> Result<(), AllocError>
        ensures { OnOk result ((other : MethodRef)
            → lookup (same_method other) self.new
            ≡ (if same_method method other then Some row else lookup (same_method other) self.old)) }
    {
        self.rows.insert(method, row)?;
        Ok(())
    }

    /// Puts the row of a method in, unless it is there.
    ///
    /// # Errors
    ///
    /// Want of memory.
    pub(crate) fn add(
        &mut self,
        world: &World<'_>,
        alloc: Global,
        method: MethodRef,
        named: &MethodView<'_>,
    ) -> Result<(), AllocError>
        requires rows { AreRows (classes_of world.now) self.now }
        requires named { method_at (classes_of world.now) method ≡ Some (method_content named.now) }
        ensures { OnOk result (AreRows (classes_of world.now) self.new) }
    {
        if !self.rows.contains_key(&method) {
            self.put(method, row_of(world, alloc, named)?)?;
        }
        Ok(())
    }
}

/// What a class selects by the name and the descriptor of a method: from the row, and sought where the row has no place for it.
pub(crate) fn selected(
    world: &World<'_>,
    row: &[Option<MethodRef>],
    named: &MethodView<'_>,
    class: u32,
) -> Option<MethodRef>
    requires { IsRow (classes_of world.now) (method_content named.now) row.now }
    ensures { result ≡ select (classes_of world.now) named.now.name.now named.now.desc.now class }
{
    match row.get(class as usize) {
        Some(found) => *found,
        None => world.select_in(named.name, named.desc, class),
    }
}
