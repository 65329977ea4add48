//! The entry method and the class files of a case, and the program that they give.
ghost use Rattle.std.specs.Prelude.{◌<◌, ◌≤◌};

use crate::Case;
use crate::entry_cases::classes::{class_files, link};
use anyhow::{Context, Result, bail};
use class_program::Program;
use class_world::{LinkFault, MethodRef, World};
use std::alloc::Global;

/// The entry method's class, name and descriptor, and the contents of the class files.
#[derive(Drop)]
pub struct Entry<'a> {
    class: &'a str,
    name: &'a str,
    desc: &'a str,
    files: Vec<Vec<u8>>,
}

impl<'a> Entry<'a> {
    /// The entry method in three input fields from `first` on, and the class files in all fields behind these.
    pub fn read(alloc: Global, case: &Case<'a>, first: usize) -> Result<Entry<'a>>
        requires { first ≤ 3 }
    {
        Entry::of(case, first, class_files(alloc, case, first + 3)?)
    }

    /// The entry method in three input fields from `first` on, and the contents of class files.
    pub fn of(case: &Case<'a>, first: usize, files: Vec<Vec<u8>>) -> Result<Entry<'a>>
        requires { first ≤ 3 }
    {
        Ok(Entry {
            class: case.text(first)?,
            name: case.text(first + 1)?,
            desc: case.text(first + 2)?,
            files,
        })
    }

    /// The program of the classes and the methods that the entry reaches, or the first fault of linking.
    pub fn close(&self, alloc: Global) -> Result<Result<Program<'_>, LinkFault>> {
        match link(alloc, self.files.as_slice())? {
            Ok(world) => self.close_in(alloc, world),
            Err(fault) => Ok(Err(fault)),
        }
    }

    fn close_in<'p>(
        &self,
        alloc: Global,
        world: World<'p>,
    ) -> Result<Result<Program<'p>, LinkFault>> {
        let entry = self.find_in(&world)?;
        if !world.has_body(entry) {
            bail!("the entry is abstract");
        }
        Ok(Program::close(alloc, world, entry))
    }

    fn find_in(&self, world: &World<'_>) -> Result<MethodRef> {
        world
            .find(
                self.class.as_bytes(),
                self.name.as_bytes(),
                self.desc.as_bytes(),
            )
            .context("the entry is no method of the world")
    }

    /// The program of the classes and the methods that the entry reaches.
    pub fn program(&self, alloc: Global) -> Result<Program<'_>> {
        self.close(alloc)?
            .ok()
            .context("the classes give no program")
    }
}

/// What answers cases over a program.
pub trait ProgramAnswers {
    /// The answer to a case.
    fn answer(alloc: Global, program: &Program<'_>, case: &Case<'_>) -> Result<String>;
}

/// The answer to a case over the program of the entry method in three input fields from `first` on and of the class files behind these.
pub fn answer_in_program<A: ProgramAnswers>(
    alloc: Global,
    case: &Case<'_>,
    first: usize,
) -> Result<String>
    requires { first ≤ 3 }
{
    let entry = Entry::read(alloc, case, first)?;
    answer_from_entry::<A>(alloc, case, &entry)
}

/// The answer to a case over the program of an entry method.
pub fn answer_from_entry<A: ProgramAnswers>(
    alloc: Global,
    case: &Case<'_>,
    entry: &Entry<'_>,
) -> Result<String> {
    let program = entry.program(alloc)?;
    A::answer(alloc, &program, case)
}
