//! The class files that are surveyed, and where places in their codes come from.

use crate::java_lines::JavaFile;
use class_read::ClassView;
use list_views::Seq;
use std::alloc::{AllocError, Global};

/// The class files that are surveyed, and the classes that they spell, in the same order.
#[derive(Clone, Copy)]
pub struct Sources<'s, 'a> {
    /// The files.
    pub files: &'s [Vec<u8>],
    /// Their classes.
    pub classes: &'s [ClassView<'a>],
}

/// A place in a method's code.
#[derive(Clone, Copy)]
pub struct CodePlace<'p> {
    /// The name of the class that declares the method.
    pub class: &'p [u8],
    /// The method's name.
    pub name: &'p [u8],
    /// Its descriptor.
    pub desc: &'p [u8],
    /// The place of an instruction.
    pub pc: u16,
}

impl<'s, 'a> Sources<'s, 'a> {
    /// The file of the class of a name.
    fn file_of(&self, class: &[u8]) -> Option<&'s [u8]> {
        for (file, view) in self.files.iter().zip(self.classes.iter()) {
            if view.name == class {
                return Some(file.as_slice());
            }
        }
        None
    }

    /// What the file of the class of a name tells of its source.
    pub(crate) fn java_of(
        &self,
        alloc: Global,
        class: &[u8],
    ) -> Result<Option<JavaFile<'s>>, AllocError> {
        match self.file_of(class) {
            Some(file) => JavaFile::read(alloc, file),
            None => Ok(None),
        }
    }
}

impl<'s, 'a> Sources<'s, 'a> {
    /// The name of a local variable at a place, where the file tells it.
    ///
    /// # Errors
    ///
    /// Want of memory.
    pub fn variable(
        &self,
        alloc: Global,
        place: CodePlace<'_>,
        local: u16,
    ) -> Result<Option<Seq<u8>>, AllocError> {
        let Some(java) = self.java_of(alloc, place.class)? else {
            return Ok(None);
        };
        match java.variable(place.name, place.desc, place.pc, local) {
            Some(name) => Ok(Some(Seq::from_slice(alloc, name)?)),
            None => Ok(None),
        }
    }
}

/// The line of a place, and the file that has it.
pub(crate) fn line_of<'j>(java: &JavaFile<'j>, place: CodePlace<'_>) -> Option<(&'j [u8], u16)> {
    let source = java.source()?;
    let line = java.line(place.name, place.desc, place.pc)?;
    Some((source, line))
}
