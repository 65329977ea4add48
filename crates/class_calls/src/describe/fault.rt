//! Why there is no list of methods, or no description.
use crate::describe::json::{put, put_number};
use input_steps::{Fault, Place, Refused};
use std::alloc::{AllocError, AllocFailed, Global};

/// Why there is no list of methods, or no description.
#[derive(Drop)]
pub enum DescribeFault {
    /// The class files have this fault at this place: one of them is no class file, or they make no program.
    Classes {
        /// The file, or the step that has the fault.
        place: Place,
        /// What is wrong there.
        fault: Fault,
    },
    /// The first class declares no method of that name that can be described.
    NoMethod,
    /// The first class declares several methods of that name that can be described: the descriptor has to stand behind the name.
    SeveralMethods,
    /// A name can't stand in a text of JSON: it isn't UTF-8.
    Unwritable,
    /// Want of memory.
    Memory,
}

impl From<AllocError> for DescribeFault {
    fn from(_: AllocError) -> DescribeFault {
        DescribeFault::Memory
    }
}

impl<T: Drop> From<AllocFailed<T>> for DescribeFault {
    fn from(_: AllocFailed<T>) -> DescribeFault {
        DescribeFault::Memory
    }
}

impl From<Refused> for DescribeFault {
    fn from(refused: Refused) -> DescribeFault {
        match refused {
            Refused::At { place, fault } => DescribeFault::Classes { place, fault },
            Refused::Memory => DescribeFault::Memory,
        }
    }
}

/// Puts a place of class files behind a text.
fn put_place(text: &mut Vec<u8>, alloc: Global, place: Place) -> Result<(), AllocError> {
    match place {
        Place::Class(number) => {
            put_number(text, alloc, b"class ", number as usize)?;
            put(text, b": ")
        }
        _ => put(text, b"link: "),
    }
}

/// Puts what is wrong at a place behind a text.
fn put_fault(text: &mut Vec<u8>, alloc: Global, fault: &Fault) -> Result<(), AllocError> {
    let fault = fault.text(alloc)?;
    put(text, fault.as_slice())
}

impl DescribeFault {
    /// The fault in words: the place that has it, and what is wrong there.
    ///
    /// # Errors
    ///
    /// Want of memory.
    pub fn text(&self, alloc: Global) -> Result<Vec<u8>, AllocError> {
        let mut text = Vec::new(alloc);
        self.put_behind(&mut text, alloc)?;
        Ok(text)
    }

    fn put_behind(&self, text: &mut Vec<u8>, alloc: Global) -> Result<(), AllocError> {
        match self {
            DescribeFault::Classes { place, fault } => {
                put_place(text, alloc, *place)?;
                put_fault(text, alloc, fault)
            }
            DescribeFault::NoMethod => put(text, b"method: NoMethod"),
            DescribeFault::SeveralMethods => put(text, b"method: SeveralMethods"),
            DescribeFault::Unwritable => put(text, b"description: Unwritable"),
            DescribeFault::Memory => put(text, b"memory"),
        }
    }
}
