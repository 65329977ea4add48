//! Places in sources, in words: those of one file together, as `File.java:17,23`. A place whose line isn't known is told by its method, as
//! `CLASS.NAMEDESC@2`.

use crate::survey_notes::sources::{CodePlace, Sources, line_of};
use list_views::Seq;
use std::alloc::{AllocError, Global};

/// Places of one file, or of one method.
#[derive(Drop)]
struct Group {
    /// What stands before the numbers.
    head: Seq<u8>,
    /// The numbers, rising.
    numbers: Vec<usize>,
}

/// Places in sources.
#[derive(Drop)]
pub struct Places {
    groups: Vec<Group>,
}

/// Where a place is: what stands before its number, and the number.
#[derive(Drop)]
struct Located {
    head: Seq<u8>,
    number: usize,
}

/// A source file and a colon.
fn source_head(alloc: Global, source: &[u8]) -> Result<Seq<u8>, AllocError> {
    let mut head = Seq::from_slice(alloc, source)?;
    head.extend_from_slice(b":")?;
    Ok(head)
}

/// A method as `CLASS.NAMEDESC`, and `@`.
fn method_head(alloc: Global, place: CodePlace<'_>) -> Result<Seq<u8>, AllocError> {
    let mut head = Seq::from_slice(alloc, place.class)?;
    head.extend_from_slice(b".")?;
    head.extend_from_slice(place.name)?;
    head.extend_from_slice(place.desc)?;
    head.extend_from_slice(b"@")?;
    Ok(head)
}

/// Where a place is by its method alone.
fn by_method(alloc: Global, place: CodePlace<'_>) -> Result<Located, AllocError> {
    Ok(Located {
        head: method_head(alloc, place)?,
        number: usize::from(place.pc),
    })
}

/// Where a place is, by its line where that is known.
fn locate(
    alloc: Global,
    sources: &Sources<'_, '_>,
    place: CodePlace<'_>,
) -> Result<Located, AllocError> {
    let Some(java) = sources.java_of(alloc, place.class)? else {
        return by_method(alloc, place);
    };
    let Some((source, line)) = line_of(&java, place) else {
        return by_method(alloc, place);
    };
    Ok(Located {
        head: source_head(alloc, source)?,
        number: usize::from(line),
    })
}

impl Group {
    /// Takes one more number, where it isn't there yet.
    fn add(&mut self, number: usize) -> Result<(), AllocError> {
        let below = self.numbers.iter().filter(|n| **n < number).count();
        if self.numbers.get(below) != Some(&number) {
            self.numbers.insert(below, number)?;
        }
        Ok(())
    }

    /// Puts the group behind a text.
    fn put(&self, alloc: Global, text: &mut Seq<u8>) -> Result<(), AllocError> {
        text.extend_from_slice(self.head.as_slice())?;
        for (n, number) in self.numbers.iter().enumerate() {
            text.extend_from_slice(if n == 0 { b"" } else { b"," })?;
            let digits = format!(in alloc; "{number}")?;
            text.extend_from_slice(digits.as_bytes())?;
        }
        Ok(())
    }
}

/// The group of one place.
fn group_of(alloc: Global, located: Located) -> Result<Group, AllocError> {
    let mut numbers = Vec::new(alloc);
    numbers.push(located.number)?;
    Ok(Group {
        head: located.head,
        numbers,
    })
}

impl Places {
    /// No places.
    pub fn new(alloc: Global) -> Places {
        Places {
            groups: Vec::new(alloc),
        }
    }

    /// Takes one more place, where it isn't there yet.
    ///
    /// # Errors
    ///
    /// Want of memory.
    pub fn add(
        &mut self,
        alloc: Global,
        sources: &Sources<'_, '_>,
        place: CodePlace<'_>,
    ) -> Result<(), AllocError> {
        let located = locate(alloc, sources, place)?;
        for n in 0..self.groups.len() {
            if self.groups[n].head.as_slice() == located.head.as_slice() {
                return self.groups[n].add(located.number);
            }
        }
        self.groups.push(group_of(alloc, located)?)?;
        Ok(())
    }

    /// Puts the places behind a text, a blank before each group.
    ///
    /// # Errors
    ///
    /// Want of memory.
    pub fn put(&self, alloc: Global, text: &mut Seq<u8>) -> Result<(), AllocError> {
        for group in self.groups.iter() {
            text.extend_from_slice(b" ")?;
            group.put(alloc, text)?;
        }
        Ok(())
    }
}
