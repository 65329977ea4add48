//! A class file, as far as it tells of its source.

use crate::java_lines::attributes::{
    attributes_of, behind_members, code_attributes, content_named,
};
use crate::java_lines::fields::{behind, u2};
use crate::java_lines::tables::{line_at, name_at};
use class_pool::{Pool, PoolFault};
use std::alloc::{AllocError, Global};

/// A class file, as far as it tells of its source.
#[derive(Drop)]
pub struct JavaFile<'a> {
    pool: Pool<'a>,
    fields: &'a [u8],
    methods: &'a [u8],
    attributes: &'a [u8],
}

/// What stands behind the class's own names and those of its interfaces.
fn behind_names(bytes: &[u8]) -> Option<&[u8]> {
    let rest = behind(bytes, 6)?;
    let (count, rest) = u2(rest)?;
    behind(rest, usize::from(count) * 2)
}

/// The file of a pool and of what stands behind it.
fn of_parts<'a>(pool: Pool<'a>, rest: &'a [u8]) -> Option<JavaFile<'a>> {
    let fields = behind_names(rest)?;
    let methods = behind_members(fields)?;
    let attributes = behind_members(methods)?;
    Some(JavaFile {
        pool,
        fields,
        methods,
        attributes,
    })
}

impl<'a> JavaFile<'a> {
    /// What the bytes of a class file tell; None where they are none.
    ///
    /// # Errors
    ///
    /// Want of memory.
    pub fn read(alloc: Global, file: &'a [u8]) -> Result<Option<JavaFile<'a>>, AllocError> {
        match Pool::read(alloc, file, 8) {
            Ok((pool, next)) => match behind(file, next) {
                Some(rest) => Ok(of_parts(pool, rest)),
                None => Ok(None),
            },
            Err(PoolFault::Memory) => Err(AllocError),
            Err(_) => Ok(None),
        }
    }

    /// The name of the source file.
    pub fn source(&self) -> Option<&'a [u8]> {
        let content = content_named(&self.pool, self.attributes, b"SourceFile")?;
        let (entry, _) = u2(content)?;
        self.pool.utf8(entry)
    }

    /// A table of the code of the method of that name and descriptor.
    fn table(&self, name: &[u8], desc: &[u8], table: &[u8]) -> Option<&'a [u8]> {
        let own = attributes_of(&self.pool, self.methods, name, desc)?;
        let code = content_named(&self.pool, own, b"Code")?;
        content_named(&self.pool, code_attributes(code)?, table)
    }

    /// The line of a place in the code of the method of that name and descriptor.
    pub fn line(&self, name: &[u8], desc: &[u8], pc: u16) -> Option<u16> {
        line_at(self.table(name, desc, b"LineNumberTable")?, pc)
    }

    /// The name that a local variable has at a place in the code of the method of that name and descriptor.
    pub fn variable(&self, name: &[u8], desc: &[u8], pc: u16, index: u16) -> Option<&'a [u8]> {
        let table = self.table(name, desc, b"LocalVariableTable")?;
        self.pool.utf8(name_at(table, index, pc)?)
    }

    /// Whether the field of that name and descriptor has a constant as its first value.
    pub fn has_constant(&self, name: &[u8], desc: &[u8]) -> bool {
        match attributes_of(&self.pool, self.fields, name, desc) {
            Some(own) => content_named(&self.pool, own, b"ConstantValue").is_some(),
            None => false,
        }
    }
}
