//! What a class file's attributes tell of its source: the file's name, the lines of places in its codes, the names of local variables, and
//! which fields have a constant (JVM specification, SE 8, sections 4.7.2, 4.7.10, 4.7.12 and 4.7.13). Nothing is claimed of it: a class file may
//! say here what it likes.

mod attributes;
mod fields;
mod java_file;
mod tables;

pub use java_file::JavaFile;
