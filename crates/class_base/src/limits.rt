//! How much the program takes: limits of its own, below those of the format.

/// The most bytes that a file may have which is no certificate: a class file, a listing of one, a description or a state. 1 MiB.
pub const MOST_FILE_BYTES: usize = 1 << 20;

/// The most class files that one program may have. The classes that are built in aren't counted.
pub const MOST_CLASSES: usize = 256;
