//! The command `asm`, from the bytes of a listing to those of its class file.
//!
//! The definitions stand in `specs/Answers`.

mod call;

pub use call::class_file;
