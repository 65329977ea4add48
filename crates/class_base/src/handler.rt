//! Entries of exception tables (JVM specification, SE 8, section 4.7.3).

/// An entry of an exception table. Places are counted in bytes from the start of the code.
#[derive(Clone, Copy, PartialEq, Eq)]
pub struct Handler {
    /// Where the range begins.
    pub start: u16,
    /// Where the range ends; the instruction there is not part of it.
    pub end: u16,
    /// Where the handler begins.
    pub handler: u16,
    /// The pool entry of the class that is caught, or 0 for all.
    pub catch: u16,
}
