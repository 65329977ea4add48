//! What types mean in a world.
use code_forms::list_views::Bytes;
use jvm_values::Slot;

/// What a type is in a world.
#[derive(Drop)]
pub enum Meaning<'t> {
    /// A slot of it holds this.
    Known(Slot),
    /// It is, or is an array of, long, float or double.
    Unsupported,
    /// It is of the class of this name, which isn't there.
    Missing(Bytes<'t>),
}
