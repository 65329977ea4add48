//! Why the bytes of a bound are refused beside a valid certificate.
use crate::fault::BoundFault;
use bound_text::JsonFault;

/// Why the bytes of a bound are refused beside a valid certificate. Want of memory never stands here.
#[derive(Drop)]
pub enum BoundRefusal {
    /// They say no text of a bound.
    NoText(JsonFault),
    /// The entries of the text have this fault first.
    Faulty(BoundFault),
}
