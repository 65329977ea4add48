//! What the members of a class have as descriptors (JVM specification, SE 8, sections 4.3.2 and 4.3.3).
ghost use Rattle.std.specs.Prelude.{◌≡◌, ◌↔◌, IsTrue};
ghost use Rattle.class_base.specs.MemberKinds.{is_descriptor, receiver_words, IsDescriptor};

use crate::flags::{STATIC, has_flag};
use crate::methods::method_words;
use crate::types::field_type;

/// What a member of a class is.
#[derive(Clone, Copy, PartialEq, Eq)]
pub enum MemberKind {
    /// A field.
    Field,
    /// A method, `<init>` and `<clinit>` included.
    Method,
}

fn receiver_words(flags: u16) -> usize
    ensures { result ≡ receiver_words flags }
{
    if has_flag(flags, STATIC) { 0 } else { 1 }
}

#[tactic(auto, unfolding(crate::specs::MemberKinds::is_descriptor))]
fn describes(kind: MemberKind, flags: u16, bytes: &[u8]) -> bool
    ensures { result ≡ is_descriptor kind flags bytes.now }
{
    match kind {
        MemberKind::Field => field_type(bytes).is_some(),
        MemberKind::Method => match method_words(bytes) {
            Some(words) => words <= 255 - receiver_words(flags),
            None => false,
        },
    }
}

/// Whether the bytes are the descriptor of such a member of a class, with these access flags. An array has at most 255
/// dimensions. A method's parameters have at most 255 words with the receiver, which is there unless the flags have STATIC.
/// A field's flags play no part.
pub fn is_descriptor(kind: MemberKind, flags: u16, bytes: &[u8]) -> bool
    ensures computed { result ≡ is_descriptor kind flags bytes.now }
    ensures exact { IsTrue result ↔ IsDescriptor kind flags bytes.now }
{
    describes(kind, flags, bytes)
}
