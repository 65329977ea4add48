//! What class files and their codes have in common: access flags, class names, descriptors, entries of exception tables
//! (JVM specification, SE 8, chapter 4), sets of names and of members, and how much of them the program takes.
#![tactic(auto)]

mod class_name;
mod flags;
mod handler;
mod key_set;
mod limits;
mod member_kind;
mod methods;
mod name_set;
mod types;

pub use class_name::is_class_name;
pub use flags::{
    ABSTRACT, FINAL, INTERFACE, NATIVE, PRIVATE, PUBLIC, STATIC, SUPER, SYNCHRONIZED, has_flag,
};
pub use handler::Handler;
pub use key_set::KeySet;
pub use limits::{MOST_CLASSES, MOST_FILE_BYTES};
pub use list_views;
pub use member_kind::{MemberKind, is_descriptor};
pub use methods::{MethodType, method_type, method_words};
pub use name_set::NameSet;
pub use types::{Element, FieldType, field_type, type_at};
