//! Java class files (JVM specification, SE 8, chapter 4): read exactly as the bytes spell them, and written.
#![tactic(auto)]

mod attribute;
mod code;
mod fault;
mod field;
mod known;
mod member;
mod method;
mod reading;
mod rules;
mod seen;
mod text;
mod view;
mod well_formed;
mod writing;

pub use class_base::{MemberKind, is_class_name, is_descriptor, method_words};
pub use class_pool;
pub use fault::ClassFault;
pub use reading::{one_class, read_is_spelled};
pub use text::{AttrText, ClassText, MemberText};
pub use view::{ClassView, CodeView, FieldView, MethodView};
pub use writing::{class_has_text, write_class, written_is_spelled};
