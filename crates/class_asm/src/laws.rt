//! What is true of every class file that a listing gives.

ghost use Rattle.std.specs.Prelude.{◌≡◌, ℕ, List, Ok};
ghost use Rattle.class_asm.specs.Classes.{assembled};
ghost use Rattle.class_asm.specs.ClassFiles.{IsClassFile};

/// What [`assemble`](crate::assemble) gives is the file of a class that says what the listing's lines say: by text, its name,
/// superclass, interfaces, flags, fields and methods are those of the lines; the instructions of each code are the lines'
/// instructions in order, their operands by what they say and their targets at the places of their labels' lines; and the
/// exception tables are those of the `catch` lines. It keeps every rule of class files that reading tests (JVM specification,
/// sections 4.1 to 4.7): pool, names, descriptors, flags, code lengths, exception tables, distinct members. So where its
/// major version is one that is read, the bytes spell exactly that class.
pub fn assembled_keeps_rules()
    ensures { (text bytes : List ℕ) → assembled text ≡ Ok bytes → IsClassFile text bytes }
{}
