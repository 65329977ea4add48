//! The numbers of the built-in classes, the same in every world.

/// `java/lang/Object`, which every class is below.
pub const OBJECT: u32 = 0;
/// `java/lang/Throwable`.
pub const THROWABLE: u32 = 1;
/// `java/lang/Exception`.
pub const EXCEPTION: u32 = 2;
/// `java/lang/RuntimeException`.
pub const RUNTIME_EXCEPTION: u32 = 3;
/// `java/lang/NullPointerException`.
pub const NULL_POINTER_EXCEPTION: u32 = 4;
/// `java/lang/ArithmeticException`, thrown by a division by 0.
pub const ARITHMETIC_EXCEPTION: u32 = 5;
/// `java/lang/IndexOutOfBoundsException`.
pub const INDEX_OUT_OF_BOUNDS_EXCEPTION: u32 = 6;
/// `java/lang/ArrayIndexOutOfBoundsException`.
pub const ARRAY_INDEX_OUT_OF_BOUNDS_EXCEPTION: u32 = 7;
/// `java/lang/NegativeArraySizeException`.
pub const NEGATIVE_ARRAY_SIZE_EXCEPTION: u32 = 8;
/// `java/lang/ClassCastException`.
pub const CLASS_CAST_EXCEPTION: u32 = 9;
/// `java/lang/ArrayStoreException`.
pub const ARRAY_STORE_EXCEPTION: u32 = 10;
/// `java/lang/Error`.
pub const ERROR: u32 = 11;
/// `java/lang/LinkageError`.
pub const LINKAGE_ERROR: u32 = 12;
/// `java/lang/IncompatibleClassChangeError`, thrown where an object lacks the interface of a call.
pub const INCOMPATIBLE_CLASS_CHANGE_ERROR: u32 = 13;
/// `java/lang/AbstractMethodError`, thrown where a call selects no method with a body.
pub const ABSTRACT_METHOD_ERROR: u32 = 14;

/// The number of built-in classes: given classes are numbered from here on.
pub const BUILT_IN_CLASSES: u32 = 15;
