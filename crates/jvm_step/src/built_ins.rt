//! The numbers of the built-in classes of which instructions throw objects.

/// `java/lang/NullPointerException`.
pub(crate) const NULL_POINTER_EXCEPTION: u32 = 4;

/// `java/lang/ArithmeticException`.
pub(crate) const ARITHMETIC_EXCEPTION: u32 = 5;

/// `java/lang/ArrayIndexOutOfBoundsException`.
pub(crate) const ARRAY_INDEX_OUT_OF_BOUNDS_EXCEPTION: u32 = 7;

/// `java/lang/NegativeArraySizeException`.
pub(crate) const NEGATIVE_ARRAY_SIZE_EXCEPTION: u32 = 8;

/// `java/lang/ClassCastException`.
pub(crate) const CLASS_CAST_EXCEPTION: u32 = 9;

/// `java/lang/ArrayStoreException`.
pub(crate) const ARRAY_STORE_EXCEPTION: u32 = 10;

/// `java/lang/IncompatibleClassChangeError`.
pub(crate) const INCOMPATIBLE_CLASS_CHANGE_ERROR: u32 = 13;

/// `java/lang/AbstractMethodError`.
pub(crate) const ABSTRACT_METHOD_ERROR: u32 = 14;
