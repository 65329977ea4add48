//! Laws about a heap in which one field or item of an object is set to a value. They run nothing.
//!
//! The three facts on which writing in abstract heaps rests, over concrete heaps alone; and what writes of numbers keep.
ghost use Rattle.jvm_values.specs.Writes.{WriteKeeps, PathSplits, WriteGains, WriteMakesNoCycle, NullKeepsShapes, IntWritesKeep};
ghost use Rattle.jvm_values.specs.Writes.{NumberWritesKeep};

/// A value whose region lacks the object keeps its region, the paths in it, its shapes and its term.
pub fn write_keeps()
    ensures { WriteKeeps }
{}

/// A path after a write is a path before it, or its start reached the object, and the written value reaches its end.
pub fn path_splits()
    ensures { PathSplits }
{}

/// A value whose region has the object still has it, and gains at most the region of the written value.
pub fn write_gains()
    ensures { WriteGains }
{}

/// Where the written value does not reach the object, no value whose region has no cycle gets one.
pub fn write_makes_no_cycle()
    ensures { WriteMakesNoCycle }
{}

/// Where null is written, each value that had the shape of a tree or of a dag keeps it.
pub fn null_keeps_shapes()
    ensures { NullKeepsShapes }
{}

/// Where an int is written over an int, each value keeps its region, the paths in it, its shapes and its term.
pub fn int_writes_keep()
    ensures { IntWritesKeep }
{}

/// Where items of an array of numbers change, each value keeps its region, the paths in it, its shapes and its term.
pub fn number_writes_keep()
    ensures { NumberWritesKeep }
{}
