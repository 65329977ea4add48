//! What the calls promise of the machine's states, for the proofs of other crates. They run nothing.
ghost use Rattle.abs_heap.specs.Laws.{NullSplits, ClassesSplit, EqualSplits, ItemsGoOn, ObjectsGoOn, ArraysGoOn, WritesGoOn};
ghost use Rattle.abs_heap.specs.Laws.{ValuesGoOn, IntWritesGoOn, NumberWritesGoOn};

/// Whatever fits a state in which an id's object may be null fits one of the two children of that split.
pub fn null_splits()
    ensures { NullSplits }
{}

/// Whatever fits a state fits, with a new object at its heap's end, the child in which that object is made.
pub fn objects_go_on()
    ensures { ObjectsGoOn }
{}

/// Whatever fits a state fits, with a new array at its heap's end, the child in which that array is made.
pub fn arrays_go_on()
    ensures { ArraysGoOn }
{}

/// Whatever fits a state fits the child in which an item of an array of references is read, with the item's id standing for it.
pub fn items_go_on()
    ensures { ItemsGoOn }
{}

/// Whatever fits a state in which two ids may stand for one object fits the child in which they are one, or the one in which they
/// are two.
pub fn equal_splits()
    ensures { EqualSplits }
{}

/// Whatever fits a state fits, after a write of a reference into a field or an item of an array, the child of that write.
pub fn writes_go_on()
    ensures { WritesGoOn }
{}

/// Whatever fits a state fits, where an id's object is below a type and no known id stands for it, one of the children of a split of
/// that object by class.
pub fn classes_split()
    ensures { ClassesSplit }
{}

/// Whatever fits a state fits the child in which an int, or null, gets a fresh id, with that id standing for it.
pub fn values_go_on()
    ensures { ValuesGoOn }
{}

/// Whatever fits a state fits, after a write of an int into a field of a known instance, the child whose cell names the written id.
pub fn int_writes_go_on()
    ensures { IntWritesGoOn }
{}

/// Whatever fits a state fits it still where items of an array of numbers change.
pub fn number_writes_go_on()
    ensures { NumberWritesGoOn }
{}
