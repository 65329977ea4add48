//! What expansions promise of the machine. The laws are calls that do nothing when they run.
ghost use Rattle.object_steps.specs.abs_expand.Laws.{EndsEnd, StepsFitChildren};
ghost use Rattle.object_steps.specs.form_steps.inner.Lows.{Lows};

use abs_heap::{
    arrays_go_on, classes_split, equal_splits, int_writes_go_on, items_go_on, null_splits,
    number_writes_go_on, objects_go_on, values_go_on, writes_go_on,
};
use abs_reach::dropped_ids_keep_sizes;
use class_world::no_interface_is_below_a_class;
use jvm_values::{int_writes_keep, number_writes_keep};
use object_steps::jvm_run::steps_are_typed;

/// The laws of heaps and of dropping that steps rest on.
fn low_laws()
    ensures { Lows }
{
    null_splits();
    classes_split();
    equal_splits();
    writes_go_on();
    values_go_on();
    objects_go_on();
    arrays_go_on();
    items_go_on();
    int_writes_go_on();
    int_writes_keep();
    number_writes_go_on();
    number_writes_keep();
    dropped_ids_keep_sizes();
}

/// Where the plan of a good state of a closed program says that the run ends, the next step of a typed state that fits is an end.
pub fn ends_end()
    ensures { EndsEnd }
{
    low_laws();
    steps_are_typed();
    no_interface_is_below_a_class();
}

/// Else the state after the next step, or the same one where the plan is a split, fits a child, by an edge.
pub fn steps_fit_children()
    ensures { StepsFitChildren }
{
    low_laws();
    steps_are_typed();
    no_interface_is_below_a_class();
}
