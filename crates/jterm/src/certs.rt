//! Commands over certificates, over the bytes of their files.
ghost use Rattle.std.specs.Prelude.{length, map, IfOk};
ghost use Rattle.class_calls.specs.declared.command_rows.table.Request.TheVariants.{Migrate, Bound, Loop, Throws};
ghost use Rattle.class_calls.specs.command_rows.Rows.{Takes};
ghost use Rattle.jterm.specs.Decision.{HoldsClaim, IsAnswer};

use crate::decision::judged;
use crate::verdict::Verdict;
use cert_calls::bound_call::bound_line;
use cert_calls::loop_call::loop_line;
use cert_calls::throws_call::throws_line;
use cert_making::migrate_call::migrate_line;
use input_steps::Refused;
use std::alloc::Global;

/// What `migrate` says of the bytes of a certificate, of a description and of classes.
pub(crate) fn migrated(alloc: Global, inputs: &[Vec<u8>]) -> Result<Verdict, Refused>
    requires { Takes Migrate (length inputs.now) }
    ensures headline { IfOk result (λ verdict. HoldsClaim Migrate (map (λ file. file.items) inputs.now) verdict) }
    ensures answer { IsAnswer Migrate (map (λ file. file.items) inputs.now) result }
{
    judged(migrate_line(
        alloc,
        inputs[0].as_slice(),
        inputs[1].as_slice(),
        &inputs[2..],
    ))
}

/// What `bound` says of the bytes of a bound, of a certificate, of a description and of classes.
pub(crate) fn bounded(alloc: Global, inputs: &[Vec<u8>]) -> Result<Verdict, Refused>
    requires { Takes Bound (length inputs.now) }
    ensures headline { IfOk result (λ verdict. HoldsClaim Bound (map (λ file. file.items) inputs.now) verdict) }
    ensures answer { IsAnswer Bound (map (λ file. file.items) inputs.now) result }
{
    judged(bound_line(
        alloc,
        inputs[0].as_slice(),
        inputs[1].as_slice(),
        inputs[2].as_slice(),
        &inputs[3..],
    ))
}

/// What `loop` says of the bytes of a certificate, of a state, of a description and of classes.
pub(crate) fn looped(alloc: Global, inputs: &[Vec<u8>]) -> Result<Verdict, Refused>
    requires { Takes Loop (length inputs.now) }
    ensures headline { IfOk result (λ verdict. HoldsClaim Loop (map (λ file. file.items) inputs.now) verdict) }
    ensures answer { IsAnswer Loop (map (λ file. file.items) inputs.now) result }
{
    judged(loop_line(
        alloc,
        inputs[0].as_slice(),
        inputs[1].as_slice(),
        inputs[2].as_slice(),
        &inputs[3..],
    ))
}

/// What `throws` says of the bytes of a certificate, of a description and of classes.
pub(crate) fn reported(alloc: Global, inputs: &[Vec<u8>]) -> Result<Verdict, Refused>
    requires { Takes Throws (length inputs.now) }
    ensures headline { IfOk result (λ verdict. HoldsClaim Throws (map (λ file. file.items) inputs.now) verdict) }
    ensures answer { IsAnswer Throws (map (λ file. file.items) inputs.now) result }
{
    judged(throws_line(
        alloc,
        inputs[0].as_slice(),
        inputs[1].as_slice(),
        &inputs[2..],
    ))
}
