//! Which states are heads.
ghost use Rattle.std.specs.Prelude.{◌≡◌, nat_eq};
ghost use Rattle.std.specs.List.{list_any};
ghost use Rattle.class_program.specs.Views.{program_of};
ghost use Rattle.op_forms.specs.Forms.{form_seen};
ghost use Rattle.prove_core.specs.Heads.{jumps_to, op_jumps_to, jumps_back, handles_back, is_loop_head, is_head};

use abs_cells::{AbsState, Pairs};
use class_program::{CatchRange, Method, Op, Program};
use code_forms::Case;
use op_forms::{Form, form_of};

/// Whether a place is among targets.
fn has_target(place: u16, targets: &[u16]) -> bool
    ensures { result ≡ list_any (nat_eq place) targets.now }
{
    targets.iter().any(|target| place == *target)
}

/// Whether a place is the target of a case.
fn has_case(place: u16, cases: &[Case]) -> bool
    ensures { result ≡ list_any (λ case. nat_eq place case.target) cases.now }
{
    cases.iter().any(|case| place == case.target)
}

/// Whether a form may jump to a place.
fn jumps_to(place: u16, form: &Form<'_>) -> bool
    ensures { result ≡ jumps_to place (form_seen form.now) }
{
    match form {
        Form::If(_, to) => place == *to,
        Form::IfIcmp(_, to) => place == *to,
        Form::IfAcmpeq(to) => place == *to,
        Form::IfAcmpne(to) => place == *to,
        Form::Ifnull(to) => place == *to,
        Form::Ifnonnull(to) => place == *to,
        Form::Goto(to) => place == *to,
        Form::Tableswitch {
            default,
            targets,
            ..
        } => place == *default || has_target(place, targets),
        Form::Lookupswitch { default, cases } => place == *default || has_case(place, cases),
        _ => false,
    }
}

/// Whether an instruction may jump to a place.
fn op_jumps_to(place: u16, op: &Op) -> bool
    ensures { result ≡ op_jumps_to place op.now }
{
    match form_of(op) {
        Some(form) => jumps_to(place, &form),
        None => false,
    }
}

/// Whether an instruction at a place or behind it may jump there.
fn has_jump_back(place: u16, insns: &[(u16, Op)]) -> bool
    ensures { result ≡ list_any (jumps_back place) insns.now }
{
    for (at, op) in insns {
        if place <= *at && op_jumps_to(place, op) {
            return true;
        }
    }
    false
}

/// Whether a place is the handler of a range that ends behind it.
fn has_handler_back(place: u16, table: &[CatchRange]) -> bool
    ensures { result ≡ list_any (handles_back place) table.now }
{
    table
        .iter()
        .any(|range| range.handler == place && place < range.end)
}

/// Whether a loop of the method can go on from a place.
fn is_loop_head(method: &Method<'_>, place: u16) -> bool
    ensures { result ≡ is_loop_head method.now place }
{
    has_jump_back(place, method.insns.as_slice())
        || has_handler_back(place, method.table.as_slice())
}

/// Whether a state is one at which a graph looks for earlier ones. It costs as many steps as the running method has instructions.
pub(crate) fn is_head<P: Pairs>(program: &Program<'_>, state: &AbsState<P>) -> bool
    ensures { result ≡ is_head (program_of program.now) state.now }
{
    if state.throwing().is_some() {
        return false;
    }
    let Some(frame) = state.frames().last() else {
        return false;
    };
    match program.methods.get(frame.method() as usize) {
        Some(method) => is_loop_head(method, frame.pc()),
        None => false,
    }
}
