//! Whether methods call each other in a cycle.
ghost use Rattle.std.specs.Prelude.{◌<◌, length, IfOk};
ghost use Rattle.class_program.specs.Views.{program_of};
ghost use Rattle.call_graph.specs.Calls.{Answers, IsNameOf};

use crate::calls::graph;
use crate::fault::CallFault;
use class_program::Program;
use class_world::MethodName;
use list_views::Seq;
use number_graphs::{Ranking, cycles_are_listed, falling_has_no_cycle, rank};
use std::alloc::{AllocError, Global};

/// The name of the method of a number.
///
/// # Errors
///
/// Want of memory.
pub fn method_name(
    alloc: Global,
    program: &Program<'_>,
    number: u32,
) -> Result<MethodName, AllocError>
    requires { number < length program.now.methods }
    ensures { IfOk result (λ name. IsNameOf (program_of program.now) number name) }
{
    program.is_good();
    let method = program.methods.at(number as usize);
    let class = Seq::from_slice(alloc, program.world.name_of(method.class))?;
    let name = Seq::from_slice(alloc, method.name.as_slice())?;
    let desc = Seq::from_slice(alloc, method.desc.as_slice())?;
    Ok(MethodName { class, name, desc })
}

/// Tests that no method can call itself, over one or more calls. Every instruction of a method counts, and a call that selects
/// counts with all that it can select.
///
/// # Errors
///
/// `Recursive` with the least method on a cycle of calls, by number; want of memory.
pub fn acyclic(alloc: Global, program: &Program<'_>) -> Result<(), CallFault>
    ensures { Answers (program_of program.now) result }
{
    cycles_are_listed();
    falling_has_no_cycle();
    let graph = graph(alloc, program)?;
    match rank(alloc, graph.as_slice())? {
        Ranking::Ranks(_) => Ok(()),
        Ranking::Cycle(number) => {
            let method = method_name(alloc, program, number)?;
            Err(CallFault::Recursive { method })
        }
    }
}
