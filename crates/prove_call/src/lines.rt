//! The texts of reasons. Functions that add to a text own nothing.
ghost use Rattle.std.specs.Prelude.{◌≡◌, ◌∷◌, ◌++◌, [], codes, IfOk, OnOk};
ghost use Rattle.std.specs.Fmt.{decimal};
ghost use Rattle.std.specs.List.{flat_map};
ghost use Rattle.list_views.specs.FaultWords.{joined};
ghost use Rattle.class_world.specs.Worlds.{classes_of};
ghost use Rattle.class_program.specs.Methods.{class_name};
ghost use Rattle.class_program.specs.Views.{program_of};
ghost use Rattle.prove_call.specs.Lines.{method_words, frame_text, running_text, node_text, rule_line, reason_text};

use abs_cells::{AbsFrame, AbsState, Pairs};
use class_program::{Method, Program};
use class_world::World;
use list_views::Seq;
use prove_core::{LeftRule, Reason};
use std::alloc::{AllocError, Global};
use term_graph::Graph;

/// The name of the class of a number, and nothing where there is none.
#[tactic(auto, using(crate::proofs::Texts::no_class, crate::proofs::Texts::at_class))]
fn class_name<'w>(world: &'w World<'_>, class: u32) -> &'w [u8]
    ensures { result.now ≡ class_name (classes_of world.now) class }
{
    if (class as usize) < world.len() {
        world.view(class).name
    } else {
        b""
    }
}

/// Adds what stands before a number, and its digits.
fn put_number(
    alloc: Global,
    text: &mut Seq<u8>,
    before: &[u8],
    value: usize,
) -> Result<(), AllocError>
    ensures { OnOk result (text.new ≡ text.old ++ joined (before.now ∷ decimal value ∷ [])) }
{
    text.extend_from_slice(before)?;
    let digits = format!(in alloc; "{value}")?;
    text.extend_from_slice(digits.as_bytes())
}

/// Adds a method as `CLASS.NAMEDESC`.
fn put_method(text: &mut Seq<u8>, world: &World<'_>, method: &Method<'_>) -> Result<(), AllocError>
    ensures { OnOk result (text.new ≡ text.old ++ method_words (classes_of world.now) method.now) }
{
    text.extend_from_slice(class_name(world, method.class))?;
    text.extend_from_slice(b".")?;
    text.extend_from_slice(method.name.as_slice())?;
    text.extend_from_slice(method.desc.as_slice())
}

/// Adds where a frame is: `CLASS.NAMEDESC@PC`.
fn put_frame(
    alloc: Global,
    text: &mut Seq<u8>,
    program: &Program<'_>,
    frame: &AbsFrame,
) -> Result<(), AllocError>
    ensures { OnOk result (text.new ≡ text.old ++ frame_text (program_of program.now) frame.now) }
{
    match program.methods.get(frame.method() as usize) {
        Some(method) => {
            put_method(text, &program.world, method)?;
            put_number(alloc, text, b"@", usize::from(frame.pc()))
        }
        None => Ok(()),
    }
}

/// Adds where the running one of frames is, which is the last.
#[tactic(auto, using(crate::proofs::Texts::no_frames, crate::proofs::Texts::running))]
fn put_running<P: Pairs>(
    alloc: Global,
    text: &mut Seq<u8>,
    program: &Program<'_>,
    state: &AbsState<P>,
) -> Result<(), AllocError>
    ensures { OnOk result (text.new ≡ text.old ++ running_text (program_of program.now) state.now.frames) }
{
    let frames = state.frames();
    let count = frames.len();
    if count == 0 {
        return Ok(());
    }
    let last = count - 1;
    put_frame(alloc, text, program, &frames[last])
}

/// Adds where the running frame of a node is.
#[tactic(auto, using(crate::proofs::Texts::no_node, crate::proofs::Texts::at_node))]
fn put_node<P: Pairs>(
    alloc: Global,
    text: &mut Seq<u8>,
    program: &Program<'_>,
    graph: &Graph<P>,
    n: u32,
) -> Result<(), AllocError>
    ensures { OnOk result (text.new ≡ text.old ++ node_text (program_of program.now) graph.now n) }
{
    if (n as usize) >= graph.len() {
        return Ok(());
    }
    put_running(alloc, text, program, graph.at(n).state())
}

/// Adds a blank, and where the running frame of a node is.
fn put_cut<P: Pairs>(
    alloc: Global,
    text: &mut Seq<u8>,
    program: &Program<'_>,
    graph: &Graph<P>,
    n: u32,
) -> Result<(), AllocError>
    ensures { OnOk result (text.new ≡ text.old ++ joined (codes " " ∷ node_text (program_of program.now) graph.now n ∷ [])) }
{
    text.extend_from_slice(b" ")?;
    put_node(alloc, text, program, graph, n)
}

/// Adds a rule with the cuts at its ends, as `rule R FROM TO` and a newline.
fn put_rule<P: Pairs>(
    alloc: Global,
    text: &mut Seq<u8>,
    program: &Program<'_>,
    graph: &Graph<P>,
    left: &LeftRule,
) -> Result<(), AllocError>
    ensures { OnOk result (text.new ≡ text.old ++ rule_line (program_of program.now) graph.now left.now) }
{
    put_number(alloc, text, b"rule ", left.rule as usize)?;
    put_cut(alloc, text, program, graph, left.from)?;
    put_cut(alloc, text, program, graph, left.to)?;
    text.extend_from_slice(b"\n")
}

/// Adds the lines of rules.
fn put_rules<P: Pairs>(
    alloc: Global,
    text: &mut Seq<u8>,
    program: &Program<'_>,
    graph: &Graph<P>,
    left: &[LeftRule],
) -> Result<(), AllocError>
    ensures { OnOk result (text.new ≡ text.old ++ flat_map (rule_line (program_of program.now) graph.now) left.now) }
{
    for rule in left {
        put_rule(alloc, text, program, graph, rule)?;
    }
    Ok(())
}

/// The text where rules are left.
fn component_text<P: Pairs>(
    alloc: Global,
    program: &Program<'_>,
    graph: &Graph<P>,
    left: &[LeftRule],
) -> Result<Seq<u8>, AllocError>
    ensures { IfOk result (λ text. text ≡ codes "MAYBE component\n" ++ flat_map (rule_line (program_of program.now) graph.now) left.now) }
{
    let mut text = Seq::from_slice(alloc, b"MAYBE component\n")?;
    put_rules(alloc, &mut text, program, graph, left)?;
    Ok(text)
}

/// The text of a reason.
pub(crate) fn reason_text<P: Pairs>(
    alloc: Global,
    program: &Program<'_>,
    reason: &Reason<P>,
) -> Result<Seq<u8>, AllocError>
    ensures { IfOk result (λ text. text ≡ reason_text (program_of program.now) reason.now) }
{
    match reason {
        Reason::Nodes(_) => Seq::from_slice(alloc, b"MAYBE nodes\n"),
        Reason::Ids(_) => Seq::from_slice(alloc, b"MAYBE ids\n"),
        Reason::Paths(_) => Seq::from_slice(alloc, b"MAYBE paths\n"),
        Reason::Bytes { .. } => Seq::from_slice(alloc, b"MAYBE bytes\n"),
        Reason::Component { cert, left } => {
            component_text(alloc, program, &cert.graph, left.as_slice())
        }
    }
}
