//! What every graph in memory keeps by its types, told to whoever has to know it: each call looks at the numbers of which it tells.
ghost use Rattle.std.specs.Prelude.{◌≤◌, All, length};
ghost use Rattle.term_graph.specs.Limits.{most_nodes};
ghost use Rattle.prove_core.specs.Stored.{IsStoredCell, IsStoredFrame, IsStored, IsStoredGraph};

use abs_cells::{AbsFrame, AbsState, Cell, Id, Pairs};
use term_graph::Graph;

fn frame_is_stored(frame: &AbsFrame)
    ensures { IsStoredFrame frame.now }
{
    let _method = frame.method();
    let _place = frame.pc();
}

fn frames_are_stored(frames: &[AbsFrame])
    ensures { All IsStoredFrame frames.now }
{
    for one in frames {
        frame_is_stored(one);
    }
}

fn cell_is_stored(cell: &Cell)
    ensures { IsStoredCell cell.now }
{
    match cell {
        Cell::Int(interval) => {
            let _low = interval.lo();
        }
        Cell::Obj(class, _) => {
            let _class = *class;
        }
        Cell::Null | Cell::Nums(..) | Cell::Refs(..) | Cell::Unk(..) => {}
    }
}

fn cells_are_stored(cells: &[(Id, Cell)])
    ensures { All (λ c. IsStoredCell c.1) cells.now }
{
    for one in cells {
        cell_is_stored(&one.1);
    }
}

#[tactic(auto, using(crate::proofs::Storing::frames_turned))]
fn state_is_stored<P: Pairs>(state: &AbsState<P>)
    ensures { IsStored state.now }
{
    frames_are_stored(state.frames());
    cells_are_stored(state.cells());
    state.eq().rise();
    state.share().rise();
}

/// Says of a graph what all in memory keep: numbers of places and classes are of their fields' widths, intervals have an int, and pairs
/// rise. It looks once at each frame and cell.
pub fn graph_is_stored<P: Pairs>(graph: &Graph<P>)
    requires { length graph.now ≤ most_nodes }
    ensures { IsStoredGraph graph.now }
{
    for n in 0..graph.len() as u32 {
        state_is_stored(graph.at(n).state());
    }
}
