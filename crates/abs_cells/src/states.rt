//! Frames and states whose places hold ids.
ghost use Rattle.std.specs.Prelude.{◌≡◌, reverse, filter};
ghost use Rattle.abs_cells.specs.IdSets.{has_id, kept};

use crate::cells::Cell;
use crate::ids::Id;
use crate::pairs::Pairs;
use crate::sets::IdSet;
use jvm_values::list_views::Seq;
use std::marker::Model;

/// A frame whose places hold ids. Two are equal where their methods, places and lists of ids are.
#[derive(Drop)]
pub struct AbsFrame {
    method: u32,
    pc: u16,
    locals: Seq<Option<Id>>,
    stack: Seq<Id>,
}

impl Model for AbsFrame {
    ghost use Rattle.std.specs.Prelude.{reverse};
    ghost use Rattle.abs_cells.specs.AbstractStates.{AbstractFrame};

    ghost Value = { AbstractFrame };

    ghost view = { λ f. record { method = f.method; pc = f.pc; locals = f.locals; stack = reverse f.stack } };
}

impl AbsFrame {
    /// The frame of a method at an instruction, with the ids of its local variables, of which some may be unset, and
    /// of its operand stack, the top last.
    pub fn new(method: u32, pc: u16, locals: Seq<Option<Id>>, stack: Seq<Id>) -> AbsFrame
        ensures { result ≡ record { method = method; pc = pc; locals = locals; stack = reverse stack } }
    {
        AbsFrame {
            method,
            pc,
            locals,
            stack,
        }
    }

    /// The method's number among the reached methods.
    pub fn method(&self) -> u32
        ensures { result ≡ self.now.method }
    {
        self.method
    }

    /// The place of the instruction that runs next, in bytes from the code's start.
    pub fn pc(&self) -> u16
        ensures { result ≡ self.now.pc }
    {
        self.pc
    }

    /// The ids of the local variables.
    pub fn locals(&self) -> &[Option<Id>]
        ensures { result.now ≡ self.now.locals }
    {
        self.locals.as_slice()
    }

    /// The ids of the operand stack, the top last.
    pub fn stack(&self) -> &[Id]
        ensures { result.now ≡ reverse self.now.stack }
    {
        self.stack.as_slice()
    }
}

/// An abstract state: frames, the id of the thrown object, a cell for each id, and two sets of pairs. It is seen as a
/// record of lists, whatever form its pairs are held in.
///
/// The pairs `eq` have one object; the regions of the pairs `share` meet, or the one's object lies in the other's region.
#[derive(Drop)]
pub struct AbsState<P: Pairs> {
    frames: Seq<AbsFrame>,
    throwing: Option<Id>,
    cells: Seq<(Id, Cell)>,
    eq: P,
    share: P,
}

/// The parts of an abstract state.
#[derive(Drop)]
pub struct StateParts<P: Pairs> {
    /// The frames, the running call's last.
    pub frames: Seq<AbsFrame>,
    /// The id of the thrown object, while a handler is looked for.
    pub throwing: Option<Id>,
    /// The ids with their cells, rising by id where the state is well-formed.
    pub cells: Seq<(Id, Cell)>,
    /// The pairs of ids that have one object.
    pub eq: P,
    /// The pairs of ids whose regions meet.
    pub share: P,
}

impl<P: Pairs> Model for AbsState<P> {
    ghost use Rattle.std.specs.Prelude.{reverse};
    ghost use Rattle.abs_cells.specs.AbstractStates.{AbstractState};

    ghost Value = { AbstractState };

    ghost view = { λ s. record { frames = reverse s.frames; throwing = s.throwing; cells = s.cells; eq = P.pairs s.eq; share = P.pairs s.share } };
}

impl<P: Pairs> AbsState<P> {
    /// The state of these parts: the frames, the running call's last, the id of the thrown object, the cells rising by
    /// id, the pairs with one object and those that share.
    pub fn new(
        frames: Seq<AbsFrame>,
        throwing: Option<Id>,
        cells: Seq<(Id, Cell)>,
        eq: P,
        share: P,
    ) -> AbsState<P>
        ensures { result ≡ record { frames = reverse frames; throwing = throwing; cells = cells; eq = P.pairs eq; share = P.pairs share } }
    {
        AbsState {
            frames,
            throwing,
            cells,
            eq,
            share,
        }
    }

    /// The frames, the running call's last.
    pub fn frames(&self) -> &[AbsFrame]
        ensures { result.now ≡ reverse self.now.frames }
    {
        self.frames.as_slice()
    }

    /// The id of the thrown object, while a handler is looked for.
    pub fn throwing(&self) -> Option<Id>
        ensures { result ≡ self.now.throwing }
    {
        self.throwing
    }

    /// The ids with their cells.
    pub fn cells(&self) -> &[(Id, Cell)]
        ensures { result.now ≡ self.now.cells }
    {
        self.cells.as_slice()
    }

    /// The pairs of ids that have one object.
    pub fn eq(&self) -> &P
        ensures { P.pairs result.now ≡ self.now.eq }
    {
        &self.eq
    }

    /// The pairs of ids whose regions meet.
    pub fn share(&self) -> &P
        ensures { P.pairs result.now ≡ self.now.share }
    {
        &self.share
    }

    /// The state taken apart, so that its cells and pairs can stand in another one without copies. `AbsState::new` puts the
    /// parts together again.
    pub fn into_parts(self) -> StateParts<P>
        ensures frames { reverse result.frames ≡ self.frames }
        ensures throwing { result.throwing ≡ self.throwing }
        ensures cells { result.cells ≡ self.cells }
        ensures eq { P.pairs result.eq ≡ self.eq }
        ensures share { P.pairs result.share ≡ self.share }
    {
        let AbsState {
            frames,
            throwing,
            cells,
            eq,
            share,
        } = self;
        StateParts {
            frames,
            throwing,
            cells,
            eq,
            share,
        }
    }

    /// The state without the cells of ids that are not in a set, and without their pairs. Frames and the thrown id stay as
    /// they are. It takes no memory.
    pub fn kept(self, ids: &IdSet) -> AbsState<P>
        ensures { result ≡ record {
          frames = self.frames;
          throwing = self.throwing;
          cells = filter (λ c. has_id ids.now c.0)
              self.cells;
          eq = kept ids.now self.eq;
          share = kept ids.now self.share;
        } }
    {
        let StateParts {
            frames,
            throwing,
            cells,
            mut eq,
            mut share,
        } = self.into_parts();
        eq.keep(ids);
        share.keep(ids);
        AbsState::new(frames, throwing, kept_cells(cells, ids), eq, share)
    }
}

/// The cells whose ids are in a set.
fn kept_cells(cells: Seq<(Id, Cell)>, ids: &IdSet) -> Seq<(Id, Cell)>
    ensures { result ≡ filter (λ c. has_id ids.now c.0) cells }
{
    let mut items = cells.into_vec();
    items.retain(|item| ids.has(item.0));
    Seq::from_vec(items)
}
