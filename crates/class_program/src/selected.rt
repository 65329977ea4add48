//! What a call of a program does on an object of a class.
ghost use Rattle.class_world.specs.Worlds.{classes_of};
ghost use Rattle.std.specs.Prelude.{◌≡◌, ◌<◌, Some, length, option_and_then, IsTrue};
ghost use Rattle.std.specs.Option.{option_map, option_map_or, option_copied};
ghost use Rattle.class_world.specs.class_read.View.{method_content};
ghost use Rattle.class_world.specs.Resolve.{method_at};
ghost use Rattle.class_world.specs.Select.Selection.{Runs, Lacks};
ghost use Rattle.class_world.specs.Select.{selected_virtual, selected_interface};
ghost use Rattle.class_program.specs.Instructions.{instruction_at, at_seen};
ghost use Rattle.class_program.specs.Programs.{refs_of, insn_at, op_at};
ghost use Rattle.class_program.specs.Views.{program_of};
ghost use Rattle.class_program.specs.Selected.{selection_at, selected_in, selected_for, selected_at, can_receive, can_receive_at};

use crate::op::{Call, Op};
use crate::program::{Method, Program};
use crate::receivers::is_receiver;
use crate::selections::selected;
use class_world::MethodRef;
use class_world::class_read::MethodView;

/// What a virtual or interface call does.
#[derive(Clone, Copy, PartialEq, Eq)]
pub enum Selected {
    /// It runs the method of this number.
    Method(u32),
    /// It throws `AbstractMethodError`.
    Abstract,
    /// It throws `IncompatibleClassChangeError`: the object does not have the interface.
    NoInterface,
}

impl<'a> Method<'a> {
    /// The instruction at a place, and the place of the next one, which the last one does not have; None exactly where
    /// no instruction stands there. It is found by halving, and takes no memory.
    pub fn at(&self, pc: u16) -> Option<(&Op, Option<u16>)>
        ensures { option_map at_seen result ≡ instruction_at self.now.insns pc }
    {
        self.insns.at(pc)
    }
}

impl<'a> Program<'a> {
    /// The instruction at a place of the method of a number, and the place of the next one; None exactly where there is
    /// no such method or no instruction stands there.
    #[tactic(auto, unfolding(crate::specs::Programs::insn_at))]
    pub fn at(&self, method: u32, pc: u16) -> Option<(&Op, Option<u16>)>
        ensures { option_map at_seen result ≡ insn_at self.now.methods method pc }
    {
        match self.methods.get(method as usize) {
            Some(method) => method.at(pc),
            None => None,
        }
    }

    /// The instruction at a place of a method.
    fn op_at(&self, method: u32, pc: u16) -> Option<&Op>
        ensures { option_copied result ≡ op_at self.now.methods method pc }
    {
        match self.at(method, pc) {
            Some((op, _)) => Some(op),
            None => None,
        }
    }

    /// The answer for a method that is not abstract; None where it is not reached.
    #[tactic(auto, unfolding(crate::specs::Selected::selected_in))]
    fn numbered(&self, method: MethodRef) -> Option<Selected>
        ensures { result ≡ selected_in (refs_of self.now.methods) (Runs method) }
    {
        match self.refs.number_of(method) {
            Some(number) => Some(Selected::Method(number)),
            None => None,
        }
    }

    /// What a class selects by the name and the descriptor of a method.
    #[tactic(auto, unfolding(class_world::specs::Select::selected_virtual, crate::specs::Selected::selected_in))]
    fn selected_by(&self, method: MethodRef, named: &MethodView<'_>, class: u32) -> Option<Selected>
        requires { method_at (classes_of self.now.world) method ≡ Some (method_content named.now) }
        ensures { result ≡ selected_in (refs_of self.now.methods)
            (selected_virtual (classes_of self.now.world) named.now.name.now named.now.desc.now class) }
    {
        match selected(&self.world, self.selections.row(method), named, class) {
            Some(method) => {
                if self.world.is_abstract_method(method) {
                    Some(Selected::Abstract)
                } else {
                    self.numbered(method)
                }
            }
            None => Some(Selected::Abstract),
        }
    }

    /// What a virtual call does.
    #[tactic(auto, unfolding(crate::specs::Selected::selected_in))]
    fn selected_virtual(&self, call: &Call, class: u32) -> Option<Selected>
        ensures { result ≡ selected_in (refs_of self.now.methods)
            (option_map_or (λ m. selected_virtual (classes_of self.now.world) m.name m.desc class)
            (method_at (classes_of self.now.world) call.now.method) Lacks) }
    {
        match self.world.method_at(call.method) {
            Some(named) => self.selected_by(call.method, named, class),
            None => Some(Selected::Abstract),
        }
    }

    /// What an interface call does.
    #[tactic(auto, unfolding(class_world::specs::Select::selected_interface, crate::specs::Selected::selected_in))]
    fn selected_interface(&self, call: &Call, class: u32) -> Option<Selected>
        requires { class < length (classes_of self.now.world) }
        ensures { result ≡ selected_in (refs_of self.now.methods)
            (option_map_or (λ m. selected_interface (classes_of self.now.world) call.now.class m.name m.desc class)
            (method_at (classes_of self.now.world) call.now.method) Lacks) }
    {
        match self.world.method_at(call.method) {
            Some(named) => {
                if self.world.is_below(class, call.class) {
                    self.selected_by(call.method, named, class)
                } else {
                    Some(Selected::NoInterface)
                }
            }
            None => Some(Selected::Abstract),
        }
    }

    /// What an instruction does on an object of a class of the world.
    #[tactic(auto, unfolding(crate::specs::Selected::selection_at))]
    fn selected_by_op(&self, op: &Op, class: u32) -> Option<Selected>
        requires { class < length (classes_of self.now.world) }
        ensures { result ≡ option_and_then (selected_in (refs_of self.now.methods))
            (selection_at (classes_of self.now.world) op.now class) }
    {
        match op {
            Op::Invokevirtual(call) => self.selected_virtual(call, class),
            Op::Invokeinterface(call) => self.selected_interface(call, class),
            _ => None,
        }
    }

    /// What an instruction does on an object of a class, whether or not its receiver can be of that class: the answer of a
    /// virtual or interface call. None where the instruction is no such call, where no class of the world has that number,
    /// or where the method that the class selects is none of the program's, which for an instruction of the program and a
    /// class that [`Program::can_receive`] takes doesn't come (JVM specification, section 6.5, invokevirtual and
    /// invokeinterface).
    #[tactic(auto, unfolding(crate::specs::Selected::selected_for))]
    pub fn selected_for(&self, op: &Op, class: u32) -> Option<Selected>
        ensures { result ≡ selected_for (program_of self.now) op.now class }
    {
        if (class as usize) < self.world.len() {
            self.selected_by_op(op, class)
        } else {
            None
        }
    }

    #[tactic(auto, unfolding(crate::specs::Selected::selected_at))]
    fn selected_at(&self, method: u32, pc: u16, class: u32) -> Option<Selected>
        requires { class < length (classes_of self.now.world) }
        ensures { result ≡ selected_at (program_of self.now) method pc class }
    {
        let op = self.op_at(method, pc)?;
        self.selected_by_op(op, class)
    }

    /// Whether the instruction selects by its receiver's class, and an object of the class can be its receiver.
    #[tactic(auto, unfolding(crate::specs::Selected::can_receive))]
    fn op_can_receive(&self, op: &Op, class: u32) -> bool
        ensures { result ≡ can_receive (classes_of self.now.world) op.now class }
    {
        match op {
            Op::Invokevirtual(call) => is_receiver(&self.world, class, call.class),
            Op::Invokeinterface(_) => self.world.has_instances(class),
            _ => false,
        }
    }

    /// Whether [`Program::select`] answers there: at that place of a method stands an `invokevirtual` or
    /// `invokeinterface`, and an object of the class can be its receiver. The method is given by its number.
    ///
    /// The class can be made, so it is none that is abstract, an interface or no class of the world; for an
    /// `invokevirtual` it is the named class or below it. An `invokeinterface` can have an object of any class that can
    /// be made, as verification does not ask whether the class has the interface (JVM specification, section 6.5,
    /// invokevirtual and invokeinterface).
    #[tactic(auto, unfolding(crate::specs::Selected::can_receive_at))]
    pub fn can_receive(&self, method: u32, pc: u16, class: u32) -> bool
        ensures { result ≡ can_receive_at (program_of self.now) method pc class }
    {
        match self.op_at(method, pc) {
            Some(op) => self.op_can_receive(op, class),
            None => false,
        }
    }

    /// What the call at a place of a method does on an object of a class. The method is given by its number.
    ///
    /// It answers where [`Program::can_receive`] says so.
    pub fn select(&self, method: u32, pc: u16, class: u32) -> Selected
        requires { IsTrue (can_receive_at (program_of self.now) method pc class) }
        ensures { selected_at (program_of self.now) method pc class ≡ Some result }
    {
        match self.selected_at(method, pc, class) {
            Some(selected) => selected,
            None => Selected::Abstract,
        }
    }
}
