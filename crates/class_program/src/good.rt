//! What holds of every closed program.
ghost use Rattle.class_program.specs.Views.{program_of};
ghost use Rattle.class_program.specs.Programs.{IsClosed};
ghost use Rattle.class_program.specs.Good.{IsGood};
ghost use Rattle.class_program.specs.Widths.{HasWidths};

use crate::program::Program;

impl<'a> Program<'a> {
    /// The program is what closing gives for its entry, and each of its instructions is good: it names what is there
    /// with the types that it says, makes no array of long, float or double, and leads to places where instructions stand.
    /// Each number that an instruction holds is of its field's width. It does nothing when it runs.
    pub fn is_good(&self)
        ensures closed { IsClosed (program_of self.now) }
        ensures good { IsGood (program_of self.now) }
        ensures widths { HasWidths (program_of self.now) }
    {
        let _world = &self.world;
    }
}
