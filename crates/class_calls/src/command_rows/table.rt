//! The table of commands: a row for each, and what it asks for.
ghost use Rattle.std.specs.Prelude.{◌≡◌};
ghost use Rattle.class_calls.specs.command_rows.Rows.{row_of, request_of, command_of, IsInRange};
ghost use Rattle.class_calls.specs.command_rows.Usage.{usage_lines};

use crate::command_rows::file_words::FileWords;
use crate::command_rows::row::{FileWord, NumberRange, NumberWord, Row};
use list_views::Bytes;
use term_graph::MOST_NODES;

/// The limit on the nodes of a graph where none is asked for.
pub const DEFAULT_NODES: u64 = 4_000;

/// The most steps of a run.
pub const MOST_FUEL: u64 = 1_000_000_000;

/// The most blocks of a class that is made.
pub const MOST_BLOCKS: u64 = 100;

/// A command.
#[derive(Clone, Copy, PartialEq, Eq)]
pub enum Command {
    /// `prove`
    Prove,
    /// `check`
    Check,
    /// `run`
    Run,
    /// `asm`
    Asm,
    /// `generate`
    Generate,
    /// `migrate`
    Migrate,
    /// `bound`
    Bound,
    /// `loop`
    Loop,
    /// `its`
    Its,
    /// `throws`
    Throws,
}

/// All commands, in the order in which the usage names them.
pub const COMMANDS: [Command; 10] = [
    Command::Prove,
    Command::Check,
    Command::Run,
    Command::Asm,
    Command::Generate,
    Command::Migrate,
    Command::Bound,
    Command::Loop,
    Command::Its,
    Command::Throws,
];

/// What a command does with the files that it names.
#[derive(Clone, Copy, PartialEq, Eq)]
pub enum Request {
    /// To prove that a method ends. `nodes` is the limit on the nodes of the graph that is built.
    Prove {
        /// At least 1 and at most 20,000.
        nodes: u32,
    },
    /// To say whether a certificate is valid.
    Check,
    /// To run a method from a state, for at most `fuel` steps.
    Run {
        /// At most 1,000,000,000.
        fuel: u64,
    },
    /// To write the class file that a listing says.
    Asm,
    /// To make a class whose method has so many loops, and to prove that it ends.
    Generate {
        /// At least 1 and at most 100.
        n: u32,
    },
    /// To write a certificate that is valid in form 2.
    Migrate,
    /// To say how many instructions the runs of a method take at most.
    Bound,
    /// To say whether a certificate shows that a method never ends.
    Loop,
    /// To prove that the steps of a system of integer transition rules end.
    Its,
    /// To say in which ways the runs of a method can end.
    Throws,
}

impl Command {
    /// The command's row.
    pub fn row(self) -> Row
        ensures { result ≡ row_of self }
    {
        match self {
            Command::Prove => Row {
                word: Bytes::new(b"prove"),
                number: NumberWord::Optional {
                    option: Bytes::new(b"--nodes"),
                    range: NumberRange {
                        least: 1,
                        most: MOST_NODES as u64,
                    },
                    otherwise: DEFAULT_NODES,
                },
                files: FileWords::new(&[FileWord::Desc]),
                classes: true,
            },
            Command::Check => Row {
                word: Bytes::new(b"check"),
                number: NumberWord::Absent,
                files: FileWords::new(&[FileWord::Cert, FileWord::Desc]),
                classes: true,
            },
            Command::Run => Row {
                word: Bytes::new(b"run"),
                number: NumberWord::Needed {
                    name: Bytes::new(b"FUEL"),
                    range: NumberRange {
                        least: 0,
                        most: MOST_FUEL,
                    },
                },
                files: FileWords::new(&[FileWord::State]),
                classes: true,
            },
            Command::Asm => Row {
                word: Bytes::new(b"asm"),
                number: NumberWord::Absent,
                files: FileWords::new(&[FileWord::Listing]),
                classes: false,
            },
            Command::Generate => Row {
                word: Bytes::new(b"generate"),
                number: NumberWord::Needed {
                    name: Bytes::new(b"N"),
                    range: NumberRange {
                        least: 1,
                        most: MOST_BLOCKS,
                    },
                },
                files: FileWords::new(&[]),
                classes: false,
            },
            Command::Migrate => Row {
                word: Bytes::new(b"migrate"),
                number: NumberWord::Absent,
                files: FileWords::new(&[FileWord::Cert, FileWord::Desc]),
                classes: true,
            },
            Command::Bound => Row {
                word: Bytes::new(b"bound"),
                number: NumberWord::Absent,
                files: FileWords::new(&[FileWord::Bounds, FileWord::Cert, FileWord::Desc]),
                classes: true,
            },
            Command::Loop => Row {
                word: Bytes::new(b"loop"),
                number: NumberWord::Absent,
                files: FileWords::new(&[FileWord::Cert, FileWord::State, FileWord::Desc]),
                classes: true,
            },
            Command::Its => Row {
                word: Bytes::new(b"its"),
                number: NumberWord::Absent,
                files: FileWords::new(&[FileWord::Rules]),
                classes: false,
            },
            Command::Throws => Row {
                word: Bytes::new(b"throws"),
                number: NumberWord::Absent,
                files: FileWords::new(&[FileWord::Cert, FileWord::Desc]),
                classes: true,
            },
        }
    }

    /// What the command asks for with a number of its row's range; 0 where it has none.
    pub fn request(self, number: u64) -> Request
        requires { IsInRange (row_of self).number number }
        ensures { result ≡ request_of self number }
    {
        match self {
            Command::Prove => Request::Prove {
                nodes: number as u32,
            },
            Command::Check => Request::Check,
            Command::Run => Request::Run { fuel: number },
            Command::Asm => Request::Asm,
            Command::Generate => Request::Generate { n: number as u32 },
            Command::Migrate => Request::Migrate,
            Command::Bound => Request::Bound,
            Command::Loop => Request::Loop,
            Command::Its => Request::Its,
            Command::Throws => Request::Throws,
        }
    }
}

impl Request {
    /// The command that asks for it.
    pub fn command(&self) -> Command
        ensures { result ≡ command_of self.now }
    {
        match self {
            Request::Prove { .. } => Command::Prove,
            Request::Check => Command::Check,
            Request::Run { .. } => Command::Run,
            Request::Asm => Command::Asm,
            Request::Generate { .. } => Command::Generate,
            Request::Migrate => Command::Migrate,
            Request::Bound => Command::Bound,
            Request::Loop => Command::Loop,
            Request::Its => Command::Its,
            Request::Throws => Command::Throws,
        }
    }
}

/// The words are no command. A line for each command follows, with its words.
pub fn usage_text() -> &'static [u8]
    ensures { result.now ≡ usage_lines }
{
    b"jterm: usage\nprove DESC CLASS..\n\
      check CERT DESC CLASS..\nrun FUEL STATE CLASS..\nasm LISTING\ngenerate N\nmigrate CERT DESC CLASS..\n\
      bound BOUND CERT DESC CLASS..\nloop CERT STATE DESC CLASS..\nits RULES\nthrows CERT DESC CLASS..\n"
}
