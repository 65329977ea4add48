//! What a row of the table of commands has.
ghost use Rattle.std.specs.Prelude.{◌≡◌};
ghost use Rattle.class_calls.specs.command_rows.Rows.{file_at};

use crate::command_rows::file_words::FileWords;
use list_views::Bytes;

/// What a word that names a file names.
#[derive(Clone, Copy, PartialEq, Eq)]
pub enum FileWord {
    /// A certificate.
    Cert,
    /// A description.
    Desc,
    /// A state.
    State,
    /// A listing.
    Listing,
    /// A text of integer transition rules.
    Rules,
    /// The text of a bound.
    Bounds,
    /// A class file.
    Class,
}

/// The numbers from the least to the greatest.
#[derive(Clone, Copy, PartialEq, Eq)]
pub struct NumberRange {
    /// The least.
    pub least: u64,
    /// The greatest.
    pub most: u64,
}

/// The number among a command's words.
#[derive(Drop)]
pub enum NumberWord {
    /// There is none.
    Absent,
    /// It stands behind the command's word.
    Needed {
        /// How the usage calls it.
        name: Bytes<'static>,
        /// Which numbers may stand there.
        range: NumberRange,
    },
    /// It may stand there behind a word of its own.
    Optional {
        /// That word.
        option: Bytes<'static>,
        /// Which numbers may stand there.
        range: NumberRange,
        /// The number where none stands there.
        otherwise: u64,
    },
}

/// A row of the table of commands.
#[derive(Drop)]
pub struct Row {
    /// The command's word.
    pub word: Bytes<'static>,
    /// The number behind it.
    pub number: NumberWord,
    /// The files behind that.
    pub files: FileWords,
    /// Whether class files follow, 1 to 256.
    pub classes: bool,
}

impl Row {
    /// What the file word at a place names.
    pub fn file(&self, place: usize) -> FileWord
        ensures { result ≡ file_at self.now place }
    {
        match self.files.as_slice().get(place) {
            Some(word) => *word,
            None => FileWord::Class,
        }
    }
}
