//! Lists of kinds of file words, seen as lists.
ghost use Rattle.std.specs.Prelude.{◌≡◌, List};
ghost use Rattle.class_calls.specs.declared.command_rows.row.FileWord.{FileWord};

use crate::command_rows::row::FileWord;
use std::marker::Model;

/// What the words that name files name, in their order.
#[derive(Drop)]
pub struct FileWords {
    words: &'static [FileWord],
}

impl Model for FileWords {
    ghost use Rattle.std.specs.Prelude.{List};
    ghost use Rattle.class_calls.specs.declared.command_rows.row.FileWord.{FileWord};

    ghost Value = { List FileWord };

    ghost view = { λ s. s.words.now };
}

impl FileWords {
    /// These.
    pub fn new(words: &'static [FileWord]) -> FileWords
        ensures { result ≡ words.now }
    {
        FileWords { words }
    }

    /// They as a slice.
    pub fn as_slice(&self) -> &'static [FileWord]
        ensures { result.now ≡ self.now }
    {
        self.words
    }
}
