//! The names of a world's classes.
ghost use Rattle.std.specs.Prelude.{◌≡◌, ◌++◌, ◌∷◌, [], ◌<◌, ◌≤◌, length, slice_get, option_map, OnOk, OnErr};
ghost use Rattle.json_view.specs.Answers.{now_of};
ghost use Rattle.cert_form.specs.Types.{class_named};

use list_views::Seq;
use std::alloc::{AllocError, Global};
use std::marker::Model;

/// The number of the class of a name.
fn class_in(names: &[Seq<u8>], name: &[u8]) -> Option<u32>
    requires { length names.now ≤ 4294967295 }
    ensures { result ≡ class_named names.now name.now }
{
    for (number, other) in names.iter().enumerate() {
        if name == other.as_slice() {
            return Some(number as u32);
        }
    }
    None
}

/// The names of classes, in the order of their numbers. It is seen as the list of the names.
#[derive(Drop)]
pub struct ClassNames {
    names: Seq<Seq<u8>>,
}

impl Model for ClassNames {
    ghost use Rattle.std.specs.Prelude.{List, ℕ, length, ◌≤◌};

    ghost Value = { List (List ℕ) };

    ghost view = { λ names. names.names };

    ghost invariant = { λ names. length names.names ≤ 4294967295 };
}

impl ClassNames {
    /// No names.
    pub fn new(alloc: Global) -> ClassNames
        ensures { result ≡ [] }
    {
        ClassNames {
            names: Seq::new(alloc),
        }
    }

    /// Adds the name of the next class.
    ///
    /// # Errors
    ///
    /// Want of memory; then the names are as before.
    pub fn push(&mut self, alloc: Global, name: &[u8]) -> Result<(), AllocError>
        requires { length self.old < 4294967295 }
        ensures ok { OnOk result (self.new ≡ self.old ++ name.now ∷ []) }
        ensures err { OnErr result (self.new ≡ self.old) }
    {
        let name = Seq::from_slice(alloc, name)?;
        self.names.push(name)?;
        Ok(())
    }

    /// The name of the class of a number, or None past the names.
    pub fn name_of(&self, class: u32) -> Option<&[u8]>
        ensures { option_map now_of result ≡ slice_get self.now class }
    {
        match self.names.get(class as usize) {
            Some(name) => Some(name.as_slice()),
            None => None,
        }
    }

    /// The number of the class of a name.
    pub(crate) fn class_named(&self, name: &[u8]) -> Option<u32>
        ensures { result ≡ class_named self.now name.now }
    {
        class_in(self.names.as_slice(), name)
    }
}
