//! The names of the classes of a case.
ghost use Rattle.std.specs.Prelude.{◌≡◌, length, IsTrue};
ghost use Rattle.std.specs.List.{list_all};
ghost use Rattle.class_base.specs.ClassNames.{is_class_name};

use anyhow::{Context, Result, bail};
use cert_form::ClassNames;
use class_base::is_class_name;
use class_read::ClassView;
use std::alloc::Global;
use table_cases::Case;

/// The built-in classes, in the order of their numbers.
const BUILT_IN: [&str; 15] = [
    "java/lang/Object",
    "java/lang/Throwable",
    "java/lang/Exception",
    "java/lang/RuntimeException",
    "java/lang/NullPointerException",
    "java/lang/ArithmeticException",
    "java/lang/IndexOutOfBoundsException",
    "java/lang/ArrayIndexOutOfBoundsException",
    "java/lang/NegativeArraySizeException",
    "java/lang/ClassCastException",
    "java/lang/ArrayStoreException",
    "java/lang/Error",
    "java/lang/LinkageError",
    "java/lang/IncompatibleClassChangeError",
    "java/lang/AbstractMethodError",
];

/// At most 1,000 names of classes.
#[derive(Drop)]
pub struct Names {
    pub names: ClassNames,
    count: usize,
    ghost counted: { length names ≡ count },
    ghost named: { IsTrue (list_all is_class_name names) },
}

impl Names {
    /// The names of the built-in classes.
    fn built_in(alloc: Global) -> Result<Names> {
        let mut names = Names {
            names: ClassNames::new(alloc),
            count: 0,
        };
        for name in BUILT_IN {
            names.add(alloc, name.as_bytes())?;
        }
        Ok(names)
    }

    /// The names of the built-in classes, and of those of the files from field 1 on.
    pub fn of(alloc: Global, case: &Case<'_>) -> Result<Names> {
        let mut names = Names::built_in(alloc)?;
        for n in 1..case.field_count() {
            let bytes = case.bytes(alloc, n)?;
            let class = ClassView::read(alloc, bytes.as_slice())
                .ok()
                .context("a class file can't be read")?;
            names.add(alloc, class.name)?;
        }
        Ok(names)
    }

    /// Adds a name.
    #[tactic(auto, using(crate::proofs::Named::named_more, crate::proofs::Named::counted_more))]
    fn add(&mut self, alloc: Global, name: &[u8]) -> Result<()> {
        if !is_class_name(name) || self.count >= 1000 {
            bail!("a class name is wanted");
        }
        self.names.push(alloc, name)?;
        self.count += 1;
        Ok(())
    }
}
