//! The class files of a case.
ghost use Rattle.std.specs.Prelude.{◌≤◌, IfOk, length};
ghost use Rattle.class_base.specs.Limits.{most_classes};

use crate::Case;
use anyhow::{Result, bail};
use class_base::MOST_CLASSES;
use std::alloc::Global;

/// The contents of the class files that are in all fields of a case from `first` on, of which there are at most 256.
pub fn files_from(alloc: Global, case: &Case<'_>, first: usize) -> Result<Vec<Vec<u8>>>
    ensures { IfOk result (λ files. length files.items ≤ most_classes) }
{
    let mut files = Vec::new(alloc);
    for n in first..case.field_count() {
        files.push(case.bytes(alloc, n)?)?;
    }
    if files.len() > MOST_CLASSES {
        bail!("there are too many class files");
    }
    Ok(files)
}
