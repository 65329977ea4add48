//! Members of a class by name and descriptor.
ghost use Rattle.std.specs.Prelude.{◌≡◌, map, IfOk};
ghost use Rattle.std.specs.List.{IsDistinct};
ghost use Rattle.class_read.specs.Rules.{same_key};
ghost use Rattle.class_world.specs.inner.Index.{field_key, method_key};

use class_read::{FieldView, MethodView};
use code_forms::class_base::KeySet;
use std::alloc::{AllocError, Global};

/// The names of methods that differ.
pub(crate) fn method_names<'a>(
    alloc: Global,
    methods: &[MethodView<'a>],
) -> Result<KeySet<'a>, AllocError>
    requires { IsDistinct same_key (map method_key methods.now) }
    ensures { IfOk result (λ names. names ≡ map method_key methods.now) }
{
    let mut names = KeySet::new(alloc);
    for method in methods {
        names.add(method.name, method.desc)?;
    }
    Ok(names)
}

/// The names of fields that differ.
pub(crate) fn field_names<'a>(
    alloc: Global,
    fields: &[FieldView<'a>],
) -> Result<KeySet<'a>, AllocError>
    requires { IsDistinct same_key (map field_key fields.now) }
    ensures { IfOk result (λ names. names ≡ map field_key fields.now) }
{
    let mut names = KeySet::new(alloc);
    for field in fields {
        names.add(field.name, field.desc)?;
    }
    Ok(names)
}
