//! Names of classes (JVM specification, SE 8, section 4.2.1).
ghost use Rattle.std.specs.Prelude.{◌≡◌};
ghost use Rattle.std.specs.List.{list_all};
ghost use Rattle.std.specs.Str.{is_utf8};
ghost use Rattle.class_base.specs.ClassNames.{is_name_byte, is_class_name};

fn is_name_byte(b: u8) -> bool
    ensures { result ≡ is_name_byte b }
{
    !(b == b'.' || b == b';' || b == b'[')
}

fn has_name_bytes(name: &[u8]) -> bool
    ensures { result ≡ list_all is_name_byte name.now }
{
    name.iter().all(|b| is_name_byte(*b))
}

fn is_text(bytes: &[u8]) -> bool
    ensures { result ≡ is_utf8 bytes.now }
{
    match str::from_utf8(bytes) {
        Ok(_) => true,
        Err(_) => false,
    }
}

/// Whether the bytes are the name of a class: UTF-8, at least one byte, and none of `.`, `;` and `[`.
pub fn is_class_name(name: &[u8]) -> bool
    ensures { result ≡ is_class_name name.now }
{
    name.len() > 0 && has_name_bytes(name) && is_text(name)
}
