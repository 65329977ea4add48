//! The cases of `lookupswitch`.
ghost use Rattle.std.specs.Prelude.{◌≡◌};
ghost use Rattle.code_forms.specs.Cases.{is_rising};

use crate::insn::Case;

/// Whether each key is above the one before it, as `lookupswitch` wants it (JVM specification, section 6.5, lookupswitch).
/// Keys are compared with their signs; no case and one case rise.
pub fn is_rising(cases: &[Case]) -> bool
    ensures { result ≡ is_rising cases.now }
{
    let Some((first, others)) = cases.split_first() else {
        return true;
    };
    let mut key = first.key;
    for case in others {
        if case.key <= key {
            return false;
        }
        key = case.key;
    }
    true
}
