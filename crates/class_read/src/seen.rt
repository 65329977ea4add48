//! The names and descriptors of the members so far, by the numbers of their texts in a pool.

ghost use Rattle.std.specs.Prelude.{◌≡◌, [], IfOk, OnOk, IsSome};
ghost use Rattle.class_pool.specs.Text.{utf8_at};
ghost use Rattle.class_read.specs.FirstFault.{is_new};
ghost use Rattle.class_read.specs.inner.Numbers.{key_of, keys_in, AreNumbers, Joins};

use crate::known::KnownPool;
use std::alloc::{AllocError, Global};
use std::collections::BTreeSet;
use std::marker::Model;

/// Pairs of numbers. Its value is the list of the pairs.
#[derive(Drop)]
pub(crate) struct SeenMembers {
    pairs: BTreeSet<(u16, u16)>,
}

impl Model for SeenMembers {
    ghost use Rattle.std.specs.Prelude.{List, ℕ};

    ghost Value = { List (ℕ × ℕ) };

    ghost view = { λ s. s.pairs.keys };
}

impl SeenMembers {
    /// None so far.
    pub(crate) fn new(alloc: Global) -> SeenMembers
        ensures { result ≡ [] }
    {
        SeenMembers {
            pairs: BTreeSet::new(alloc),
        }
    }

    /// One more member, by the Utf8 entries of its name and its descriptor. Answers whether no earlier one has both.
    pub(crate) fn add(
        &mut self,
        pool: &KnownPool<'_>,
        name: u16,
        desc: u16,
    ) -> Result<bool, AllocError>
        requires numbers { AreNumbers pool.now self.old }
        requires name { IsSome (utf8_at pool.now name) }
        requires desc { IsSome (utf8_at pool.now desc) }
        ensures new { IfOk result (λ b. b ≡ is_new (keys_in pool.now self.old) (key_of pool.now (name, desc))) }
        ensures joins { OnOk result (Joins pool.now self.old self.new (key_of pool.now (name, desc))) }
    {
        let first = pool.number(name);
        let second = pool.number(desc);
        let new = self.pairs.insert((first, second))?;
        Ok(new)
    }
}
