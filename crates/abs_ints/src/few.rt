//! Short lists that take no memory.
ghost use Rattle.std.specs.Prelude.{◌≡◌, [], ◌∷◌, MatchOption};
ghost use Rattle.std.specs.List.{cons_option};

use std::marker::Model;

/// A list of at most three items. It takes no memory.
#[derive(Drop)]
pub struct Few<T> {
    first: Option<T>,
    second: Option<T>,
    third: Option<T>,
}

impl<T> Model for Few<T> {
    ghost use Rattle.std.specs.Prelude.{List, []};
    ghost use Rattle.std.specs.List.{cons_option};

    ghost Value = { List T };

    ghost view = { λ few. cons_option few.first (cons_option few.second (cons_option few.third [])) };
}

impl<T> Few<T> {
    /// The items that are there, in order.
    pub(crate) fn of(first: Option<T>, second: Option<T>, third: Option<T>) -> Few<T>
        ensures { result ≡ cons_option first (cons_option second (cons_option third [])) }
    {
        Few {
            first,
            second,
            third,
        }
    }

    /// The empty list.
    pub(crate) fn none() -> Few<T>
        ensures { result ≡ [] }
    {
        Few {
            first: None,
            second: None,
            third: None,
        }
    }

    /// The list of one item.
    pub(crate) fn one(item: T) -> Few<T>
        ensures { result ≡ item ∷ [] }
    {
        Few {
            first: Some(item),
            second: None,
            third: None,
        }
    }

    /// The list of one item, if it is there.
    pub(crate) fn maybe(item: Option<T>) -> Few<T>
        ensures { result ≡ cons_option item [] }
    {
        Few {
            first: item,
            second: None,
            third: None,
        }
    }

    /// The list of two items.
    pub(crate) fn two(first: T, second: T) -> Few<T>
        ensures { result ≡ first ∷ second ∷ [] }
    {
        Few {
            first: Some(first),
            second: Some(second),
            third: None,
        }
    }

    /// Takes the first item away, or answers None where there is none.
    pub fn take_first(&mut self) -> Option<T>
        ensures { MatchOption result ((self.old ≡ []) × (self.new ≡ [])) (λ item. self.old ≡ item ∷ self.new) }
    {
        if let Some(item) = self.first.take() {
            return Some(item);
        }
        if let Some(item) = self.second.take() {
            return Some(item);
        }
        self.third.take()
    }
}
