//! Fractions of whole numbers of at most 128 bits.

/// A fraction: the numerator, and a denominator above 0. Where a number would be larger, there is no result.
#[derive(Clone, Copy, PartialEq, Eq)]
pub struct Fraction {
    above: i128,
    below: i128,
}

/// A number that divides both, the greatest one.
fn divisor(one: u128, other: u128) -> u128 {
    let mut x = one;
    let mut y = other;
    for _n in 0..200 {
        if y == 0 {
            return x;
        }
        let rest = x % y;
        x = y;
        y = rest;
    }
    1
}

/// The fraction in lowest terms, of which the denominator is above 0.
fn reduced(above: i128, below: i128) -> Option<Fraction> {
    let by = i128::try_from(divisor(above.unsigned_abs(), below.unsigned_abs())).ok()?;
    Some(Fraction {
        above: above.checked_div(by)?,
        below: below.checked_div(by)?,
    })
}

impl Fraction {
    /// 0.
    pub const ZERO: Fraction = Fraction { above: 0, below: 1 };

    /// A fraction of a number and one above 0.
    pub fn of(above: i128, below: i128) -> Option<Fraction> {
        reduced(above, below)
    }

    /// A whole number.
    pub fn whole(number: i64) -> Fraction {
        Fraction {
            above: i128::from(number),
            below: 1,
        }
    }

    /// The numerator.
    pub fn above(&self) -> i128 {
        self.above
    }

    /// The denominator.
    pub fn below(&self) -> i128 {
        self.below
    }

    /// Whether it is 0.
    pub fn is_zero(&self) -> bool {
        self.above == 0
    }

    /// Whether it is above 0.
    pub fn is_positive(&self) -> bool {
        self.above > 0
    }

    /// Whether it is below 0.
    pub fn is_negative(&self) -> bool {
        self.above < 0
    }

    /// The sum of two fractions.
    pub fn plus(&self, other: &Fraction) -> Option<Fraction> {
        if self.above == 0 {
            return Some(*other);
        }
        if other.above == 0 {
            return Some(*self);
        }
        if self.below == 1 && other.below == 1 {
            return Some(Fraction {
                above: self.above.checked_add(other.above)?,
                below: 1,
            });
        }
        let ratio = reduced(self.below, other.below)?;
        let one = self.above.checked_mul(ratio.below)?;
        let two = other.above.checked_mul(ratio.above)?;
        let below = self.below.checked_mul(ratio.below)?;
        reduced(one.checked_add(two)?, below)
    }

    /// The product of two fractions.
    pub fn times(&self, other: &Fraction) -> Option<Fraction> {
        if self.above == 0 || other.above == 0 {
            return Some(Fraction::ZERO);
        }
        if self.below == 1 && other.below == 1 {
            return Some(Fraction {
                above: self.above.checked_mul(other.above)?,
                below: 1,
            });
        }
        let left = reduced(self.above, other.below)?;
        let right = reduced(other.above, self.below)?;
        Some(Fraction {
            above: left.above.checked_mul(right.above)?,
            below: left.below.checked_mul(right.below)?,
        })
    }

    /// The negative.
    pub fn less(&self) -> Option<Fraction> {
        Some(Fraction {
            above: self.above.checked_neg()?,
            below: self.below,
        })
    }

    /// 1 divided by the fraction; there is none of 0.
    pub fn turned(&self) -> Option<Fraction> {
        if self.above > 0 {
            return Some(Fraction {
                above: self.below,
                below: self.above,
            });
        }
        if self.above < 0 {
            return Some(Fraction {
                above: self.below.checked_neg()?,
                below: self.above.checked_neg()?,
            });
        }
        None
    }

    /// Whether it is less than another one.
    pub fn is_less(&self, other: &Fraction) -> Option<bool> {
        let one = self.above.checked_mul(other.below)?;
        let two = other.above.checked_mul(self.below)?;
        Some(one < two)
    }
}

/// A number that a number divides, and so does the denominator of a fraction.
pub fn common_of(number: i128, fraction: &Fraction) -> Option<i128> {
    number.checked_mul(Fraction::of(number, fraction.below())?.below())
}
