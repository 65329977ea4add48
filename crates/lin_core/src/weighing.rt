//! The value of multiples of class weights.
ghost use Rattle.std.specs.Prelude.{◌≡◌, ◌≤◌, ◌*◌, ◌^◌, ◌≤ℤ◌, ◌*ℤ◌, ℤ, pos, unsigned_abs};
ghost use Rattle.lin_core.specs.Rows.{value_of_terms};
ghost use Rattle.lin_core.specs.Weights.{AreWeights, weight_in, total_size};

/// The weight of a class: the first that is listed for it, and 0 where none is.
fn weight_of(weights: &[(u32, i64)], class: u32) -> i64
    requires { AreWeights weights.now }
    ensures value { result ≡ weight_in weights.now class }
    ensures low { pos 0 ≤ℤ result }
    ensures high { result ≤ℤ pos 65535 }
{
    for (listed, weight) in weights {
        if *listed == class {
            return *weight;
        }
    }
    0
}

/// So many times a weight.
fn share(multiple: &i64, weight: &i64) -> i64
    requires small { unsigned_abs multiple.now ≤ 2 ^ 40 }
    requires low { pos 0 ≤ℤ weight.now }
    requires high { weight.now ≤ℤ pos 65535 }
    ensures value { result ≡ multiple.now *ℤ weight.now }
    ensures bound { unsigned_abs result ≤ 65535 * unsigned_abs multiple.now }
{
    *multiple * *weight
}

/// The value of multiples of class weights, where these weights are listed.
pub fn weighed(multiples: &[(u32, i64)], weights: &[(u32, i64)]) -> i64
    requires small { total_size multiples.now ≤ 2 ^ 40 }
    requires weights { AreWeights weights.now }
    ensures value { result ≡ value_of_terms (weight_in weights.now) multiples.now }
    ensures bound { unsigned_abs result ≤ 2 ^ 56 }
{
    let mut sum: i64 = 0;
    for (class, multiple) in multiples {
        sum += share(multiple, &weight_of(weights, *class));
    }
    sum
}
