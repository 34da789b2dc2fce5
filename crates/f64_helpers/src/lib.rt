// The f64 functions that the published Rust takes from its standard library, for every f64: NaN, infinities, zeros of either sign, subnormals. `max` and `min` settle which of two zeros comes back, which std leaves open; the others are std's. Beside them its `x.max(0.0)` by one comparison (`max_zero`), two of its steps in one (`floor_as_i64`), the tests for a whole number and for a time, and the choice between two values.
#![tactic(auto)]

ghost use Rattle.std.specs.Prelude.{◌≡◌, T, if◌then◌else◌};
ghost use Rattle.f64_helpers.specs.F64.{◌<ᶠ◌, zero};
ghost use Rattle.f64_helpers.specs.Helpers as Helpers;
ghost use Rattle.f64_helpers.specs.Seconds as Seconds;

// `x.floor()`.
#[tactic(auto, using(crate::proofs::Std::floor_is))]
pub fn floor(x: f64) -> f64
    ensures { result ≡ Helpers.floor x }
{
    x.floor()
}

// `x.ceil()`.
#[tactic(auto, using(crate::proofs::Std::ceil_is))]
pub fn ceil(x: f64) -> f64
    ensures { result ≡ Helpers.ceil x }
{
    x.ceil()
}

// `x.abs()`. A NaN comes back as it came, with its sign; the contract knows one NaN, and speaks of no bits of it.
#[tactic(auto, using(crate::proofs::Std::abs_is))]
pub fn abs(x: f64) -> f64
    ensures { result ≡ Helpers.abs x }
{
    x.abs()
}

// `a.max(b)`. The sum of two zeros is -0.0 only if both are.
#[tactic(auto, using(crate::proofs::Tests::is_nan_lem), unfolding(crate::specs::Helpers::max))]
pub fn max(a: f64, b: f64) -> f64
    ensures { result ≡ Helpers.max a b }
{
    if a != a {
        b
    } else if a < b {
        b
    } else if a == 0.0 {
        if b == 0.0 { a + b } else { a }
    } else {
        a
    }
}

// `x.max(0.0)`, by one comparison: what is above 0 comes back, and all else gives 0.0, a zero of either sign and a NaN too.
pub fn max_zero(x: f64) -> f64
    ensures { result ≡ Helpers.max x zero }
{
    if x > 0.0 { x } else { 0.0 }
}

// `a.min(b)`.
#[tactic(auto, using(crate::proofs::Signs::neg_max))]
pub fn min(a: f64, b: f64) -> f64
    ensures { result ≡ Helpers.min a b }
{
    -max(-a, -b)
}

// `x as i64`.
pub fn as_i64(x: f64) -> i64
    ensures { result ≡ Helpers.as_i64 x }
{
    std::num::saturating_f64_to_i64(x)
}

// `x.floor() as i64`. Between 0 and 2^52 the whole part is both, with no way back through a float.
pub fn floor_as_i64(x: f64) -> i64
    ensures { result ≡ Helpers.as_i64 (Helpers.floor x) }
{
    if x > 0.0 {
        if x < 4503599627370496.0 {
            std::num::truncating_f64_to_u64(x) as i64
        } else {
            as_i64(floor(x))
        }
    } else {
        as_i64(floor(x))
    }
}

// Whether x is finite and has no fraction.
pub fn is_whole(x: f64) -> bool
    ensures { result ≡ Helpers.is_whole x }
{
    (x - x == 0.0) & (floor(x) == x)
}

// Whether t is a whole number of seconds from 0 to 2,147,483,648. An f64 from 2^52 on has no place for a fraction: 2^52 added and taken off again give t back exactly if it has none.
pub fn is_time(t: f64) -> bool
    ensures { result ≡ Seconds.is_time t }
{
    (t >= 0.0) & (t <= 2147483648.0) & (t + 4503599627370496.0 - 4503599627370496.0 == t)
}

// `if b { x } else { y }`, where a stage picks between two values.
pub fn choose<V: Copy>(b: bool, x: V, y: V) -> V
    ensures { result ≡ (if b then x else y) }
{
    if b { x } else { y }
}
