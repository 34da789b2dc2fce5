// Readings as decimals (document 02, N6): the f64 nearest to a decimal, and the decimal with the fewest digits after the point that gives an f64.
#![tactic(auto)]

ghost use Rattle.std.specs.Prelude.{◌≡◌, ℕ, ◌^◌, ◌<◌, false, pos, Some, None, if◌then◌else◌};
ghost use Rattle.std.specs.Float.{binary64};
ghost use Rattle.std.specs.Float.Ieee.{of_int, round};
ghost use Rattle.decimals.specs.Decimals as Decimals;

// digits / 10^places, negative where it has a minus.
#[derive(Clone, Copy)]
pub struct Decimal {
    pub minus: bool,
    pub digits: u64,
    pub places: usize,
}

// Of at most 15 digits.
const MOST_DIGITS: u64 = 999999999999999;

const MOST_PLACES: usize = 6;

impl Decimal {
    // The bits of the f64 nearest to it; None where it has too many digits.
    // Digits and power are f64 themselves, so that the quotient is rounded once.
    pub fn reading_bits(self) -> Option<u64>
        ensures { result ≡ if Decimals.allowed self then Some (Decimals.reading_bits self) else None }
    {
        if self.digits > MOST_DIGITS || self.places > MOST_PLACES {
            return None;
        }
        let size = self.digits as f64 / power_of_ten(self.places);
        Some(if self.minus { -size } else { size }.to_bits())
    }
}

// The decimal with the fewest digits after the point that gives the f64 of these bits; None where none does.
pub fn shortest(bits: u64) -> Option<Decimal>
    ensures { result ≡ Decimals.shortest bits }
{
    let minus = bits >= SIGN;
    let size = bits % SIGN;
    if size >= INFINITY || bits == SIGN {
        return None;
    }
    let size = f64::from_bits(size);
    for places in 0..MOST_PLACES + 1 {
        let digits = digits_near(size, places);
        if digits <= MOST_DIGITS && digits as f64 / power_of_ten(places) == size {
            return Some(Decimal {
                minus,
                digits,
                places,
            });
        }
    }
    None
}

// The bits of -0.0, which are the sign alone.
const SIGN: u64 = 9223372036854775808;

// The bits of infinity; those above are a NaN's, the sign apart.
const INFINITY: u64 = 9218868437227405312;

// The digits of the decimal with so many places that gives the size, wherever there is one: product and sum are rounded too, but by too little to matter there.
// Where there is none, it may be any number.
fn digits_near(size: f64, places: usize) -> u64
    requires { places < 7 }
    ensures { (digits : ℕ) → digits < 10 ^ 15 → size ≡ round binary64 false digits (10 ^ places) → result ≡ digits }
{
    let near = size * power_of_ten(places) + 0.5;
    if near > 0.0 && near < 1125899906842624.0 {
        std::num::truncating_f64_to_u64(near)
    } else {
        u64::MAX
    }
}

fn power_of_ten(places: usize) -> f64
    requires { places < 7 }
    ensures { result ≡ of_int binary64 (pos (10 ^ places)) }
{
    match places {
        0 => 1.0,
        1 => 10.0,
        2 => 100.0,
        3 => 1000.0,
        4 => 10000.0,
        5 => 100000.0,
        _ => 1000000.0,
    }
}
