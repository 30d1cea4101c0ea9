// The values of params and coordinates: what their bit patterns stand for, and floats as whole numbers. The tests that the item rules make of floats are the
// crate float_tests'.
#![tactic(auto)]

ghost use Rattle.std.specs.Prelude.{◌≡◌};
ghost use Rattle.rules.specs.Values.{signed, float, whole_of, whole_number};
ghost use Rattle.values.specs.Wholes.{meant};

pub use float_tests::{above_zero, at_least_zero, is_finite, is_nan, zero_to};

// The float of a bit pattern; of every NaN pattern the NaN.
pub fn float_of(bits: u32) -> f32
    ensures { result ≡ float bits }
{
    if 0x7f80_0000 < bits % 0x8000_0000 {
        return 0.0 / 0.0;
    }
    f32::from_bits(bits)
}

// The signed number of a bit pattern.
pub fn signed_of(bits: u32) -> i32
    ensures { result ≡ signed bits }
{
    bits.cast_signed()
}

// Why a float is no whole number of 32 signed bits: it is no value (NaN), or another that is none, as one with a fraction.
#[derive(Clone, Copy, PartialEq, Eq)]
pub enum NotWhole {
    NoValue,
    Fraction,
}

// An exact reading. Each i32 is a value of f64, so the comparison there decides whether anything was cut off.
pub fn whole_of(x: f32) -> Result<i32, NotWhole>
    ensures { meant result ≡ whole_of x }
{
    if is_nan(x) {
        return Err(NotWhole::NoValue);
    }
    if x >= -2147483648.0 && x < 2147483648.0 {
        let n = std::num::truncating_f32_to_i64(x) as i32;
        if n as f64 == std::num::f32_to_f64_with_nan(x) {
            return Ok(n);
        }
    }
    Err(NotWhole::Fraction)
}

// The whole number that a float is, where it is one that is at least 0; otherwise 0.
pub fn number_of(x: f32) -> u32
    ensures { result ≡ whole_number (whole_of x) }
{
    match whole_of(x) {
        Ok(n) => n.max(0) as u32,
        Err(_) => 0,
    }
}
