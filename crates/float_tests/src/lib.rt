// The tests that the item rules make of floats.
#![tactic(auto)]

ghost use Rattle.std.specs.Prelude.{◌≡◌};
ghost use Rattle.std.specs.Float.Ieee.{is_nan};
ghost use Rattle.rules.specs.Values.{finite, at_least_zero, above_zero, zero_to};

pub fn is_finite(x: f32) -> bool
    ensures { result ≡ finite x }
{
    x.is_finite()
}

// Minus zero is at least 0.
pub fn at_least_zero(x: f32) -> bool
    ensures { result ≡ at_least_zero x }
{
    (0.0 <= x) & (x < f32::INFINITY)
}

pub fn above_zero(x: f32) -> bool
    ensures { result ≡ above_zero x }
{
    (0.0 < x) & (x < f32::INFINITY)
}

pub fn zero_to(limit: u16, x: f32) -> bool
    ensures { result ≡ zero_to limit x }
{
    (0.0 <= x) & (x <= limit as f32)
}

pub fn is_nan(x: f32) -> bool
    ensures { result ≡ is_nan x }
{
    x.is_nan()
}
