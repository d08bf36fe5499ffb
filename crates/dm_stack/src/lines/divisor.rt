//! Divisors that are used often, so that a division is a multiplication by a precomputed inverse.
//!
//! A range on stripes needs two divisions at each level that it passes, otherwise a sixth of the request's time.
//!
//! This is here for speed alone; RESULTS.md lists these requests as *through 8 levels of stripes and lines*. The
//! code relies on the inverse being at most one too small, so that the quotient is, too, and needs only one
//! correction. If you change it, measure these requests before and after.

ghost use Rattle.std.specs.Prelude.{◌≡◌, ◌+◌, ◌*◌, ◌^◌, ◌/◌, ◌%◌, ◌<◌, ◌≤◌};

use std::marker::Model;

/// A number to divide by. Contracts see a `Divisor` as this number.
#[derive(Debug, Drop)]
pub struct Divisor {
    value: u64,
    /// 2^64 divided by the value and rounded down, or one less.
    inverse: u64,
}

impl Model for Divisor {
    ghost use Rattle.dm_stack.specs.Base.{ℕ};
    ghost use Rattle.std.specs.Prelude.{◌≤◌, ◌<◌, ◌+◌, ◌*◌, ◌^◌};

    ghost Value = { ℕ };

    ghost view = { λ divisor. divisor.value };

    ghost invariant = { λ divisor. 0 < divisor.value → (divisor.inverse * divisor.value ≤ 2 ^ 64)
        × (2 ^ 64 ≤ divisor.inverse * divisor.value + divisor.value) };
}

impl Divisor {
    /// Makes a divisor from any number; dividing requires that the number isn't 0.
    pub(crate) fn new(value: u64) -> Divisor
        ensures { result ≡ value }
    {
        if value == 0 {
            return Divisor { value, inverse: 0 };
        }
        Divisor {
            value,
            inverse: u64::MAX / value,
        }
    }

    /// The number itself.
    #[inline(always)]
    pub(crate) fn value(&self) -> u64
        ensures { result ≡ self.now }
    {
        self.value
    }

    /// The quotient and the remainder of `number` divided by this divisor.
    #[tactic(auto, using(crate::proofs::lines::Inverses::divided))]
    #[inline(always)]
    pub(crate) fn divide(&self, number: u64) -> (u64, u64)
        requires { 0 < self.now }
        ensures quotient { result.0 ≡ number / self.now }
        ensures remainder { result.1 ≡ number % self.now }
    {
        self.parts(number)
    }

    /// A quotient and a remainder of `number`, the remainder being less than the divisor.
    #[inline(always)]
    fn parts(&self, number: u64) -> (u64, u64)
        requires { 0 < self.now }
        ensures whole { number ≡ result.0 * self.now + result.1 }
        ensures small { result.1 < self.now }
    {
        let quotient = self.quotient_or_less(number);
        let rest = number - quotient * self.value;
        if rest < self.value {
            return (quotient, rest);
        }
        (quotient + 1, rest - self.value)
    }

    /// The quotient of `number`, or one less.
    #[tactic(auto, using(crate::proofs::lines::Inverses::near))]
    #[inline(always)]
    fn quotient_or_less(&self, number: u64) -> u64
        requires { 0 < self.now }
        ensures below { result * self.now ≤ number }
        ensures above { number < result * self.now + self.now + self.now }
    {
        high_part(number, self.inverse)
    }
}

/// The upper 64 bits of the 128-bit product.
#[inline(always)]
fn high_part(a: u64, b: u64) -> u64
    ensures { result ≡ a * b / 2 ^ 64 }
{
    ((u128::from(a) * u128::from(b)) >> 64) as u64
}
