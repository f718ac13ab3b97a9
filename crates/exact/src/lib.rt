// Exact products, sums and rounded quotients of 64-bit numbers: the lowest layer (01, 'Factors'). No
// layer above needs more than what its functions promise.
#![tactic(auto)]

ghost use Rattle.std.specs.Prelude.{◌≡◌, ◌+◌, ◌*◌, ◌^◌, ◌≤◌, ◌<◌, leb};
ghost use Rattle.exact.specs.Words.{wide_of, value_of, sum_of};
ghost use Rattle.exact.specs.Quotient.{quotient_of, value_or_zero};

mod divider;
mod multiplier;

// A word is worked in two digits of 32 bits, as by hand.
const BASE: u64 = 1 << 32;

// A number of two words: hi * 2^64 + lo, and not a `u128`, since 01's lowest layer is of 64-bit numbers. The upper
// word comes first, so that the derived order is that of the numbers.
#[derive(Clone, Copy, PartialEq, Eq, PartialOrd, Ord)]
pub struct Wide {
    pub hi: u64,
    pub lo: u64,
}

// Why there is no rounded quotient.
#[derive(Clone, Copy)]
pub enum QuotientError {
    ZeroDivisor,
    // the rounded quotient has more than 64 bits
    TooLarge,
}

// The whole product.
#[tactic(auto, unfolding(crate::specs::Words::wide_of))]
pub fn product(a: u64, b: u64) -> Wide
    ensures { result ≡ wide_of (a * b) }
{
    Wide {
        hi: multiplier::upper_word(a, b),
        lo: multiplier::lower_word(a, b),
    }
}

// One value more. A caller adds fewer than 2^64 values, so that the upper word has room.
#[tactic(auto, unfolding(crate::specs::Words::value_of))]
fn add(sum: Wide, x: u64) -> Wide
    requires { sum.hi + 1 < 2 ^ 64 }
    ensures { (value_of result ≡ value_of sum + x) × (result.hi ≤ sum.hi + 1) }
{
    let (lo, carries) = sum.lo.overflowing_add(x);
    Wide {
        hi: sum.hi + carries as u64,
        lo,
    }
}

// The sum of the values lent: a slice has fewer than 2^64 of them, so that two words hold it.
pub fn sum(values: &[u64]) -> Wide
    ensures { result ≡ wide_of (sum_of values.now) }
{
    let mut sum = Wide { hi: 0, lo: 0 };
    for x in values {
        sum = add(sum, *x);
    }
    sum
}

// a ≤ b, of numbers of two words.
#[tactic(auto, using(std::proofs::lemmas::Bool::Decides::nat_tests), unfolding(crate::specs::Words::value_of))]
pub fn is_at_most(a: Wide, b: Wide) -> bool
    ensures { result ≡ leb (value_of a) (value_of b) }
{
    a <= b
}

// n / d to the nearest whole number, halves up.
pub fn rounded_quotient(n: Wide, d: u64) -> Result<u64, QuotientError>
    ensures { result ≡ quotient_of (value_of n) d }
{
    if d == 0 {
        return Err(QuotientError::ZeroDivisor);
    }
    if d <= n.hi {
        return Err(QuotientError::TooLarge);
    }
    let whole = divider::divide(n, d);
    if whole.rest < d - whole.rest {
        return Ok(whole.quotient);
    }
    whole.quotient.checked_add(1).ok_or(QuotientError::TooLarge)
}

// a * b / d to the nearest whole number, halves up: all multiplying comes before the division.
#[tactic(auto, using(crate::proofs::Words::value_wide))]
pub fn rounded_ratio(a: u64, b: u64, d: u64) -> Result<u64, QuotientError>
    ensures { result ≡ quotient_of (a * b) d }
{
    rounded_quotient(product(a, b), d)
}

// The quotient's value, and 0 where there is none: for a caller whose magnitudes rule that out.
pub fn value_or_zero(quotient: Result<u64, QuotientError>) -> u64
    ensures { result ≡ value_or_zero quotient }
{
    quotient.unwrap_or(0)
}

// a * b / d to the nearest whole number, and 0 where there is none: for a caller whose magnitudes
// rule that out.
pub fn round_or_zero(a: u64, b: u64, d: u64) -> u64
    ensures { result ≡ value_or_zero (quotient_of (a * b) d) }
{
    value_or_zero(rounded_ratio(a, b, d))
}
