// Division of a two-word number by one word, a word at a time: where the upper word is zero by one
// machine division, else by hand in base 2^32. Only `divide`'s promise is known outside this file.
ghost use Rattle.std.specs.Prelude.{◌≡◌, ◌+◌, ◌*◌, ◌^◌, ◌<◌, ◌≤◌};

use crate::{BASE, Wide};

// A quotient and what is left.
#[derive(Clone, Copy)]
pub(crate) struct Divided {
    pub(crate) quotient: u64,
    pub(crate) rest: u64,
}

// What brings a divisor's uppermost bit to that of the word: a power of two.
fn scale_of(d: u64) -> u64
    requires { 0 < d }
    ensures { (2 ^ 63 ≤ d * result) × (d * result < 2 ^ 64) }
{
    1u64 << d.leading_zeros()
}

// The digit and its rest, from an estimate that is too large: `lack` is what the dividend lacks of
// estimate * d. A divisor whose uppermost bit is set is lacking at most twice.
fn correct(estimate: u64, lack: u64, d: u64) -> Divided
    requires { (2 ^ 63 ≤ d) × (0 < lack) × (lack ≤ estimate * d) }
    ensures { (result.quotient * d + result.rest + lack ≡ estimate * d) × (result.rest < d) }
{
    if lack <= d {
        Divided {
            quotient: estimate - 1,
            rest: d - lack,
        }
    } else {
        Divided {
            quotient: estimate - 2,
            rest: d - (lack - d),
        }
    }
}

// One more digit of the dividend: the rest so far takes it, and gives one digit of the quotient. The
// estimate is the rest by the divisor's upper digit alone, so that it is never too small.
fn take_digit(rest: u64, digit: u64, d: u64) -> Divided
    requires { (2 ^ 63 ≤ d) × (rest < d) × (digit < 2 ^ 32) }
    ensures { (result.quotient * d + result.rest ≡ rest * 2 ^ 32 + digit) × (result.rest < d) × (result.quotient < 2 ^ 32) }
{
    let upper = d / BASE;
    let lower = d % BASE;
    let estimate = rest / upper;
    let kept = rest % upper * BASE + digit;
    let asked = estimate * lower;
    if asked <= kept {
        return Divided {
            quotient: estimate,
            rest: kept - asked,
        };
    }
    correct(estimate, asked - kept, d)
}

// n / d and its rest, digit by digit: dividend and divisor are scaled, the lower word gives its
// two digits, and the rest is scaled back.
fn divide_two_words(n: Wide, d: u64) -> Divided
    requires { n.hi < d }
    ensures { (result.quotient * d + result.rest ≡ n.hi * 2 ^ 64 + n.lo) × (result.rest < d) }
{
    let scale = scale_of(d);
    let divisor = d * scale;
    let low = crate::product(n.lo, scale);
    let first = take_digit(n.hi * scale + low.hi, low.lo / BASE, divisor);
    let second = take_digit(first.rest, low.lo % BASE, divisor);
    Divided {
        quotient: first.quotient * BASE + second.quotient,
        rest: second.rest / scale,
    }
}

// n / d and its rest, where the quotient fits a word.
pub(crate) fn divide(n: Wide, d: u64) -> Divided
    requires { n.hi < d }
    ensures { (result.quotient * d + result.rest ≡ n.hi * 2 ^ 64 + n.lo) × (result.rest < d) }
{
    if n.hi == 0 {
        return Divided {
            quotient: n.lo / d,
            rest: n.lo % d,
        };
    }
    divide_two_words(n, d)
}
