// One single of a reading: o + k·x, x the exact number in the single's bits, to the nearest whole
// number, halves away from zero. The bits of a single are its side of zero, a field of 8 and 23
// digits: from field 1 to 254 the number is (2^23 + digits) · 2^(field - 150).
ghost use Rattle.std.specs.Prelude.{◌≡◌, ◌/◌, ◌%◌, ◌^◌, ◌≤◌, ◌<◌, pos, ◌+ℤ◌};
ghost use Rattle.std.specs.Float.{binary32};
ghost use Rattle.std.specs.Float.Ieee.{of_bits};
ghost use Rattle.std.specs.Float.Ieee.Scale.{finite};
ghost use Rattle.exact.specs.Rounding.{rounded_div};
ghost use Rattle.refusals.specs.Told.{demand, judged};
ghost use Rattle.refusals.specs.Answered.{told};
ghost use Rattle.live.specs.Exact.{sided};
ghost use Rattle.live.specs.Live.{whole_of, single_of};
ghost use Rattle.live.specs.Word.{held};

use refusals::Refusal;

// 2^23, the weight of the field, and 2^31, the weight of the side of zero.
const FIELD: u32 = 8388608;

const SIDE: u32 = 2147483648;

// A whole number by its side of zero and its size.
#[derive(Clone, Copy)]
struct Sided {
    below: bool,
    size: u64,
}

impl Sided {
    // a + b, or a - b where b is below zero.
    fn sum(a: u64, below: bool, b: u64) -> Sided
        requires { (a < 2 ^ 63) × (b < 2 ^ 63) }
        ensures { sided result.below result.size ≡ pos a +ℤ sided below b }
    {
        if !below {
            return Sided { below, size: a + b };
        }
        Sided {
            below: a < b,
            size: a.abs_diff(b),
        }
    }

    // The number, where 16 bits hold its size: no range reaches further.
    fn to_word(self) -> Result<i16, Refusal>
        ensures { told result ≡ judged (demand (held (sided self.below self.size)) 13) (sided self.below self.size) }
    {
        let Ok(size) = i16::try_from(self.size) else {
            return Err(Refusal::ReadingRange);
        };
        Ok(if self.below { -size } else { size })
    }
}

fn raise_two(exponent: u32) -> u64
    requires { exponent < 64 }
    ensures { result ≡ 2 ^ exponent }
{
    1u64 << exponent
}

// A half counts as more than a half, so that it goes up.
fn round_half_up(top: u64, bottom: u64) -> u64
    requires { (0 < bottom) × (bottom ≤ 2 ^ 40) }
    ensures { result ≡ rounded_div top bottom }
{
    let whole = top / bottom;
    let rest = top % bottom;
    if bottom < 2 * rest + 1 {
        whole + 1
    } else {
        whole
    }
}

// Below field 110 the size of k·x is under a half, since k is under 2^16: what is left is o.
fn round_scaled(bits: u32, offset: u16, times: u16) -> Sided
    requires { bits / 8388608 % 256 < 150 }
    ensures { sided result.below result.size ≡ whole_of offset times (of_bits binary32 bits) }
{
    let field = bits / FIELD % 256;
    if field < 110 {
        return Sided {
            below: false,
            size: offset as u64,
        };
    }
    let bottom = raise_two(150 - field);
    let digits = FIELD + bits % FIELD;
    let sum = Sided::sum(
        offset as u64 * bottom,
        SIDE <= bits,
        times as u64 * digits as u64,
    );
    let size = round_half_up(sum.size, bottom);
    Sided {
        below: sum.below,
        size,
    }
}

// By the bits: the library's test subtracts, and an infinity less itself is an invalid operation.
fn is_finite(x: f32) -> bool
    ensures { result ≡ finite x }
{
    // A NaN's bits are no number's.
    !x.is_nan() && x.to_bits() / FIELD % 256 < 255
}

// A single that is not finite is told of before its range. From field 150 on the size of x is 2^23 or more,
// and o is under 2^16: no range reaches so far.
pub(crate) fn round(x: f32, offset: u16, times: u16) -> Result<i16, Refusal>
    requires { 0 < times }
    ensures { told result ≡ single_of held offset times x }
{
    refusals::demand(is_finite(x), Refusal::ReadingNotFinite)?;
    let bits = x.to_bits();
    if bits / FIELD % 256 < 150 {
        round_scaled(bits, offset, times).to_word()
    } else {
        Err(Refusal::ReadingRange)
    }
}
