// The lowest layer's rounded quotient, for C: what every figure is made by.
ghost use Rattle.std.specs.Prelude.{◌≡◌, ◌*◌};
ghost use Rattle.exact.specs.Quotient.{quotient_of};
ghost use Rattle.api.specs.Flat.{flat_quotient};

use exact::QuotientError;

#[repr(C)]
#[derive(Clone, Copy)]
pub struct EndakuroQuotient {
    pub value: u64,
    // 0 with the value; 1 for a zero divisor and 2 for more than 64 bits, with value 0
    pub kind: u8,
}

// a * b / d to the nearest whole number, halves up.
pub fn endakuro_rounded_ratio(a: u64, b: u64, d: u64) -> EndakuroQuotient
    ensures { result ≡ flat_quotient (quotient_of (a * b) d) }
{
    let quotient = exact::rounded_ratio(a, b, d);
    match quotient {
        Ok(value) => EndakuroQuotient { value, kind: 0 },
        Err(QuotientError::ZeroDivisor) => EndakuroQuotient { value: 0, kind: 1 },
        Err(QuotientError::TooLarge) => EndakuroQuotient { value: 0, kind: 2 },
    }
}
