// The lowest layer's rounded quotient, for C: what every figure is made by.
ghost use Rattle.std.specs.Prelude.{◌≡◌, ◌*◌};
ghost use Rattle.exact.specs.Quotient.{quotient_of};
ghost use Rattle.api.specs.Flat.{flat_quotient};

use api::quotients::EndakuroQuotient;

// a * b / d to the nearest whole number, halves up.
#[unsafe(no_mangle)]
pub extern "C" fn endakuro_rounded_ratio(a: u64, b: u64, d: u64) -> EndakuroQuotient
    ensures { result ≡ flat_quotient (quotient_of (a * b) d) }
{
    api::quotients::endakuro_rounded_ratio(a, b, d)
}
