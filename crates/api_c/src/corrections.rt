// 01, 'Factors', for C: 'd is 4 for proving and tickets, 6 for water draw', so each factor has two entries and no
// number of places is asked for that could be another.
ghost use Rattle.std.specs.Prelude.{◌≡◌};
ghost use Rattle.factors.specs.Answers.{cts_of, cps_of, cpl_of};
ghost use Rattle.factors.specs.Metal.{metal_by};
ghost use Rattle.api.specs.Given.{pipe_by, liquid_by};
ghost use Rattle.api.specs.Flat.{flat_factor};

use api::corrections::EndakuroFactor;

// T in 0.1 °F.
#[unsafe(no_mangle)]
pub extern "C" fn endakuro_cts_four(t: i16, metal: u8, coefficient: u16) -> EndakuroFactor
    ensures { result ≡ flat_factor (cts_of 4 (metal_by metal coefficient) t) }
{
    api::corrections::endakuro_cts_four(t, metal, coefficient)
}

#[unsafe(no_mangle)]
pub extern "C" fn endakuro_cts_six(t: i16, metal: u8, coefficient: u16) -> EndakuroFactor
    ensures { result ≡ flat_factor (cts_of 6 (metal_by metal coefficient) t) }
{
    api::corrections::endakuro_cts_six(t, metal, coefficient)
}

// P in psi gage, diameter and wall in 0.001 inch, modulus in psi.
#[unsafe(no_mangle)]
pub extern "C" fn endakuro_cps_four(
    p: u16,
    diameter: u32,
    wall: u32,
    modulus: u32,
) -> EndakuroFactor
    ensures { result ≡ flat_factor (cps_of 4 (pipe_by diameter wall modulus) p) }
{
    api::corrections::endakuro_cps_four(p, diameter, wall, modulus)
}

#[unsafe(no_mangle)]
pub extern "C" fn endakuro_cps_six(p: u16, diameter: u32, wall: u32, modulus: u32) -> EndakuroFactor
    ensures { result ≡ flat_factor (cps_of 6 (pipe_by diameter wall modulus) p) }
{
    api::corrections::endakuro_cps_six(p, diameter, wall, modulus)
}

// P and Pe in psi gage, F in 10^-8 per psi.
#[unsafe(no_mangle)]
pub extern "C" fn endakuro_cpl_four(p: u16, f: u16, pe: u16) -> EndakuroFactor
    ensures { result ≡ flat_factor (cpl_of 4 (liquid_by p f pe)) }
{
    api::corrections::endakuro_cpl_four(p, f, pe)
}

#[unsafe(no_mangle)]
pub extern "C" fn endakuro_cpl_six(p: u16, f: u16, pe: u16) -> EndakuroFactor
    ensures { result ≡ flat_factor (cpl_of 6 (liquid_by p f pe)) }
{
    api::corrections::endakuro_cpl_six(p, f, pe)
}
