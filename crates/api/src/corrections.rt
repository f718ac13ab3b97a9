// 01, 'Factors', for C: 'd is 4 for proving and tickets, 6 for water draw', so each factor has two entries and no
// number of places is asked for that could be another.
ghost use Rattle.std.specs.Prelude.{◌≡◌};
ghost use Rattle.factors.specs.Answers.{cts_of, cps_of, cpl_of};
ghost use Rattle.factors.specs.Metal.{metal_by};
ghost use Rattle.factors.specs.Places.{digits};
ghost use Rattle.api.specs.Given.{pipe_by, liquid_by};
ghost use Rattle.api.specs.Flat.{flat_factor};
ghost use Rattle.refusals.specs.Answered.{told};

use crate::outcome::give_back;
use factors::{Liquid, Pipe, Places};
use refusals::Refusal;

#[repr(C)]
#[derive(Clone, Copy)]
pub struct EndakuroFactor {
    pub number: u16,
    pub at: u16,
    // 0.0001 or 0.000001
    pub value: u32,
}

fn flatten(factor: Result<u32, Refusal>) -> EndakuroFactor
    ensures { result ≡ flat_factor (told factor) }
{
    let given = give_back(factor);
    EndakuroFactor {
        number: given.number as u16,
        at: given.at,
        value: factor.unwrap_or(0),
    }
}

fn work_out_cts(t: i16, metal: u8, coefficient: u16, places: Places) -> EndakuroFactor
    ensures { result ≡ flat_factor (cts_of (digits places) (metal_by metal coefficient) t) }
{
    let chosen = factors::choose_metal(metal, coefficient);
    flatten(factors::cts(t, chosen, places))
}

fn work_out_cps(p: u16, diameter: u32, wall: u32, modulus: u32, places: Places) -> EndakuroFactor
    ensures { result ≡ flat_factor (cps_of (digits places) (pipe_by diameter wall modulus) p) }
{
    let pipe = Pipe {
        diameter,
        wall,
        modulus,
    };
    flatten(factors::cps(p, pipe, places))
}

fn work_out_cpl(p: u16, f: u16, pe: u16, places: Places) -> EndakuroFactor
    ensures { result ≡ flat_factor (cpl_of (digits places) (liquid_by p f pe)) }
{
    let liquid = Liquid {
        pressure: p,
        compressibility: f,
        equilibrium: pe,
    };
    flatten(factors::cpl(liquid, places))
}

// T in 0.1 °F.
pub fn endakuro_cts_four(t: i16, metal: u8, coefficient: u16) -> EndakuroFactor
    ensures { result ≡ flat_factor (cts_of 4 (metal_by metal coefficient) t) }
{
    work_out_cts(t, metal, coefficient, Places::Four)
}

pub fn endakuro_cts_six(t: i16, metal: u8, coefficient: u16) -> EndakuroFactor
    ensures { result ≡ flat_factor (cts_of 6 (metal_by metal coefficient) t) }
{
    work_out_cts(t, metal, coefficient, Places::Six)
}

// P in psi gage, diameter and wall in 0.001 inch, modulus in psi.
pub fn endakuro_cps_four(p: u16, diameter: u32, wall: u32, modulus: u32) -> EndakuroFactor
    ensures { result ≡ flat_factor (cps_of 4 (pipe_by diameter wall modulus) p) }
{
    work_out_cps(p, diameter, wall, modulus, Places::Four)
}

pub fn endakuro_cps_six(p: u16, diameter: u32, wall: u32, modulus: u32) -> EndakuroFactor
    ensures { result ≡ flat_factor (cps_of 6 (pipe_by diameter wall modulus) p) }
{
    work_out_cps(p, diameter, wall, modulus, Places::Six)
}

// P and Pe in psi gage, F in 10^-8 per psi.
pub fn endakuro_cpl_four(p: u16, f: u16, pe: u16) -> EndakuroFactor
    ensures { result ≡ flat_factor (cpl_of 4 (liquid_by p f pe)) }
{
    work_out_cpl(p, f, pe, Places::Four)
}

pub fn endakuro_cpl_six(p: u16, f: u16, pe: u16) -> EndakuroFactor
    ensures { result ≡ flat_factor (cpl_of 6 (liquid_by p f pe)) }
{
    work_out_cpl(p, f, pe, Places::Six)
}
