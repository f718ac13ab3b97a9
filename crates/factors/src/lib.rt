// The correction factors of 01, 'Factors': CTS, CPS and CPL, each rounded once to 4 or 6 places,
// and the combined factor of rounded factors. A factor is a whole number of its last place.
#![tactic(auto)]

ghost use Rattle.std.specs.Prelude.{◌≡◌, ◌*◌, ◌≤◌, ◌<◌, ◌^◌, length, get_or};
ghost use Rattle.exact.specs.Rounding.{rounded, ◌over◌};
ghost use Rattle.factors.specs.Metal.{coefficient_of, metal_ok, metal_by};
ghost use Rattle.factors.specs.Prover.{pipe_ok, prover_ok};
ghost use Rattle.factors.specs.Liquid.{liquid_ok};
ghost use Rattle.factors.specs.Places.{digits};
ghost use Rattle.factors.specs.Answers.{cts_of, cps_of, cpl_of, combined_of};
ghost use Rattle.refusals.specs.Answered.{told};
ghost use Rattle.exact.specs.Quotient.{value_or_zero};

use refusals::Refusal;

// The prover's metal: one of the four named, or a certified cubical coefficient in 10^-7 per °F. A
// certificate wins over the name.
#[derive(Clone, Copy)]
pub enum Metal {
    MildCarbon,
    Stainless304,
    Stainless316,
    // 17-4 PH
    PrecipitationHardened,
    Certified(u16),
}

// The pipe: inside diameter and wall in 0.001 inch, modulus of elasticity in psi.
#[derive(Clone, Copy)]
pub struct Pipe {
    pub diameter: u32,
    pub wall: u32,
    pub modulus: u32,
}

// The prover's settings; the base volume is in 0.0001 barrel.
#[derive(Clone, Copy)]
pub struct Prover {
    pub metal: Metal,
    pub pipe: Pipe,
    pub base: u32,
}

// A liquid at the prover, at the meter or on a ticket: its pressure P in psi gage, its compressibility F
// in 10^-8 per psi and its equilibrium pressure Pe in psi gage, 0 where it does not boil at line conditions.
#[derive(Clone, Copy)]
pub struct Liquid {
    pub pressure: u16,
    pub compressibility: u16,
    pub equilibrium: u16,
}

// Decimal places of a factor: four for proving and tickets, six for water draw.
#[derive(Clone, Copy)]
pub enum Places {
    Four,
    Six,
}

// Why there is no combined factor.
#[derive(Clone, Copy)]
pub enum CombineError {
    // more than four factors
    TooMany,
    // the combined factor has more than 64 bits
    TooLarge,
}

// The metal's cubical coefficient in 10^-7 per °F.
pub fn coefficient(metal: Metal) -> u16
    ensures { result ≡ coefficient_of metal }
{
    match metal {
        Metal::MildCarbon => 186,
        Metal::Stainless304 => 288,
        Metal::Stainless316 => 265,
        Metal::PrecipitationHardened => 180,
        Metal::Certified(gc) => gc,
    }
}

// The metal's coefficient is in range, as a named metal's is.
pub fn is_metal(metal: Metal) -> bool
    ensures { result ≡ metal_ok metal }
{
    ranges::is_coefficient(coefficient(metal) as u64)
}

// The metal that a caller's two numbers name, as C passes them: a code and a certified coefficient, 0 where there
// is none.
#[tactic(auto, using(std::proofs::lemmas::Bool::Decides::nat_tests), unfolding(crate::specs::Metal::named, crate::specs::Metal::metal_by))]
pub fn choose_metal(code: u8, certified: u16) -> Metal
    ensures { result ≡ metal_by code certified }
{
    if 4 < code {
        return Metal::Certified(0);
    }
    if certified != 0 {
        return Metal::Certified(certified);
    }
    match code {
        0 => Metal::MildCarbon,
        1 => Metal::Stainless304,
        2 => Metal::Stainless316,
        3 => Metal::PrecipitationHardened,
        _ => Metal::Certified(0),
    }
}

// The pipe's diameter, wall and modulus are in range.
pub fn is_pipe(pipe: Pipe) -> bool
    ensures { result ≡ pipe_ok pipe }
{
    ranges::is_diameter(pipe.diameter as u64)
        & (ranges::is_wall(pipe.wall as u64) & ranges::is_modulus(pipe.modulus as u64))
}

// The prover's settings are in range.
pub fn is_prover(prover: Prover) -> bool
    ensures { result ≡ prover_ok prover }
{
    is_metal(prover.metal) & (is_pipe(prover.pipe) & ranges::is_volume(prover.base as u64))
}

// The liquid's pressure is in range and not below its equilibrium pressure, and its compressibility is in range.
pub fn is_liquid(liquid: Liquid) -> bool
    ensures { result ≡ liquid_ok liquid }
{
    ranges::is_pressure(liquid.pressure as u64)
        & ((liquid.equilibrium <= liquid.pressure)
            & ranges::is_compressibility(liquid.compressibility as u64))
}

// One, at so many places: 10^places.
fn unit(places: Places) -> u64
    ensures { result ≡ 10 ^ digits places }
{
    match places {
        Places::Four => 10000,
        Places::Six => 1000000,
    }
}

// A fraction that is at most 2, rounded.
fn round(num: u64, den: u64, places: Places) -> u32
    requires { (0 < den) × (num ≤ 2 * den) }
    ensures { result ≡ rounded (digits places) (num over den) }
{
    exact::round_or_zero(num, unit(places), den) as u32
}

// The correction for the effect of temperature on steel, T in 0.1 °F.
pub fn cts(t: i16, metal: Metal, places: Places) -> Result<u32, Refusal>
    ensures { told result ≡ cts_of (digits places) metal t }
{
    refusals::demand(is_metal(metal), Refusal::ProverSetting)?;
    refusals::demand(ranges::is_temperature(t), Refusal::RecordField(0))?;
    let gc = coefficient(metal) as u64;
    // counted from -100.0 °F, so that no step is below zero
    let above = (t + 1000) as u64;
    Ok(round(100000000 + above * gc - 1600 * gc, 100000000, places))
}

// The correction for the effect of pressure on steel, P in psi gage.
pub fn cps(p: u16, pipe: Pipe, places: Places) -> Result<u32, Refusal>
    ensures { told result ≡ cps_of (digits places) pipe p }
{
    refusals::demand(is_pipe(pipe), Refusal::ProverSetting)?;
    let pressure = p as u64;
    refusals::demand(ranges::is_pressure(pressure), Refusal::RecordField(0))?;
    let stiffness = pipe.modulus as u64 * pipe.wall as u64;
    let loaded = stiffness + pressure * pipe.diameter as u64;
    Ok(round(loaded, stiffness, places))
}

// The correction for the effect of pressure on liquid.
pub fn cpl(liquid: Liquid, places: Places) -> Result<u32, Refusal>
    ensures { told result ≡ cpl_of (digits places) liquid }
{
    refusals::demand(is_liquid(liquid), Refusal::RecordField(0))?;
    let above = liquid.pressure - liquid.equilibrium;
    let squeezed = liquid.compressibility as u64 * above as u64;
    Ok(round(100000000, 100000000 - squeezed, places))
}

// The factor, and 0 where there is none: for a caller that has judged the ranges.
pub fn value_or_zero(factor: Result<u32, Refusal>) -> u32
    ensures { result ≡ value_or_zero factor }
{
    factor.unwrap_or(0)
}

// The factor at a place of the list, and one past its end.
fn factor_at(factors: &[u32], i: usize) -> u64
    ensures { (result ≡ get_or factors.now i 1) × (result < 2 ^ 32) }
{
    factors.get(i).copied().unwrap_or(1) as u64
}

// What the product of so many factors is counted in, against the unit of one: 10^(places * (count - 1)).
fn units_above_one(places: Places, count: usize) -> u64
    requires { (1 ≤ count) × (count ≤ 4) }
    ensures { (result * 10 ^ digits places ≡ (10 ^ digits places) ^ count) × (0 < result) }
{
    let one = unit(places);
    // multiplied out, since `pow` would count the factors by a loop
    match count {
        1 => 1,
        2 => one,
        3 => one * one,
        _ => one * one * one,
    }
}

// The combined factor: the exact product of the rounded factors, then one rounding.
pub fn combine(factors: &[u32], places: Places) -> Result<u64, CombineError>
    ensures { result ≡ combined_of (digits places) factors.now }
{
    let count = factors.len();
    if 4 < count {
        return Err(CombineError::TooMany);
    }
    if count == 0 {
        return Ok(unit(places));
    }
    let first = factor_at(factors, 0) * factor_at(factors, 1);
    let second = factor_at(factors, 2) * factor_at(factors, 3);
    let quotient = exact::rounded_ratio(first, second, units_above_one(places, count));
    // no count of units is zero
    quotient.map_err(|_| CombineError::TooLarge)
}

// The combined factor, and 0 where there is none: for a caller whose magnitudes rule that out. It stands beside
// `value_or_zero`, since each is promised by its name.
pub fn combined_or_zero(combined: Result<u64, CombineError>) -> u64
    ensures { result ≡ value_or_zero combined }
{
    combined.unwrap_or(0)
}
