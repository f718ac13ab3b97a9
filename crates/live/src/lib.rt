// 01, 'Live readings': a temperature and a pressure as singles go to tenths of °F and whole psi,
// through their bits. One conversion, o + k·x with one rounding, serves both.
#![tactic(auto)]

ghost use Rattle.std.specs.Prelude.{◌≡◌, ◌<◌};
ghost use Rattle.ranges.specs.Table.{temperature_ok};
ghost use Rattle.refusals.specs.Answered.{told};
ghost use Rattle.live.specs.Live.{single_of, psi_ok, pressure_of, live_of};

use refusals::Refusal;

pub mod channels;
pub mod panel;
mod single;

// °F and psi gage.
#[derive(Clone, Copy)]
pub struct Reading {
    pub temperature: f32,
    pub pressure: f32,
}

// What a live reading comes to: tenths of °F, and whole psi.
#[derive(Clone, Copy)]
pub struct Values {
    pub tenths: i16,
    pub psi: u16,
}

// A pressure below zero is in no range.
fn is_psi(psi: i16) -> bool
    ensures { result ≡ psi_ok psi }
{
    0 <= psi && ranges::is_pressure(psi as u64)
}

// Tenths of °F: o + k·x.
fn take_tenths(x: f32, offset: u16, times: u16) -> Result<i16, Refusal>
    requires { 0 < times }
    ensures { told result ≡ single_of temperature_ok offset times x }
{
    let tenths = single::round(x, offset, times)?;
    refusals::demand(ranges::is_temperature(tenths), Refusal::ReadingRange)?;
    Ok(tenths)
}

fn take_psi(x: f32) -> Result<i16, Refusal>
    ensures { told result ≡ pressure_of x }
{
    let psi = single::round(x, 0, 1)?;
    refusals::demand(is_psi(psi), Refusal::ReadingRange)?;
    Ok(psi)
}

// The temperature is told of first, whatever the pressure is.
pub fn convert(reading: Reading) -> Result<Values, Refusal>
    ensures { told result ≡ live_of reading.temperature reading.pressure }
{
    let tenths = take_tenths(reading.temperature, 0, 10)?;
    let psi = take_psi(reading.pressure)?.unsigned_abs();
    Ok(Values { tenths, psi })
}
