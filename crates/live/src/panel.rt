// 02, 'Numbers for the panel': a temperature in tenths of °F and a pressure in whole psi, each as the single
// that the operator's panel takes.
ghost use Rattle.std.specs.Prelude.{◌≡◌};
ghost use Rattle.live.specs.Panel.{panel_temperature_of, panel_pressure_of};
ghost use Rattle.refusals.specs.Answered.{told};

use refusals::Refusal;

// The cast is exact, so that the division alone rounds.
pub fn show_temperature(tenths: i16) -> Result<f32, Refusal>
    ensures { told result ≡ panel_temperature_of tenths }
{
    refusals::demand(ranges::is_temperature(tenths), Refusal::ReadingRange)?;
    Ok(tenths as f32 / 10.0)
}

pub fn show_pressure(psi: u16) -> Result<f32, Refusal>
    ensures { told result ≡ panel_pressure_of psi }
{
    refusals::demand(ranges::is_pressure(psi as u64), Refusal::ReadingRange)?;
    Ok(psi as f32)
}
