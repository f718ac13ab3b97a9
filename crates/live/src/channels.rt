// 02, 'Smart transmitters': two tagged channels, a temperature's and then a pressure's, matched into a live
// reading.
ghost use Rattle.std.specs.Prelude.{◌≡◌};
ghost use Rattle.std.specs.Float.{binary32};
ghost use Rattle.std.specs.Float.Ieee.{of_bits};
ghost use Rattle.refusals.specs.Answered.{told};
ghost use Rattle.live.specs.Channels.{temperature_channel_of, pressure_channel_of, channels_of};

use crate::{Values, take_psi, take_tenths};
use refusals::Refusal;

// °F, °C or psi gage, or a fault code in the place of a number.
#[derive(Clone, Copy)]
pub enum Channel {
    Fahrenheit(f32),
    Celsius(f32),
    Pressure(f32),
    Fault(u8),
}

// 255 · 2^23, the bits of infinity; what is above them, the side of zero left out, is a NaN's.
const INFINITY: u32 = 2139095040;

// A NaN has many patterns, and no number's: any will do.
pub fn from_bits(bits: u32) -> f32
    ensures { result ≡ of_bits binary32 bits }
{
    if INFINITY < bits % 2147483648 {
        return f32::NAN;
    }
    f32::from_bits(bits)
}

// Ten times 9/5 · c + 32 is 320 + 18c.
fn take_temperature(channel: Channel) -> Result<i16, Refusal>
    ensures { told result ≡ temperature_channel_of channel }
{
    match channel {
        Channel::Fahrenheit(x) => take_tenths(x, 0, 10),
        Channel::Celsius(x) => take_tenths(x, 320, 18),
        Channel::Pressure(_) => Err(Refusal::WrongKind),
        Channel::Fault(_) => Err(Refusal::FaultCode),
    }
}

fn take_pressure(channel: Channel) -> Result<i16, Refusal>
    ensures { told result ≡ pressure_channel_of channel }
{
    match channel {
        Channel::Pressure(x) => take_psi(x),
        Channel::Fahrenheit(_) => Err(Refusal::WrongKind),
        Channel::Celsius(_) => Err(Refusal::WrongKind),
        Channel::Fault(_) => Err(Refusal::FaultCode),
    }
}

// The pressure's channel is looked at only where the temperature's is taken.
pub fn convert(temperature: Channel, pressure: Channel) -> Result<Values, Refusal>
    ensures { told result ≡ channels_of temperature pressure }
{
    let tenths = take_temperature(temperature)?;
    let psi = take_pressure(pressure)?.unsigned_abs();
    Ok(Values { tenths, psi })
}
