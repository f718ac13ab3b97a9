// 01, 'Live readings', and 02, 'Smart transmitters', for C.
ghost use Rattle.std.specs.Prelude.{◌≡◌};
ghost use Rattle.live.specs.Live.{live_of};
ghost use Rattle.live.specs.Channels.{channels_of};
ghost use Rattle.api.specs.Given.{channel_by, temperature_by, pressure_by};
ghost use Rattle.api.specs.Flat.{flat_live};
ghost use Rattle.refusals.specs.Answered.{told};

use crate::outcome::give_back;
use live::channels::{Channel, from_bits};
use live::{Reading, Values};
use refusals::Refusal;

// Tenths of °F and whole psi gage.
#[repr(C)]
#[derive(Clone, Copy)]
pub struct EndakuroLive {
    pub number: u16,
    pub at: u16,
    pub tenths: i16,
    pub psi: u16,
}

const NO_READING: Values = Values { tenths: 0, psi: 0 };

fn flatten(live: Result<Values, Refusal>) -> EndakuroLive
    ensures { result ≡ flat_live (told live) }
{
    let given = give_back(live);
    let values = live.unwrap_or(NO_READING);
    EndakuroLive {
        number: given.number as u16,
        at: given.at,
        tenths: values.tenths,
        psi: values.psi,
    }
}

// °F and psi gage, any single: what is not finite is refused 12.
pub fn endakuro_live(temperature: f32, pressure: f32) -> EndakuroLive
    ensures { result ≡ flat_live (live_of temperature pressure) }
{
    let reading = Reading {
        temperature,
        pressure,
    };
    flatten(live::convert(reading))
}

// By its kind, 0 °F, 1 °C, 2 psi gage or 3 a fault, and the bits of its single; the code of a fault is their
// lowest byte.
#[repr(C)]
#[derive(Clone, Copy)]
pub struct EndakuroChannel {
    pub kind: u32,
    pub bits: u32,
}

// A kind outside the four is as one that has no place here.
fn channel_by(given: EndakuroChannel, misplaced: Channel) -> Channel
    ensures { result ≡ channel_by misplaced given }
{
    let kind = given.kind;
    match kind {
        0 => Channel::Fahrenheit(from_bits(given.bits)),
        1 => Channel::Celsius(from_bits(given.bits)),
        2 => Channel::Pressure(from_bits(given.bits)),
        3 => Channel::Fault((given.bits % 256) as u8),
        _ => misplaced,
    }
}

pub fn endakuro_channels(temperature: EndakuroChannel, pressure: EndakuroChannel) -> EndakuroLive
    ensures { result ≡ flat_live (channels_of (temperature_by temperature) (pressure_by pressure)) }
{
    let first = channel_by(temperature, Channel::Pressure(0.0));
    let second = channel_by(pressure, Channel::Fahrenheit(0.0));
    flatten(live::channels::convert(first, second))
}
