// 01, 'Live readings', and 02, 'Smart transmitters', for C.
ghost use Rattle.std.specs.Prelude.{◌≡◌};
ghost use Rattle.live.specs.Live.{live_of};
ghost use Rattle.live.specs.Channels.{channels_of};
ghost use Rattle.api.specs.Given.{temperature_by, pressure_by};
ghost use Rattle.api.specs.Flat.{flat_live};

use api::readings::{EndakuroChannel, EndakuroLive};

// °F and psi gage, any single: what is not finite is refused 12.
#[unsafe(no_mangle)]
pub extern "C" fn endakuro_live(temperature: f32, pressure: f32) -> EndakuroLive
    ensures { result ≡ flat_live (live_of temperature pressure) }
{
    api::readings::endakuro_live(temperature, pressure)
}

#[unsafe(no_mangle)]
pub extern "C" fn endakuro_channels(
    temperature: EndakuroChannel,
    pressure: EndakuroChannel,
) -> EndakuroLive
    ensures { result ≡ flat_live (channels_of (temperature_by temperature) (pressure_by pressure)) }
{
    api::readings::endakuro_channels(temperature, pressure)
}
