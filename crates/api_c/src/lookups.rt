// 02, 'Look up compressibility', for C.
ghost use Rattle.std.specs.Prelude.{◌≡◌};
ghost use Rattle.lookup.specs.Answers.{look_up_of};
ghost use Rattle.api.specs.Flat.{flat_entry};

use api::lookups::EndakuroEntry;

// 0.1 °F and 0.1 °API, each taken to the nearest half degree, in a table of 8-byte records.
#[unsafe(no_mangle)]
pub extern "C" fn endakuro_look_up(temperature: i16, gravity: u16, table: &[u8]) -> EndakuroEntry
    ensures { result ≡ flat_entry (look_up_of temperature gravity table.now) }
{
    api::lookups::endakuro_look_up(temperature, gravity, table)
}
