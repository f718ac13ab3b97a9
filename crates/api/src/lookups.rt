// 02, 'Look up compressibility', for C.
ghost use Rattle.std.specs.Prelude.{◌≡◌};
ghost use Rattle.lookup.specs.Answers.{look_up_of};
ghost use Rattle.api.specs.Flat.{flat_entry};
ghost use Rattle.refusals.specs.Answered.{told};

use crate::outcome::give_back;
use lookup::Entry;
use refusals::Refusal;

// The record found: temperature in 0.1 °F, gravity in 0.1 °API, F in 10^-8 per psi.
#[repr(C)]
#[derive(Clone, Copy)]
pub struct EndakuroEntry {
    pub number: u16,
    pub at: u16,
    pub temperature: i16,
    pub gravity: u16,
    pub compressibility: u16,
}

const NO_ENTRY: Entry = Entry {
    temperature: 0,
    gravity: 0,
    compressibility: 0,
};

fn flatten(found: Result<Entry, Refusal>) -> EndakuroEntry
    ensures { result ≡ flat_entry (told found) }
{
    let given = give_back(found);
    let entry = found.unwrap_or(NO_ENTRY);
    EndakuroEntry {
        number: given.number as u16,
        at: given.at,
        temperature: entry.temperature,
        gravity: entry.gravity,
        compressibility: entry.compressibility,
    }
}

// 0.1 °F and 0.1 °API, each taken to the nearest half degree, in a table of 8-byte records.
pub fn endakuro_look_up(temperature: i16, gravity: u16, table: &[u8]) -> EndakuroEntry
    ensures { result ≡ flat_entry (look_up_of temperature gravity table.now) }
{
    flatten(lookup::look_up(temperature, gravity, table))
}
