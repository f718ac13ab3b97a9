// The compressibility F of a liquid, looked up in the printed 11.2.1 table (02, 'Look up compressibility'; 002),
// which is lent as records of 8 bytes.
#![tactic(auto)]

ghost use Rattle.std.specs.Prelude.{◌≡◌, true, ◌<◌, ◌≤◌, pos, nat_abs, ◌+ℤ◌, IfSome};
ghost use Rattle.refusals.specs.Told.{judged};
ghost use Rattle.ranges.specs.Table.{temperature_ok};
ghost use Rattle.octets.specs.FirstToLast.{scan, first_place};
ghost use Rattle.lookup.specs.HalfDegree.{half_degree};
ghost use Rattle.lookup.specs.Table.{entry_at, entry_ok};
ghost use Rattle.lookup.specs.Pair.{asked_ok};
ghost use Rattle.lookup.specs.Rank.{rank_if, rank_at, rank_asked, is_wanted};
ghost use Rattle.lookup.specs.Answers.{entry_fault, record_found, look_up_of};
ghost use Rattle.refusals.specs.Answered.{told};

use refusals::Refusal;

// A record of the table: temperature in 0.1 °F, gravity in 0.1 °API, F in 10^-8 per psi.
#[derive(Clone, Copy)]
pub struct Entry {
    pub temperature: i16,
    pub gravity: u16,
    pub compressibility: u16,
}

// The record numbered i, from 0, of at most 4,096.
fn decode(s: &[u8], i: usize) -> Entry
    requires { i < 4096 }
    ensures { result ≡ entry_at s.now i }
{
    let at = 8 * i;
    Entry {
        temperature: octets::signed_at(s, at),
        gravity: octets::word_at(s, at + 2),
        compressibility: octets::word_at(s, at + 4),
    }
}

// A temperature counted from -100.0 °F, so that no step is below zero.
fn count_up(temperature: i16) -> u64
    requires { temperature_ok temperature ≡ true }
    ensures { (result ≡ nat_abs (temperature +ℤ pos 1000)) × (result ≤ 3000) }
{
    (temperature + 1000) as u64
}

// Every field is in its range, and temperature and gravity are on a half degree.
fn is_entry(entry: Entry) -> bool
    ensures { result ≡ entry_ok entry }
{
    if ranges::is_temperature(entry.temperature) {
        let gravity = entry.gravity as u64;
        let halves = (count_up(entry.temperature) % 5 == 0) & (gravity % 5 == 0);
        return ranges::is_gravity(gravity)
            & (ranges::is_compressibility(entry.compressibility as u64) & halves);
    }
    false
}

// One number of a record, which rises by gravity and then temperature; 0 of a faulty record.
fn rank_at(s: &[u8], i: usize) -> u64
    requires { i < 4096 }
    ensures { result ≡ rank_at s.now i }
{
    let entry = decode(s, i);
    if is_entry(entry) & (octets::word_at(s, 8 * i + 6) == 0) {
        return 4096 * entry.gravity as u64 + count_up(entry.temperature);
    }
    0
}

// The same, of the record taken out of the table where it is whole: its fields are then read with no test of the table's end each.
fn rank_of_part(s: &[u8], i: usize) -> u64
    requires { i < 4096 }
    ensures { result ≡ rank_at s.now i }
{
    match s.get(8 * i..8 * i + 8) {
        Some(record) => rank_at(record, 0),
        None => rank_at(s, i),
    }
}

// Tenths to the nearest half degree.
fn round_to_half(tenths: u64) -> u64
    requires { tenths ≤ 3000 }
    ensures { result ≡ half_degree tenths }
{
    (tenths + 2) / 5 * 5
}

// The same number of the pair that is asked for; none where temperature or gravity is out of range.
fn rank_asked(temperature: i16, gravity: u16) -> Option<u64>
    ensures { result ≡ rank_if (asked_ok temperature gravity) (rank_asked temperature gravity) }
{
    let asked = gravity as u64;
    if ranges::is_temperature(temperature) & ranges::is_gravity(asked) {
        return Some(4096 * round_to_half(asked) + round_to_half(count_up(temperature)));
    }
    None
}

// One pass: each record is judged by itself and by the one before it, and held against the one wanted.
fn pass_over(s: &[u8], entries: usize, wanted: Option<u64>) -> Result<Option<usize>, Refusal>
    requires { entries ≤ 4096 }
    ensures { told result ≡ judged (scan (entry_fault s.now) entries 0) (first_place (is_wanted s.now wanted) entries 0) }
{
    // No good record's number is 0.
    let asked = wanted.unwrap_or(0);
    let mut before = 0;
    let mut place = None;
    for i in 0..entries {
        let rank = rank_of_part(s, i);
        refusals::demand(before < rank, Refusal::TableRecord((i + 1) as u16))?;
        if rank == asked {
            place = Some(i);
        }
        before = rank;
    }
    Ok(place)
}

// The record at a place, or that there is none.
fn answer(s: &[u8], place: Option<usize>) -> Result<Entry, Refusal>
    requires { IfSome place (λ i. i < 4096) }
    ensures { told result ≡ record_found s.now place }
{
    let place = place.ok_or(Refusal::NoSuchPair)?;
    Ok(decode(s, place))
}

// The record with the pair, temperature in 0.1 °F and gravity in 0.1 °API, each taken to the nearest half degree.
pub fn look_up(temperature: i16, gravity: u16, table: &[u8]) -> Result<Entry, Refusal>
    ensures { told result ≡ look_up_of temperature gravity table.now }
{
    let entries = table.len() / 8;
    let whole = (table.len() % 8 == 0) & ranges::are_entries(entries as u64);
    refusals::demand(whole, Refusal::Records)?;
    let wanted = rank_asked(temperature, gravity);
    // The whole table is judged before the numbers asked.
    let place = pass_over(table, entries, wanted)?;
    wanted.ok_or(Refusal::ReadingRange)?;
    answer(table, place)
}
