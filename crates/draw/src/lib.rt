// The water draw of a pipe prover (01, 'Water draw'; 02, 'Bidirectional provers'): fills of a certified
// measure, passes of fills, round trips of passes, and the base volume from the first three passes, or
// round trips, that repeat. Volumes are in 0.01 cubic inch, factors have 6 places.
#![tactic(auto)]

ghost use Rattle.std.specs.Prelude.{◌≡◌, ◌≤◌, length};
ghost use Rattle.draw.specs.Base.{barrels_of, base_from, base_of};
ghost use Rattle.draw.specs.Answers.{fill_of, count_of, held_for, draw_of};
ghost use Rattle.draw.specs.Volumes.{counted, held};
ghost use Rattle.refusals.specs.Answered.{told};

use factors::{Metal, Prover};
use fills::Place;
use passing::Judged;
use refusals::Refusal;

mod fills;
mod judging;
mod passing;
mod profiles;

// The type of a prover: its displacer passes in one direction, or out and back.
#[derive(Clone, Copy)]
pub enum Profile {
    Unidirectional,
    Bidirectional,
}

// A fill record as it stands in its bytes: volumes in 0.01 cubic inch, temperatures in 0.1 °F, the
// measure's coefficient in 10^-7 per °F, CTDW at 6 places, the pressure in psi gage.
#[derive(Clone, Copy)]
struct FillRecord {
    certified: u32,
    scale: i16,
    prover: i16,
    measure: i16,
    coefficient: u16,
    ctdw: u32,
    pass: u8,
    pressure: u16,
}

// One fill's figures: the adjusted measure, CTS of the measure and of the prover, CCTS, and the volume
// drawn.
#[derive(Clone, Copy)]
pub struct FillFigures {
    pub adjusted: u64,
    pub measure: u64,
    pub prover: u64,
    pub ccts: u64,
    pub drawn: u64,
}

// How many volumes there are, and each of them, in the order of passes or round trips; zeros after the last.
// An array with its count, since a draw takes no memory but its caller's.
#[derive(Clone, Copy)]
pub struct DrawVolumes {
    pub count: u8,
    pub volumes: [u64; 20],
}

// The base volume, the same in 0.0001 barrel, and the first pass used, from 1.
#[derive(Clone, Copy)]
pub struct BaseVolume {
    pub base: u64,
    pub barrels: u64,
    pub first: u8,
}

// One fill's figures. A record alone has no record before it, so the pass rule is not judged.
pub fn fill(metal: Metal, bytes: &[u8]) -> Result<FillFigures, Refusal>
    ensures { told result ≡ fill_of metal bytes.now }
{
    refusals::demand(bytes.len() == 32, Refusal::Records)?;
    refusals::demand(factors::is_metal(metal), Refusal::ProverSetting)?;
    let alone = Place {
        records: bytes,
        i: 0,
    };
    judging::judge_record(&alone)?;
    Ok(fills::work_out(metal, alone.decode()))
}

// The volumes of all passes of a draw, or of all its round trips; three of them need not qualify.
pub fn volumes(profile: Profile, prover: Prover, records: &[u8]) -> Result<DrawVolumes, Refusal>
    ensures { (counted (told result) ≡ count_of profile prover records.now) × (held (told result) ≡ held_for profile prover records.now) }
{
    judging::judge_draw(profile, prover, records)?;
    let judged = Judged { prover, records };
    let count = profiles::count_volumes(profile, &judged);
    let volumes = judged.collect(profile, count);
    Ok(DrawVolumes { count, volumes })
}

// 9702.00 cubic inches are one barrel.
fn in_barrels(base: u64) -> u64
    ensures { result ≡ barrels_of base }
{
    exact::round_or_zero(base, 10000, 970200)
}

// The base volume from the volumes that decide, of which the first is at a place from 0.
fn base_from(profile: Profile, three: &[u64], at: usize) -> BaseVolume
    requires { at ≤ 20 }
    ensures { result ≡ base_from profile three.now at }
{
    let base = group::mean(three);
    BaseVolume {
        base,
        barrels: in_barrels(base),
        first: profiles::first_pass(profile, (at + 1) as u8),
    }
}

// The first three consecutive volumes that qualify decide.
fn decide(profile: Profile, volumes: &[u64]) -> Result<BaseVolume, Refusal>
    requires { length volumes.now ≤ 20 }
    ensures { told result ≡ base_of profile 2 3 volumes.now }
{
    let at = group::first_group(volumes, 3, 2).ok_or(Refusal::NoGroup)?;
    let three = &volumes[at..at + 3];
    Ok(base_from(profile, three, at))
}

// The water draw. The prover's base volume is not judged: the draw is what gives one.
pub fn draw(profile: Profile, prover: Prover, records: &[u8]) -> Result<BaseVolume, Refusal>
    ensures { told result ≡ draw_of profile prover records.now }
{
    let found = volumes(profile, prover, records)?;
    let end = found.count as usize;
    decide(profile, &found.volumes[..end])
}
