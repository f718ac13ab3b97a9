// The volume of each pass (01, 'Water draw') and of each round trip (02), of a draw in whose records judging
// found nothing.
ghost use Rattle.std.specs.Prelude.{◌≡◌, true, ◌<◌, ◌≤◌};
ghost use Rattle.refusals.specs.Told.{fine};
ghost use Rattle.ranges.specs.Table.{pressure_ok};
ghost use Rattle.octets.specs.Records.{records_in, zeros_after};
ghost use Rattle.group.specs.Listed.{listed};
ghost use Rattle.factors.specs.Prover.{pipe_ok};
ghost use Rattle.draw.specs.Passes.{pass_count, drawn_for, pass_sum, pass_pressure, corrected_volume, pass_volume};
ghost use Rattle.draw.specs.Profile.{trip_volume, volume_of};
ghost use Rattle.draw.specs.Answers.{fills_fault};

use crate::fills::Place;
use crate::{Profile, fills};
use factors::{Liquid, Pipe, Places, Prover};

// 'For water F is 320'.
const WATER_COMPRESSIBILITY: u16 = 320;

// The sum divided by the unrounded product of the two rounded factors.
fn correct(pipe: Pipe, pressure: u16, sum: u64) -> u64
    requires { (pipe_ok pipe ≡ true) × (pressure_ok pressure ≡ true) × (sum ≤ 30000000000) }
    ensures { (result ≡ corrected_volume pipe pressure sum) × (result ≤ 30000000000) }
{
    let cps = factors::value_or_zero(factors::cps(pressure, pipe, Places::Six)) as u64;
    let water = Liquid {
        pressure,
        compressibility: WATER_COMPRESSIBILITY,
        // 'Water draw uses Pe 0'
        equilibrium: 0,
    };
    let cpl = factors::value_or_zero(factors::cpl(water, Places::Six)) as u64;
    exact::round_or_zero(sum, 1000000000000, cps * cpl)
}

// The prover and the records of a draw whose settings and fills are judged: nothing was found in them.
#[derive(Clone, Copy)]
pub(crate) struct Judged<'a> {
    pub(crate) prover: Prover,
    pub(crate) records: &'a [u8],
    ghost nothing: { fills_fault prover records.now ≡ fine },
}

impl Judged<'_> {
    // There are as many passes as the last fill's number says.
    pub(crate) fn count_passes(&self) -> u8
        ensures { result ≡ pass_count self.now.records.now }
    {
        let last = Place {
            records: self.records,
            i: self.records.len() / 32 - 1,
        };
        last.pass()
    }

    // What the fill adds to a pass: the volume drawn, if it is a fill of that pass.
    fn add_to_pass(&self, pass: u8, i: usize) -> u64
        requires { i < records_in 32 self.now.records.now }
        ensures { (result ≡ drawn_for self.now.prover.metal self.now.records.now pass i) × (result ≤ 500000000) }
    {
        let place = Place {
            records: self.records,
            i,
        };
        if place.pass() == pass {
            return fills::work_out(self.prover.metal, place.decode()).drawn;
        }
        0
    }

    // The sum of a pass's fills.
    fn add_up(&self, pass: u8) -> u64
        ensures { (result ≡ pass_sum self.now.prover.metal self.now.records.now pass) × (result ≤ 30000000000) }
    {
        let fills = self.records.len() / 32;
        let mut sum = 0;
        for i in 0..fills {
            sum += self.add_to_pass(pass, i);
        }
        sum
    }

    // The pressure of a pass: that of its first fill, since all carry one.
    fn find_pressure(&self, pass: u8) -> u16
        ensures { (result ≡ pass_pressure self.now.records.now pass) × (pressure_ok result ≡ true) }
    {
        let fills = self.records.len() / 32;
        for i in 0..fills {
            let place = Place {
                records: self.records,
                i,
            };
            if place.pass() == pass {
                return place.pressure();
            }
        }
        0
    }

    fn find_pass(&self, pass: u8) -> u64
        ensures { (result ≡ pass_volume self.now.prover self.now.records.now pass) × (result ≤ 30000000000) }
    {
        correct(
            self.prover.pipe,
            self.find_pressure(pass),
            self.add_up(pass),
        )
    }

    // A round trip: its pass out and its pass back, each rounded before they are added.
    fn find_trip(&self, trip: u8) -> u64
        requires { (1 ≤ trip) × (trip ≤ 20) }
        ensures { result ≡ trip_volume self.now.prover self.now.records.now trip }
    {
        let out = self.find_pass(2 * trip - 1);
        let back = self.find_pass(2 * trip);
        out + back
    }

    // What the profile repeats, by its number.
    fn find_volume(&self, profile: Profile, number: u8) -> u64
        requires { (1 ≤ number) × (number ≤ 20) }
        ensures { result ≡ volume_of profile self.now.prover self.now.records.now number }
    {
        match profile {
            Profile::Unidirectional => self.find_pass(number),
            Profile::Bidirectional => self.find_trip(number),
        }
    }

    // The profile's volumes 1 to count, and zeros after them.
    pub(crate) fn collect(&self, profile: Profile, count: u8) -> [u64; 20]
        requires { count ≤ 20 }
        ensures { result ≡ zeros_after 20 (listed (volume_of profile self.now.prover self.now.records.now) count 1) }
    {
        let mut volumes = [0u64; 20];
        for i in 0..count as usize {
            volumes[i] = self.find_volume(profile, (i + 1) as u8);
        }
        volumes
    }
}
