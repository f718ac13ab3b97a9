// 01, 'Water draw', and 02, 'Bidirectional provers', for C. Volumes are in 0.01 cubic inch, factors have
// 6 places.
ghost use Rattle.std.specs.Prelude.{◌≡◌};
ghost use Rattle.draw.specs.Answers.{fill_of, count_of, held_for, draw_of};
ghost use Rattle.draw.specs.Volumes.{counted, held};
ghost use Rattle.draw.specs.declared.Profile.TheVariants.{Unidirectional, Bidirectional};
ghost use Rattle.factors.specs.Metal.{metal_by};
ghost use Rattle.api.specs.Given.{prover_by};
ghost use Rattle.api.specs.Flat.{flat_fill, flat_passes, flat_draw};
ghost use Rattle.refusals.specs.Answered.{told};

use crate::outcome::give_back;
use crate::settings;
use crate::settings::EndakuroProver;
use draw::{BaseVolume, DrawVolumes, FillFigures, Profile};
use refusals::Refusal;

// The adjusted measure, CTS of the measure and of the prover, CCTS, and the volume drawn.
#[repr(C)]
#[derive(Clone, Copy)]
pub struct EndakuroFill {
    pub number: u16,
    pub at: u16,
    pub adjusted: u64,
    pub measure: u64,
    pub prover: u64,
    pub ccts: u64,
    pub drawn: u64,
}

// The volumes of passes, or of round trips, in their order, and zeros after the last.
#[repr(C)]
#[derive(Clone, Copy)]
pub struct EndakuroPasses {
    pub number: u16,
    pub at: u16,
    pub count: u8,
    pub volumes: [u64; 20],
}

// The base volume, the same in 0.0001 barrel, and the first pass used, from 1.
#[repr(C)]
#[derive(Clone, Copy)]
pub struct EndakuroDraw {
    pub number: u16,
    pub at: u16,
    pub base: u64,
    pub barrels: u64,
    pub first: u8,
}

const NO_FILL: FillFigures = FillFigures {
    adjusted: 0,
    measure: 0,
    prover: 0,
    ccts: 0,
    drawn: 0,
};

fn flatten_fill(answer: Result<FillFigures, Refusal>) -> EndakuroFill
    ensures { result ≡ flat_fill (told answer) }
{
    let given = give_back(answer);
    let figures = answer.unwrap_or(NO_FILL);
    EndakuroFill {
        number: given.number as u16,
        at: given.at,
        adjusted: figures.adjusted,
        measure: figures.measure,
        prover: figures.prover,
        ccts: figures.ccts,
        drawn: figures.drawn,
    }
}

// One fill's figures from its record alone.
pub fn endakuro_fill(metal: u8, coefficient: u16, bytes: &[u8]) -> EndakuroFill
    ensures { result ≡ flat_fill (fill_of (metal_by metal coefficient) bytes.now) }
{
    let chosen = factors::choose_metal(metal, coefficient);
    flatten_fill(draw::fill(chosen, bytes))
}

const NO_VOLUMES: DrawVolumes = DrawVolumes {
    count: 0,
    volumes: [0; 20],
};

fn flatten_passes(answer: Result<DrawVolumes, Refusal>) -> EndakuroPasses
    ensures { result ≡ flat_passes (counted (told answer)) (held (told answer)) }
{
    let given = give_back(answer);
    let found = answer.unwrap_or(NO_VOLUMES);
    let volumes = found.volumes;
    EndakuroPasses {
        number: given.number as u16,
        at: given.at,
        count: found.count,
        volumes,
    }
}

fn list_volumes(profile: Profile, prover: EndakuroProver, records: &[u8]) -> EndakuroPasses
    ensures { result ≡ flat_passes (count_of profile (prover_by prover) records.now) (held_for profile (prover_by prover) records.now) }
{
    flatten_passes(draw::volumes(profile, settings::take_up(prover), records))
}

// The volumes of all passes. The prover's base volume is not judged here and in the draws.
pub fn endakuro_passes(prover: EndakuroProver, records: &[u8]) -> EndakuroPasses
    ensures { result ≡ flat_passes (count_of Unidirectional (prover_by prover) records.now) (held_for Unidirectional (prover_by prover) records.now) }
{
    list_volumes(Profile::Unidirectional, prover, records)
}

// The volumes of all round trips of a bidirectional prover.
pub fn endakuro_trips(prover: EndakuroProver, records: &[u8]) -> EndakuroPasses
    ensures { result ≡ flat_passes (count_of Bidirectional (prover_by prover) records.now) (held_for Bidirectional (prover_by prover) records.now) }
{
    list_volumes(Profile::Bidirectional, prover, records)
}

const NO_BASE: BaseVolume = BaseVolume {
    base: 0,
    barrels: 0,
    first: 0,
};

fn flatten_draw(answer: Result<BaseVolume, Refusal>) -> EndakuroDraw
    ensures { result ≡ flat_draw (told answer) }
{
    let given = give_back(answer);
    let volume = answer.unwrap_or(NO_BASE);
    EndakuroDraw {
        number: given.number as u16,
        at: given.at,
        base: volume.base,
        barrels: volume.barrels,
        first: volume.first,
    }
}

// The water draw of a unidirectional prover.
pub fn endakuro_draw(prover: EndakuroProver, records: &[u8]) -> EndakuroDraw
    ensures { result ≡ flat_draw (draw_of Unidirectional (prover_by prover) records.now) }
{
    flatten_draw(draw::draw(Profile::Unidirectional, settings::take_up(prover), records))
}

// The water draw of a bidirectional prover.
pub fn endakuro_bidirectional(prover: EndakuroProver, records: &[u8]) -> EndakuroDraw
    ensures { result ≡ flat_draw (draw_of Bidirectional (prover_by prover) records.now) }
{
    flatten_draw(draw::draw(Profile::Bidirectional, settings::take_up(prover), records))
}
