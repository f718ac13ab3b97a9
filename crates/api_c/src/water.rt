// 01, 'Water draw', and 02, 'Bidirectional provers', for C. Volumes are in 0.01 cubic inch, factors have
// 6 places.
ghost use Rattle.std.specs.Prelude.{◌≡◌};
ghost use Rattle.draw.specs.Answers.{fill_of, count_of, held_for, draw_of};
ghost use Rattle.draw.specs.declared.Profile.TheVariants.{Unidirectional, Bidirectional};
ghost use Rattle.factors.specs.Metal.{metal_by};
ghost use Rattle.api.specs.Given.{prover_by};
ghost use Rattle.api.specs.Flat.{flat_fill, flat_passes, flat_draw};

use api::settings::EndakuroProver;
use api::water::{EndakuroDraw, EndakuroFill, EndakuroPasses};

// One fill's figures from its record alone.
#[unsafe(no_mangle)]
pub extern "C" fn endakuro_fill(metal: u8, coefficient: u16, bytes: &[u8]) -> EndakuroFill
    ensures { result ≡ flat_fill (fill_of (metal_by metal coefficient) bytes.now) }
{
    api::water::endakuro_fill(metal, coefficient, bytes)
}

// The volumes of all passes. The prover's base volume is not judged here and in the draws.
#[unsafe(no_mangle)]
pub extern "C" fn endakuro_passes(prover: EndakuroProver, records: &[u8]) -> EndakuroPasses
    ensures { result ≡ flat_passes (count_of Unidirectional (prover_by prover) records.now) (held_for Unidirectional (prover_by prover) records.now) }
{
    api::water::endakuro_passes(prover, records)
}

// The volumes of all round trips of a bidirectional prover.
#[unsafe(no_mangle)]
pub extern "C" fn endakuro_trips(prover: EndakuroProver, records: &[u8]) -> EndakuroPasses
    ensures { result ≡ flat_passes (count_of Bidirectional (prover_by prover) records.now) (held_for Bidirectional (prover_by prover) records.now) }
{
    api::water::endakuro_trips(prover, records)
}

// The water draw of a unidirectional prover.
#[unsafe(no_mangle)]
pub extern "C" fn endakuro_draw(prover: EndakuroProver, records: &[u8]) -> EndakuroDraw
    ensures { result ≡ flat_draw (draw_of Unidirectional (prover_by prover) records.now) }
{
    api::water::endakuro_draw(prover, records)
}

// The water draw of a bidirectional prover.
#[unsafe(no_mangle)]
pub extern "C" fn endakuro_bidirectional(prover: EndakuroProver, records: &[u8]) -> EndakuroDraw
    ensures { result ≡ flat_draw (draw_of Bidirectional (prover_by prover) records.now) }
{
    api::water::endakuro_bidirectional(prover, records)
}
