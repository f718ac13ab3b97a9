// One fill: its record decoded and judged, and its figures.
ghost use Rattle.std.specs.Prelude.{◌≡◌, true, ◌<◌};
ghost use Rattle.factors.specs.Metal.{metal_ok};
ghost use Rattle.draw.specs.Fill.{fill_at, fill_ok, unnamed_ok, follows, rule_ok};
ghost use Rattle.draw.specs.Drawn.{adjusted, figures_of};

use crate::{FillFigures, FillRecord};
use factors::{Metal, Places};

// A record of those lent, by its number from 0; there are at most 60.
#[derive(Clone, Copy)]
pub(crate) struct Place<'a> {
    pub(crate) records: &'a [u8],
    pub(crate) i: usize,
    ghost few: { i < 60 },
}

impl Place<'_> {
    pub(crate) fn decode(&self) -> FillRecord
        ensures { result ≡ fill_at self.now.records.now self.now.i }
    {
        let at = 32 * self.i;
        FillRecord {
            certified: octets::long_at(self.records, at),
            scale: octets::signed_at(self.records, at + 4),
            prover: octets::signed_at(self.records, at + 6),
            measure: octets::signed_at(self.records, at + 8),
            coefficient: octets::word_at(self.records, at + 10),
            ctdw: octets::long_at(self.records, at + 12),
            pass: octets::byte_at(self.records, at + 16),
            pressure: octets::word_at(self.records, at + 18),
        }
    }

    // The pass of such a record: to tell whose fill it is, the rest of it is not read.
    pub(crate) fn pass(&self) -> u8
        ensures { result ≡ (fill_at self.now.records.now self.now.i).pass }
    {
        octets::byte_at(self.records, 32 * self.i + 16)
    }

    // And its pressure.
    pub(crate) fn pressure(&self) -> u16
        ensures { result ≡ (fill_at self.now.records.now self.now.i).pressure }
    {
        octets::word_at(self.records, 32 * self.i + 18)
    }

    // The bytes that the paper does not name: 17, and 20 to 31.
    pub(crate) fn are_unnamed_zero(&self) -> bool
        ensures { result ≡ unnamed_ok self.now.records.now self.now.i }
    {
        let at = 32 * self.i;
        octets::are_zero(self.records, at + 17, at + 18)
            & octets::are_zero(self.records, at + 20, at + 32)
    }

    // The pass and its pressure keep the rule, seen from the record before.
    pub(crate) fn keeps_pass_rule(&self) -> bool
        ensures { result ≡ rule_ok self.now.records.now self.now.i }
    {
        let fill = self.decode();
        if self.i == 0 {
            return fill.pass == 1;
        }
        let before = Place {
            records: self.records,
            i: self.i - 1,
        };
        is_next(before.decode(), fill)
    }
}

// Every field of the record is in its range; the pass byte has none.
pub(crate) fn is_fill(fill: FillRecord) -> bool
    ensures { result ≡ fill_ok fill }
{
    ranges::is_certified(fill.certified as u64)
        & (ranges::is_scale(fill.scale)
            & (ranges::is_draw_prover(fill.prover)
                & (ranges::is_draw_measure(fill.measure)
                    & (ranges::is_coefficient(fill.coefficient as u64)
                        & (ranges::is_ctdw(fill.ctdw as u64)
                            & ranges::is_pressure(fill.pressure as u64))))))
}

// A fill of the same pass has the same pressure; any other begins the next pass.
fn is_next(before: FillRecord, fill: FillRecord) -> bool
    ensures { result ≡ follows before fill }
{
    let same = (fill.pass == before.pass) & (fill.pressure == before.pressure);
    same | (fill.pass as u16 == before.pass as u16 + 1)
}

fn adjust(fill: FillRecord) -> u64
    requires { fill_ok fill ≡ true }
    ensures { result ≡ adjusted fill }
{
    // counted from -100.00 cubic inches, so that no step is below zero
    let above = (fill.scale + 10000) as u64;
    fill.certified as u64 + above - 10000
}

// The fill's figures, for a caller that has judged the metal and the record.
pub(crate) fn work_out(metal: Metal, fill: FillRecord) -> FillFigures
    requires { (metal_ok metal ≡ true) × (fill_ok fill ≡ true) }
    ensures { result ≡ figures_of metal fill }
{
    let adjusted = adjust(fill);
    let certificate = Metal::Certified(fill.coefficient);
    let measure = factors::value_or_zero(factors::cts(
        fill.measure,
        certificate,
        Places::Six,
    )) as u64;
    let prover = factors::value_or_zero(factors::cts(fill.prover, metal, Places::Six)) as u64;
    let ccts = exact::round_or_zero(measure, 1000000, prover);
    let expanded = adjusted * fill.ctdw as u64;
    let drawn = exact::round_or_zero(expanded, ccts, 1000000000000);
    FillFigures {
        adjusted,
        measure,
        prover,
        ccts,
        drawn,
    }
}
