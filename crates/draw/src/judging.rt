// Judging a draw in the paper's order (01, 'Numbers given back').
ghost use Rattle.std.specs.Prelude.{◌≡◌, ◌<◌, ◌≤◌};
ghost use Rattle.octets.specs.FirstToLast.{scan};
ghost use Rattle.draw.specs.Answers.{record_fault, fill_fault, fills_fault, draw_fault};
ghost use Rattle.refusals.specs.Answered.{fault_of};

use crate::fills::Place;
use crate::passing::Judged;
use crate::{Profile, fills, profiles};
use factors::Prover;
use refusals::Refusal;

// One record by itself: 5, then 2.
pub(crate) fn judge_record(place: &Place) -> Result<(), Refusal>
    ensures { fault_of result ≡ record_fault place.now.records.now place.now.i }
{
    let at = (place.i + 1) as u16;
    refusals::demand(fills::is_fill(place.decode()), Refusal::RecordField(at))?;
    refusals::demand(place.are_unnamed_zero(), Refusal::UnnamedByte(at))
}

// One record of a draw: then 6.
fn judge_fill(place: &Place) -> Result<(), Refusal>
    ensures { fault_of result ≡ fill_fault place.now.records.now place.now.i }
{
    let at = (place.i + 1) as u16;
    judge_record(place)?;
    refusals::demand(place.keeps_pass_rule(), Refusal::PassRule(at))
}

// The records first to last.
fn judge_fills(s: &[u8], fills: usize) -> Result<(), Refusal>
    requires { fills ≤ 60 }
    ensures { fault_of result ≡ scan (fill_fault s.now) fills 0 }
{
    for i in 0..fills {
        judge_fill(&Place { records: s, i })?;
    }
    Ok(())
}

// 1, 3 and the records.
fn judge_records(prover: Prover, s: &[u8]) -> Result<(), Refusal>
    ensures { fault_of result ≡ fills_fault prover s.now }
{
    let fills = s.len() / 32;
    let whole = (s.len() % 32 == 0) & ranges::are_fills(fills as u64);
    refusals::demand(whole, Refusal::Records)?;
    let settings = factors::is_metal(prover.metal) & factors::is_pipe(prover.pipe);
    refusals::demand(settings, Refusal::ProverSetting)?;
    judge_fills(s, fills)
}

// These, and 1 again for the count of passes.
pub(crate) fn judge_draw(profile: Profile, prover: Prover, s: &[u8]) -> Result<(), Refusal>
    ensures { fault_of result ≡ draw_fault profile prover s.now }
{
    judge_records(prover, s)?;
    let judged = Judged { prover, records: s };
    let passes = judged.count_passes() as u64;
    refusals::demand(profiles::accepts(profile, passes), Refusal::Records)
}
