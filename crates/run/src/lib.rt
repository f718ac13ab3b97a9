// One run of a proving (01, 'Proving, by pipe prover'): its record, its figures and its factor.
#![tactic(auto)]

pub mod records;

ghost use Rattle.std.specs.Prelude.{◌≡◌, true, ◌*◌, ◌^◌, ◌<◌, ◌≤◌, length};
ghost use Rattle.ranges.specs.Table.{k_factor_ok};
ghost use Rattle.exact.specs.Rounding.{rounded, ◌over◌};
ghost use Rattle.factors.specs.Prover.{prover_ok};
ghost use Rattle.factors.specs.Liquid.{liquid_ok};
ghost use Rattle.factors.specs.Rounded.{cpl_at, combined_at};
ghost use Rattle.run.specs.Record.{run_ok};
ghost use Rattle.run.specs.Figures.{corrected_by, figures_from};
ghost use Rattle.run.specs.Answers.{given_fault, figures_told, worked_of, shown_of};
ghost use Rattle.refusals.specs.Answered.{fault_of, told};

use factors::{Liquid, Places, Prover};
use refusals::Refusal;

// The readings at one side of the run: T in 0.1 °F, CTL in 0.0001, and the liquid's P, F and Pe.
#[derive(Clone, Copy)]
pub struct Side {
    pub temperature: i16,
    pub ctl: u16,
    pub liquid: Liquid,
}

// The form of run records (02, 'Longer run records'): 32 bytes that count pulses, or 48 that count thousandths. No record tells: the
// caller says which.
#[derive(Clone, Copy)]
pub enum Form {
    Short,
    Long,
}

#[derive(Clone, Copy)]
pub struct Run {
    // 0.001 pulse, whatever the record's form
    pub pulses: u64,
    pub prover: Side,
    pub meter: Side,
}

// What one side's readings make: CPL, the combined factor in 0.0001, the corrected volume in 0.0001 barrel.
#[derive(Clone, Copy)]
pub struct Corrected {
    pub cpl: u64,
    pub factor: u64,
    pub volume: u64,
}

// All of one run's figures, each rounded to 4 places.
#[derive(Clone, Copy)]
pub struct Figures {
    // indicated volume, 0.0001 barrel
    pub indicated: u64,
    pub cts: u64,
    pub cps: u64,
    pub prover: Corrected,
    pub meter: Corrected,
    // the run factor
    pub factor: u64,
}

// num / den at 4 places; a quotient by zero is 0, and no answer rests on it.
fn round(num: u64, den: u64) -> u64
    requires { num * 10000 < 2 ^ 64 }
    ensures { result ≡ rounded 4 (num over den) }
{
    exact::round_or_zero(num, 10000, den)
}

fn find_cpl(liquid: Liquid) -> u32
    requires { liquid_ok liquid ≡ true }
    ensures { (result ≡ cpl_at 4 liquid) × (result ≤ 20000) }
{
    factors::cpl(liquid, Places::Four).unwrap_or(0)
}

// A volume by the combined factor of up to four factors.
fn correct(volume: u64, cpl: u32, list: &[u32]) -> Corrected
    requires { (volume ≤ 100000000) × (length list.now ≤ 4) × (combined_at 4 list.now ≤ 160000) }
    ensures { (result ≡ corrected_by volume cpl list.now) × (result.volume ≤ 1600000000) }
{
    let factor = factors::combined_or_zero(factors::combine(list, Places::Four));
    Corrected {
        cpl: cpl as u64,
        factor,
        volume: round(volume * factor, 100000000),
    }
}

// The figures, once the indicated volume is known.
fn find_figures(prover: Prover, run: Run, indicated: u64) -> Figures
    requires { (prover_ok prover ≡ true) × (run_ok run ≡ true) × (indicated ≤ 100000000) }
    ensures { result ≡ figures_from prover run indicated }
{
    let metal = prover.metal;
    let pipe = prover.pipe;
    let proved = run.prover;
    let metered = run.meter;
    let cts = factors::cts(proved.temperature, metal, Places::Four).unwrap_or(0);
    let liquid = proved.liquid;
    let cps = factors::cps(liquid.pressure, pipe, Places::Four).unwrap_or(0);
    let cpl = find_cpl(liquid);
    let list = [cts, cps, proved.ctl as u32, cpl];
    let at_prover = correct(prover.base as u64, cpl, &list);
    let meter_liquid = metered.liquid;
    let meter_cpl = find_cpl(meter_liquid);
    let meter_list = [metered.ctl as u32, meter_cpl];
    let at_meter = correct(indicated, meter_cpl, &meter_list);
    Figures {
        indicated,
        cts: cts as u64,
        cps: cps as u64,
        prover: at_prover,
        meter: at_meter,
        factor: round(at_prover.volume, at_meter.volume),
    }
}

// 3, 4, 5: the prover's settings, K and the run's fields; `at` is the run's record, from 1. These four are what `work_out` takes: a struct of
// them would only be made there and taken apart in its two steps.
fn judge(prover: Prover, k: u32, run: Run, at: u16) -> Result<(), Refusal>
    ensures { fault_of result ≡ given_fault prover k run at }
{
    refusals::demand(factors::is_prover(prover), Refusal::ProverSetting)?;
    refusals::demand(ranges::is_k_factor(k as u64), Refusal::KFactorOrLimit)?;
    refusals::demand(records::is_run(run), Refusal::RecordField(at))
}

// The figures, and 7, then 8, on the rounded ones.
fn judge_figures(prover: Prover, k: u32, run: Run, at: u16) -> Result<Figures, Refusal>
    requires { (prover_ok prover ≡ true) × (k_factor_ok k ≡ true) × (run_ok run ≡ true) }
    ensures { told result ≡ figures_told prover k run at }
{
    let indicated = round(run.pulses, k as u64);
    refusals::demand(ranges::is_volume(indicated), Refusal::IndicatedVolume(at))?;
    let figures = find_figures(prover, run, indicated);
    refusals::demand(
        ranges::is_run_factor(figures.factor),
        Refusal::RunFactor(at),
    )?;
    Ok(figures)
}

// One run worked out; `at` is its record, from 1.
pub fn work_out(prover: Prover, k: u32, run: Run, at: u16) -> Result<Figures, Refusal>
    ensures { told result ≡ worked_of prover k run at }
{
    judge(prover, k, run, at)?;
    judge_figures(prover, k, run, at)
}

// One run's figures from its record alone, for a person to check.
pub fn show(prover: Prover, k: u32, form: Form, bytes: &[u8]) -> Result<Figures, Refusal>
    ensures { told result ≡ shown_of prover k form bytes.now }
{
    let run = records::decode(form, bytes, 0);
    let size = records::size(form);
    refusals::demand(bytes.len() == size, Refusal::Records)?;
    judge(prover, k, run, 1)?;
    refusals::demand(
        octets::are_zero(bytes, records::shift(form) + 24, size),
        Refusal::UnnamedByte(1),
    )?;
    judge_figures(prover, k, run, 1)
}
