// Judging a number by its range of the paper (01, 'Units and ranges'), a function for each quantity of the
// table (specs/Table.antt): an end of a range stands in its function and nowhere else in the code. Quantities
// with the same ends have a function each, since each is a row of the table, which its contract names.
#![tactic(auto, unfolding(crate::specs::Table::temperature_ok, crate::specs::Table::draw_prover_ok, crate::specs::Table::draw_measure_ok, crate::specs::Table::pressure_ok, crate::specs::Table::coefficient_ok, crate::specs::Table::modulus_ok, crate::specs::Table::diameter_ok, crate::specs::Table::wall_ok, crate::specs::Table::compressibility_ok, crate::specs::Table::ctl_ok, crate::specs::Table::run_factor_ok, crate::specs::Table::ctdw_ok, crate::specs::Table::volume_ok, crate::specs::Table::pulses_ok, crate::specs::Table::k_factor_ok, crate::specs::Table::limit_ok, crate::specs::Table::runs_ok, crate::specs::Table::passes_ok, crate::specs::Table::paired_passes_ok, crate::specs::Table::fills_ok, crate::specs::Table::certified_ok, crate::specs::Table::scale_ok, crate::specs::Table::reading_ok, crate::specs::Table::meter_factor_ok, crate::specs::Table::sediment_ok, crate::specs::Table::gravity_ok, crate::specs::Table::entries_ok, crate::specs::Table::moved_ok))]

ghost use Rattle.std.specs.Prelude.{◌≡◌};
ghost use Rattle.ranges.specs.Table.{temperature_ok, draw_prover_ok, draw_measure_ok, pressure_ok, coefficient_ok, modulus_ok, diameter_ok, wall_ok, compressibility_ok, ctl_ok, run_factor_ok, ctdw_ok, volume_ok, pulses_ok, k_factor_ok, limit_ok, runs_ok, passes_ok, paired_passes_ok, fills_ok, certified_ok, scale_ok, reading_ok, meter_factor_ok, sediment_ok, gravity_ok, entries_ok, moved_ok};

// Prover and meter temperature, 0.1 °F.
pub fn is_temperature(t: i16) -> bool
    ensures { result ≡ temperature_ok t }
{
    (-200..=2000).contains(&t)
}

// Water draw: the prover's temperature, 0.1 °F.
pub fn is_draw_prover(t: i16) -> bool
    ensures { result ≡ draw_prover_ok t }
{
    (350..=1050).contains(&t)
}

// Water draw: the measure's temperature, 0.1 °F.
pub fn is_draw_measure(t: i16) -> bool
    ensures { result ≡ draw_measure_ok t }
{
    (321..=1050).contains(&t)
}

// Pressure, psi gage.
pub fn is_pressure(p: u64) -> bool
    ensures { result ≡ pressure_ok p }
{
    (0..=1500).contains(&p)
}

// Cubical coefficient, 10^-7 per °F.
pub fn is_coefficient(gc: u64) -> bool
    ensures { result ≡ coefficient_ok gc }
{
    (100..=400).contains(&gc)
}

// Modulus E, psi.
pub fn is_modulus(e: u64) -> bool
    ensures { result ≡ modulus_ok e }
{
    (10000000..=40000000).contains(&e)
}

// Inside diameter ID, 0.001 inch.
pub fn is_diameter(id: u64) -> bool
    ensures { result ≡ diameter_ok id }
{
    (1000..=60000).contains(&id)
}

// Wall WT, 0.001 inch.
pub fn is_wall(wt: u64) -> bool
    ensures { result ≡ wall_ok wt }
{
    (100..=3000).contains(&wt)
}

// Compressibility F, 10^-8 per psi.
pub fn is_compressibility(f: u64) -> bool
    ensures { result ≡ compressibility_ok f }
{
    (0..=10000).contains(&f)
}

// CTL, 0.0001.
pub fn is_ctl(ctl: u64) -> bool
    ensures { result ≡ ctl_ok ctl }
{
    (5000..=15000).contains(&ctl)
}

// Run factor, 0.0001.
pub fn is_run_factor(factor: u64) -> bool
    ensures { result ≡ run_factor_ok factor }
{
    (8000..=12000).contains(&factor)
}

// CTDW, 0.000001.
pub fn is_ctdw(ctdw: u64) -> bool
    ensures { result ≡ ctdw_ok ctdw }
{
    (980000..=1020000).contains(&ctdw)
}

// Base and indicated volume, 0.0001 barrel.
pub fn is_volume(volume: u64) -> bool
    ensures { result ≡ volume_ok volume }
{
    (1..=100000000).contains(&volume)
}

// Pulses, 0.001 pulse.
pub fn are_pulses(pulses: u64) -> bool
    ensures { result ≡ pulses_ok pulses }
{
    (1000..=100000000000).contains(&pulses)
}

// K factor, 0.001 pulse per barrel.
pub fn is_k_factor(k: u64) -> bool
    ensures { result ≡ k_factor_ok k }
{
    (1..=1000000000).contains(&k)
}

// Repeatability limit, 1 in 10,000.
pub fn is_limit(limit: u64) -> bool
    ensures { result ≡ limit_ok limit }
{
    (1..=100).contains(&limit)
}

// Runs in a job.
pub fn are_runs(runs: u64) -> bool
    ensures { result ≡ runs_ok runs }
{
    (5..=20).contains(&runs)
}

// Passes in a draw.
pub fn are_passes(passes: u64) -> bool
    ensures { result ≡ passes_ok passes }
{
    (3..=20).contains(&passes)
}

// Passes in a draw of a bidirectional prover.
pub fn are_paired_passes(passes: u64) -> bool
    ensures { result ≡ paired_passes_ok passes }
{
    (6..=20).contains(&passes)
}

// Fills in a draw.
pub fn are_fills(fills: u64) -> bool
    ensures { result ≡ fills_ok fills }
{
    (3..=60).contains(&fills)
}

// Certified volume, 0.01 cubic inch.
pub fn is_certified(volume: u64) -> bool
    ensures { result ≡ certified_ok volume }
{
    (20000..=100000000).contains(&volume)
}

// Scale reading, 0.01 cubic inch.
pub fn is_scale(scale: i16) -> bool
    ensures { result ≡ scale_ok scale }
{
    (-10000..=10000).contains(&scale)
}

// A meter's reading, 0.01 barrel.
pub fn is_reading(reading: u64) -> bool
    ensures { result ≡ reading_ok reading }
{
    (0..=99999999).contains(&reading)
}

// The supplied meter factor, 0.0001.
pub fn is_meter_factor(mf: u64) -> bool
    ensures { result ≡ meter_factor_ok mf }
{
    (8000..=12000).contains(&mf)
}

// Sediment and water S, 0.001 %.
pub fn is_sediment(s: u64) -> bool
    ensures { result ≡ sediment_ok s }
{
    (0..=100000).contains(&s)
}

// API gravity, 0.1 °API.
pub fn is_gravity(gravity: u64) -> bool
    ensures { result ≡ gravity_ok gravity }
{
    (0..=900).contains(&gravity)
}

// Entries of a table of compressibility.
pub fn are_entries(entries: u64) -> bool
    ensures { result ≡ entries_ok entries }
{
    (1..=4096).contains(&entries)
}

// Records of a file to be moved.
pub fn are_moved(records: u64) -> bool
    ensures { result ≡ moved_ok records }
{
    (1..=4096).contains(&records)
}
