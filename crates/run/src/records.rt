// The run record (01, 'Records') in its two forms (02, 'Longer run records'): its fields, and what a job and a move judge of it.
ghost use Rattle.std.specs.Prelude.{◌≡◌, ◌+◌, ◌*◌, ◌≤◌, min, length};
ghost use Rattle.run.specs.Record.{size_of, shift_of, pulses_at, side_from, fields_from, run_from, run_at, side_ok, run_ok};
ghost use Rattle.run.specs.Answers.{record_fault};
ghost use Rattle.refusals.specs.Answered.{fault_of};

use crate::{Form, Run, Side};
use factors::Liquid;
use refusals::Refusal;

// A record's length, in bytes.
pub fn size(form: Form) -> usize
    ensures { result ≡ size_of form }
{
    match form {
        Form::Short => 32,
        Form::Long => 48,
    }
}

// How much further on the long form has what stands behind the pulses.
pub(crate) fn shift(form: Form) -> usize
    ensures { result ≡ shift_of form }
{
    match form {
        Form::Short => 0,
        Form::Long => 4,
    }
}

// Where the record at a place begins, from 0; past the end, where its bytes read as 0, the end stands for it.
fn begin(form: Form, s: &[u8], i: usize) -> usize
    ensures { result ≡ min (size_of form * i) (length s.now) }
{
    size(form).saturating_mul(i).min(s.len())
}

// Thousandths of a pulse, in either form.
fn read_pulses(form: Form, s: &[u8], at: usize) -> u64
    ensures { result ≡ pulses_at form s.now at }
{
    match form {
        Form::Short => octets::long_at(s, at) as u64 * 1000,
        Form::Long => octets::quad_at(s, at),
    }
}

// One side's fields, from the byte of its temperature on: the meter's stand 2 bytes behind the prover's.
fn read_side(s: &[u8], at: usize) -> Side
    requires { at ≤ length s.now + 10 }
    ensures { result ≡ side_from s.now at }
{
    Side {
        temperature: octets::signed_at(s, at),
        ctl: octets::word_at(s, at + 8),
        liquid: Liquid {
            pressure: octets::word_at(s, at + 4),
            compressibility: octets::word_at(s, at + 12),
            equilibrium: octets::word_at(s, at + 16),
        },
    }
}

// The fields behind the pulses, from the byte from which 01 counts them.
fn read_fields(pulses: u64, s: &[u8], old: usize) -> Run
    requires { old ≤ length s.now + 4 }
    ensures { result ≡ fields_from pulses s.now old }
{
    Run {
        pulses,
        prover: read_side(s, old + 4),
        meter: read_side(s, old + 6),
    }
}

// The run record from a byte on.
fn read_run(form: Form, s: &[u8], at: usize) -> Run
    requires { at ≤ length s.now }
    ensures { result ≡ run_from form s.now at }
{
    let pulses = read_pulses(form, s, at);
    read_fields(pulses, s, at + shift(form))
}

// The run record at a place, from 0. Bytes past the end read as 0, and so does a record that begins there.
pub fn decode(form: Form, s: &[u8], i: usize) -> Run
    ensures { result ≡ run_at form s.now i }
{
    read_run(form, s, begin(form, s, i))
}

fn is_side(side: Side) -> bool
    ensures { result ≡ side_ok side }
{
    let liquid = side.liquid;
    ranges::is_temperature(side.temperature)
        & (ranges::is_ctl(side.ctl as u64) & factors::is_liquid(liquid))
}

// Every field of the run is in range.
pub(crate) fn is_run(run: Run) -> bool
    ensures { result ≡ run_ok run }
{
    let prover = run.prover;
    let meter = run.meter;
    ranges::are_pulses(run.pulses) & (is_side(prover) & is_side(meter))
}

// 5, then 2, of the record at a place, from 0; `number` is its own, from 1.
pub fn judge_record(form: Form, s: &[u8], i: usize, number: u16) -> Result<(), Refusal>
    ensures { fault_of result ≡ record_fault form s.now i number }
{
    let at = begin(form, s, i);
    let run = read_run(form, s, at);
    refusals::demand(is_run(run), Refusal::RecordField(number))?;
    refusals::demand(
        octets::are_zero(s, at + shift(form) + 24, at + size(form)),
        Refusal::UnnamedByte(number),
    )
}
