// 01, 'Proving, by pipe prover', for C: each entry once for short run records, and once for long ones (02).
ghost use Rattle.std.specs.Prelude.{◌≡◌, length};
ghost use Rattle.refusals.specs.Told.{left_by};
ghost use Rattle.report.specs.Record.{bytes_of_report};
ghost use Rattle.run.specs.Answers.{shown_of};
ghost use Rattle.run.specs.declared.Form.TheVariants.{Short, Long};
ghost use Rattle.proving.specs.Job.{job_of, found_of};
ghost use Rattle.api.specs.Given.{prover_by};
ghost use Rattle.api.specs.Flat.{flat_report, flat_run, part_of};
ghost use Rattle.refusals.specs.Answered.{told};

use crate::outcome::give_back;
use crate::reports::EndakuroReport;
use crate::settings::EndakuroProver;
use crate::{reports, settings};
use refusals::Refusal;
use run::{Corrected, Figures, Form};

// A part of the lent records, in bytes; both are 0 where there is none.
#[repr(C)]
#[derive(Clone, Copy)]
pub struct EndakuroPart {
    pub start: usize,
    pub length: usize,
}

// One run's figures, at 4 places; volumes are in 0.0001 barrel.
#[repr(C)]
#[derive(Clone, Copy)]
pub struct EndakuroRun {
    pub number: u16,
    pub at: u16,
    pub indicated: u64,
    pub cts: u64,
    pub cps: u64,
    pub provercpl: u64,
    pub proverfactor: u64,
    pub metercpl: u64,
    pub meterproduct: u64,
    pub provervolume: u64,
    pub metervolume: u64,
    pub factor: u64,
}

// The job: its report is written into the lent 32 bytes, or every byte is left as found. K is in 0.001
// pulse per barrel, the limit in 1 in 10,000.
fn prove(
    form: Form,
    request: u32,
    prover: EndakuroProver,
    k: u32,
    limit: u16,
    records: &[u8],
    buffer: &mut [u8],
) -> EndakuroReport
    ensures answer { result ≡ flat_report (job_of request (prover_by prover) k limit form records.now (length buffer.old)) }
    ensures left { buffer.new ≡ left_by (job_of request (prover_by prover) k limit form records.now (length buffer.old)) bytes_of_report buffer.old }
{
    let settings = settings::take_up(prover);
    reports::flatten(proving::prove(request, settings, k, limit, form, records, buffer))
}

// A job of short records.
pub fn endakuro_prove(
    request: u32,
    prover: EndakuroProver,
    k: u32,
    limit: u16,
    records: &[u8],
    buffer: &mut [u8],
) -> EndakuroReport
    ensures answer { result ≡ flat_report (job_of request (prover_by prover) k limit Short records.now (length buffer.old)) }
    ensures left { buffer.new ≡ left_by (job_of request (prover_by prover) k limit Short records.now (length buffer.old)) bytes_of_report buffer.old }
{
    prove(Form::Short, request, prover, k, limit, records, buffer)
}

// A job of long records.
pub fn endakuro_prove_long(
    request: u32,
    prover: EndakuroProver,
    k: u32,
    limit: u16,
    records: &[u8],
    buffer: &mut [u8],
) -> EndakuroReport
    ensures answer { result ≡ flat_report (job_of request (prover_by prover) k limit Long records.now (length buffer.old)) }
    ensures left { buffer.new ≡ left_by (job_of request (prover_by prover) k limit Long records.now (length buffer.old)) bytes_of_report buffer.old }
{
    prove(Form::Long, request, prover, k, limit, records, buffer)
}

// The five accepted run records, as a part of the lent records; none, and no number, on refusal. The place
// is that of the report which the job would write.
fn accept(form: Form, prover: EndakuroProver, k: u32, limit: u16, records: &[u8]) -> EndakuroPart
    ensures { result ≡ part_of form (found_of (prover_by prover) k limit form records.now) }
{
    let settings = settings::take_up(prover);
    let size = run::records::size(form);
    let mut unread = [0u8; 32];
    let job = proving::prove(1, settings, k, limit, form, records, &mut unread);
    match job {
        Ok(report) => EndakuroPart {
            start: size * (report.first as usize - 1),
            length: 5 * size,
        },
        Err(_) => EndakuroPart {
            start: 0,
            length: 0,
        },
    }
}

// The accepted runs of a job of short records.
pub fn endakuro_accept(prover: EndakuroProver, k: u32, limit: u16, records: &[u8]) -> EndakuroPart
    ensures { result ≡ part_of Short (found_of (prover_by prover) k limit Short records.now) }
{
    accept(Form::Short, prover, k, limit, records)
}

// The accepted runs of a job of long records.
pub fn endakuro_accept_long(
    prover: EndakuroProver,
    k: u32,
    limit: u16,
    records: &[u8],
) -> EndakuroPart
    ensures { result ≡ part_of Long (found_of (prover_by prover) k limit Long records.now) }
{
    accept(Form::Long, prover, k, limit, records)
}

const NO_VOLUME: Corrected = Corrected {
    cpl: 0,
    factor: 0,
    volume: 0,
};

const NO_FIGURES: Figures = Figures {
    indicated: 0,
    cts: 0,
    cps: 0,
    prover: NO_VOLUME,
    meter: NO_VOLUME,
    factor: 0,
};

fn flatten_run(worked: Result<Figures, Refusal>) -> EndakuroRun
    ensures { result ≡ flat_run (told worked) }
{
    let given = give_back(worked);
    let figures = worked.unwrap_or(NO_FIGURES);
    let prover = figures.prover;
    let meter = figures.meter;
    EndakuroRun {
        number: given.number as u16,
        at: given.at,
        indicated: figures.indicated,
        cts: figures.cts,
        cps: figures.cps,
        provercpl: prover.cpl,
        proverfactor: prover.factor,
        metercpl: meter.cpl,
        meterproduct: meter.factor,
        provervolume: prover.volume,
        metervolume: meter.volume,
        factor: figures.factor,
    }
}

// One run's figures from its record alone.
fn show(form: Form, prover: EndakuroProver, k: u32, bytes: &[u8]) -> EndakuroRun
    ensures { result ≡ flat_run (shown_of (prover_by prover) k form bytes.now) }
{
    let settings = settings::take_up(prover);
    flatten_run(run::show(settings, k, form, bytes))
}

// One run from its short record.
pub fn endakuro_run(prover: EndakuroProver, k: u32, bytes: &[u8]) -> EndakuroRun
    ensures { result ≡ flat_run (shown_of (prover_by prover) k Short bytes.now) }
{
    show(Form::Short, prover, k, bytes)
}

// One run from its long record.
pub fn endakuro_run_long(prover: EndakuroProver, k: u32, bytes: &[u8]) -> EndakuroRun
    ensures { result ≡ flat_run (shown_of (prover_by prover) k Long bytes.now) }
{
    show(Form::Long, prover, k, bytes)
}
