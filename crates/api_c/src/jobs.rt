// 01, 'Proving, by pipe prover', for C: each entry once for short run records, and once for long ones (02).
ghost use Rattle.std.specs.Prelude.{◌≡◌, length};
ghost use Rattle.refusals.specs.Told.{left_by};
ghost use Rattle.report.specs.Record.{bytes_of_report};
ghost use Rattle.run.specs.Answers.{shown_of};
ghost use Rattle.run.specs.declared.Form.TheVariants.{Short, Long};
ghost use Rattle.proving.specs.Job.{job_of, found_of};
ghost use Rattle.api.specs.Given.{prover_by};
ghost use Rattle.api.specs.Flat.{flat_report, flat_run, part_of};

use api::jobs::{EndakuroPart, EndakuroRun};
use api::reports::EndakuroReport;
use api::settings::EndakuroProver;

// A job of short records.
#[unsafe(no_mangle)]
pub extern "C" fn endakuro_prove(
    request: u32,
    prover: EndakuroProver,
    k: u32,
    limit: u16,
    records: &[u8],
    buffer: &mut [u8],
) -> EndakuroReport
    ensures answer { result ≡ flat_report (job_of request (prover_by prover) k limit Short records.now (length buffer.old)) }
    ensures left { buffer.new ≡ left_by (job_of request (prover_by prover) k limit Short records.now (length buffer.old)) bytes_of_report buffer.old }
{
    api::jobs::endakuro_prove(request, prover, k, limit, records, buffer)
}

// A job of long records.
#[unsafe(no_mangle)]
pub extern "C" fn endakuro_prove_long(
    request: u32,
    prover: EndakuroProver,
    k: u32,
    limit: u16,
    records: &[u8],
    buffer: &mut [u8],
) -> EndakuroReport
    ensures answer { result ≡ flat_report (job_of request (prover_by prover) k limit Long records.now (length buffer.old)) }
    ensures left { buffer.new ≡ left_by (job_of request (prover_by prover) k limit Long records.now (length buffer.old)) bytes_of_report buffer.old }
{
    api::jobs::endakuro_prove_long(request, prover, k, limit, records, buffer)
}

// The accepted runs of a job of short records.
#[unsafe(no_mangle)]
pub extern "C" fn endakuro_accept(
    prover: EndakuroProver,
    k: u32,
    limit: u16,
    records: &[u8],
) -> EndakuroPart
    ensures { result ≡ part_of Short (found_of (prover_by prover) k limit Short records.now) }
{
    api::jobs::endakuro_accept(prover, k, limit, records)
}

// The accepted runs of a job of long records.
#[unsafe(no_mangle)]
pub extern "C" fn endakuro_accept_long(
    prover: EndakuroProver,
    k: u32,
    limit: u16,
    records: &[u8],
) -> EndakuroPart
    ensures { result ≡ part_of Long (found_of (prover_by prover) k limit Long records.now) }
{
    api::jobs::endakuro_accept_long(prover, k, limit, records)
}

// One run from its short record.
#[unsafe(no_mangle)]
pub extern "C" fn endakuro_run(prover: EndakuroProver, k: u32, bytes: &[u8]) -> EndakuroRun
    ensures { result ≡ flat_run (shown_of (prover_by prover) k Short bytes.now) }
{
    api::jobs::endakuro_run(prover, k, bytes)
}

// One run from its long record.
#[unsafe(no_mangle)]
pub extern "C" fn endakuro_run_long(prover: EndakuroProver, k: u32, bytes: &[u8]) -> EndakuroRun
    ensures { result ≡ flat_run (shown_of (prover_by prover) k Long bytes.now) }
{
    api::jobs::endakuro_run_long(prover, k, bytes)
}
