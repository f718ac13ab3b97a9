// The report record of a job (01, 'Records'): 32 bytes, written and read back.
#![tactic(auto)]

ghost use Rattle.std.specs.Prelude.{◌≡◌, length};
ghost use Rattle.refusals.specs.Told.{left_by};
ghost use Rattle.group.specs.Mean.{mean_of};
ghost use Rattle.report.specs.Record.{list_of, fields_of, bytes_of_report};
ghost use Rattle.report.specs.Judged.{factors_ok, job_ok, report_ok, write_of, read_of};
ghost use Rattle.refusals.specs.Answered.{told};

use refusals::Refusal;

// Five consecutive run factors, each in 0.0001: five fields and no array, since the theorems of promises name them.
#[derive(Clone, Copy)]
pub struct Factors {
    pub one: u16,
    pub two: u16,
    pub three: u16,
    pub four: u16,
    pub five: u16,
}

#[derive(Clone, Copy)]
pub struct Report {
    // request number
    pub number: u32,
    // job factor, in 0.0001
    pub factor: u16,
    // first run used, from 1
    pub first: u8,
    // runs in job
    pub runs: u8,
    pub factors: Factors,
}

// Writes the report of a job into the lent buffer: its factor is the mean of the five, rounded.
pub fn write(
    number: u32,
    runs: u8,
    first: u8,
    factors: Factors,
    buffer: &mut [u8],
) -> Result<Report, Refusal>
    ensures answer { told result ≡ write_of (length buffer.old) number runs first factors }
    ensures left { buffer.new ≡ left_by (write_of (length buffer.old) number runs first factors) bytes_of_report buffer.old }
{
    refusals::demand(buffer.len() == 32, Refusal::ReportBuffer)?;
    refusals::demand(number != 0, Refusal::NumberZero)?;
    refusals::demand(is_job(runs, first, factors), Refusal::NotReport)?;
    let report = Report {
        number,
        factor: mean(factors),
        first,
        runs,
        factors,
    };
    buffer.copy_from_slice(&lay_out(report));
    Ok(report)
}

// Reads a report back from its bytes.
pub fn read(bytes: &[u8]) -> Result<Report, Refusal>
    ensures { told result ≡ read_of bytes.now }
{
    refusals::demand(bytes.len() == 32, Refusal::ReportBuffer)?;
    let report = decode(bytes);
    refusals::demand(
        is_report(report) & octets::are_zero(bytes, 18, 32),
        Refusal::NotReport,
    )?;
    Ok(report)
}

// 01, 'Records': where each field stands.
fn decode(s: &[u8]) -> Report
    ensures { result ≡ fields_of s.now }
{
    let factors = Factors {
        one: octets::word_at(s, 8),
        two: octets::word_at(s, 10),
        three: octets::word_at(s, 12),
        four: octets::word_at(s, 14),
        five: octets::word_at(s, 16),
    };
    Report {
        number: octets::long_at(s, 0),
        factor: octets::word_at(s, 4),
        first: octets::byte_at(s, 6),
        runs: octets::byte_at(s, 7),
        factors,
    }
}

// 01, 'Records': the same places; bytes not named are zero. Copying each number to its place would be no plainer: here each byte is seen.
fn lay_out(r: Report) -> [u8; 32]
    ensures { result ≡ bytes_of_report r }
{
    let number = octets::long_bytes(r.number);
    let factor = octets::word_bytes(r.factor);
    let f = r.factors;
    let one = octets::word_bytes(f.one);
    let two = octets::word_bytes(f.two);
    let three = octets::word_bytes(f.three);
    let four = octets::word_bytes(f.four);
    let five = octets::word_bytes(f.five);
    [
        number[0], number[1], number[2], number[3], factor[0], factor[1], r.first, r.runs, one[0],
        one[1], two[0], two[1], three[0], three[1], four[0], four[1], five[0], five[1], 0, 0, 0, 0,
        0, 0, 0, 0, 0, 0, 0, 0, 0, 0,
    ]
}

// The five in their order.
fn list(f: Factors) -> [u64; 5]
    ensures { result ≡ list_of f }
{
    [
        f.one as u64,
        f.two as u64,
        f.three as u64,
        f.four as u64,
        f.five as u64,
    ]
}

// The mean of the five, rounded.
fn mean(f: Factors) -> u16
    ensures { result ≡ mean_of (list_of f) }
{
    group::mean(&list(f)) as u16
}

fn are_factors(f: Factors) -> bool
    ensures { result ≡ factors_ok (list_of f) }
{
    list(f).iter().all(|&factor| ranges::is_run_factor(factor))
}

// What the writer and the reader both judge: runs, first run and factors.
fn is_job(runs: u8, first: u8, factors: Factors) -> bool
    ensures { result ≡ job_ok runs first (list_of factors) }
{
    let last = first as u16 + 4;
    ranges::are_runs(runs as u64) & (((1 <= first) & (last <= runs as u16)) & are_factors(factors))
}

fn is_report(r: Report) -> bool
    ensures { result ≡ report_ok r }
{
    let factors = r.factors;
    (r.number != 0) & (is_job(r.runs, r.first, factors) & (r.factor == mean(factors)))
}
