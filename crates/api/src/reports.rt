// 01, 'Records', the report, for C.
ghost use Rattle.std.specs.Prelude.{◌≡◌, length};
ghost use Rattle.refusals.specs.Told.{left_by};
ghost use Rattle.report.specs.Record.{bytes_of_report};
ghost use Rattle.report.specs.Judged.{write_of, read_of};
ghost use Rattle.api.specs.Given.{factors_by};
ghost use Rattle.api.specs.Flat.{flat_report};
ghost use Rattle.refusals.specs.Answered.{told};

use crate::outcome::give_back;
use refusals::Refusal;
use report::{Factors, Report};

// Five consecutive run factors, in 0.0001.
#[repr(C)]
#[derive(Clone, Copy)]
pub struct EndakuroFactors {
    pub f1: u16,
    pub f2: u16,
    pub f3: u16,
    pub f4: u16,
    pub f5: u16,
}

#[repr(C)]
#[derive(Clone, Copy)]
pub struct EndakuroReport {
    pub number: u16,
    pub at: u16,
    // request number
    pub request: u32,
    // job factor, in 0.0001
    pub factor: u16,
    // first run used, from 1
    pub first: u8,
    // runs in job
    pub runs: u8,
    // the five factors used, in 0.0001
    pub f1: u16,
    pub f2: u16,
    pub f3: u16,
    pub f4: u16,
    pub f5: u16,
}

const NO_REPORT: Report = Report {
    number: 0,
    factor: 0,
    first: 0,
    runs: 0,
    factors: Factors {
        one: 0,
        two: 0,
        three: 0,
        four: 0,
        five: 0,
    },
};

pub(crate) fn flatten(answer: Result<Report, Refusal>) -> EndakuroReport
    ensures { result ≡ flat_report (told answer) }
{
    let given = give_back(answer);
    let report = answer.unwrap_or(NO_REPORT);
    let used = report.factors;
    EndakuroReport {
        number: given.number as u16,
        at: given.at,
        request: report.number,
        factor: report.factor,
        first: report.first,
        runs: report.runs,
        f1: used.one,
        f2: used.two,
        f3: used.three,
        f4: used.four,
        f5: used.five,
    }
}

// Writes the report of a job into the lent 32 bytes, or leaves every byte as found.
pub fn endakuro_write(
    request: u32,
    runs: u8,
    first: u8,
    factors: EndakuroFactors,
    buffer: &mut [u8],
) -> EndakuroReport
    ensures answer { result ≡ flat_report (write_of (length buffer.old) request runs first (factors_by factors)) }
    ensures left { buffer.new ≡ left_by (write_of (length buffer.old) request runs first (factors_by factors)) bytes_of_report buffer.old }
{
    let five = Factors {
        one: factors.f1,
        two: factors.f2,
        three: factors.f3,
        four: factors.f4,
        five: factors.f5,
    };
    flatten(report::write(request, runs, first, five, buffer))
}

pub fn endakuro_read(bytes: &[u8]) -> EndakuroReport
    ensures { result ≡ flat_report (read_of bytes.now) }
{
    flatten(report::read(bytes))
}
