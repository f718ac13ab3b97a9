// 01, 'Records', the report, for C.
ghost use Rattle.std.specs.Prelude.{◌≡◌, length};
ghost use Rattle.refusals.specs.Told.{left_by};
ghost use Rattle.report.specs.Record.{bytes_of_report};
ghost use Rattle.report.specs.Judged.{write_of, read_of};
ghost use Rattle.api.specs.Given.{factors_by};
ghost use Rattle.api.specs.Flat.{flat_report};

use api::reports::{EndakuroFactors, EndakuroReport};

// Writes the report of a job into the lent 32 bytes, or leaves every byte as found.
#[unsafe(no_mangle)]
pub extern "C" fn endakuro_write(
    request: u32,
    runs: u8,
    first: u8,
    factors: EndakuroFactors,
    buffer: &mut [u8],
) -> EndakuroReport
    ensures answer { result ≡ flat_report (write_of (length buffer.old) request runs first (factors_by factors)) }
    ensures left { buffer.new ≡ left_by (write_of (length buffer.old) request runs first (factors_by factors)) bytes_of_report buffer.old }
{
    api::reports::endakuro_write(request, runs, first, factors, buffer)
}

#[unsafe(no_mangle)]
pub extern "C" fn endakuro_read(bytes: &[u8]) -> EndakuroReport
    ensures { result ≡ flat_report (read_of bytes.now) }
{
    api::reports::endakuro_read(bytes)
}
