// Run records moved between their two forms (02, 'Longer run records, and the way back'), over lent buffers: forward from 32 bytes to 48,
// and back. Every record is judged before any byte is written.
// Form and bytes stay two parameters: `run` reads a record by both, so that a pair of them would be taken apart at each call.
#![tactic(auto)]

ghost use Rattle.std.specs.Prelude.{◌≡◌, true, ℕ, ◌+◌, ◌*◌, ◌<◌, ◌≤◌, length};
ghost use Rattle.refusals.specs.Told.{left_by};
ghost use Rattle.octets.specs.FirstToLast.{scan};
ghost use Rattle.octets.specs.Octets.{quad_at, written_at};
ghost use Rattle.run.specs.Record.{size_of, run_at, run_ok};
ghost use Rattle.run.specs.declared.Form.TheVariants.{Short, Long};
ghost use Rattle.moving.specs.Moved.{lengthened, shortened, other, moved_at, moved_bytes};
ghost use Rattle.moving.specs.Judging.{lengths_ok, buffer_ok, move_fault, move_faults, move_of};
ghost use Rattle.refusals.specs.Answered.{fault_of, told};

use refusals::Refusal;
use run::Form;

// Twice the longer form's length is three times the shorter form's; where they are large the products might not fit.
fn are_lengths(long: usize, short: usize) -> bool
    ensures { result ≡ lengths_ok long short }
{
    long % 3 == 0 && long / 3 * 2 == short
}

// 14, by the form that is lent, its length and the buffer's.
fn is_buffer(form: Form, lent: usize, size: usize) -> bool
    ensures { result ≡ buffer_ok form lent size }
{
    match form {
        Form::Short => are_lengths(size, lent),
        Form::Long => are_lengths(lent, size),
    }
}

// 5, 2 and 36 of one record, counted from 0.
fn judge_record(form: Form, records: &[u8], i: usize) -> Result<(), Refusal>
    requires { i < 4096 }
    ensures { fault_of result ≡ move_fault form records.now i }
{
    let number = (i + 1) as u16;
    let run = run::records::decode(form, records, i);
    run::records::judge_record(form, records, i, number)?;
    refusals::demand(run.pulses % 1000 == 0, Refusal::NotWhole(number))
}

// The records, first to last.
fn judge_records(form: Form, records: &[u8], count: usize) -> Result<(), Refusal>
    requires { count ≤ 4096 }
    ensures { fault_of result ≡ scan (move_fault form records.now) count 0 }
{
    for i in 0..count {
        judge_record(form, records, i)?;
    }
    Ok(())
}

// 14, 1, and then the records; `size` is the buffer's.
fn judge(form: Form, records: &[u8], size: usize) -> Result<(), Refusal>
    ensures { fault_of result ≡ move_faults form records.now size }
{
    let lent = records.len();
    let one = run::records::size(form);
    refusals::demand(is_buffer(form, lent, size), Refusal::ReportBuffer)?;
    let whole = (lent % one == 0) & ranges::are_moved((lent / one) as u64);
    refusals::demand(whole, Refusal::Records)?;
    judge_records(form, records, lent / one)
}

// The long form of a short record, counted from 0, into its place.
fn lengthen(records: &[u8], i: usize, buffer: &mut [u8])
    requires { (i < 4096) × (32 * i + 32 ≤ length records.now) × (48 * i + 48 ≤ length buffer.old) }
    ensures { buffer.new ≡ written_at buffer.old (48 * i) (lengthened records.now i) }
{
    let from = 32 * i;
    let to = 48 * i;
    let pulses = octets::quad_bytes(octets::long_at(records, from) as u64 * 1000);
    let zeros = [0u8; 12];
    octets::write_at(&pulses, buffer, to);
    octets::write_at(&records[from + 4..from + 32], buffer, to + 8);
    octets::write_at(&zeros, buffer, to + 36);
}

// The short form of a long record whose count is whole and in range.
fn shorten(records: &[u8], i: usize, buffer: &mut [u8])
    requires { (i < 4096) × (48 * i + 48 ≤ length records.now) × (32 * i + 32 ≤ length buffer.old) × (quad_at records.now (48 * i) ≤ 100000000000) }
    ensures { buffer.new ≡ written_at buffer.old (32 * i) (shortened records.now i) }
{
    let from = 48 * i;
    let to = 32 * i;
    let pulses = octets::long_bytes((octets::quad_at(records, from) / 1000) as u32);
    octets::write_at(&pulses, buffer, to);
    octets::write_at(&records[from + 8..from + 36], buffer, to + 4);
}

// One record in the other form, into its place.
fn rewrite(form: Form, records: &[u8], i: usize, buffer: &mut [u8])
    requires { (i < 4096) × (size_of form * i + size_of form ≤ length records.now) × (size_of (other form) * i + size_of (other form) ≤ length buffer.old) × (run_ok (run_at form records.now i) ≡ true) }
    ensures { buffer.new ≡ written_at buffer.old (size_of (other form) * i) (moved_at form records.now i) }
{
    match form {
        Form::Short => lengthen(records, i, buffer),
        Form::Long => shorten(records, i, buffer),
    }
}

// The records, first to last, into a buffer that they fill.
fn write_all(form: Form, records: &[u8], count: usize, buffer: &mut [u8])
    requires { (count ≤ 4096) × (length records.now ≡ size_of form * count) × (length buffer.old ≡ size_of (other form) * count) × ((i : ℕ) → i < count → run_ok (run_at form records.now i) ≡ true) }
    ensures { buffer.new ≡ moved_bytes form records.now count }
{
    for place in 0..count {
        rewrite(form, records, place, buffer);
    }
}

// All that is lent, from its form to the other, or every byte of the buffer left as found.
fn move_records(form: Form, records: &[u8], buffer: &mut [u8]) -> Result<u16, Refusal>
    ensures answer { told result ≡ move_of form records.now (length buffer.old) }
    ensures left { buffer.new ≡ left_by (move_of form records.now (length buffer.old)) (moved_bytes form records.now) buffer.old }
{
    judge(form, records, buffer.len())?;
    let count = records.len() / run::records::size(form);
    write_all(form, records, count, buffer);
    Ok(count as u16)
}

// Short records into the long form: nothing is lost.
pub fn forward(records: &[u8], buffer: &mut [u8]) -> Result<u16, Refusal>
    ensures answer { told result ≡ move_of Short records.now (length buffer.old) }
    ensures left { buffer.new ≡ left_by (move_of Short records.now (length buffer.old)) (moved_bytes Short records.now) buffer.old }
{
    move_records(Form::Short, records, buffer)
}

// Long records into the short form, where every count is whole.
pub fn back(records: &[u8], buffer: &mut [u8]) -> Result<u16, Refusal>
    ensures answer { told result ≡ move_of Long records.now (length buffer.old) }
    ensures left { buffer.new ≡ left_by (move_of Long records.now (length buffer.old)) (moved_bytes Long records.now) buffer.old }
{
    move_records(Form::Long, records, buffer)
}
