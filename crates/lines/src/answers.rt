// The line program's answers (docs/LINES.md), written piece by piece; each function gives the place after what it wrote.
ghost use Rattle.std.specs.Prelude.{◌≡◌, [], ◌∷◌};
ghost use Rattle.lines.specs.Answers.{place_all, written_all, numbers_spelt, bytes_spelt, ok_spelt, refused_spelt};

use refusals::Refusal;

fn add_number(n: u64, out: &mut [u8], at: usize) -> usize
    ensures place { result ≡ place_all out.old at (numbers_spelt (n ∷ [])) }
    ensures left { out.new ≡ written_all out.old at (numbers_spelt (n ∷ [])) }
{
    let next = words::write_text(b" ", out, at);
    numerals::write_number(n, out, next)
}

// The values, each behind a space.
pub fn add_numbers(numbers: &[u64], out: &mut [u8], from: usize) -> usize
    ensures place { result ≡ place_all out.old from (numbers_spelt numbers.now) }
    ensures left { out.new ≡ written_all out.old from (numbers_spelt numbers.now) }
{
    let mut at = from;
    for n in numbers {
        at = add_number(*n, out, at);
    }
    at
}

// The bytes in hex, behind a space.
pub fn add_bytes(bytes: &[u8], out: &mut [u8], at: usize) -> usize
    ensures place { result ≡ place_all out.old at (bytes_spelt bytes.now) }
    ensures left { out.new ≡ written_all out.old at (bytes_spelt bytes.now) }
{
    let first = words::write_text(b" ", out, at);
    hex_words::write_bytes(bytes, out, first)
}

// `ok` and the values, from the start.
pub fn say_ok(numbers: &[u64], out: &mut [u8]) -> usize
    ensures place { result ≡ place_all out.old 0 (ok_spelt numbers.now) }
    ensures left { out.new ≡ written_all out.old 0 (ok_spelt numbers.now) }
{
    let at = words::write_text(b"ok", out, 0);
    add_numbers(numbers, out, at)
}

// `refused`, the table's number and the record, from the start.
pub fn refuse(refusal: Refusal, out: &mut [u8]) -> usize
    ensures place { result ≡ place_all out.old 0 (refused_spelt refusal) }
    ensures left { out.new ≡ written_all out.old 0 (refused_spelt refusal) }
{
    let given = refusals::give_back(refusal);
    let at = words::write_text(b"refused", out, 0);
    add_numbers(&[given.number as u64, given.at as u64], out, at)
}
