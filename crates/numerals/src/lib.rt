// The line program's decimal numbers (docs/LINES.md), read and printed.
#![tactic(auto)]

ghost use Rattle.std.specs.Prelude.{◌≡◌, ◌≤◌, Some};
ghost use Rattle.octets.specs.Octets.{written_at};
ghost use Rattle.words.specs.Written.{place_after};
ghost use Rattle.numerals.specs.Numbers.{digit_of, up_to, is_ill_led, number_of, negated, signed_of, printed};
ghost use Rattle.numerals.specs.Printed.{place_after_signed, written_signed};

// A decimal digit's number.
#[tactic(auto, unfolding(crate::specs::Numbers::digit_of, crate::specs::Numbers::up_to))]
fn value_digit(byte: u8) -> Option<u64>
    ensures { result ≡ up_to 9 (Some (digit_of byte)) }
{
    match byte {
        b'0'..=b'9' => Some((byte - b'0') as u64),
        _ => None,
    }
}

// No byte at all, or a zero before further digits.
#[tactic(auto, unfolding(crate::specs::Numbers::is_ill_led))]
fn is_ill_led(word: &[u8]) -> bool
    ensures { result ≡ is_ill_led word.now }
{
    matches!(word, [] | [b'0', _, ..])
}

// A whole number without leading zeros, up to the most that its operand holds.
#[tactic(auto, using(crate::proofs::Numbers::read))]
pub fn read_number(word: &[u8], most: u64) -> Option<u64>
    ensures { result ≡ number_of most word.now }
{
    if is_ill_led(word) {
        return None;
    }
    let mut value: u64 = 0;
    for byte in word {
        let digit = value_digit(*byte)?;
        value = value.checked_mul(10)?.checked_add(digit)?;
    }
    if most < value { None } else { Some(value) }
}

// No `-` stands before zero, and -32,768 is the least of 16 bits.
#[tactic(auto, unfolding(crate::specs::Numbers::negated))]
fn negate(size: u64) -> Option<i16>
    requires { size ≤ 32768 }
    ensures { result ≡ negated (Some size) }
{
    if size == 0 {
        None
    } else {
        Some(-(size as i32) as i16)
    }
}

// A whole number of 16 bits with a sign: `-` stands before one that is not zero.
#[tactic(auto, using(crate::proofs::Numbers::signed), unfolding(crate::specs::Numbers::as_it_is))]
pub fn read_signed(word: &[u8]) -> Option<i16>
    ensures { result ≡ signed_of word.now }
{
    if word.starts_with(b"-") {
        return negate(read_number(&word[1..], 32768)?);
    }
    Some(read_number(word, 32767)? as i16)
}

#[tactic(auto, using(crate::proofs::Printed::spelt))]
pub fn write_number(n: u64, out: &mut [u8], at: usize) -> usize
    ensures place { result ≡ place_after out.old at (printed n) }
    ensures left { out.new ≡ written_at out.old at (printed n) }
{
    let mut digits = [0u8; 20];
    let count = io::decimal(n, &mut digits);
    words::write_text(&digits[..count], out, at)
}

pub fn write_signed(n: i16, out: &mut [u8], at: usize) -> usize
    ensures place { result ≡ place_after_signed out.old at n }
    ensures left { out.new ≡ written_signed out.old at n }
{
    let size = n.unsigned_abs() as u64;
    if 0 <= n {
        return write_number(size, out, at);
    }
    let next = words::write_text(b"-", out, at);
    write_number(size, out, next)
}
