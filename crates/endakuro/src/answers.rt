// Answers' words that the library of lines does not write: those of an entry that only says `ok`, a number with a sign
// and a single; and the answer that may be a refusal.
use lines::answers::{add_bytes, refuse};
use refusals::Refusal;

pub(crate) fn say_done(out: &mut [u8]) -> usize {
    words::write_text(b"ok", out, 0)
}

// How long the answer is that was said, or the refusal's.
pub(crate) fn or_refuse(said: Result<usize, Refusal>, out: &mut [u8]) -> usize {
    match said {
        Ok(length) => length,
        Err(refusal) => refuse(refusal, out),
    }
}

pub(crate) fn add_signed(n: i16, out: &mut [u8], at: usize) -> usize {
    let next = words::write_text(b" ", out, at);
    numerals::write_signed(n, out, next)
}

// A NaN has many patterns, and no number's: any will do.
fn bits_of(single: f32) -> u32 {
    if single.is_nan() {
        return 2143289344;
    }
    single.to_bits()
}

// A single as its 32 bits, the most significant first.
pub(crate) fn add_single(single: f32, out: &mut [u8], at: usize) -> usize {
    add_bytes(&bits_of(single).to_be_bytes(), out, at)
}
