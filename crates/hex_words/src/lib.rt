// The line program's bytes as lower-case hex, and singles as eight hex digits (docs/LINES.md), read and printed.
#![tactic(auto)]

ghost use Rattle.std.specs.Prelude.{◌≡◌, ◌<◌, cond, leb, Some, None};
ghost use Rattle.io.specs.Counts.{IsPrefixLen};
ghost use Rattle.octets.specs.Octets.{written_at};
ghost use Rattle.words.specs.Written.{place_after};
ghost use Rattle.hex_words.specs.Hex.{hex_of, are_hex, is_dash, are_bytes, pair_of, bytes_of, is_single, single_of, glyph, hex_text, hex_word};

// A lower-case hex digit's number.
#[tactic(auto, unfolding(crate::specs::Hex::hex_of))]
fn value_hex(byte: u8) -> Option<u8>
    ensures { result ≡ cond (leb (hex_of byte) 15) (Some (hex_of byte)) None }
{
    match byte {
        b'0'..=b'9' => Some(byte - b'0'),
        b'a'..=b'f' => Some(byte - b'a' + 10),
        _ => None,
    }
}

fn are_hex(word: &[u8]) -> bool
    ensures { result ≡ are_hex word.now }
{
    word.iter().all(|byte| value_hex(*byte).is_some())
}

#[tactic(auto, unfolding(crate::specs::Hex::is_dash))]
fn is_dash(word: &[u8]) -> bool
    ensures { result ≡ is_dash word.now }
{
    matches!(word, [b'-'])
}

// Pairs of hex digits, at least one, or `-` for no bytes.
#[tactic(auto, unfolding(crate::specs::Hex::are_bytes))]
pub fn are_bytes(word: &[u8]) -> bool
    ensures { result ≡ are_bytes word.now }
{
    is_dash(word) || (!word.is_empty() && are_hex(word) && word.len() % 2 == 0)
}

// Two digits as one byte; 0 where one is no digit.
#[tactic(auto, unfolding(crate::specs::Hex::pair_of))]
fn join_hex(high: u8, low: u8) -> u8
    ensures { result ≡ pair_of (hex_of high) (hex_of low) }
{
    match (value_hex(high), value_hex(low)) {
        (Some(high), Some(low)) => 16 * high + low,
        _ => 0,
    }
}

// Writes the word's bytes over `into` from its start, and answers how many there are: none where the
// word is malformed or they do not fit. That, and the 0 of `read_single`, GrammarOutcome (promises) says of them by name.
#[tactic(auto, using(crate::proofs::Hex::bytes_none, crate::proofs::Hex::place_none, crate::proofs::Hex::written_none))]
pub fn read_bytes(word: &[u8], into: &mut [u8]) -> usize
    ensures counts { IsPrefixLen result into.new }
    ensures place { result ≡ place_after into.old 0 (bytes_of word.now) }
    ensures left { into.new ≡ written_at into.old 0 (bytes_of word.now) }
{
    if !are_bytes(word) {
        return 0;
    }
    let count = word.len() / 2;
    if into.len() < count {
        return 0;
    }
    for i in 0..count {
        into[i] = join_hex(word[2 * i], word[2 * i + 1]);
    }
    count
}

// Eight hex digits.
#[tactic(auto, unfolding(crate::specs::Hex::is_single))]
pub fn is_single(word: &[u8]) -> bool
    ensures { result ≡ is_single word.now }
{
    are_bytes(word) && word.len() == 8
}

// The 32 bits of a single, most significant digit first; 0 where the word is none.
pub fn read_single(word: &[u8]) -> u32
    ensures { result ≡ single_of word.now }
{
    if !is_single(word) {
        return 0;
    }
    let mut bytes = [0u8; 4];
    let _count = read_bytes(word, &mut bytes);
    u32::from_be_bytes(bytes)
}

#[tactic(auto, using(crate::proofs::Spelling::text_length, words::proofs::Written::place_not, octets::proofs::Laws::written_not))]
fn write_hex(bytes: &[u8], out: &mut [u8], at: usize) -> usize
    ensures place { result ≡ place_after out.old at (hex_text bytes.now) }
    ensures left { out.new ≡ written_at out.old at (hex_text bytes.now) }
{
    if out.len() < at {
        return at;
    }
    if (out.len() - at) / 2 < bytes.len() {
        return at;
    }
    for (i, byte) in bytes.iter().enumerate() {
        out[at + 2 * i] = spell_hex(*byte / 16);
        out[at + 2 * i + 1] = spell_hex(*byte % 16);
    }
    at + 2 * bytes.len()
}

#[tactic(auto, unfolding(crate::specs::Hex::glyph))]
fn spell_hex(digit: u8) -> u8
    requires { digit < 16 }
    ensures { result ≡ glyph digit }
{
    if digit < 10 { 48 + digit } else { 87 + digit }
}

#[tactic(auto, using(crate::proofs::Spelling::dash_word, crate::proofs::Spelling::text_word))]
pub fn write_bytes(bytes: &[u8], out: &mut [u8], at: usize) -> usize
    ensures place { result ≡ place_after out.old at (hex_word bytes.now) }
    ensures left { out.new ≡ written_at out.old at (hex_word bytes.now) }
{
    if bytes.is_empty() {
        return words::write_text(b"-", out, at);
    }
    write_hex(bytes, out, at)
}
