// Numbers in bytes, little-endian (01, 'Records'). Every read is total: a byte past the end reads as 0,
// so that a decoder above needs no test of its own.
#![tactic(auto)]

ghost use Rattle.std.specs.Prelude.{◌≡◌, ℕ, ◌+◌, ◌<◌, length, get_or};
ghost use Rattle.octets.specs.Octets.{byte_at, word_at, long_at, quad_at, signed_at, zero_between, bytes_of, written_at};

pub fn byte_at(s: &[u8], at: usize) -> u8
    ensures { result ≡ byte_at s.now at }
{
    s.get(at).copied().unwrap_or(0)
}

// Fewer than N bytes, and zeros behind them.
fn padded<const N: usize>(s: &[u8]) -> [u8; N]
    requires { length s.now < N }
    ensures { (k : ℕ) → k < N → get_or result k 0 ≡ get_or s.now k 0 }
{
    let mut bytes = [0; N];
    bytes[..s.len()].copy_from_slice(s);
    bytes
}

// The N bytes from `at` on, read at once where the slice has them all.
fn bytes_at<const N: usize>(s: &[u8], at: usize) -> [u8; N]
    ensures { (k : ℕ) → k < N → get_or result k 0 ≡ get_or s.now (at + k) 0 }
{
    let Some(rest) = s.get(at..) else {
        return [0; N];
    };
    match rest.first_chunk() {
        Some(bytes) => *bytes,
        None => padded(rest),
    }
}

pub fn word_at(s: &[u8], at: usize) -> u16
    ensures { result ≡ word_at s.now at }
{
    u16::from_le_bytes(bytes_at(s, at))
}

pub fn long_at(s: &[u8], at: usize) -> u32
    ensures { result ≡ long_at s.now at }
{
    u32::from_le_bytes(bytes_at(s, at))
}

pub fn quad_at(s: &[u8], at: usize) -> u64
    ensures { result ≡ quad_at s.now at }
{
    u64::from_le_bytes(bytes_at(s, at))
}

pub fn signed_at(s: &[u8], at: usize) -> i16
    ensures { result ≡ signed_at s.now at }
{
    word_at(s, at).cast_signed()
}

// The bytes from a on, up to but not including b, are zero. The search ends at the slice's own end,
// since past it every byte reads as 0.
pub fn are_zero(s: &[u8], a: usize, b: usize) -> bool
    ensures { result ≡ zero_between s.now a b }
{
    let end = b.min(s.len());
    end <= a || s[a..end].iter().all(|byte| *byte == 0)
}

pub fn word_bytes(x: u16) -> [u8; 2]
    ensures { result ≡ bytes_of 2 x }
{
    u16::to_le_bytes(x)
}

pub fn long_bytes(x: u32) -> [u8; 4]
    ensures { result ≡ bytes_of 4 x }
{
    u32::to_le_bytes(x)
}

pub fn quad_bytes(x: u64) -> [u8; 8]
    ensures { result ≡ bytes_of 8 x }
{
    u64::to_le_bytes(x)
}

// Writes the bytes over `to` from `at` on, all of them, or none where they do not fit.
pub fn write_at(bytes: &[u8], to: &mut [u8], at: usize)
    ensures { to.new ≡ written_at to.old at bytes.now }
{
    if at <= to.len() && bytes.len() <= to.len() - at {
        to[at..at + bytes.len()].copy_from_slice(bytes);
    }
}
