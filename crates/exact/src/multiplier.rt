// A product as by hand in base 2^32: each number is cut into two digits, and the four products of two
// digits are added column by column with their carries. Each word of the product is worked out from the
// columns by itself, since in that shape the compiler knows it for one machine multiplication.
ghost use Rattle.std.specs.Prelude.{◌≡◌, ◌+◌, ◌*◌, ◌/◌, ◌%◌, ◌^◌};

use crate::BASE;

// What the columns add up to, what is above a sum's digit being carried on: the lowest column, the middle
// one with its first product, and with its second.
#[derive(Clone, Copy)]
struct Columns {
    low: u64,
    middle: u64,
    next: u64,
}

fn add_up(a: u64, b: u64) -> Columns
    ensures { (result.low ≡ a % 2 ^ 32 * (b % 2 ^ 32)) × (result.middle ≡ a / 2 ^ 32 * (b % 2 ^ 32) + result.low / 2 ^ 32) × (result.next ≡ result.middle % 2 ^ 32 + a % 2 ^ 32 * (b / 2 ^ 32)) }
{
    let a0 = a % BASE;
    let b0 = b % BASE;
    let low = a0 * b0;
    let middle = a / BASE * b0 + low / BASE;
    let next = middle % BASE + a0 * (b / BASE);
    Columns { low, middle, next }
}

#[tactic(auto, using(crate::proofs::Columns::upper_word))]
pub(crate) fn upper_word(a: u64, b: u64) -> u64
    ensures { result ≡ a * b / 2 ^ 64 }
{
    let columns = add_up(a, b);
    a / BASE * (b / BASE) + columns.middle / BASE + columns.next / BASE
}

#[tactic(auto, using(crate::proofs::Columns::lower_word))]
pub(crate) fn lower_word(a: u64, b: u64) -> u64
    ensures { result ≡ a * b % 2 ^ 64 }
{
    let columns = add_up(a, b);
    columns.next % BASE * BASE + columns.low % BASE
}
